ghost use Rattle.std.specs.Prelude.{◌≡◌, IfOk};
ghost use Rattle.serde_json.specs.View.{view as data_of, members_view};
ghost use Rattle.index_settings.specs.Values.{texts_in, synonyms_in, member_synonyms};
ghost use Rattle.index_settings.specs.Limits.{AreInOrder};

use crate::texts::texts_of;
use search_base::{NoMemory, Word};
use serde_json::{Map, Value};
use std::alloc::Global;
use std::marker::Model;

/// A text, and the texts that may stand for it.
#[derive(Debug, Drop)]
pub struct SynonymList {
    pub key: Word,
    pub texts: Vec<Word>,
}

impl Model for SynonymList {
    ghost use Rattle.index_settings.specs.View.{SynonymView};

    ghost Value = { SynonymView };

    ghost view = { λ list. record { key = list.key; texts = list.texts.items } };
}

/// The synonyms that an object holds; of another value none.
pub(crate) fn synonyms_of(alloc: Global, value: &Value) -> Result<Vec<SynonymList>, NoMemory>
    ensures lists { IfOk result (λ lists. lists.items ≡ synonyms_in (data_of value.now)) }
    ensures in_order { IfOk result (λ lists. AreInOrder lists.items) }
{
    match value {
        Value::Object(members) => synonyms_of_members(alloc, members),
        _ => Ok(Vec::new(alloc)),
    }
}

fn synonyms_of_members(
    alloc: Global,
    members: &Map<String, Value>,
) -> Result<Vec<SynonymList>, NoMemory>
    ensures lists { IfOk result (λ lists. lists.items ≡ member_synonyms (members_view members.now.entries)) }
    ensures in_order { IfOk result (λ lists. AreInOrder lists.items) }
{
    let mut lists = Vec::new(alloc);
    for (key, value) in members.iter() {
        lists.push(synonym_list(alloc, key.as_str(), value)?)?;
    }
    Ok(lists)
}

fn synonym_list(alloc: Global, key: &str, value: &Value) -> Result<SynonymList, NoMemory>
    ensures { IfOk result (λ list. list ≡ record { key = key.now; texts = texts_in (data_of value.now) }) }
{
    Ok(SynonymList {
        key: Word::new(alloc, key)?,
        texts: texts_of(alloc, value)?,
    })
}
