ghost use Rattle.std.specs.Prelude.{◌≡◌, IfOk};
ghost use Rattle.std.specs.List.{filter_map};
ghost use Rattle.doc_rows.specs.Texts.{leaf_text};

use doc_values::Flat;
use search_base::{NoMemory, Word};
use std::alloc::Global;

/// The texts of the leaves among the values of a path, in order.
pub fn texts(alloc: Global, values: &[Flat]) -> Result<Vec<Word>, NoMemory>
    ensures { IfOk result (λ texts. texts.items ≡ filter_map leaf_text values.now) }
{
    let mut texts = Vec::new(alloc);
    for value in values {
        if let Some(text) = leaf_text(alloc, value)? {
            texts.push(text)?;
        }
    }
    Ok(texts)
}

/// The text of a leaf. A mark is none.
pub fn leaf_text(alloc: Global, value: &Flat) -> Result<Option<Word>, NoMemory>
    ensures { IfOk result (λ text. text ≡ leaf_text value.now) }
{
    match value {
        Flat::Text(text) => Ok(Some(text.clone()?)),
        Flat::Number(number) => Ok(Some(Word::from_string(number.to_string(alloc)?)?)),
        Flat::Bool(truth) => {
            let name = if *truth { "true" } else { "false" };
            Ok(Some(Word::new(alloc, name)?))
        }
        Flat::Mark(_) => Ok(None),
    }
}
