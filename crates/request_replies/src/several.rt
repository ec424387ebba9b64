// The texts of several things in one reply: what several searches found, and the values of an attribute.
ghost use Rattle.std.specs.Prelude.{◌≡◌, ◌++◌, ◌∷◌, IfOk, OnOk, List, map, string_bytes, false};
ghost use Rattle.std.specs.Option.{option_copied};
ghost use Rattle.serde_json.specs.Data.{Data, array};
ghost use Rattle.serde_json.specs.View.{items_of};
ghost use Rattle.serde_json.specs.Written.{compact_text};
ghost use Rattle.request_replies.specs.Replies.{joined, results_data, facet_hit, facet_hits_data, text_or_null};

use crate::result::ResultText;
use facet_counts::CountRow;
use search_base::{NoMemory, Word};
use search_replies::{put_comma, quoted_text};
use std::alloc::Global;

/// What several searches found, in their order.
pub(crate) fn results_text(alloc: Global, results: &[ResultText]) -> Result<String, NoMemory>
    ensures { IfOk result (λ text. (ds : List Data) → results.now ≡ map compact_text ds
        → string_bytes text ≡ compact_text (results_data ds)) }
{
    let mut text = String::from_str(alloc, "{\"results\":")?;
    put_results(&mut text, results)?;
    text.push_str("}")?;
    Ok(text)
}

fn put_results(text: &mut String, results: &[ResultText]) -> Result<(), NoMemory>
    ensures { OnOk result (string_bytes text.new ≡ string_bytes text.old ++ 91 ∷ joined false results.now) }
{
    text.push_str("[")?;
    let mut later = false;
    for result in results {
        put_comma(text, later)?;
        text.push_str(result.as_str())?;
        later = true;
    }
    text.push_str("]")?;
    Ok(())
}

/// The values of an attribute that are found by a text, if by one.
pub(crate) fn facet_hits_text(
    alloc: Global,
    query: Option<&Word>,
    rows: &[CountRow],
) -> Result<String, NoMemory>
    ensures { IfOk result (λ text. string_bytes text
        ≡ compact_text (facet_hits_data (option_copied query.entry) rows.now)) }
{
    let mut text = String::from_str(alloc, "{\"facetHits\":")?;
    put_facet_hits(alloc, &mut text, rows)?;
    let query = text_or_null(alloc, query)?;
    let rest = format!(in alloc; ",\"facetQuery\":{query}}}")?;
    text.push_str(&rest)?;
    Ok(text)
}

fn put_facet_hits(alloc: Global, text: &mut String, rows: &[CountRow]) -> Result<(), NoMemory>
    ensures { OnOk result (string_bytes text.new
        ≡ string_bytes text.old ++ compact_text (array (items_of (map facet_hit rows.now)))) }
{
    text.push_str("[")?;
    let mut later = false;
    for row in rows {
        put_comma(text, later)?;
        put_facet_hit(alloc, text, row)?;
        later = true;
    }
    text.push_str("]")?;
    Ok(())
}

fn put_facet_hit(alloc: Global, text: &mut String, row: &CountRow) -> Result<(), NoMemory>
    ensures { OnOk result (string_bytes text.new ≡ string_bytes text.old ++ compact_text (facet_hit row.now)) }
{
    let value = quoted_text(alloc, row.shown.as_str())?;
    let count = row.count;
    let hit = format!(in alloc; "{{\"count\":{count},\"value\":{value}}}")?;
    text.push_str(&hit)?;
    Ok(())
}

fn text_or_null(alloc: Global, text: Option<&Word>) -> Result<String, NoMemory>
    ensures { IfOk result (λ json. string_bytes json ≡ compact_text (text_or_null (option_copied text.entry))) }
{
    match text {
        Some(text) => quoted_text(alloc, text.as_str()),
        None => Ok(String::from_str(alloc, "null")?),
    }
}
