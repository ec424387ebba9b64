// The counts of values, printed.
ghost use Rattle.std.specs.Prelude.{◌≡◌, ◌++◌, ◌∷◌, IfOk, OnOk, fold, string_bytes, false};
ghost use Rattle.std.specs.Option.{option_copied};
ghost use Rattle.json.specs.Print.{quoted};
ghost use Rattle.serde_json.specs.Data.{Members, no_members};
ghost use Rattle.serde_json.specs.View.{view, members_view};
ghost use Rattle.serde_json.specs.Written.{compact_text, members_text};
ghost use Rattle.request_replies.specs.Facets.{counts_data, with_counts, distribution_data, with_stats, ends_data, ends_members, stats_data, facet_members};

use facet_counts::{CountRow, FacetReply};
use search_base::{NoMemory, Word};
use search_replies::{put_comma, quoted_text};
use serde_json::{Map, Value};
use std::alloc::Global;
use std::collections::BTreeMap;

/// Puts the counts as two members of an object, where there are counts. Says whether something stands before what comes
/// next in the object.
pub(crate) fn put_facets(
    alloc: Global,
    text: &mut String,
    later: bool,
    facets: Option<&[FacetReply]>,
) -> Result<bool, NoMemory>
    ensures { IfOk result (λ after. (rest : Members)
        → string_bytes text.new ++ members_text after rest
        ≡ string_bytes text.old ++ members_text later (facet_members (option_copied facets.entry) rest)) }
{
    let Some(facets) = facets else {
        return Ok(later);
    };
    put_comma(text, later)?;
    let distribution = distribution_text(alloc, facets)?;
    let stats = stats_text(alloc, facets)?;
    let both = format!(in alloc; "\"facetDistribution\":{distribution},\"facetStats\":{stats}")?;
    text.push_str(&both)?;
    Ok(true)
}

fn distribution_text(alloc: Global, facets: &[FacetReply]) -> Result<String, NoMemory>
    ensures { IfOk result (λ text. string_bytes text ≡ compact_text (distribution_data facets.now)) }
{
    let value = distribution_value(alloc, facets)?;
    Ok(value.to_string(alloc)?)
}

fn distribution_value(alloc: Global, facets: &[FacetReply]) -> Result<Value, NoMemory>
    ensures { IfOk result (λ value. view value ≡ distribution_data facets.now) }
{
    let mut members = Map::new(alloc);
    for facet in facets {
        put_counts(alloc, &mut members, facet)?;
    }
    Ok(Value::Object(members))
}

// Puts the counts of an attribute among those of others.
fn put_counts(
    alloc: Global,
    members: &mut Map<String, Value>,
    facet: &FacetReply,
) -> Result<(), NoMemory>
    ensures { OnOk result (members_view members.new.entries
        ≡ with_counts (members_view members.old.entries) facet.now) }
{
    let counts = counts_value(alloc, &facet.rows)?;
    serde_json::put(members, alloc, facet.attribute.as_str(), counts)?;
    Ok(())
}

fn counts_value(alloc: Global, rows: &[CountRow]) -> Result<Value, NoMemory>
    ensures { IfOk result (λ value. view value ≡ counts_data rows.now) }
{
    let mut members = Map::new(alloc);
    for row in rows {
        serde_json::put(
            &mut members,
            alloc,
            row.shown.as_str(),
            Value::from(row.count),
        )?;
    }
    Ok(Value::Object(members))
}

// The stats may be greater than the numbers of a `Value`, so they are printed one by one.
fn stats_text(alloc: Global, facets: &[FacetReply]) -> Result<String, NoMemory>
    ensures { IfOk result (λ text. string_bytes text ≡ compact_text (stats_data facets.now)) }
{
    let stats = stats_by_attribute(alloc, facets)?;
    let mut text = String::from_str(alloc, "{")?;
    put_stats(alloc, &mut text, &stats)?;
    Ok(text)
}

fn stats_by_attribute(
    alloc: Global,
    facets: &[FacetReply],
) -> Result<BTreeMap<Word, (i128, i128)>, NoMemory>
    ensures { IfOk result (λ stats. ends_members stats.entries ≡ fold with_stats no_members facets.now) }
{
    let mut stats = BTreeMap::new(alloc);
    for facet in facets {
        add_stats(&mut stats, facet)?;
    }
    Ok(stats)
}

// Adds the stats of an attribute, where it has some.
fn add_stats(stats: &mut BTreeMap<Word, (i128, i128)>, facet: &FacetReply) -> Result<(), NoMemory>
    ensures { OnOk result (ends_members stats.new.entries ≡ with_stats (ends_members stats.old.entries) facet.now) }
{
    if let Some(ends) = facet.stats {
        stats.insert(facet.attribute.clone()?, ends)?;
    }
    Ok(())
}

// Puts the members of the object that has the stats, and its end.
fn put_stats(
    alloc: Global,
    text: &mut String,
    stats: &BTreeMap<Word, (i128, i128)>,
) -> Result<(), NoMemory>
    ensures { OnOk result (string_bytes text.new
        ≡ string_bytes text.old ++ members_text false (ends_members stats.now.entries)) }
{
    let mut later = false;
    for (attribute, ends) in stats.iter() {
        put_comma(text, later)?;
        let (least, greatest) = *ends;
        put_ends(alloc, text, attribute.as_str(), least, greatest)?;
        later = true;
    }
    text.push_str("}")?;
    Ok(())
}

// Puts a member that has the least and the greatest number of an attribute.
fn put_ends(
    alloc: Global,
    text: &mut String,
    attribute: &str,
    least: i128,
    greatest: i128,
) -> Result<(), NoMemory>
    ensures { OnOk result (string_bytes text.new
        ≡ string_bytes text.old ++ (quoted attribute.now ++ 58 ∷ compact_text (ends_data (least, greatest)))) }
{
    let name = quoted_text(alloc, attribute)?;
    let member = format!(in alloc; "{name}:{{\"max\":{greatest},\"min\":{least}}}")?;
    text.push_str(&member)?;
    Ok(())
}
