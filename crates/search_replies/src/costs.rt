// The costs of a hit, printed.
ghost use Rattle.std.specs.Prelude.{◌≡◌, ◌++◌, OnOk, string_bytes};
ghost use Rattle.serde_json.specs.Written.{compact_text};
ghost use Rattle.search_replies.specs.Costs.{cost_data, key_data, costs_data};

use crate::text::{put_comma, quoted_text};
use search_base::{CostKey, NoMemory, SortKey};
use std::alloc::Global;

/// Puts the costs of a hit, as a list.
pub(crate) fn put_costs(alloc: Global, text: &mut String, costs: &[CostKey]) -> Result<(), NoMemory>
    ensures { OnOk result (string_bytes text.new ≡ string_bytes text.old ++ compact_text (costs_data costs.now)) }
{
    text.push_str("[")?;
    let mut later = false;
    for cost in costs {
        put_comma(text, later)?;
        put_cost(alloc, text, cost)?;
        later = true;
    }
    text.push_str("]")?;
    Ok(())
}

fn put_cost(alloc: Global, text: &mut String, cost: &CostKey) -> Result<(), NoMemory>
    ensures { OnOk result (string_bytes text.new ≡ string_bytes text.old ++ compact_text (cost_data cost.now)) }
{
    match cost {
        CostKey::Number(number) => {
            let number = format!(in alloc; "{number}")?;
            text.push_str(&number)?;
            Ok(())
        }
        CostKey::Up(key) | CostKey::Down(key) => put_key(alloc, text, key),
    }
}

fn put_key(alloc: Global, text: &mut String, key: &SortKey) -> Result<(), NoMemory>
    ensures { OnOk result (string_bytes text.new ≡ string_bytes text.old ++ compact_text (key_data key.now)) }
{
    match key {
        SortKey::Number(number) => {
            let number = format!(in alloc; "{number}")?;
            text.push_str(&number)?;
        }
        SortKey::Text(form) => {
            let form = quoted_text(alloc, form.as_str())?;
            text.push_str(&form)?;
        }
        SortKey::Missing => text.push_str("null")?,
    }
    Ok(())
}
