ghost use Rattle.std.specs.Prelude.{◌≡◌, ◌++◌, map, IfOk, OnOk};
ghost use Rattle.filter_tree.specs.Tree.{trees_of};
ghost use Rattle.filter_tree.specs.View.{view};
ghost use Rattle.row_filter.specs.Attributes.{attributes as attributes_of, attributes_among};

use filter_tree::Filter;
use search_base::{NoMemory, Word};
use std::alloc::Global;

/// The attribute of each test of a filter, in the order of the filter's text and as often as it stands there.
/// `NoMemory` comes where memory is wanting.
pub fn attributes(alloc: Global, filter: &Filter) -> Result<Vec<Word>, NoMemory>
    ensures { IfOk result (λ names. names.items ≡ attributes_of (view filter.now)) }
{
    let mut names = Vec::new(alloc);
    add_attributes(filter, &mut names)?;
    Ok(names)
}

#[cycle(add)]
fn add_attributes(filter: &Filter, names: &mut Vec<Word>) -> Result<(), NoMemory>
    ensures { OnOk result (names.new.items ≡ names.old.items ++ attributes_of (view filter.now)) }
{
    match filter {
        Filter::All => Ok(()),
        Filter::And(members) => add_attributes_among(members, names),
        Filter::Or(members) => add_attributes_among(members, names),
        Filter::Not(inner) => add_attributes(inner, names),
        Filter::Test { attribute, .. } => Ok(names.push(attribute.clone()?)?),
    }
}

#[cycle(add)]
fn add_attributes_among(members: &[Filter], names: &mut Vec<Word>) -> Result<(), NoMemory>
    ensures { OnOk result (names.new.items
        ≡ names.old.items ++ attributes_among (trees_of (map view members.now))) }
{
    for member in members {
        add_attributes(member, names)?;
    }
    Ok(())
}
