// The members that a hit has beside those of its document.
ghost use Rattle.std.specs.Prelude.{◌≡◌, ◌++◌, [], ◌∷◌, IfOk, OnOk, map, string_bytes, false};
ghost use Rattle.std.specs.Option.{option_copied, option_map_or};
ghost use Rattle.json.specs.Print.{quoted};
ghost use Rattle.serde_json.specs.Data.{Members};
ghost use Rattle.serde_json.specs.View.{members_view};
ghost use Rattle.serde_json.specs.Written.{compact_text, comma_if, members_have_float};
ghost use Rattle.search_replies.specs.declared.added.Added.TheVariants.{Costs};
ghost use Rattle.search_replies.specs.Added.{added_data, added_name, members_of, with_waiting, AreInOrder};
ghost use Rattle.search_replies.specs.Shown.{added_names, one_if, with_costs, with_formatted, with_positions};

use crate::costs::put_costs;
use crate::formatted::put_formatted;
use crate::marks::Marks;
use crate::own::Own;
use crate::positions::put_positions;
use crate::text::{put_comma, put_name};
use search_base::{CostKey, NoMemory};
use std::alloc::Global;

/// A member that a hit has beside those of its document.
#[derive(Clone, Copy)]
pub(crate) enum Added<'a> {
    /// The costs by which it stands where it stands.
    Costs(&'a [CostKey]),
    /// The others with their texts as the search shows them.
    Formatted(&'a Marks<'a>),
    /// Where the matched words of their texts stand.
    Positions(&'a Marks<'a>),
}

impl<'a> Added<'a> {
    /// Its name.
    pub(crate) fn name(&self) -> &'static str
        ensures { result.now ≡ added_name self.now }
    {
        match self {
            Added::Costs(_) => "_costs",
            Added::Formatted(_) => "_formatted",
            Added::Positions(_) => "_matchesPosition",
        }
    }
}

/// What is added to a hit with these costs, in byte order of names.
pub(crate) fn added_to<'a>(
    alloc: Global,
    marks: &'a Marks<'a>,
    costs: Option<&'a [CostKey]>,
) -> Result<Vec<Added<'a>>, NoMemory>
    ensures names { IfOk result (λ added. map added_name added.items
        ≡ added_names marks.now.formats (option_copied costs.entry)) }
    ensures order { IfOk result (λ added. AreInOrder added.items) }
    ensures members { IfOk result (λ added. (own ms : Members) → with_waiting own added.items ms
        ≡ with_costs (option_copied costs.entry) (with_formatted marks.now.formats marks.now.terms own
        (with_positions marks.now.formats marks.now.terms own ms))) }
{
    let mut added = costs_added(alloc, costs)?;
    push_if(&mut added, marks.formats_texts(), Added::Formatted(marks))?;
    push_if(&mut added, marks.shows_positions(), Added::Positions(marks))?;
    Ok(added)
}

fn costs_added<'a>(alloc: Global, costs: Option<&'a [CostKey]>) -> Result<Vec<Added<'a>>, NoMemory>
    ensures { IfOk result (λ added. added.items ≡ option_map_or (λ costs. Costs costs ∷ []) costs.entry []) }
{
    let mut added = Vec::new(alloc);
    if let Some(costs) = costs {
        added.push(Added::Costs(costs))?;
    }
    Ok(added)
}

fn push_if<'a>(added: &mut Vec<Added<'a>>, holds: bool, one: Added<'a>) -> Result<(), NoMemory>
    ensures { OnOk result (added.new.items ≡ added.old.items ++ one_if holds one.entry) }
{
    if holds {
        added.push(one)?;
    }
    Ok(())
}

/// Puts an added member, behind others or not.
pub(crate) fn put_added(
    alloc: Global,
    text: &mut String,
    later: bool,
    own: &Own,
    added: &Added,
) -> Result<(), NoMemory>
    requires { members_have_float (members_view own.now.members.now.entries) ≡ false }
    ensures { OnOk result (string_bytes text.new ≡ string_bytes text.old
        ++ (comma_if later ++ (quoted (added_name added.now) ++ 58 ∷ compact_text (added_data
        (members_of own.now) added.now)))) }
{
    put_comma(text, later)?;
    put_name(alloc, text, added.name())?;
    match added {
        Added::Costs(costs) => put_costs(alloc, text, costs),
        Added::Formatted(marks) => put_formatted(alloc, text, own, marks),
        Added::Positions(marks) => put_positions(alloc, text, own, marks),
    }
}
