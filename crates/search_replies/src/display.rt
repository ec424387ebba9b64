// How the hits of a reply are shown.
ghost use Rattle.std.specs.Prelude.{◌≡◌, IfOk, List, map};
ghost use Rattle.search_result.specs.View.{HitView};
ghost use Rattle.search_replies.specs.Shown.{hit_shown, shown_by};

use crate::marks::Marks;
use crate::names::Names;
use search_base::{NoMemory, Term, Word};
use search_call::SearchCall;
use std::alloc::Global;

/// How the hits of a reply are shown: by which members, and how their texts are marked. Made once for all of them.
#[derive(Drop)]
pub struct Display<'a> {
    pub(crate) names: Names,
    pub(crate) marks: Marks<'a>,
}

impl<'a> Display<'a> {
    /// How a search shows its hits that matched texts by these terms: by the displayed members that it asks for, with
    /// what it adds to them. Its one error is want of memory.
    pub fn new(
        alloc: Global,
        displayed: &[Word],
        call: &'a SearchCall,
        terms: &'a [Term],
    ) -> Result<Display<'a>, NoMemory>
        ensures { IfOk result (λ display. (hits : List HitView)
            → map (shown_by display) hits ≡ map (hit_shown displayed.now call.now terms.now) hits) }
    {
        let names = Names::common(alloc, displayed, &call.retrieve)?;
        let marks = Marks::new(alloc, &call.formats, terms)?;
        Ok(Display { names, marks })
    }
}
