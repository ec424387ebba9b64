ghost use Rattle.std.specs.Prelude.{◌≡◌, [], IfOk, if◌then◌else◌};
ghost use Rattle.search_base.specs.Terms.{terms_of};
ghost use Rattle.search_call.specs.FormatView.{shows_matches};

use hit_format::terms;
use search_base::{Graph, NoMemory, Term};
use search_call::FormatCall;
use std::alloc::Global;

/// The terms of a query by which the texts of hits are marked: none where hits do not show which words are matched.
pub(crate) fn terms_shown(
    alloc: Global,
    formats: &FormatCall,
    query: &Graph,
) -> Result<Vec<Term>, NoMemory>
    ensures { IfOk result (λ shown. shown.items ≡ if shows_matches formats.now then terms_of query.now else []) }
{
    if formats.shows_matches() {
        terms(alloc, query)
    } else {
        Ok(Vec::new(alloc))
    }
}
