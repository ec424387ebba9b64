ghost use Rattle.std.specs.Prelude.{◌≡◌, IfOk};
ghost use Rattle.index_core.specs.FacetHits.{asked_at, prefix_of as prefix_in};

use list_facets::FacetQuery;
use search_base::{NoMemory, PathId, Word};
use search_call::FacetCall;
use std::alloc::Global;
use token_words::normal;

/// The values at a path that a search of values asks for, where it is told of no more than `most`.
pub(crate) fn values_asked(
    alloc: Global,
    call: &FacetCall,
    path: PathId,
    most: u64,
) -> Result<FacetQuery, NoMemory>
    ensures { IfOk result (λ asked. asked ≡ asked_at call.now path most) }
{
    let prefix = prefix_of(alloc, &call.query)?;
    Ok(FacetQuery { path, prefix, most })
}

// The text as which values begin that are asked for so.
fn prefix_of(alloc: Global, query: &Option<Word>) -> Result<Word, NoMemory>
    ensures { IfOk result (λ prefix. prefix ≡ prefix_in query.now) }
{
    match query {
        Some(text) => normal(alloc, text.as_str()),
        None => Word::new(alloc, ""),
    }
}
