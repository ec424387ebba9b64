ghost use Rattle.std.specs.Prelude.{◌≡◌, ◌<◌, [], length, IfOk};
ghost use Rattle.whole_words.specs.Costs.{AreAtCost};

use crate::whole::{all_of, as_long};
use doc_sets::DocSet;
use path_lengths::PathLengths;
use posting_sets::{documents, documents_by_beginning};
use postings::Postings;
use search_base::{NoMemory, Term, Word};
use std::alloc::Global;

// The documents of the universe at a cost where there is no word: each path begins so, and none is so.
fn without_words(
    alloc: Global,
    postings: &Postings,
    cost: u32,
    universe: &DocSet,
) -> Result<DocSet, NoMemory>
    requires { cost < 2 }
    ensures { IfOk result (λ docs. (lengths : _) → AreAtCost postings.now lengths [] cost universe.now.ids docs.ids) }
{
    if cost == 0 {
        return Ok(DocSet::new(alloc));
    }
    let any = Term {
        words: Vec::from_array(alloc, [Word::new(alloc, "")?])?,
        prefix: true,
    };
    documents(alloc, postings, &any, universe)
}

/// The documents of the universe of which a path is exactly these words (cost 0), or of which none is so and one begins
/// with them (cost 1). The postings and the lengths are those of the same documents; an id of the universe that none of
/// them has is not in the answer. Where there is no memory, nothing has changed.
pub fn documents_at_whole_cost(
    alloc: Global,
    postings: &Postings,
    lengths: &PathLengths,
    words: &[Word],
    cost: u32,
    universe: &DocSet,
) -> Result<DocSet, NoMemory>
    requires { cost < 2 }
    ensures { IfOk result (λ docs. AreAtCost postings.now lengths.now words.now cost universe.now.ids docs.ids) }
{
    if words.is_empty() {
        return without_words(alloc, postings, cost, universe);
    }
    let _documents = universe.len();
    let begun = documents_by_beginning(alloc, postings, words, universe)?;
    let whole = as_long(alloc, lengths, words.len(), begun.as_slice())?;
    if cost == 0 {
        return Ok(whole);
    }
    let all = all_of(alloc, begun.as_slice())?;
    all.minus(alloc, &whole)
}
