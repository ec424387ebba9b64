ghost use Rattle.std.specs.Prelude.{◌≡◌, ℕ, ◌≤◌, ◌^◌, List, length, IfOk};
ghost use Rattle.doc_sets.specs.Sets.{has, IsIncreasing};
ghost use Rattle.postings.specs.Documents.{Document};
ghost use Rattle.path_lengths.specs.Measured.{AreLengthsOf};
ghost use Rattle.whole_words.specs.Costs.{is_as_long, is_in_some};

use doc_sets::{DocSet, DocSetBuilder};
use path_lengths::PathLengths;
use search_base::{NoMemory, PathId};
use std::alloc::Global;

// The documents of the sets of all paths, by number, in which the path of the set has so many words.
pub(crate) fn as_long(
    alloc: Global,
    lengths: &PathLengths,
    count: usize,
    begun: &[DocSet],
) -> Result<DocSet, NoMemory>
    requires { length begun.now ≤ 2 ^ 16 }
    ensures documents { IfOk result (λ docs. (documents : List Document) → AreLengthsOf lengths.now documents
        → (id : ℕ) → has docs.ids id ≡ is_as_long documents count 0 begun.now id) }
    ensures increasing { IfOk result (λ docs. IsIncreasing docs.ids) }
{
    let mut found = DocSetBuilder::new(alloc, 0)?;
    for path in 0..begun.len() {
        let docs = lengths.documents(alloc, PathId(path as u16), count, &begun[path])?;
        found.add(&docs)?;
    }
    let docs = found.finish(alloc)?;
    let _documents = docs.len();
    Ok(docs)
}

// The documents of all sets.
pub(crate) fn all_of(alloc: Global, sets: &[DocSet]) -> Result<DocSet, NoMemory>
    ensures documents { IfOk result (λ docs. (id : ℕ) → has docs.ids id ≡ is_in_some sets.now id) }
    ensures increasing { IfOk result (λ docs. IsIncreasing docs.ids) }
{
    let mut found = DocSetBuilder::new(alloc, 0)?;
    for set in sets {
        found.add(set)?;
    }
    let docs = found.finish(alloc)?;
    let _documents = docs.len();
    Ok(docs)
}
