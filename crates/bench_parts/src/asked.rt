ghost use Rattle.std.specs.Prelude.{IfOk};
ghost use Rattle.search_base.specs.Graphs.{IsTerm};

use doc_sets::{DocSet, DocSetBuilder};
use near_words::{documents_by_pair_cost, documents_by_prefix_cost};
use posting_sets::{PrefixPlaces, documents, documents_by_bucket};
use postings::Postings;
use search_base::{DocId, NoMemory, Term, Word};
use std::alloc::Global;

/// The first documents, of which there are `size`.
pub(crate) fn all_of(alloc: Global, size: u32) -> Result<DocSet, NoMemory> {
    let mut builder = DocSetBuilder::new(alloc, 0)?;
    for number in 0..size {
        builder.add_id(DocId(number))?;
    }
    builder.finish(alloc)
}

/// Goes over each list, and counts places.
pub(crate) fn walked(alloc: Global, postings: &Postings) -> Result<u64, NoMemory> {
    let every = Word::new(alloc, "")?;
    let mut count: u64 = 0;
    for (_word, list) in postings.with_prefix(&every) {
        for entry in list.pages().iter() {
            count = count.wrapping_add(entry & 1);
        }
    }
    Ok(count)
}

fn term(alloc: Global, words: [Word; 1], prefix: bool) -> Result<Term, NoMemory>
    ensures { IfOk result (λ term. IsTerm term) }
{
    let words = Vec::from_array(alloc, words)?;
    Ok(Term { words, prefix })
}

fn phrase(alloc: Global, words: [Word; 2]) -> Result<Term, NoMemory>
    ensures { IfOk result (λ term. IsTerm term) }
{
    let words = Vec::from_array(alloc, words)?;
    Ok(Term {
        words,
        prefix: false,
    })
}

fn greatest(sets: Vec<DocSet>) -> u64 {
    let mut most = 0;
    for set in &sets {
        most = most.max(set.len());
    }
    most
}

/// Asks one question about the documents, and counts those of the answer.
pub(crate) fn asked(
    alloc: Global,
    postings: &Postings,
    what: &str,
    universe: &DocSet,
) -> Result<u64, NoMemory> {
    let (often, seldom) = (Word::new(alloc, "w0")?, Word::new(alloc, "w5040")?);
    let begun = Word::new(alloc, "w50")?;
    match what {
        "word" => {
            let term = term(alloc, [often], false)?;
            Ok(documents(alloc, postings, &term, universe)?.len())
        }
        "prefix" => {
            let term = term(alloc, [begun], true)?;
            Ok(documents(alloc, postings, &term, universe)?.len())
        }
        "phrase" => {
            let term = phrase(alloc, [often, seldom])?;
            Ok(documents(alloc, postings, &term, universe)?.len())
        }
        "bucket" => {
            let term = term(alloc, [often], false)?;
            let rows = documents_by_bucket(alloc, postings, &term, universe)?;
            Ok(rows.len() as u64)
        }
        "near" => {
            let places = PrefixPlaces::new(alloc, postings, &begun)?;
            let sets = documents_by_prefix_cost(alloc, universe, postings, &often, &places)?;
            Ok(greatest(sets))
        }
        _ => {
            let sets = documents_by_pair_cost(alloc, universe, postings, &often, &seldom)?;
            Ok(greatest(sets))
        }
    }
}
