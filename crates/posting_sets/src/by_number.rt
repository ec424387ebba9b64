ghost use Rattle.std.specs.Prelude.{◌≡◌, ◌<◌, ◌≤◌, ◌^◌, true, false, [], ◌∷◌, map, length, Some, Option, IfOk, IfSome};
ghost use Rattle.doc_sets.specs.Sets.{IsIncreasing};
ghost use Rattle.search_base.specs.Bucket.{bucket_of};
ghost use Rattle.search_base.specs.Graphs.{IsTerm};
ghost use Rattle.posting_sets.specs.Found.{term_of};
ghost use Rattle.posting_sets.specs.Numbers.{rank_at, AreNumbered};
ghost use Rattle.posting_sets.specs.Gathered.{place_number, AreOfNumbers};
ghost use Rattle.posting_sets.specs.Beginnings.{AreBeginning, AreAtFirst};

use crate::lists::lists_of;
use crate::number::Number;
use crate::numbered::{add_list, add_places, finished, first_set, least_sets};
use crate::prefix::PrefixPlaces;
use doc_sets::{DocSet, DocSetBuilder};
use postings::Postings;
use search_base::{NoMemory, Term, Word};
use std::alloc::Global;

// The documents of each number of a place where the word stands.
fn numbers_of_word(
    alloc: Global,
    postings: &Postings,
    word: &Word,
    number: Number<'_>,
    universe: &DocSet,
) -> Result<Vec<DocSetBuilder>, NoMemory>
    ensures each { IfOk result (λ sets. AreOfNumbers postings.now (term_of false (word.now ∷ []))
        (place_number number.entry) universe.now.ids sets.items) }
    ensures few { IfOk result (λ sets. length sets.items ≤ 2 ^ 16) }
{
    let Some(list) = postings.row(word) else {
        return Ok(Vec::new(alloc));
    };
    let mut sets = Vec::new(alloc);
    add_list(alloc, &mut sets, list, number, universe)?;
    Ok(sets)
}

// The documents of each number of a place where the words stand in a row.
fn numbers_of_words(
    alloc: Global,
    postings: &Postings,
    words: &[Word],
    number: Number<'_>,
    universe: &DocSet,
) -> Result<Vec<DocSetBuilder>, NoMemory>
    requires { 0 < length words.now }
    ensures each { IfOk result (λ sets. AreOfNumbers postings.now (term_of false words.now)
        (place_number number.entry) universe.now.ids sets.items) }
    ensures few { IfOk result (λ sets. length sets.items ≤ 2 ^ 16) }
{
    if words.len() == 1 {
        return numbers_of_word(alloc, postings, &words[0], number, universe);
    }
    let Some(lists) = lists_of(alloc, postings, words)? else {
        return Ok(Vec::new(alloc));
    };
    let mut sets = Vec::new(alloc);
    add_places(alloc, &mut sets, lists.as_slice(), number, universe)?;
    Ok(sets)
}

// The documents of each number of a place with a word that begins so.
fn numbers_of_prefix(
    alloc: Global,
    postings: &Postings,
    prefix: &Word,
    number: Number<'_>,
    universe: &DocSet,
) -> Result<Vec<DocSetBuilder>, NoMemory>
    ensures each { IfOk result (λ sets. AreOfNumbers postings.now (term_of true (prefix.now ∷ []))
        (place_number number.entry) universe.now.ids sets.items) }
    ensures few { IfOk result (λ sets. length sets.items ≤ 2 ^ 16) }
{
    let places = PrefixPlaces::new(alloc, postings, prefix)?;
    places.numbers(alloc, number, universe)
}

// The documents of each number of a place where the term occurs.
fn numbers_of(
    alloc: Global,
    postings: &Postings,
    term: &Term,
    number: Number<'_>,
    universe: &DocSet,
) -> Result<Vec<DocSetBuilder>, NoMemory>
    requires { IsTerm term.now }
    ensures each { IfOk result (λ sets. AreOfNumbers postings.now term.now (place_number number.entry)
        universe.now.ids sets.items) }
    ensures few { IfOk result (λ sets. length sets.items ≤ 2 ^ 16) }
{
    if term.prefix {
        return numbers_of_prefix(alloc, postings, &term.words[0], number, universe);
    }
    numbers_of_words(alloc, postings, term.words.as_slice(), number, universe)
}

// The documents by the least number of the places where the term occurs.
fn documents_by(
    alloc: Global,
    postings: &Postings,
    term: &Term,
    number: Number<'_>,
    universe: &DocSet,
) -> Result<Vec<(u16, DocSet)>, NoMemory>
    requires { IsTerm term.now }
    ensures { IfOk result (λ rows. AreNumbered postings.now term.now (place_number number.entry)
        universe.now.ids rows.items) }
{
    let _documents = universe.len();
    let sets = numbers_of(alloc, postings, term, number, universe)?;
    least_sets(alloc, sets)
}

/// The documents of the universe by the least rank of the paths in which the term occurs, in order
/// of the ranks, of which each has a document. The ranks are given by path: a path past their end
/// has none, and an occurrence in a path without a rank does not count. A term has a word at least,
/// and a prefix term has just one. Where there is no memory, nothing has changed.
pub fn documents_by_rank(
    alloc: Global,
    postings: &Postings,
    term: &Term,
    ranks: &[Option<u16>],
    universe: &DocSet,
) -> Result<Vec<(u16, DocSet)>, NoMemory>
    requires { IsTerm term.now }
    ensures { IfOk result (λ rows. AreNumbered postings.now term.now (λ place. rank_at ranks.now place.path.0)
        universe.now.ids rows.items) }
{
    documents_by(alloc, postings, term, Number::Rank(ranks), universe)
}

/// The documents of the universe by the least bucket of the positions at which the term occurs, in
/// order of the buckets, of which each has a document. A term has a word at least, and a prefix term
/// has just one. Where there is no memory, nothing has changed.
pub fn documents_by_bucket(
    alloc: Global,
    postings: &Postings,
    term: &Term,
    universe: &DocSet,
) -> Result<Vec<(u16, DocSet)>, NoMemory>
    requires { IsTerm term.now }
    ensures { IfOk result (λ rows. AreNumbered postings.now term.now (λ place. Some (bucket_of place.position))
        universe.now.ids rows.items) }
{
    documents_by(alloc, postings, term, Number::Bucket, universe)
}

/// For each path the documents of the universe in which it begins with these words: they stand at its positions 0,
/// 1 and so on. There is a word at least. The set of a path is at its number, and behind the last set no document
/// begins so. It goes over the list of the rarest word, as far as this is in the universe; the list of a single
/// word that is not much longer than the universe is walked to its end. Where there is no memory, nothing has
/// changed.
pub fn documents_by_beginning(
    alloc: Global,
    postings: &Postings,
    words: &[Word],
    universe: &DocSet,
) -> Result<Vec<DocSet>, NoMemory>
    requires { 0 < length words.now }
    ensures sets { IfOk result (λ sets. AreBeginning postings.now words.now universe.now.ids
        (map (λ set. set.ids) sets.items)) }
    ensures few { IfOk result (λ sets. length sets.items ≤ 2 ^ 16) }
{
    let _documents = universe.len();
    let sets = numbers_of_words(alloc, postings, words, Number::Beginning, universe)?;
    finished(alloc, sets)
}

// Whether the documents in which a term occurs at the beginning of a path are known without a walk over a long list.
fn is_first_known(postings: &Postings, term: &Term) -> bool {
    if term.prefix {
        return true;
    }
    if term.words.len() != 1 {
        return false;
    }
    match postings.row(&term.words[0]) {
        Some(list) => list.starting_any().is_some(),
        None => true,
    }
}

/// The documents of the universe in which the term occurs at the beginning of a path, which are those of bucket 0
/// (`documents_by_bucket`), where they are known without a walk over a long list; otherwise none. They are known of a
/// word whose list is so long that sets are kept beside it, and of one without a list; of a prefix, where the other
/// lists are walked; and never of several words. A term has a word at least, and a prefix term has just one. Where there
/// is no memory, nothing has changed.
pub fn documents_at_first(
    alloc: Global,
    postings: &Postings,
    term: &Term,
    universe: &DocSet,
) -> Result<Option<DocSet>, NoMemory>
    requires { IsTerm term.now }
    ensures { IfOk result (λ found. IfSome found (λ set.
        AreAtFirst postings.now term.now universe.now.ids set.ids)) }
{
    let _documents = universe.len();
    if !is_first_known(postings, term) {
        return Ok(None);
    }
    let sets = numbers_of(alloc, postings, term, Number::First, universe)?;
    Ok(Some(first_set(alloc, sets)?))
}
