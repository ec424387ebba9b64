ghost use Rattle.std.specs.Prelude.{◌≡◌, ℕ, nat_eq, ◌<◌, ◌≤◌, ◌^◌, ◌==◌, ◌&&◌, ◌||◌, true, [], ◌∷◌, map, length};
ghost use Rattle.std.specs.Prelude.{Some, IfOk, OnOk};
ghost use Rattle.std.specs.Option.{option_eq};
ghost use Rattle.std.specs.List.{filter, list_any, AllByRecursion};
ghost use Rattle.doc_sets.specs.Sets.{has, IsIncreasing, difference};
ghost use Rattle.posting_sets.specs.Starts.{is_inside};
ghost use Rattle.posting_sets.specs.Entries.{path_of};
ghost use Rattle.posting_sets.specs.Gathered.{is_numbered, is_ranked, is_beginning, ids_at, AreLeast, AddsRow, AddsStarts};

use crate::entry::document_of;
use crate::lists::is_walked;
use crate::number::{Number, number_of, rank_of};
use crate::occurrences::Occurrences;
use doc_sets::{DocSet, DocSetBuilder};
use posting_list::PostingList;
use search_base::{DocId, NoMemory, PathId};
use sorted_pages::SortedPages;
use std::alloc::Global;

// Makes empty sets as far as there is none up to a number.
fn make_up_to(alloc: Global, sets: &mut Vec<DocSetBuilder>, number: u16) -> Result<(), NoMemory>
    requires { length sets.old.items ≤ 2 ^ 16 }
    ensures same { (n : ℕ) → ids_at n sets.new.items ≡ ids_at n sets.old.items }
    ensures few { length sets.new.items ≤ 2 ^ 16 }
    ensures long { OnOk result (number < length sets.new.items) }
{
    let at = usize::from(number);
    while sets.len() <= at {
        let empty = DocSetBuilder::new(alloc, 0)?;
        sets.push(empty)?;
    }
    Ok(())
}

// Adds a document to the set of a number.
fn add(alloc: Global, sets: &mut Vec<DocSetBuilder>, number: u16, id: DocId) -> Result<(), NoMemory>
    requires { length sets.old.items ≤ 2 ^ 16 }
    ensures each { OnOk result ((n q : ℕ) → has (ids_at n sets.new.items) q
        ≡ ((number == n && id.0 == q) || has (ids_at n sets.old.items) q)) }
    ensures few { length sets.new.items ≤ 2 ^ 16 }
{
    make_up_to(alloc, sets, number)?;
    sets[usize::from(number)].add_id(id)
}

// Adds the documents of a set that are in the universe to the set of a number.
fn add_set(
    alloc: Global,
    sets: &mut Vec<DocSetBuilder>,
    number: u16,
    set: &DocSet,
    universe: &DocSet,
) -> Result<(), NoMemory>
    requires { length sets.old.items ≤ 2 ^ 16 }
    ensures each { OnOk result ((n q : ℕ) → has (ids_at n sets.new.items) q
        ≡ ((number == n && (has universe.now.ids q && has set.now.ids q)) || has (ids_at n sets.old.items) q)) }
    ensures few { length sets.new.items ≤ 2 ^ 16 }
{
    let inside = universe.and(alloc, set)?;
    make_up_to(alloc, sets, number)?;
    sets[usize::from(number)].add(&inside)
}

// Adds the document of an entry to the set of its number, if it has one.
pub(crate) fn add_entry(
    alloc: Global,
    sets: &mut Vec<DocSetBuilder>,
    entry: u64,
    number: Number<'_>,
) -> Result<(), NoMemory>
    requires { length sets.old.items ≤ 2 ^ 16 }
    ensures each { OnOk result ((n q : ℕ) → has (ids_at n sets.new.items) q
        ≡ (is_numbered number.entry n q entry || has (ids_at n sets.old.items) q)) }
    ensures few { length sets.new.items ≤ 2 ^ 16 }
{
    match number_of(number, entry) {
        Some(n) => add(alloc, sets, n, document_of(entry)),
        None => Ok(()),
    }
}

// Adds the documents of the places to the sets of their numbers.
fn add_numbered(
    alloc: Global,
    sets: &mut Vec<DocSetBuilder>,
    occurrences: Occurrences<'_>,
    number: Number<'_>,
) -> Result<(), NoMemory>
    requires { length sets.old.items ≤ 2 ^ 16 }
    ensures each { OnOk result ((n q : ℕ) → has (ids_at n sets.new.items) q
        ≡ (list_any (is_numbered number.entry n q) occurrences.entry || has (ids_at n sets.old.items) q)) }
    ensures few { length sets.new.items ≤ 2 ^ 16 }
{
    let mut left = occurrences;
    while let Some(start) = left.next() {
        add_entry(alloc, sets, start, number)?;
    }
    Ok(())
}

// Adds the documents of the universe that a list has entries of to the sets of the numbers of these.
fn add_listed(
    alloc: Global,
    sets: &mut Vec<DocSetBuilder>,
    list: &SortedPages,
    number: Number<'_>,
    universe: &DocSet,
) -> Result<(), NoMemory>
    requires { length sets.old.items ≤ 2 ^ 16 }
    ensures each { OnOk result ((n q : ℕ) → has (ids_at n sets.new.items) q
        ≡ (list_any (is_numbered number.entry n q) (filter (is_inside universe.now.ids) list.now.entries)
        || has (ids_at n sets.old.items) q)) }
    ensures few { length sets.new.items ≤ 2 ^ 16 }
{
    for entry in list.iter() {
        if universe.contains(document_of(entry)) {
            add_entry(alloc, sets, entry, number)?;
        }
    }
    Ok(())
}

// Adds the documents of the universe where the words of these lists stand in a row, to the sets of the numbers of the
// places where they begin. One list that is not much longer than the universe is walked straight.
pub(crate) fn add_places(
    alloc: Global,
    sets: &mut Vec<DocSetBuilder>,
    lists: &[&SortedPages],
    number: Number<'_>,
    universe: &DocSet,
) -> Result<(), NoMemory>
    requires some { 0 < length lists.now }
    requires few { length sets.old.items ≤ 2 ^ 16 }
    ensures each { OnOk result (AddsStarts sets.old.items sets.new.items number.entry universe.now.ids
        (map (λ list. list.now.entries) lists.now)) }
    ensures few { length sets.new.items ≤ 2 ^ 16 }
{
    let list = lists[0];
    if lists.len() == 1 && is_walked(list.len(), universe.len()) {
        return add_listed(alloc, sets, list, number, universe);
    }
    let occurrences = Occurrences::new(alloc, lists, universe)?;
    add_numbered(alloc, sets, occurrences, number)
}

// Adds the documents of the universe that are in a path, of which the set is given, to the set of the path's rank, if it
// has one.
fn add_path(
    alloc: Global,
    sets: &mut Vec<DocSetBuilder>,
    rank: Option<u16>,
    set: &DocSet,
    universe: &DocSet,
) -> Result<(), NoMemory>
    requires { length sets.old.items ≤ 2 ^ 16 }
    ensures each { OnOk result ((n q : ℕ) → has (ids_at n sets.new.items) q
        ≡ ((option_eq nat_eq rank (Some n) && (has universe.now.ids q && has set.now.ids q))
        || has (ids_at n sets.old.items) q)) }
    ensures few { length sets.new.items ≤ 2 ^ 16 }
{
    match rank {
        Some(number) => add_set(alloc, sets, number, set, universe),
        None => Ok(()),
    }
}

// The same as `add_listed` for the ranks of paths below a limit, where no entry is in another path. The documents of
// each path are taken from the set beside the list.
fn add_paths(
    alloc: Global,
    sets: &mut Vec<DocSetBuilder>,
    list: &PostingList,
    ranks: &[Option<u16>],
    universe: &DocSet,
    limit: u16,
) -> Result<(), NoMemory>
    requires few { length sets.old.items ≤ 2 ^ 16 }
    requires limit { (entry : ℕ) → has list.now.entries entry ≡ true → path_of entry < limit }
    ensures each { OnOk result ((n q : ℕ) → has (ids_at n sets.new.items) q
        ≡ (list_any (is_ranked ranks.now n q) (filter (is_inside universe.now.ids) list.now.entries)
        || has (ids_at n sets.old.items) q)) }
    ensures few { length sets.new.items ≤ 2 ^ 16 }
{
    for path in 0..limit {
        let Some(set) = list.in_path(PathId(path)) else {
            return add_listed(alloc, sets, list.pages(), Number::Rank(ranks), universe);
        };
        add_path(alloc, sets, rank_of(ranks, path), set, universe)?;
    }
    Ok(())
}

// The same as `add_places` for one list.
fn add_pages(
    alloc: Global,
    sets: &mut Vec<DocSetBuilder>,
    list: &PostingList,
    number: Number<'_>,
    universe: &DocSet,
) -> Result<(), NoMemory>
    requires { length sets.old.items ≤ 2 ^ 16 }
    ensures each { OnOk result (AddsStarts sets.old.items sets.new.items number.entry universe.now.ids
        (list.now.entries ∷ [])) }
    ensures few { length sets.new.items ≤ 2 ^ 16 }
{
    let lists = [list.pages()];
    add_places(alloc, sets, &lists, number, universe)
}

// The same as `add_listed` for the beginnings of paths below a limit, where no entry is in another path. The documents
// of each path are taken from the set beside the list.
fn add_beginnings(
    alloc: Global,
    sets: &mut Vec<DocSetBuilder>,
    list: &PostingList,
    universe: &DocSet,
    limit: u16,
) -> Result<(), NoMemory>
    requires few { length sets.old.items ≤ 2 ^ 16 }
    requires limit { (entry : ℕ) → has list.now.entries entry ≡ true → path_of entry < limit }
    ensures each { OnOk result ((n q : ℕ) → has (ids_at n sets.new.items) q
        ≡ (list_any (is_beginning n q) (filter (is_inside universe.now.ids) list.now.entries)
        || has (ids_at n sets.old.items) q)) }
    ensures few { length sets.new.items ≤ 2 ^ 16 }
{
    for path in 0..limit {
        let Some(set) = list.starting(PathId(path)) else {
            return add_listed(alloc, sets, list.pages(), Number::Beginning, universe);
        };
        add_set(alloc, sets, path, set, universe)?;
    }
    Ok(())
}

// The same, from the sets beside the list, where it has them: the ranks of places from those of paths, and the
// beginnings of paths from those of these.
pub(crate) fn add_list(
    alloc: Global,
    sets: &mut Vec<DocSetBuilder>,
    list: &PostingList,
    number: Number<'_>,
    universe: &DocSet,
) -> Result<(), NoMemory>
    requires { length sets.old.items ≤ 2 ^ 16 }
    ensures each { OnOk result (AddsStarts sets.old.items sets.new.items number.entry universe.now.ids
        (list.now.entries ∷ [])) }
    ensures few { length sets.new.items ≤ 2 ^ 16 }
{
    let _entries = list.pages().len();
    match number {
        Number::Rank(ranks) => match list.path_limit() {
            Some(limit) => add_paths(alloc, sets, list, ranks, universe, limit),
            None => add_pages(alloc, sets, list, number, universe),
        },
        Number::Beginning => match list.path_limit() {
            Some(limit) => add_beginnings(alloc, sets, list, universe, limit),
            None => add_pages(alloc, sets, list, number, universe),
        },
        Number::First => match list.starting_any() {
            Some(set) => add_set(alloc, sets, 0, set, universe),
            None => add_pages(alloc, sets, list, number, universe),
        },
        Number::Bucket => add_pages(alloc, sets, list, number, universe),
    }
}

// Adds the documents of a set that were not seen before, under this number, if there is one.
fn add_row(
    alloc: Global,
    rows: &mut Vec<(u16, DocSet)>,
    seen: &mut DocSet,
    number: u16,
    set: DocSet,
) -> Result<(), NoMemory>
    ensures row { OnOk result (AddsRow rows.old.items rows.new.items number (difference set.ids seen.old.ids)) }
    ensures seen { OnOk result ((id : ℕ) → has seen.new.ids id ≡ (has seen.old.ids id || has set.ids id)) }
    ensures increasing { OnOk result (IsIncreasing (difference set.ids seen.old.ids)) }
{
    let fresh = set.minus(alloc, seen)?;
    if fresh.len() == 0 {
        return Ok(());
    }
    *seen = seen.or(alloc, &fresh)?;
    rows.push((number, fresh))?;
    Ok(())
}

// Each document once, at the least of the numbers whose sets have it. Empty sets are left out.
pub(crate) fn least_sets(
    alloc: Global,
    sets: Vec<DocSetBuilder>,
) -> Result<Vec<(u16, DocSet)>, NoMemory>
    requires { length sets.items ≤ 2 ^ 16 }
    ensures { IfOk result (λ rows. AreLeast sets.items rows.items) }
{
    let mut rows = Vec::new(alloc);
    let mut seen = DocSet::new(alloc);
    let mut number: usize = 0;
    for builder in sets {
        let set = builder.finish(alloc)?;
        add_row(alloc, &mut rows, &mut seen, number as u16, set)?;
        number += 1;
    }
    Ok(rows)
}

// The set of number 0, which is empty where there is none.
pub(crate) fn first_set(alloc: Global, sets: Vec<DocSetBuilder>) -> Result<DocSet, NoMemory>
    ensures { IfOk result (λ set. (set.ids ≡ ids_at 0 sets.items) × IsIncreasing set.ids) }
{
    match sets.into_iter().next() {
        Some(builder) => {
            let set = builder.finish(alloc)?;
            let _documents = set.len();
            Ok(set)
        }
        None => Ok(DocSet::new(alloc)),
    }
}

// The same sets, as sets of documents.
pub(crate) fn finished(alloc: Global, sets: Vec<DocSetBuilder>) -> Result<Vec<DocSet>, NoMemory>
    ensures same { IfOk result (λ made. map (λ set. set.ids) made.items ≡ sets.items) }
    ensures increasing { IfOk result (λ made. AllByRecursion (λ set. IsIncreasing set.ids) made.items) }
{
    let mut made = Vec::new(alloc);
    for builder in sets {
        let set = builder.finish(alloc)?;
        let _documents = set.len();
        made.push(set)?;
    }
    Ok(made)
}
