ghost use Rattle.std.specs.Prelude.{◌≡◌, ℕ, List, ◌-◌, ◌*◌, ◌/◌, ◌^◌, ◌||◌, ◌&&◌, ◌==◌, get_or, length, max, not, IfOk, OnOk};
ghost use Rattle.std.specs.Bool.{OnTrue};
ghost use Rattle.doc_sets.specs.Sets.{has as has_id};
ghost use Rattle.posting_list.specs.Sets.{has_passing, IsSetOfPassing, is_part, AreSetsOf, AreSetsIn, AreAfter};

use crate::moved::Moved;
use crate::part::{PATHS, Part, is_part};
use doc_sets::{DocSet, DocSetBuilder};
use search_base::{DocId, NoMemory};
use sorted_pages::SortedPages;
use std::alloc::Global;

// The documents of a part of a list.
#[derive(Drop)]
pub(crate) struct KeptSet {
    pub(crate) part: Part,
    pub(crate) documents: DocSet,
}

// The sets of a list, if there are any.
pub(crate) type ListSets = Option<Box<Vec<KeptSet>>>;

// A list with an entry for so many documents is long.
const ONE_IN: u64 = 48;

// A long list that has no more than an entry for so many documents is long no more.
const FEW_IN: u64 = 192;

// A long list with an entry for so many documents has a set for each path.
const PATHS_IN: u64 = 16;

// A list of fewer entries is never long.
const LONG: usize = 64;

// The document of an entry.
fn document_of(entry: u64) -> DocId
    ensures { result.0 ≡ entry / 2 ^ 32 }
{
    DocId((entry >> 32) as u32)
}

// The least entry that a document may have.
fn first_entry(id: DocId) -> u64
    ensures { result ≡ id.0 * 2 ^ 32 }
{
    u64::from(id.0) * 0x1_0000_0000
}

/// The document of the last of these places, which come in increasing order, or the one that is handed in where it is
/// greater or there is no place. Takes no memory.
pub fn last_document(come: &[u64], one: DocId) -> DocId
    ensures { result.0 ≡ max one.0 (get_or come.now (length come.now - 1) 0 / 2 ^ 32) }
{
    match come.last() {
        Some(entry) => DocId(one.0.max(document_of(*entry).0)),
        None => one,
    }
}

// Whether a list of so many entries is long, where its documents are about those up to one.
fn is_long(entries: usize, last: DocId) -> bool {
    LONG <= entries && u64::from(last.0) / ONE_IN <= entries as u64
}

// Whether a long list is long still.
fn is_still_long(entries: usize, last: DocId) -> bool {
    0 < entries && u64::from(last.0) / FEW_IN <= entries as u64
}

// The documents of a part of a list.
fn documents_of(alloc: Global, list: &SortedPages, part: Part) -> Result<DocSet, NoMemory>
    ensures { IfOk result (λ set. IsSetOfPassing (is_part part) set.ids list.now.entries) }
{
    let mut builder = DocSetBuilder::new(alloc, 0)?;
    for entry in list.iter() {
        if !is_part(part, entry) {
            continue;
        }
        builder.add_id(document_of(entry))?;
    }
    builder.finish(alloc)
}

// Whether one of the entries is of the part.
fn has_any(entries: &[u64], part: Part) -> bool {
    for entry in entries {
        if is_part(part, *entry) {
            return true;
        }
    }
    false
}

// Whether one of the entries is not at the beginning of the first path.
fn is_spread(list: &SortedPages, come: &[u64]) -> bool {
    for entry in come {
        if *entry % 0x1_0000_0000 != 0 {
            return true;
        }
    }
    for entry in list.iter() {
        if entry % 0x1_0000_0000 != 0 {
            return true;
        }
    }
    false
}

// The set of the documents of a part of a list. Where some of what comes is of the part, it has room for the documents
// up to the last.
fn kept_set(
    alloc: Global,
    list: &SortedPages,
    come: &[u64],
    part: Part,
    last: DocId,
) -> Result<KeptSet, NoMemory>
    ensures { IfOk result (λ kept. IsSetOfPassing (is_part kept.part) kept.documents.ids list.now.entries) }
{
    let mut documents = documents_of(alloc, list, part)?;
    if has_any(come, part) {
        documents.make_room(alloc, last)?;
    }
    Ok(KeptSet { part, documents })
}

// Adds two sets for each path that has some: of the places in it, and of those at its beginning.
fn add_paths(
    alloc: Global,
    sets: &mut Vec<KeptSet>,
    list: &SortedPages,
    come: &[u64],
    last: DocId,
) -> Result<(), NoMemory>
    requires { AreSetsOf sets.old.items list.now.entries }
    ensures { OnOk result (AreSetsOf sets.new.items list.now.entries) }
{
    for path in 0..PATHS {
        let inside = kept_set(alloc, list, come, Part::Path(path), last)?;
        sets.push(inside)?;
        let starting = kept_set(alloc, list, come, Part::Start(path), last)?;
        sets.push(starting)?;
    }
    Ok(())
}

// Whether a list has sets of paths: where it has many entries, and not one for a document at the beginning of the first
// path.
fn has_paths(list: &SortedPages, come: &[u64], last: DocId) -> bool {
    let entries = list.len().saturating_add(come.len());
    u64::from(last.0) / PATHS_IN <= entries as u64 && is_spread(list, come)
}

// The sets of the documents of a list: of all, and where it has sets of paths, of those at the beginning of one, and of
// each path. They have room for the documents of what comes, of which none is above the last.
fn sets_of(
    alloc: Global,
    list: &SortedPages,
    come: &[u64],
    last: DocId,
) -> Result<Vec<KeptSet>, NoMemory>
    ensures { IfOk result (λ sets. AreSetsOf sets.items list.now.entries) }
{
    let mut sets = Vec::new(alloc);
    let all = kept_set(alloc, list, come, Part::All, last)?;
    sets.push(all)?;
    if has_paths(list, come, last) {
        let first = kept_set(alloc, list, come, Part::First, last)?;
        sets.push(first)?;
        let later = kept_set(alloc, list, come, Part::Later, last)?;
        sets.push(later)?;
        add_paths(alloc, &mut sets, list, come, last)?;
    }
    Ok(sets)
}

// Makes room in a set for the documents up to one, where some of what comes is of its part.
fn make_room(
    alloc: Global,
    kept: &mut KeptSet,
    come: &Moved<'_>,
    greatest: DocId,
) -> Result<(), NoMemory>
    ensures part { kept.new.part ≡ kept.old.part }
    ensures ids { kept.new.documents.ids ≡ kept.old.documents.ids }
{
    if come.may_have(kept.part) && has_any(come.entries(), kept.part) {
        return kept.documents.make_room(alloc, greatest);
    }
    Ok(())
}

// The same in each of some sets.
fn make_rooms(
    alloc: Global,
    sets: &mut Vec<KeptSet>,
    come: &Moved<'_>,
    greatest: DocId,
) -> Result<(), NoMemory>
    ensures { (entries : List ℕ) → AreSetsOf sets.old.items entries → AreSetsOf sets.new.items entries }
{
    for kept in sets.iter_mut() {
        make_room(alloc, kept, come, greatest)?;
    }
    Ok(())
}

// Makes room in the sets of a list for the documents of what comes, or makes the sets where the list is long then.
pub(crate) fn reserve_sets(
    alloc: Global,
    sets: &mut ListSets,
    list: &SortedPages,
    come: &[u64],
    last: DocId,
) -> Result<(), NoMemory>
    requires { AreSetsIn sets.old list.now.entries }
    ensures { AreSetsIn sets.new list.now.entries }
{
    let Some(greatest) = come.last() else {
        return Ok(());
    };
    let entries = list.len().saturating_add(come.len());
    if !is_still_long(entries, last) {
        return Ok(());
    }
    match sets {
        Some(kept) => return make_rooms(alloc, kept, &Moved::new(come), document_of(*greatest)),
        None => {}
    }
    if is_long(entries, last) {
        let made = sets_of(alloc, list, come, last)?;
        *sets = Some(Box::new(alloc, made)?);
    }
    Ok(())
}

// Puts the documents of entries of the part into a set, and tells whether there was room for all.
fn put_in_each(set: &mut DocSet, part: Part, come: &[u64]) -> bool
    ensures { OnTrue result ((id : ℕ) → has_id set.new.ids id
        ≡ (has_passing (is_part part) come.now id || has_id set.old.ids id)) }
{
    for entry in come {
        if !is_part(part, *entry) {
            continue;
        }
        if !set.put_in_room(document_of(*entry)) {
            return false;
        }
    }
    true
}

// The same, where it may be that none is of the part.
fn put_in_all(set: &mut DocSet, part: Part, come: &Moved<'_>) -> bool
    ensures { OnTrue result ((id : ℕ) → has_id set.new.ids id
        ≡ (has_passing (is_part part) come.now id || has_id set.old.ids id)) }
{
    if !come.may_have(part) {
        return true;
    }
    put_in_each(set, part, come.entries())
}

// Whether a document has an entry of the part in the list.
fn is_in(list: &SortedPages, part: Part, id: DocId) -> bool
    ensures { result ≡ has_passing (is_part part) list.now.entries id.0 }
{
    for entry in list.from(first_entry(id)) {
        if document_of(entry) != id {
            return false;
        }
        if is_part(part, entry) {
            return true;
        }
    }
    false
}

// Takes the document of an entry of the part out of a set, but where it has one in the list.
fn take_out(set: &mut DocSet, part: Part, entry: u64, list: &SortedPages)
    ensures { (id : ℕ) → has_id set.new.ids id
        ≡ (has_id set.old.ids id && (not ((entry / 2 ^ 32 == id) && is_part part entry)
        || has_passing (is_part part) list.now.entries id)) }
{
    let id = document_of(entry);
    if is_part(part, entry) && !is_in(list, part, id) {
        let _documents = set.len();
        let _was = set.remove(id);
    }
}

// Takes the documents of entries of the part out of a set, but for those that have one in the list.
fn take_out_each(set: &mut DocSet, part: Part, gone: &[u64], list: &SortedPages)
    ensures { (id : ℕ) → has_id set.new.ids id
        ≡ (has_id set.old.ids id && (not (has_passing (is_part part) gone.now id)
        || has_passing (is_part part) list.now.entries id)) }
{
    for entry in gone {
        take_out(set, part, *entry, list);
    }
}

// The same, where it may be that none is of the part.
fn take_out_all(set: &mut DocSet, part: Part, gone: &Moved<'_>, list: &SortedPages)
    ensures { (id : ℕ) → has_id set.new.ids id
        ≡ (has_id set.old.ids id && (not (has_passing (is_part part) gone.now id)
        || has_passing (is_part part) list.now.entries id)) }
{
    if gone.may_have(part) {
        take_out_each(set, part, gone.entries(), list);
    }
}

// Makes the change, which the list has gone through, of the set of a part of it. Tells whether there was room for all
// that came; where there was not, the set is of no use.
fn change_set(kept: &mut KeptSet, list: &SortedPages, gone: &Moved<'_>, come: &Moved<'_>) -> bool
    ensures part { kept.new.part ≡ kept.old.part }
    ensures set { OnTrue result ((entries : List ℕ) → AreAfter gone.now come.now entries list.now.entries
        → IsSetOfPassing (is_part kept.old.part) kept.old.documents.ids entries
        → IsSetOfPassing (is_part kept.old.part) kept.new.documents.ids list.now.entries) }
{
    if !put_in_all(&mut kept.documents, kept.part, come) {
        return false;
    }
    take_out_all(&mut kept.documents, kept.part, gone, list);
    true
}

// The same for each of some sets.
fn change_all(
    sets: &mut Vec<KeptSet>,
    list: &SortedPages,
    gone: &Moved<'_>,
    come: &Moved<'_>,
) -> bool
    ensures { OnTrue result ((entries : List ℕ) → AreAfter gone.now come.now entries list.now.entries
        → AreSetsOf sets.old.items entries → AreSetsOf sets.new.items list.now.entries) }
{
    for kept in sets.iter_mut() {
        if !change_set(kept, list, gone, come) {
            return false;
        }
    }
    true
}

// The same for the sets of a list, if there are any. They go where there was no room, or where the list is long no
// more.
pub(crate) fn change_sets(
    sets: &mut ListSets,
    list: &SortedPages,
    gone: &[u64],
    come: &[u64],
    last: DocId,
)
    ensures { (entries : List ℕ) → AreAfter gone.now come.now entries list.now.entries
        → AreSetsIn sets.old entries → AreSetsIn sets.new list.now.entries }
{
    match sets {
        Some(kept) => {
            let (goes, comes) = (Moved::new(gone), Moved::new(come));
            if change_all(kept, list, &goes, &comes) && is_still_long(list.len(), last) {
                return;
            }
        }
        None => return,
    }
    *sets = None;
}
