ghost use Rattle.std.specs.Prelude.{◌≡◌, ℕ, List, true, [], length, ◌==◌, ◌<◌, IfSome, OnOk};
ghost use Rattle.sorted_pages.specs.Entries.{has, IsIncreasing};
ghost use Rattle.sorted_pages.specs.Rooms.{HasRoom};
ghost use Rattle.posting_list.specs.Sets.{IsSetOf, IsSetOfPassing, AreSetsOf, AreAfter};
ghost use Rattle.posting_list.specs.Sets.{is_part, path_of, is_first, is_start};

use crate::documents::{KeptSet, ListSets, change_sets, reserve_sets};
use crate::part::{PATHS, Part, is_same};
use doc_sets::DocSet;
use search_base::{DocId, NoMemory, PathId};
use sorted_pages::{SortedPages, changes_are_on_members};
use std::alloc::Global;
use std::marker::Model;

/// The places of a word, in increasing order. Beside a long list stand the set of its documents, that of the documents
/// in which the word begins a path, and both sets for each of the first paths.
#[derive(Drop)]
pub struct PostingList {
    pages: SortedPages,
    sets: ListSets,
}

impl Model for PostingList {
    ghost use Rattle.sorted_pages.specs.Rooms.{PagesView};
    ghost use Rattle.posting_list.specs.Sets.{AreSetsIn};

    ghost Value = { PagesView };

    ghost view = { λ list. list.pages };

    ghost invariant = { λ list. AreSetsIn list.sets list.pages.entries };
}

impl PostingList {
    /// A list of no place. Takes no memory.
    pub fn new(alloc: Global) -> PostingList
        ensures { result.entries ≡ [] }
    {
        PostingList {
            pages: SortedPages::new(alloc),
            sets: None,
        }
    }

    /// The places. Takes no memory.
    pub fn pages(&self) -> &SortedPages
        ensures { result.now ≡ self.now }
    {
        &self.pages
    }

    /// The documents of the places, where the list is so long that they are kept as a set. Takes no memory.
    pub fn documents(&self) -> Option<&DocSet>
        ensures { IfSome result (λ set. IsSetOf set.now.ids self.now.entries) }
    {
        set_of(self.kept(), Part::All)
    }

    /// The documents of the places in a path, where the list is so long that they are kept as a set, and the path is
    /// one of the first. Takes no memory.
    pub fn in_path(&self, path: PathId) -> Option<&DocSet>
        ensures { IfSome result (λ set.
            IsSetOfPassing (λ entry. path_of entry == path.0) set.now.ids self.now.entries) }
    {
        set_of(self.kept(), Part::Path(path.0))
    }

    /// The documents of the places at the beginning of any path, where the list is so long that they are kept as a set.
    /// Takes no memory.
    pub fn starting_any(&self) -> Option<&DocSet>
        ensures { IfSome result (λ set. IsSetOfPassing is_first set.now.ids self.now.entries) }
    {
        set_of(self.kept(), Part::First)
    }

    /// The documents of the places at the beginning of a path, where the list is so long that they are kept as a set,
    /// and the path is one of the first. Takes no memory.
    pub fn starting(&self, path: PathId) -> Option<&DocSet>
        ensures { IfSome result (λ set. IsSetOfPassing (is_start path.0) set.now.ids self.now.entries) }
    {
        set_of(self.kept(), Part::Start(path.0))
    }

    /// What the path of each place is below, where the documents of each path below it are kept as a set. Takes no
    /// memory.
    pub fn path_limit(&self) -> Option<u16>
        ensures { IfSome result (λ limit. (entry : ℕ) → has self.now.entries entry ≡ true → path_of entry < limit) }
    {
        let later = set_of(self.kept(), Part::Later)?;
        if later.is_empty() { Some(PATHS) } else { None }
    }

    // The sets beside the list.
    fn kept(&self) -> &[KeptSet]
        ensures { AreSetsOf result.now self.now.entries }
    {
        match &self.sets {
            Some(kept) => kept.as_slice(),
            None => &[],
        }
    }

    /// Whether there is no place.
    pub fn is_empty(&self) -> bool
        ensures { result ≡ (length self.now.entries == 0) }
    {
        self.pages.is_empty()
    }

    /// Takes all memory that putting these places in will need, which come in increasing order; after a refusal there
    /// may be room for some. `last` is the greatest document of the list and of these: where it is another, sets are
    /// made and kept for other lengths, and nothing else differs. The places stay as they were, whatever the result.
    pub fn reserve(&mut self, alloc: Global, come: &[u64], last: DocId) -> Result<(), NoMemory>
        requires { IsIncreasing come.now }
        ensures entries { self.new.entries ≡ self.old.entries }
        ensures room { OnOk result (HasRoom self.new come.now) }
    {
        self.pages.reserve(alloc, come)?;
        reserve_sets(alloc, &mut self.sets, &self.pages, come, last)
    }

    /// Puts in the places that come, for which there is room, and then takes out those that go; both are in increasing
    /// order, and `last` is as `reserve` has it. A set beside the list changes with it, or goes where there was no room
    /// in it or the list is long no more. Takes no memory.
    pub fn change(&mut self, gone: &[u64], come: &[u64], last: DocId)
        requires gone { IsIncreasing gone.now }
        requires come { IsIncreasing come.now }
        requires room { HasRoom self.old come.now }
        ensures { AreAfter gone.now come.now self.old.entries self.new.entries }
    {
        changes_are_on_members();
        self.pages.insert_reserved(come);
        self.pages.remove_all(gone);
        change_sets(&mut self.sets, &self.pages, gone, come, last);
    }
}

// The set of a part of a list, if it is one of these.
fn set_of(sets: &[KeptSet], part: Part) -> Option<&DocSet>
    ensures { IfSome result (λ set. (entries : List ℕ) → AreSetsOf sets.now entries
        → IsSetOfPassing (is_part part) set.now.ids entries) }
{
    for kept in sets {
        if is_same(kept.part, part) {
            return Some(&kept.documents);
        }
    }
    None
}
