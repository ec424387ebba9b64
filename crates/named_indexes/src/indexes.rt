ghost use Rattle.std.specs.Prelude.{◌≡◌, ◌≤◌, [], length};
ghost use Rattle.std.specs.Map.{keys_of};
ghost use Rattle.std.specs.Option.{option_map};
ghost use Rattle.named_indexes.specs.Indexes.{AreUids, index_at, most_indexes};

use index_core::IndexCore;
use search_base::Word;
use std::alloc::Global;
use std::collections::BTreeMap;
use std::marker::Model;

/// The indexes of a server by their uids, in the order of the uids' bytes: at most 1,000.
#[derive(Drop)]
pub struct Indexes {
    pub(crate) entries: BTreeMap<Word, IndexCore>,
}

impl Model for Indexes {
    ghost use Rattle.std.specs.Map.{keys_of};
    ghost use Rattle.named_indexes.specs.Indexes.{Indexes as NamedIndexes, AreUids, indexes_code};

    ghost Value = { NamedIndexes };

    ghost coded = { indexes_code };

    ghost view = { λ indexes. indexes.entries.entries };

    ghost invariant = { λ indexes. AreUids (keys_of indexes.entries.entries) };
}

impl Indexes {
    /// No index. Takes no memory.
    pub fn new(alloc: Global) -> Indexes
        ensures { result ≡ [] }
    {
        Indexes {
            entries: BTreeMap::new(alloc),
        }
    }

    /// The index of a uid, if there is one. Takes no memory.
    pub fn get(&self, uid: &Word) -> Option<&IndexCore>
        ensures { option_map (λ index. index.now) result ≡ index_at uid.now self.now }
    {
        self.entries.get(uid)
    }

    /// How many indexes there are. Takes no memory.
    pub fn len(&self) -> usize
        ensures count { result ≡ length self.now }
        ensures few { result ≤ most_indexes }
    {
        self.entries.len()
    }

    /// The indexes by their uids. Takes no memory.
    pub fn entries(&self) -> &BTreeMap<Word, IndexCore>
        ensures entries { result.now.entries ≡ self.now }
        ensures uids { AreUids (keys_of self.now) }
    {
        &self.entries
    }
}
