ghost use Rattle.std.specs.Prelude.{◌≡◌, ℕ, ◌+◌, ◌≤◌, ◌<◌, ◌^◌, List, [], ◌∷◌, ◌++◌, length, true, IfOk, OnOk};
ghost use Rattle.path_registry.specs.Names.{is_kept, number_at, AreKept};
ghost use Rattle.path_registry.specs.Paths.{last_place};

use crate::places::Places;
use search_base::{NoMemory, Word};
use std::alloc::Global;
use std::marker::Model;

/// How many paths an index can have.
pub const MAX_PATHS: usize = 1_000;

/// The paths of an index in order of arrival, by which they are numbered, from 0. A path can wait for its place, so
/// that adding it takes no memory.
#[derive(Drop)]
pub struct Registry {
    paths: Vec<Word>,
    places: Places,
}

impl Model for Registry {
    ghost use Rattle.std.specs.Prelude.{◌-◌};
    ghost use Rattle.std.specs.Vec.{vec_len, vec_capacity};
    ghost use Rattle.path_registry.specs.Paths.{RegistryView, IsRegister};

    ghost Value = { RegistryView };

    ghost view = { λ r. record {
      paths = r.paths.items;
      room = vec_capacity r.paths - vec_len r.paths;
      places = r.places;
    } };

    ghost invariant = { λ r. IsRegister r.places r.paths.items };
}

impl Registry {
    /// No paths. It takes no memory.
    pub fn new(alloc: Global) -> Registry
        ensures { result.paths ≡ [] }
    {
        Registry {
            paths: Vec::new(alloc),
            places: Places::new(alloc),
        }
    }

    /// The registry of fewer than 2^32 paths that stand in this order.
    pub fn from_paths(alloc: Global, paths: Vec<Word>) -> Result<Registry, NoMemory>
        requires { length paths.items < 2 ^ 32 }
        ensures { IfOk result (λ registry. registry.paths ≡ paths.items) }
    {
        let mut registry = Registry::new(alloc);
        for path in paths {
            registry.add(path)?;
        }
        Ok(registry)
    }

    /// The paths, in order. It takes no memory.
    pub fn paths(&self) -> &[Word]
        ensures { result.now ≡ self.now.paths }
    {
        self.paths.as_slice()
    }

    pub(crate) fn len(&self) -> usize
        ensures { result ≡ length self.now.paths }
    {
        self.paths.len()
    }

    /// The number of a path, the last where the path stands more than once; none where it is not there. It takes no
    /// memory.
    pub fn find(&self, path: &Word) -> Option<u32>
        ensures { result ≡ last_place path.now self.now.paths }
    {
        self.places.find(path)
    }

    /// Takes the memory for paths that are to be pushed, and adds none. After an error it may have a part of that
    /// memory, and holds what it held.
    pub fn reserve(&mut self, new: &[Word]) -> Result<(), NoMemory>
        ensures paths { self.new.paths ≡ self.old.paths }
        ensures room { OnOk result (length new.now ≤ self.new.room) }
        ensures kept { OnOk result (AreKept new.now self.new.places) }
    {
        self.paths.reserve(new.len())?;
        reserve_names(&mut self.places, new)
    }

    /// Adds a path behind the others, of which there are fewer than 2^32. After an error it is of no use.
    pub fn add(&mut self, path: Word) -> Result<(), NoMemory>
        requires { length self.old.paths < 2 ^ 32 }
        ensures { OnOk result (self.new.paths ≡ self.old.paths ++ path ∷ []) }
    {
        self.paths.reserve(1)?;
        self.places.reserve(&path)?;
        self.push(path);
        Ok(())
    }

    /// The paths, in order. It takes no memory.
    pub fn into_paths(self) -> Vec<Word>
        ensures { result.items ≡ self.paths }
    {
        let Registry { paths, places: _ } = self;
        paths
    }

    /// Adds a path, for which `reserve` took the memory, behind the others, of which there are fewer than 2^32. It
    /// takes no memory.
    pub fn push(&mut self, path: Word)
        requires room { 1 ≤ self.old.room }
        requires kept { is_kept path self.old.places ≡ true }
        requires fits { length self.old.paths < 2 ^ 32 }
        ensures paths { self.new.paths ≡ self.old.paths ++ path ∷ [] }
        ensures room { self.old.room ≤ self.new.room + 1 }
        ensures kept { (q : List ℕ) → is_kept q self.new.places ≡ is_kept q self.old.places }
    {
        self.places.give(&path, self.paths.len() as u32);
        self.paths.push_reserved(path);
    }
}

fn reserve_names(places: &mut Places, names: &[Word]) -> Result<(), NoMemory>
    ensures numbers { (q : List ℕ) → number_at q places.new ≡ number_at q places.old }
    ensures kept { OnOk result (AreKept names.now places.new) }
{
    for name in names {
        places.reserve(name)?;
    }
    Ok(())
}
