ghost use Rattle.std.specs.Prelude.{◌≡◌, ℕ, List, [], Bool, true, None, length, OnOk, bytes_eq, if◌then◌else◌};
ghost use Rattle.path_registry.specs.Names.{number_at, is_kept};

use crate::shelf::Shelf;
use search_base::{NoMemory, Word};
use std::alloc::Global;
use std::collections::BTreeMap;
use std::marker::Model;

/// Names with a number each. A name can wait for its number, so that giving it takes no memory. Names of one length
/// stand on one shelf, so that a long name is compared to those of its length alone.
#[derive(Drop)]
pub struct Places {
    alloc: Global,
    shelves: BTreeMap<usize, Shelf>,
}

impl Model for Places {
    ghost use Rattle.path_registry.specs.Names.{Names};
    ghost use Rattle.path_registry.specs.Shelves.{names_on, AreShelved};

    ghost Value = { Names };

    ghost view = { λ p. names_on p.shelves.entries };

    ghost invariant = { λ p. AreShelved p.shelves };
}

impl Places {
    /// No names. It takes no memory.
    pub fn new(alloc: Global) -> Places
        ensures { result ≡ [] }
    {
        Places {
            alloc,
            shelves: BTreeMap::new(alloc),
        }
    }

    /// The number of a name; none where it is not there or waits for its number. It takes no memory.
    pub fn find(&self, name: &Word) -> Option<u32>
        ensures { result ≡ number_at name.now self.now }
    {
        match self.shelves.get(&length_of(name)) {
            Some(shelf) => shelf.find(name),
            None => None,
        }
    }

    /// Makes a place for a name, which then waits for its number unless it has one, and changes no number, also where
    /// memory is wanting.
    pub fn reserve(&mut self, name: &Word) -> Result<(), NoMemory>
        ensures numbers { (q : List ℕ) → number_at q self.new ≡ number_at q self.old }
        ensures kept { (q : List ℕ) → is_kept q self.old ≡ true → is_kept q self.new ≡ true }
        ensures made { OnOk result (is_kept name.now self.new ≡ true) }
    {
        let length = length_of(name);
        if let Some(shelf) = self.shelves.get_mut(&length) {
            return shelf.reserve(name);
        }
        let mut shelf = Shelf::new(self.alloc, length);
        shelf.reserve(name)?;
        self.shelves.insert(length, shelf)?;
        Ok(())
    }

    /// Gives a name that is there its number. It takes no memory.
    pub fn give(&mut self, name: &Word, number: u32)
        requires { is_kept name.now self.old ≡ true }
        ensures numbers { (q : List ℕ) → number_at q self.new
            ≡ (if bytes_eq name.now q then Some number else number_at q self.old) }
        ensures kept { (q : List ℕ) → is_kept q self.new ≡ is_kept q self.old }
    {
        match self.shelves.get_mut(&length_of(name)) {
            Some(shelf) => shelf.give(name, number),
            None => unreachable!(),
        }
    }

    /// Takes a name out, where it is there. It takes no memory.
    pub fn take_out(&mut self, name: &Word)
        ensures { (q : List ℕ) → number_at q self.new ≡ (if bytes_eq name.now q then None else number_at q self.old) }
    {
        if let Some(shelf) = self.shelves.get_mut(&length_of(name)) {
            shelf.take_out(name);
        }
    }
}

fn length_of(name: &Word) -> usize
    ensures { result ≡ length name.now }
{
    name.as_str().len()
}
