ghost use Rattle.std.specs.Prelude.{◌≡◌, ℕ, List, [], Bool, true, false, None, OnOk, bytes_eq, if◌then◌else◌};
ghost use Rattle.path_registry.specs.Names.{number_at, is_kept};

use crate::short_names::short_key;
use search_base::{NoMemory, Word};
use std::alloc::Global;
use std::collections::BTreeMap;
use std::marker::Model;

/// Names with a number each, which are to have one length. A name can wait for its number, so that giving it takes no
/// memory. Names of that length stand as numbers, in the order of words, where they have 1 to 8 bytes. Any other name
/// that is kept is a copy of the word that it came as.
#[derive(Drop)]
pub(crate) struct Shelf {
    length: usize,
    short: BTreeMap<u64, Option<u32>>,
    others: BTreeMap<Word, Option<u32>>,
}

impl Model for Shelf {
    ghost use Rattle.path_registry.specs.Names.{Names};
    ghost use Rattle.path_registry.specs.ShortNames.{names_of, AreOthers};

    ghost Value = { Names };

    ghost view = { λ p. names_of p.length p.short.entries p.others.entries };

    ghost invariant = { λ p. AreOthers p.length p.others.entries };
}

impl Shelf {
    /// The empty shelf for names of a length.
    pub(crate) fn new(alloc: Global, length: usize) -> Shelf
        ensures { result ≡ [] }
    {
        Shelf {
            length,
            short: BTreeMap::new(alloc),
            others: BTreeMap::new(alloc),
        }
    }

    /// The number of a name. It takes no memory.
    pub(crate) fn find(&self, name: &Word) -> Option<u32>
        ensures { result ≡ number_at name.now self.now }
    {
        if let Some(key) = short_key(self.length, name) {
            return self.short.get(&key).copied().flatten();
        }
        self.others.get(name).copied().flatten()
    }

    /// Makes a place for a name, which then waits for its number, and changes no number.
    pub(crate) fn reserve(&mut self, name: &Word) -> Result<(), NoMemory>
        ensures numbers { (q : List ℕ) → number_at q self.new ≡ number_at q self.old }
        ensures kept { (q : List ℕ) → is_kept q self.old ≡ true → is_kept q self.new ≡ true }
        ensures only { (q : List ℕ) → bytes_eq name.now q ≡ false → is_kept q self.new ≡ is_kept q self.old }
        ensures made { OnOk result (is_kept name.now self.new ≡ true) }
    {
        if let Some(key) = short_key(self.length, name) {
            if self.short.contains_key(&key) {
                return Ok(());
            }
            self.short.insert(key, None)?;
            return Ok(());
        }
        if self.others.contains_key(name) {
            return Ok(());
        }
        self.others.insert(name.clone()?, None)?;
        Ok(())
    }

    /// Gives a name that is there its number. It takes no memory.
    pub(crate) fn give(&mut self, name: &Word, number: u32)
        requires { is_kept name.now self.old ≡ true }
        ensures numbers { (q : List ℕ) → number_at q self.new
            ≡ (if bytes_eq name.now q then Some number else number_at q self.old) }
        ensures kept { (q : List ℕ) → is_kept q self.new ≡ is_kept q self.old }
    {
        if let Some(key) = short_key(self.length, name) {
            match self.short.get_mut(&key) {
                Some(held) => *held = Some(number),
                None => unreachable!(),
            }
            return;
        }
        match self.others.get_mut(name) {
            Some(held) => *held = Some(number),
            None => unreachable!(),
        }
    }

    /// Takes a name out. It takes no memory.
    pub(crate) fn take_out(&mut self, name: &Word)
        ensures numbers { (q : List ℕ) → number_at q self.new
            ≡ (if bytes_eq name.now q then None else number_at q self.old) }
        ensures only { (q : List ℕ) → is_kept q self.new ≡ true → is_kept q self.old ≡ true }
    {
        if let Some(key) = short_key(self.length, name) {
            let _number = self.short.remove(&key);
            return;
        }
        let _number = self.others.remove(name);
    }
}
