ghost use Rattle.std.specs.Prelude.{◌≡◌, ◌↔◌, ◌+◌, ◌-◌, ◌^◌, [], ◌∷◌, ◌++◌, true, false, Some, IfOk, OnOk, OnErr, IsErr, Contains, is_some, min};
ghost use Rattle.std.specs.Option.{option_map};
ghost use Rattle.outside_io.specs.Faults.{HasCause, more_faults};
ghost use Rattle.link_doors.specs.Doors.{Comes};
ghost use Rattle.link_doors.specs.MemoryDoor.{MemoryDoorState, new_door};

use crate::Door;
use outside_io::{Failed, MemoryLink};
use search_base::NoMemory;
use std::alloc::Global;
use std::marker::Model;

/// A door in memory, which tells its links and fails at the calls that it is told.
#[derive(Drop)]
pub struct MemoryDoor {
    // The links that still come, the next one last.
    coming: Vec<MemoryLink>,
    returned: Vec<MemoryLink>,
    failing: Vec<u64>,
    calls: u64,
    is_open: bool,
    is_out: bool,
    faults: u64,
}

impl Model for MemoryDoor {
    ghost use Rattle.std.specs.Prelude.{◌+◌, ◌≤◌, reverse, vec_len, vec_capacity, if◌then◌else◌};
    ghost use Rattle.link_doors.specs.MemoryDoor.{MemoryDoorState};

    ghost Value = { MemoryDoorState };

    ghost view = { λ d. record {
      coming = reverse d.coming.items;
      returned = d.returned.items;
      failing = d.failing.items;
      calls = d.calls;
      is_open = d.is_open;
      is_out = d.is_out;
      faults = d.faults;
    } };

    // There is room for each link that is still to be given back.
    ghost invariant = { λ d.
        vec_len d.coming + (if d.is_out then 1 else 0) + vec_len d.returned ≤ vec_capacity d.returned };
}

impl MemoryDoor {
    /// A closed door that gives these links in this order, and fails at the calls of these numbers,
    /// counted over `open` and `next` together from 0. There is room in it for each link to come
    /// back.
    pub fn new(
        alloc: Global,
        links: Vec<MemoryLink>,
        failing: Vec<u64>,
    ) -> Result<MemoryDoor, NoMemory>
        ensures { IfOk result (λ door. door ≡ new_door links.items failing.items) }
    {
        let mut coming = links;
        coming.reverse();
        let returned = Vec::with_capacity(alloc, coming.len())?;
        Ok(MemoryDoor {
            coming,
            returned,
            failing,
            calls: 0,
            is_open: false,
            is_out: false,
            faults: 0,
        })
    }

    /// The links that were given back, in that order.
    pub fn returned(&self) -> &[MemoryLink]
        ensures { result.now ≡ self.now.returned }
    {
        &self.returned
    }

    // Counts a call of `open` or `next`, which fails where its number is listed.
    fn start(&mut self) -> Result<(), Failed>
        ensures cause { HasCause self.old.faults self.new.faults result }
        ensures listed { IsErr result ↔ Contains self.old.failing self.old.calls }
        ensures rest { self.new ≡ record self.old {
          calls = min (self.old.calls + 1) (2 ^ 64 - 1);
          faults = more_faults self.old.faults result;
        } }
    {
        let listed = self.failing.contains(&self.calls);
        self.calls = self.calls.saturating_add(1);
        if listed {
            self.faults = self.faults.saturating_add(1);
            return Err(Failed);
        }
        Ok(())
    }
}

impl Door for MemoryDoor {
    type Link = MemoryLink;

    ghost coming = { λ d. Some d.coming };

    ghost returned = { λ d. Some d.returned };

    ghost is_open = { λ d. d.is_open };

    ghost is_out = { λ d. d.is_out };

    ghost door_faults = { λ d. d.faults };

    fn open(&mut self, _port: u16) -> Result<(), Failed>
        ensures opened { OnOk result (self.new.is_open ≡ true) }
        ensures failed { OnErr result (self.new.is_open ≡ self.old.is_open) }
        ensures out { self.new.is_out ≡ self.old.is_out }
        ensures coming { Some self.new.coming ≡ Some self.old.coming }
        ensures returned { Some self.new.returned ≡ Some self.old.returned }
        ensures cause { HasCause self.old.faults self.new.faults result }
        // It fails exactly where its number is listed.
        ensures listed { IsErr result ↔ Contains self.old.failing self.old.calls }
        ensures rest { self.new ≡ record self.old {
          calls = min (self.old.calls + 1) (2 ^ 64 - 1);
          is_open = self.new.is_open;
          faults = more_faults self.old.faults result;
        } }
    {
        let outcome = self.start();
        if outcome.is_ok() {
            self.is_open = true;
        }
        outcome
    }

    fn next(&mut self) -> Result<Option<MemoryLink>, Failed>
        requires open { self.old.is_open ≡ true }
        requires none_out { self.old.is_out ≡ false }
        ensures given { IfOk result (λ link. Comes (Some self.old.coming) (Some self.new.coming) link) }
        ensures failed { OnErr result (Some self.new.coming ≡ Some self.old.coming) }
        ensures out { IfOk result (λ link. self.new.is_out ≡ is_some link) }
        ensures none_out { OnErr result (self.new.is_out ≡ false) }
        ensures open { self.new.is_open ≡ true }
        ensures returned { Some self.new.returned ≡ Some self.old.returned }
        ensures cause { HasCause self.old.faults self.new.faults result }
        // It fails exactly where its number is listed.
        ensures listed { IsErr result ↔ Contains self.old.failing self.old.calls }
        ensures rest { self.new ≡ record self.old {
          coming = self.new.coming;
          calls = min (self.old.calls + 1) (2 ^ 64 - 1);
          is_out = self.new.is_out;
          faults = more_faults self.old.faults result;
        } }
    {
        self.start()?;
        match self.coming.pop() {
            None => Ok(None),
            Some(link) => {
                self.is_out = true;
                Ok(Some(link))
            }
        }
    }

    fn give_back(&mut self, link: MemoryLink)
        requires { self.old.is_out ≡ true }
        ensures out { self.new.is_out ≡ false }
        ensures returned { Some self.new.returned ≡ option_map (λ links. links ++ link ∷ []) (Some self.old.returned) }
        ensures coming { Some self.new.coming ≡ Some self.old.coming }
        ensures open { self.new.is_open ≡ self.old.is_open }
        ensures faults { self.new.faults ≡ self.old.faults }
        // Nothing else changes.
        ensures rest { self.new ≡ record self.old {
          returned = self.old.returned ++ link ∷ [];
          is_out = false;
        } }
    {
        self.is_out = false;
        self.returned.push_reserved(link);
    }
}
