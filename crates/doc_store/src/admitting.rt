ghost use Rattle.std.specs.Prelude.{◌≡◌, ◌+◌, ◌≤◌, ◌++◌, List, [], length, map, false, Err, OnOk, IfErr};
ghost use Rattle.search_base.specs.Gives.{Checks};
ghost use Rattle.doc_store.specs.Admitting.{IsAdmitting, IsNoted, if_spent};
ghost use Rattle.path_registry.specs.Names.{Names};
ghost use Rattle.doc_store.specs.Store.{Store};
ghost use Rattle.doc_store.specs.StoreView.{IsAdmitted};
ghost use Rattle.doc_store.specs.declared.rows.StoreRow.{StoreRow as Row};

use crate::rows::{StoreFault, StoreRefusal};
use path_registry::{MAX_PATHS, Places, Registry};
use search_base::{DocId, Fault, Word};
use std::alloc::Global;
use std::marker::Model;

/// What documents that come take of a store: the internal id of each, and the paths that the registry gains.
#[derive(Drop)]
pub struct Admission {
    pub(crate) ids: Vec<DocId>,
    pub(crate) added: Vec<Word>,
}

impl Model for Admission {
    ghost use Rattle.std.specs.Prelude.{map};
    ghost use Rattle.doc_store.specs.StoreView.{AdmissionView};
    ghost use Rattle.doc_store.specs.Codes.{admission_code};

    ghost Value = { AdmissionView };

    ghost coded = { admission_code };

    ghost view = { λ a. record { ids = map (λ id. id.0) a.ids.items; added = a.added.items } };
}

impl Admission {
    /// The internal id of each document, in order.
    pub fn ids(&self) -> &[DocId]
        ensures { map (λ id. id.0) result.now ≡ self.now.ids }
    {
        self.ids.as_slice()
    }

    /// The paths that the registry gains, in order.
    pub fn added(&self) -> &[Word]
        ensures { result.now ≡ self.now.added }
    {
        self.added.as_slice()
    }
}

/// Documents that are being admitted to a store, to which more may come. It is of use for the store that it was begun
/// for, while nothing changes what that holds.
#[derive(Drop)]
pub struct Admitting {
    pub(crate) fresh: Places,
    pub(crate) free: u32,
    pub(crate) ids: Vec<DocId>,
    pub(crate) added: Registry,
}

/// The paths that the registry gains by documents which are read one after the other, and are admitted then. Of more
/// paths than a registry may have no more are noted.
#[derive(Drop)]
pub struct NewPaths {
    pub(crate) fresh: Registry,
    pub(crate) spent: bool,
}

impl Admitting {
    /// The paths of no document behind those that are admitted so far. It takes no memory.
    pub fn new_paths(&self, alloc: Global) -> NewPaths
        ensures { (ids : Names) (s : Store) (before : List Row) → IsAdmitting ids s before self.now
            → IsNoted s self.now [] result }
    {
        NewPaths {
            fresh: Registry::new(alloc),
            spent: false,
        }
    }

    /// The admission of all documents so far. It takes no memory.
    pub fn finish(self) -> Admission
        ensures { (ids : Names) (s : Store) (before : List Row) → IsAdmitting ids s before self
            → IsAdmitted s before result }
    {
        let Admitting { ids, added, .. } = self;
        Admission {
            ids,
            added: added.into_paths(),
        }
    }
}

/// Adds the paths that were noted behind those that the registry gains, unless there are too many.
pub(crate) fn add_noted(added: &mut Registry, new: NewPaths) -> Result<(), StoreFault>
    requires { new.spent ≡ false → length added.old.paths + length new.fresh.paths ≤ MAX_PATHS }
    ensures added { OnOk result (added.new.paths ≡ added.old.paths ++ new.fresh.paths) }
    ensures few { OnOk result (new.spent ≡ false) }
    ensures spent { IfErr result (λ fault. Checks (Err fault) (if_spent new.spent)) }
{
    if new.spent {
        return Err(Fault::Refused(StoreRefusal::PathsSpent));
    }
    for path in new.fresh.into_paths() {
        added.add(path)?;
    }
    Ok(())
}
