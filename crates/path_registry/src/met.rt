ghost use Rattle.std.specs.Prelude.{◌≡◌, List, [], ◌∷◌, ◌++◌, OnOk, IfSome};
ghost use Rattle.serde_json.specs.Data.{Data};
ghost use Rattle.path_registry.specs.Met.{AreMet, all_registered};

use crate::registry::Registry;
use crate::walked::note_walk;
use doc_values::{Document, paths};
use search_base::{NoMemory, Word};
use std::alloc::Global;

/// The paths of documents that come, each once and in order of arrival, before it is known to which registry they come.
/// Of more paths than a registry may have no more are met.
#[derive(Drop)]
pub struct MetPaths {
    pub(crate) met: Registry,
    pub(crate) spent: bool,
}

impl MetPaths {
    /// The paths of no document. Takes no memory.
    pub fn new(alloc: Global) -> MetPaths
        ensures { AreMet [] result }
    {
        MetPaths {
            met: Registry::new(alloc),
            spent: false,
        }
    }

    /// Meets the paths of one document more. After an error they are of no use.
    pub fn meet(&mut self, alloc: Global, document: &Document) -> Result<(), NoMemory>
        requires { (documents : List Data) × AreMet documents self.old }
        ensures { OnOk result ((documents : List Data) → AreMet documents self.old
            → AreMet (documents ++ document.now ∷ []) self.new) }
    {
        if self.spent {
            return Ok(());
        }
        let none = Registry::new(alloc);
        let walk = paths(alloc, document)?;
        self.spent = note_walk(&none, &none, &mut self.met, walk)?;
        Ok(())
    }

    /// The paths that were met; none where there are more than a registry may have. Takes no memory.
    pub fn into_paths(self) -> Option<Vec<Word>>
        ensures { (documents : List Data) → AreMet documents self
            → IfSome result (λ paths. paths.items ≡ all_registered documents []) }
    {
        if self.spent {
            return None;
        }
        Some(self.met.into_paths())
    }
}
