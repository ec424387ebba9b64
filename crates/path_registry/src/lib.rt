//! Names with a number each, and the registry of the paths that documents have.
//!
//! Promises that a name which waits for its number is given it with no memory, and that a registry numbers its paths
//! in order of arrival. The paths of documents can be met before it is known to which registry they come; registered
//! there, they add what these documents one after the other would.
//! Contracts see a `Places` as the list of its names, each with its number or with none, a `Registry` as its paths with
//! the room that it has for more, and of a `MetPaths` what `AreMet` says.
//! Stands on `doc_values`, which has documents and their walk, and on `search_base`.
#![tactic(auto)]

mod met;
mod places;
mod registry;
mod shelf;
mod short_names;
mod walked;

pub use met::MetPaths;
pub use places::Places;
pub use registry::{MAX_PATHS, Registry};
pub use walked::note_walk;
