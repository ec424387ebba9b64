//! What a search sees of a document: the words of its paths, with their positions, and the values of the paths that are
//! filtered, sorted or counted.
//!
//! Promises that `rows` is exactly its definition in `specs/`, which reads a document path by path. What each path
//! is used for, the caller says. Contracts see a `Document` as its JSON data, a path as its bytes and `DocRows` as
//! a record of lists. Stands on `doc_values`, which walks the document, and on `token_words`, which cuts texts and
//! gives their normal forms.
#![tactic(auto)]

mod laws;
mod path_facets;
mod path_texts;
mod path_use;
mod path_values;
mod path_words;
mod row_list;

pub use laws::texts_stand_apart;
pub use path_use::PathUse;
pub use row_list::rows;
