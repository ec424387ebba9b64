use crate::documents::Documents;
use search_base::Word;
use serde_json::Value;

/// What a change does to its index.
#[derive(Drop)]
pub enum ChangeKind {
    /// Makes the index, with a primary key where one is given.
    Create {
        key: Option<Word>,
    },
    /// Takes the index away.
    Drop,
    /// Stores documents whole, in order; `key` is the primary key that the request names.
    Replace {
        key: Option<Word>,
        documents: Documents,
    },
    /// Stores documents, in order, over those of the same id: top members that a new one does not name stay.
    Update {
        key: Option<Word>,
        documents: Documents,
    },
    /// Takes the documents of these external ids away.
    Remove {
        ids: Vec<Word>,
    },
    /// Takes all documents away.
    Clear,
    /// Changes the settings that the members of a JSON object name.
    Patch {
        members: Value,
    },
    /// Gives all settings their defaults back.
    Reset,
}

/// A change of the index named `uid`. Contracts see it through `change_view`.
#[derive(Drop)]
pub struct Change {
    pub uid: Word,
    pub kind: ChangeKind,
}
