use doc_values::DocumentText;
use index_settings::Settings;
use search_base::{DocId, OutcomeRow, Word};

/// A document under its internal id.
#[derive(Drop)]
pub struct ImageDocument {
    pub id: DocId,
    pub document: DocumentText,
}

/// An index: its paths in the order of the registry, and its documents by internal ids.
#[derive(Drop)]
pub struct ImageIndex {
    pub uid: Word,
    pub key: Option<Word>,
    pub next_id: u32,
    pub paths: Vec<Word>,
    pub settings: Settings,
    pub documents: Vec<ImageDocument>,
}

/// A state: the count of changes, the indexes by uids, and the outcomes of the last of these changes, the oldest first.
/// Contracts see it through `image_view`.
#[derive(Drop)]
pub struct ImageRows {
    pub changes: u64,
    pub indexes: Vec<ImageIndex>,
    pub outcomes: Vec<OutcomeRow>,
}
