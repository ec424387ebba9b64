// What was read of documents on their way in, so that nobody has to read them for it again.
use search_base::Word;

/// Notes on documents: their ids under a key, and their paths, each once and in order of arrival.
#[derive(Clone, Drop)]
pub(crate) struct Notes {
    /// The key under which the ids are.
    pub key: Word,
    /// Whether the first document gives this key.
    pub inferred: bool,
    pub ids: Vec<Word>,
    pub paths: Vec<Word>,
}
