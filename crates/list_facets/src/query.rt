use search_base::{PathId, Word};

/// Values that are asked for: the first `most` of those under a path that begin as the prefix, a text in normal form.
#[derive(Debug, Drop)]
pub struct FacetQuery {
    pub path: PathId,
    pub prefix: Word,
    pub most: u64,
}
