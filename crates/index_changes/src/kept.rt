use doc_rows::PathUse;
use row_index::RowIndex;

/// What an index keeps of its documents so that no search reads one: the rows that searches see of them, and how the
/// settings use each path of the registry, in its order.
#[derive(Drop)]
pub struct KeptRows {
    pub rows: RowIndex,
    pub uses: Vec<PathUse>,
}
