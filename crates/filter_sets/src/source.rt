use facet_index::FacetIndex;
use leaf_table::LeafTable;

/// What filters are answered from: the facet index of some documents, and the table of their leaves.
#[derive(Clone, Copy, Drop)]
pub struct Facets<'a> {
    pub index: &'a FacetIndex,
    pub leaves: &'a LeafTable,
}
