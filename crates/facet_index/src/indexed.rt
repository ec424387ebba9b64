use crate::facet_index::FacetIndex;

/// What has a facet index, and knows of which documents it is the index.
pub trait Indexed {
    ghost use Rattle.std.specs.Prelude.{List};
    ghost use Rattle.facet_index.specs.LeavesView.{LeavesView};
    ghost use Rattle.facet_index.specs.Places.{IsIndexOf};

    // The documents.
    ghost documents: { Self → List LeavesView };

    /// The facet index of the documents.
    fn facets(&self) -> &FacetIndex
        ensures { IsIndexOf result.now (documents self.now) };
}
