ghost use Rattle.std.specs.Prelude.{map};
ghost use Rattle.posting_sets.specs.Blocks.{HaveRanks};
ghost use Rattle.row_index.specs.Standing.{StandsFor, placed};

use row_index::RowIndex;

/// What has an index of rows, and knows of which documents it is the index.
pub trait IndexedRows {
    ghost use Rattle.std.specs.Prelude.{List};
    ghost use Rattle.row_index.specs.Documents.{IndexedDocument};
    ghost use Rattle.doc_search.specs.Rows.{AreRanked};

    // The documents with their rows.
    ghost documents: { Self → List IndexedDocument };

    /// What is kept of the documents.
    fn index(&self) -> &RowIndex
        ensures { StandsFor result.now (documents self.now) };

    /// The rank of each path by its number, where it has one.
    fn ranks(&self) -> &[Option<u16>]
        ensures { HaveRanks result.now (map placed (documents self.now)) };

    /// A number above each rank that a place has.
    fn rank_count(&self) -> u16
        ensures { AreRanked result (documents self.now) };
}
