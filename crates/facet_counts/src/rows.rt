use search_base::{PathId, Word};
use std::marker::Model;

/// An attribute whose values are counted, and its path in the registry, where it has one.
#[derive(Debug, Drop)]
pub struct FacetPath {
    pub attribute: Word,
    pub path: Option<PathId>,
}

/// A value that documents have, by its normal form or its decimal text, with the spelling of its first leaf and the
/// number of documents that have it.
#[derive(Debug, Drop)]
pub struct CountRow {
    pub value: Word,
    pub shown: Word,
    pub count: u64,
}

/// The values of an attribute in the order of their bytes, and the least and the greatest number, where there is one.
#[derive(Debug, Drop)]
pub struct FacetReply {
    pub attribute: Word,
    pub rows: Vec<CountRow>,
    pub stats: Option<(i128, i128)>,
}

impl Model for FacetReply {
    ghost use Rattle.facet_counts.specs.FacetView.{FacetView};

    ghost Value = { FacetView };

    ghost view = { λ reply. record { attribute = reply.attribute; rows = reply.rows.items; stats = reply.stats } };
}
