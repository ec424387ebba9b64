use search_base::{Fault, Word};

/// Why an index refuses a search.
#[derive(Debug, Drop)]
pub enum SearchRefusal {
    /// The search sorts, and the ranking rules have no rule `sort`.
    NoSortRule,
    /// The settings do not let a search sort by this attribute. Those before it may be sorted by.
    NotSortable { attribute: Word },
    /// The settings do not let a search filter by this attribute, the first such in the filter's order.
    NotFilterable { attribute: Word },
    /// The settings do not let a search count the values of this attribute, the first such, or search them.
    NotFacet { attribute: Word },
}

/// Why an index gives no answer to a search: a refusal, or want of memory.
pub type SearchFault = Fault<SearchRefusal>;
