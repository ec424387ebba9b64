//! What a search found, as the index that found it hands it out and as replies show it.
//!
//! A `SearchResult` holds data and promises nothing. Contracts see it as a `Found`, by `found_view`, and a `Hit` of it
//! as a `HitView`. The crate stands on `doc_values` for documents, `facet_counts` for counts and `search_base` for costs
//! and terms, and on nothing that searches or replies.
#![tactic(auto)]

ghost use Rattle.std.specs.Prelude.{◌≡◌};
ghost use Rattle.std.specs.Option.{option_copied, option_map};
ghost use Rattle.search_result.specs.View.{hit_view};

use doc_values::DocumentText;
use facet_counts::FacetReply;
use search_base::{CostKey, Term};

/// A document that a search found, and its costs, where the search asks for them: an entry for each ranking rule that is
/// built, in the order of the rules.
#[derive(Drop)]
pub struct Hit<'a> {
    pub document: &'a DocumentText,
    pub costs: Option<Vec<CostKey>>,
}

impl<'a> Hit<'a> {
    /// The costs, where there are some.
    pub fn all_costs(&self) -> Option<&[CostKey]>
        ensures { option_copied result ≡ (hit_view self.now).costs }
    {
        match &self.costs {
            Some(costs) => Some(costs.as_slice()),
            None => None,
        }
    }
}

/// What a search found: the hits that were asked for, the best match first, the terms of the query, where hits show
/// which of their words are matched, how many documents match, and the counts of attributes over all of these, where
/// they are asked for. No more matches are counted or handed out than the settings say, and no more values of an
/// attribute.
#[derive(Drop)]
pub struct SearchResult<'a> {
    pub hits: Vec<Hit<'a>>,
    pub terms: Vec<Term>,
    pub total: u64,
    pub facets: Option<Vec<FacetReply>>,
}

impl<'a> SearchResult<'a> {
    /// The counts, where there are some.
    pub fn all_facets(&self) -> Option<&[FacetReply]>
        ensures { option_copied result ≡ option_map (λ facets. facets.items) self.now.facets }
    {
        match &self.facets {
            Some(facets) => Some(facets.as_slice()),
            None => None,
        }
    }
}
