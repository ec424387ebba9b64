ghost use Rattle.std.specs.Prelude.{◌≡◌};
ghost use Rattle.std.specs.Option.{option_map};

use facet_counts::FacetReply;
use search_base::DocId;
use search_call::SearchCall;

/// What a search found, before its documents are read: the internal ids of the hits, the number of matches, of which no
/// more are counted than the settings say, and the counts that are asked for.
#[derive(Drop)]
pub(crate) struct Findings {
    pub(crate) ids: Vec<DocId>,
    pub(crate) total: u64,
    pub(crate) facets: Option<Vec<FacetReply>>,
}

/// The counts, where a search asks for counts.
pub(crate) fn if_asked(call: &SearchCall, replies: Vec<FacetReply>) -> Option<Vec<FacetReply>>
    ensures { option_map (λ facets. facets.items) result ≡ option_map (λ _. replies.items) call.now.facets }
{
    match &call.facets {
        Some(_) => Some(replies),
        None => None,
    }
}
