// A search of an index, as it is shown alone or as one of several.
ghost use Rattle.std.specs.Prelude.{◌≡◌, ◌+◌, ◌≤◌, IfOk};
ghost use Rattle.serde_json.specs.Written.{compact_text};
ghost use Rattle.http_wire.specs.Sent.{IsSentAs};
ghost use Rattle.bucket_sort.specs.Opens.{log_state, Opens, is_starved};
ghost use Rattle.request_replies.specs.Replies.{answer, with_uid};
ghost use Rattle.search_base.specs.Gives.{Gives};
ghost use Rattle.search_routes.specs.Found.{shown_data};
ghost use Rattle.search_routes.specs.Machine.{search_refusal as refusal_of_search, searched};
ghost use Rattle.search_routes.specs.Needs.{search_need};
ghost use Rattle.search_routes.specs.Openings.{search_opened, search_most};

use crate::indexes::index_named;
use bucket_sort::BucketLog;
use http_wire::Reply;
use index_settings::Settings;
use named_indexes::Indexes;
use request_refusals::Refusal;
use request_replies::{ResultText, hits_reply, result_text};
use search_base::{Fault, NoMemory, Steps, Word};
use search_call::SearchCall;
use search_result::SearchResult;
use search_settings::SearchRefusal;
use std::alloc::Global;

/// What a search found, with the settings of its index.
#[derive(Drop)]
pub(crate) struct Shown<'a> {
    settings: &'a Settings,
    found: SearchResult<'a>,
}

/// Searches the index of this uid.
pub(crate) fn search_index<'a, F, G>(
    alloc: Global,
    indexes: &'a Indexes,
    uid: &Word,
    call: &SearchCall,
    log: &mut Box<dyn BucketLog>,
    fetches: &mut Steps<F>,
    openings: &mut Steps<G>,
) -> Result<Shown<'a>, Fault<Refusal>>
    ensures answer { Gives (shown_data call.now) result (searched indexes.now uid.now call.now) }
    ensures fetched { fetches.new ≤ fetches.old + search_need indexes.now uid.now call.now }
    ensures opens { Opens (is_starved result) (search_opened indexes.now uid.now call.now)
        (log_state (told log.old) openings.old) (log_state (told log.new) openings.new) }
    ensures few { openings.new ≤ openings.old + search_most indexes.now uid.now call.now }
{
    let index = index_named(indexes, uid)?;
    let found = match index.search(alloc, call, log, fetches, openings) {
        Ok(found) => found,
        Err(Fault::Refused(refusal)) => return Err(Fault::Refused(search_refusal(refusal))),
        Err(Fault::NoMemory) => return Err(Fault::NoMemory),
    };
    Ok(Shown {
        settings: index.settings(),
        found,
    })
}

/// The reply to a search that found this.
pub(crate) fn shown_reply(
    alloc: Global,
    call: &SearchCall,
    shown: &Shown,
) -> Result<Reply, NoMemory>
    ensures { IfOk result (λ reply. IsSentAs reply (answer 200 (shown_data call.now shown.now))) }
{
    let displayed = shown.settings.displayed_attributes();
    hits_reply(alloc, call, displayed, &shown.found)
}

/// What one of several searches found, with the uid of its index.
pub(crate) fn shown_text(
    alloc: Global,
    uid: &str,
    call: &SearchCall,
    shown: &Shown,
) -> Result<ResultText, NoMemory>
    ensures { IfOk result (λ text. text ≡ compact_text (with_uid uid.now (shown_data call.now shown.now))) }
{
    let displayed = shown.settings.displayed_attributes();
    result_text(alloc, uid, call, displayed, &shown.found)
}

// Why a search is refused, by why its index refuses it.
fn search_refusal(refusal: SearchRefusal) -> Refusal
    ensures { result ≡ refusal_of_search refusal }
{
    match refusal {
        SearchRefusal::NoSortRule => Refusal::NoSortRule,
        SearchRefusal::NotSortable { attribute } => Refusal::NotSortable { attribute },
        SearchRefusal::NotFilterable { attribute } => Refusal::NotFilterable { attribute },
        SearchRefusal::NotFacet { attribute } => Refusal::NotFacet { attribute },
    }
}
