// What a search found, as a text.
ghost use Rattle.std.specs.Prelude.{◌≡◌, ◌++◌, IfOk, OnOk, codes, map, string_bytes, false, true};
ghost use Rattle.std.specs.Option.{option_copied};
ghost use Rattle.serde_json.specs.Data.{Members, member, array};
ghost use Rattle.serde_json.specs.View.{items_of};
ghost use Rattle.serde_json.specs.Written.{compact_text, members_text};
ghost use Rattle.request_replies.specs.Facets.{facet_members};
ghost use Rattle.search_replies.specs.Shown.{shown_by};
ghost use Rattle.search_result.specs.View.{found_view};
ghost use Rattle.request_replies.specs.Replies.{found_data, shown_with, total_pages as total_pages_of, with_estimate, with_index, window_members};

use crate::facets::put_facets;
use search_base::{NoMemory, Word};
use search_call::{SearchCall, Window};
use search_replies::{Display, put_comma, put_hits, quoted_text};
use search_result::SearchResult;
use std::alloc::Global;

/// What a search found, with its hits by the displayed members that the call asks for, and with the uid of its index,
/// where that is shown.
pub(crate) fn found_text(
    alloc: Global,
    uid: Option<&str>,
    call: &SearchCall,
    displayed: &[Word],
    found: &SearchResult,
) -> Result<String, NoMemory>
    ensures { IfOk result (λ text. string_bytes text ≡ compact_text (shown_with (option_copied uid.entry)
        (found_data displayed.now call.now found.now.terms.items (found_view found.now)))) }
{
    let display = Display::new(alloc, displayed, call, found.terms.as_slice())?;
    let mut text = String::from_str(alloc, "{")?;
    put_found(alloc, &mut text, call.window, &display, found)?;
    let rest = window_text(alloc, uid, call.q.as_str(), call.window, found.total)?;
    text.push_str(&rest)?;
    Ok(text)
}

// Puts what stands before the window: the number of hits in all, where it stands at the front, the counts, and the hits
// as `display` shows them.
fn put_found(
    alloc: Global,
    text: &mut String,
    window: Window,
    display: &Display,
    found: &SearchResult,
) -> Result<(), NoMemory>
    ensures { OnOk result ((rest : Members) → string_bytes text.new ++ members_text true rest
        ≡ string_bytes text.old ++ members_text false (with_estimate window found.now.total
        (facet_members (found_view found.now).facets (member (codes "hits")
        (array (items_of (map (shown_by display.now) (found_view found.now).hits))) rest)))) }
{
    let later = put_estimate(alloc, text, window, found.total)?;
    let later = put_facets(alloc, text, later, found.all_facets())?;
    put_comma(text, later)?;
    text.push_str("\"hits\":")?;
    put_hits(alloc, text, display, found.hits.as_slice())?;
    Ok(())
}

// Puts the number of hits in all, where it stands at the front. Says whether something stands there now.
fn put_estimate(
    alloc: Global,
    text: &mut String,
    window: Window,
    total: u64,
) -> Result<bool, NoMemory>
    ensures { IfOk result (λ after. (rest : Members)
        → string_bytes text.new ++ members_text after rest
        ≡ string_bytes text.old ++ members_text false (with_estimate window total rest)) }
{
    match window {
        Window::Slice { .. } => {
            let estimate = format!(in alloc; "\"estimatedTotalHits\":{total}")?;
            text.push_str(&estimate)?;
            Ok(true)
        }
        Window::Page { .. } => Ok(false),
    }
}

// What stands behind the hits, with the end of the object.
fn window_text(
    alloc: Global,
    uid: Option<&str>,
    q: &str,
    window: Window,
    total: u64,
) -> Result<String, NoMemory>
    ensures { IfOk result (λ text. string_bytes text
        ≡ members_text true (window_members (option_copied uid.entry) q.now window total)) }
{
    let index = index_text(alloc, uid)?;
    let q = quoted_text(alloc, q)?;
    match window {
        Window::Slice { offset, limit } => Ok(format!(in alloc;
            "{index},\"limit\":{limit},\"offset\":{offset},\"query\":{q}}}"
        )?),
        Window::Page { page, per } => {
            let pages = total_pages(total, per);
            Ok(format!(in alloc;
                ",\"hitsPerPage\":{per}{index},\"page\":{page},\"query\":{q},\"totalHits\":{total},\"totalPages\":{}}}",
                pages
            )?)
        }
    }
}

// The member that has the uid of the index, behind others, where it is shown.
fn index_text(alloc: Global, uid: Option<&str>) -> Result<String, NoMemory>
    ensures { IfOk result (λ text. (rest : Members) → string_bytes text ++ members_text true rest
        ≡ members_text true (with_index (option_copied uid.entry) rest)) }
{
    match uid {
        Some(uid) => {
            let uid = quoted_text(alloc, uid)?;
            Ok(format!(in alloc; ",\"indexUid\":{uid}")?)
        }
        None => Ok(String::new(alloc)),
    }
}

fn total_pages(total: u64, per: u64) -> u64
    ensures { result ≡ total_pages_of total per }
{
    if per == 0 {
        return 0;
    }
    total.div_ceil(per)
}
