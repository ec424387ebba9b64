// A list of documents, as a text.
ghost use Rattle.std.specs.Prelude.{◌≡◌, IfOk, map, string_bytes};
ghost use Rattle.serde_json.specs.Written.{compact_text};
ghost use Rattle.search_replies.specs.Shown.{all_shown};
ghost use Rattle.request_replies.specs.Replies.{listing_data};

use doc_values::DocumentText;
use search_base::{NoMemory, Word};
use search_replies::put_documents;
use std::alloc::Global;

/// The body of a list of documents, by the members that `fields` names.
pub(crate) fn listing_text(
    alloc: Global,
    offset: u64,
    limit: u64,
    fields: &[Word],
    documents: &[&DocumentText],
    total: u64,
) -> Result<String, NoMemory>
    ensures { IfOk result (λ text. string_bytes text
        ≡ compact_text (listing_data offset limit (all_shown fields.now (map (λ d. d.now) documents.now)) total)) }
{
    let mut text = format!(in alloc; "{{\"limit\":{limit},\"offset\":{offset},\"results\":")?;
    put_documents(alloc, &mut text, fields, documents)?;
    let rest = format!(in alloc; ",\"total\":{total}}}")?;
    text.push_str(&rest)?;
    Ok(text)
}
