ghost use Rattle.std.specs.Prelude.{◌≡◌, ◌+◌, ◌≤◌, length, true, false, None, IfOk, IfSome, IfNone, OnOk, OnErr, if◌then◌else◌};
ghost use Rattle.serde_json.specs.View.{view as data_of};
ghost use Rattle.doc_store.specs.Sound.{IsSound};
ghost use Rattle.index_settings.specs.Patch.{patched};
ghost use Rattle.index_settings.specs.Table.{defaults, patch_fault};
ghost use Rattle.search_settings.specs.Uses.{use_alike as are_alike};
ghost use Rattle.index_changes.specs.Fetches.{LeavesUses, LeavesWords};
ghost use Rattle.search_settings.specs.QueryWords.{AreWordsOf};
ghost use Rattle.index_changes.specs.Indexed.{IsIndexed};

use crate::kept::KeptRows;
use doc_index::index_of_all;
use doc_store::DocStore;
use index_settings::{Settings, patch_checked};
use search_base::{NoMemory, Steps, Word};
use search_settings::{QueryWords, use_alike, uses_of};
use serde_json::Value;
use std::alloc::Global;

/// Gives an index's settings the members of a patch that is not refused, and keeps its words for queries. What the
/// patch does not name is not looked at. All memory is taken before anything changes.
pub fn patch_settings<F>(
    alloc: Global,
    store: &DocStore,
    kept: &mut KeptRows,
    words: &mut QueryWords,
    settings: &mut Settings,
    members: &Value,
    fetches: &mut Steps<F>,
) -> Result<(), NoMemory>
    requires good { patch_fault (data_of members.now) ≡ None }
    requires indexed { IsIndexed kept.old settings.old store.now.content }
    requires words { AreWordsOf words.old settings.old }
    ensures indexed { IsIndexed kept.new settings.new store.now.content }
    ensures words { AreWordsOf words.new settings.new }
    ensures settings { OnOk result (settings.new ≡ patched defaults settings.old (data_of members.now)) }
    ensures stays { OnErr result (settings.new ≡ settings.old) }
    ensures fetches { OnOk result (fetches.new ≡ fetches.old
        + (if are_alike (patched defaults settings.old
        (data_of members.now)) settings.old store.now.content.paths then 0 else length store.now.content.rows)) }
    ensures at_most { fetches.new ≤ fetches.old
        + (if are_alike (patched defaults settings.old
        (data_of members.now)) settings.old store.now.content.paths then 0 else length store.now.content.rows) }
{
    let others = patch_checked(alloc, settings, members)?;
    let named = words_named(alloc, &others, members)?;
    let may_differ = names_uses(members);
    settle(alloc, store, kept, settings, others, may_differ, fetches)?;
    if let Some(named) = named {
        *words = named;
    }
    Ok(())
}

// Whether a patch names a member that says how paths are used.
fn names_uses(members: &Value) -> bool
    ensures { result ≡ false → LeavesUses (data_of members.now) }
{
    members.get("searchableAttributes").is_some()
        || members.get("filterableAttributes").is_some()
        || members.get("sortableAttributes").is_some()
        || members.get("rankingRules").is_some()
}

// The words that the settings give after a patch, where the patch names a member that gives words.
fn words_named(
    alloc: Global,
    settings: &Settings,
    members: &Value,
) -> Result<Option<QueryWords>, NoMemory>
    ensures named { IfOk result (λ found. IfSome found (λ words. AreWordsOf words settings.now)) }
    ensures not_named { IfOk result (λ found. IfNone found (LeavesWords (data_of members.now))) }
{
    if members.get("stopWords").is_some() || members.get("synonyms").is_some() {
        Ok(Some(QueryWords::of(alloc, settings)?))
    } else {
        Ok(None)
    }
}

/// Gives an index the settings of a new one. All memory is taken before anything changes.
pub fn reset_settings<F>(
    alloc: Global,
    store: &DocStore,
    kept: &mut KeptRows,
    words: &mut QueryWords,
    settings: &mut Settings,
    fetches: &mut Steps<F>,
) -> Result<(), NoMemory>
    requires indexed { IsIndexed kept.old settings.old store.now.content }
    requires words { AreWordsOf words.old settings.old }
    ensures indexed { IsIndexed kept.new settings.new store.now.content }
    ensures words { AreWordsOf words.new settings.new }
    ensures settings { OnOk result (settings.new ≡ defaults) }
    ensures stays { OnErr result (settings.new ≡ settings.old) }
    ensures fetches { OnOk result (fetches.new ≡ fetches.old
        + (if are_alike defaults settings.old store.now.content.paths then 0 else length store.now.content.rows)) }
    ensures at_most { fetches.new ≤ fetches.old
        + (if are_alike defaults settings.old store.now.content.paths then 0 else length store.now.content.rows) }
{
    let others = Settings::defaults(alloc)?;
    let named = QueryWords::of(alloc, &others)?;
    settle(alloc, store, kept, settings, others, true, fetches)?;
    *words = named;
    Ok(())
}

// Gives an index other settings. Its documents are indexed anew where some path is used otherwise, and then each is
// read once. The uses of paths are compared only where they may differ. All memory is taken
// before anything changes.
fn settle<F>(
    alloc: Global,
    store: &DocStore,
    kept: &mut KeptRows,
    settings: &mut Settings,
    others: Settings,
    may_differ: bool,
    fetches: &mut Steps<F>,
) -> Result<(), NoMemory>
    requires indexed { IsIndexed kept.old settings.old store.now.content }
    requires same { may_differ ≡ false → are_alike others settings.old store.now.content.paths ≡ true }
    ensures indexed { IsIndexed kept.new settings.new store.now.content }
    ensures settings { OnOk result (settings.new ≡ others) }
    ensures stays { OnErr result (settings.new ≡ settings.old) }
    ensures fetches { OnOk result (fetches.new ≡ fetches.old
        + (if are_alike others settings.old store.now.content.paths then 0 else length store.now.content.rows)) }
    ensures at_most { fetches.new ≤ fetches.old
        + (if are_alike others settings.old store.now.content.paths then 0 else length store.now.content.rows) }
{
    if stay_alike(&others, settings, store.paths(), may_differ) {
        *settings = others;
        return Ok(());
    }
    *kept = index_of_store(alloc, store, &others, fetches)?;
    *settings = others;
    Ok(())
}

// Whether both settings use the paths alike. Uses that cannot differ are not looked at.
fn stay_alike(settings: &Settings, others: &Settings, paths: &[Word], may_differ: bool) -> bool
    requires few { length paths.now ≤ 1000 }
    requires same { may_differ ≡ false → are_alike settings.now others.now paths.now ≡ true }
    ensures { result ≡ are_alike settings.now others.now paths.now }
{
    if may_differ {
        use_alike(settings, others, paths)
    } else {
        true
    }
}

// The index of all documents of a store under these settings. Each document is read once.
fn index_of_store<F>(
    alloc: Global,
    store: &DocStore,
    settings: &Settings,
    fetches: &mut Steps<F>,
) -> Result<KeptRows, NoMemory>
    requires sound { IsSound store.now.content }
    ensures indexed { IfOk result (λ kept. IsIndexed kept settings.now store.now.content) }
    ensures fetches { OnOk result (fetches.new ≡ fetches.old + length store.now.content.rows) }
    ensures at_most { fetches.new ≤ fetches.old + length store.now.content.rows }
{
    let uses = uses_of(alloc, settings, store.paths())?;
    let rows = index_of_all(alloc, store, uses.as_slice(), fetches)?;
    Ok(KeptRows { rows, uses })
}
