ghost use Rattle.std.specs.Prelude.{◌≡◌, ℕ, true, ◌++◌, List, [], IfOk};
ghost use Rattle.search_base.specs.RowsView.{RowsView};
ghost use Rattle.facet_keys.specs.Keys.{spelling, key_bytes, IsNarrow};
ghost use Rattle.list_facets.specs.Rows.{AreRowsIn, shown_in as shown_in_rows, has_text};

use facet_keys::{keys_tell_facets_apart, spelling_key};
use postings::Postings;
use search_base::{DocId, NoMemory, PathId, Word};
use std::alloc::Global;

/// How the first leaf of a text is spelled in a document that has one under the path. Looks at the spellings of this
/// text alone.
pub(crate) fn shown_in(
    alloc: Global,
    keys: &Postings,
    path: PathId,
    text: &Word,
    id: DocId,
) -> Result<Word, NoMemory>
    ensures { IfOk result (λ shown. (rows : ℕ → RowsView) → AreRowsIn keys.now rows
        → has_text path.0 text.now (rows id.0) ≡ true → shown ≡ shown_in_rows path.0 text.now (rows id.0)) }
{
    let first = spelling_key(alloc, path, text.as_str(), "")?;
    shown_from(alloc, keys, &first, text, id)
}

// The same, where the keys of all spellings of the text begin as `first`.
fn shown_from(
    alloc: Global,
    keys: &Postings,
    first: &Word,
    text: &Word,
    id: DocId,
) -> Result<Word, NoMemory>
    ensures { IfOk result (λ shown. (rows : ℕ → RowsView) (path : ℕ) → AreRowsIn keys.now rows
        → IsNarrow path (spelling text.now []) → first.now ≡ key_bytes path (spelling text.now [])
        → has_text path text.now (rows id.0) ≡ true → shown ≡ shown_in_rows path text.now (rows id.0)) }
{
    keys_tell_facets_apart();
    for (key, list) in keys.with_prefix(first) {
        if list.pages().contains(u64::from(id.0) << 32) {
            return rest_of(alloc, key, first);
        }
    }
    Ok(text.clone()?)
}

/// What stands behind the beginning of a key that begins so.
pub(crate) fn rest_of(alloc: Global, key: &Word, first: &Word) -> Result<Word, NoMemory>
    ensures { IfOk result (λ rest. (text : List ℕ) → key.now ≡ first.now ++ text → rest ≡ text) }
{
    let rest = key.as_str().strip_prefix(first.as_str());
    Word::new(alloc, rest.unwrap_or(""))
}
