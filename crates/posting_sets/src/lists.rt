ghost use Rattle.std.specs.Prelude.{◌≡◌, true, map, IfOk, MatchOption};
ghost use Rattle.postings.specs.Dictionary.{list_at};
ghost use Rattle.posting_sets.specs.Found.{lacks_list};

use postings::Postings;
use search_base::{NoMemory, Word};
use sorted_pages::SortedPages;
use std::alloc::Global;

// A list of so many times as many entries as the universe has documents is sought in.
const MANY: u64 = 16;

// Whether a list of so many entries is walked from end to end, and not sought in, for a universe of so many documents.
// What is found is the same either way.
pub(crate) fn is_walked(entries: usize, documents: u64) -> bool {
    entries as u64 / MANY <= documents
}

// The list of each of the words, or none where one of them has no list.
pub(crate) fn lists_of<'a>(
    alloc: Global,
    postings: &'a Postings,
    words: &[Word],
) -> Result<Option<Vec<&'a SortedPages>>, NoMemory>
    ensures { IfOk result (λ found. MatchOption found (lacks_list postings.now words.now ≡ true)
        (λ lists. map (λ list. list.now.entries) lists.items ≡ map (λ word. list_at word postings.now) words.now)) }
{
    let mut lists = Vec::new(alloc);
    for word in words {
        match postings.list(word) {
            Some(list) => lists.push(list)?,
            None => return Ok(None),
        }
    }
    Ok(Some(lists))
}
