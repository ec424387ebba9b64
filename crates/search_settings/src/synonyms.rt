ghost use Rattle.std.specs.Prelude.{◌≡◌, ◌++◌, ◌∷◌, [], not, ◌||◌, IfOk, OnOk, if◌then◌else◌};
ghost use Rattle.std.specs.List.{AllByRecursion, IsDistinct, filter_map};
ghost use Rattle.synonym_terms.specs.SynonymRowView.{SynonymRowView};
ghost use Rattle.synonym_terms.specs.Synonyms.{HasTerm};
ghost use Rattle.search_settings.specs.QueryWords.{words_of as words_in, rows_under as rows_of_key, synonym_row, synonym_rows as rows_of_settings, same_words, each_once as each_once_of, is_seen};

use index_settings::{Settings, SynonymList};
use search_base::{NoMemory, Word};
use std::alloc::Global;
use std::collections::BTreeSet;
use synonym_terms::SynonymRow;
use token_words::tokens;

// How many words a key of synonyms has at most.
const MAX_KEY_WORDS: usize = 3;

// The words of terms, each with those of its key. The terms come first, since they differ where the keys are one.
type SeenWords = BTreeSet<(Vec<Word>, Vec<Word>)>;

/// A row for each text of each synonym of the settings that may match. Of rows with the same words it keeps the first.
pub(crate) fn synonym_rows(alloc: Global, settings: &Settings) -> Result<Vec<SynonymRow>, NoMemory>
    ensures rows { IfOk result (λ rows. rows.items ≡ rows_of_settings settings.now) }
    ensures terms { IfOk result (λ rows. AllByRecursion HasTerm rows.items) }
    ensures once { IfOk result (λ rows. IsDistinct (λ row later. same_words later row) rows.items) }
{
    let mut rows = Vec::new(alloc);
    for list in settings.synonyms() {
        add_rows(alloc, list, &mut rows)?;
    }
    each_once(alloc, rows)
}

// The first of the rows with the same words, for all words that rows have.
fn each_once(alloc: Global, rows: Vec<SynonymRow>) -> Result<Vec<SynonymRow>, NoMemory>
    ensures { IfOk result (λ kept. kept.items ≡ each_once_of rows.items) }
{
    let mut seen = BTreeSet::new(alloc);
    let mut kept = Vec::new(alloc);
    for row in rows {
        add_new(row, &mut seen, &mut kept)?;
    }
    Ok(kept)
}

// Adds a row, unless its words were seen. They are seen from now on.
fn add_new(
    row: SynonymRow,
    seen: &mut SeenWords,
    kept: &mut Vec<SynonymRow>,
) -> Result<(), NoMemory>
    ensures kept { OnOk result (kept.new.items
        ≡ kept.old.items ++ (if is_seen seen.old row then [] else row ∷ [])) }
    ensures seen { OnOk result ((other : SynonymRowView)
        → is_seen seen.new other ≡ (same_words other row || is_seen seen.old other)) }
{
    if is_new(&row, seen)? {
        kept.push(row)?;
    }
    Ok(())
}

// Whether the words of a row are not among those seen. They are seen from now on.
fn is_new(row: &SynonymRow, seen: &mut SeenWords) -> Result<bool, NoMemory>
    ensures new { IfOk result (λ new. new ≡ not (is_seen seen.old row.now)) }
    ensures seen { OnOk result ((other : SynonymRowView)
        → is_seen seen.new other ≡ (same_words other row.now || is_seen seen.old other)) }
{
    let words = (row.term.clone()?, row.key.clone()?);
    Ok(seen.insert(words)?)
}

// Adds the rows of a synonym, if its key may match.
fn add_rows(alloc: Global, list: &SynonymList, rows: &mut Vec<SynonymRow>) -> Result<(), NoMemory>
    ensures { OnOk result (rows.new.items ≡ rows.old.items ++ rows_of_key (words_in list.now.key) list.now.texts) }
{
    let key = words_of(alloc, &list.key)?;
    if key.is_empty() || key.len() > MAX_KEY_WORDS {
        return Ok(());
    }
    add_texts(alloc, &key, list.texts.as_slice(), rows)
}

// Adds a row for each of these texts that has a word.
fn add_texts(
    alloc: Global,
    key: &Vec<Word>,
    texts: &[Word],
    rows: &mut Vec<SynonymRow>,
) -> Result<(), NoMemory>
    ensures { OnOk result (rows.new.items
        ≡ rows.old.items ++ filter_map (λ text. synonym_row key.now.items (words_in text)) texts.now) }
{
    for text in texts {
        add_text(alloc, key, text, rows)?;
    }
    Ok(())
}

// Adds a row for a text, if it has a word.
fn add_text(
    alloc: Global,
    key: &Vec<Word>,
    text: &Word,
    rows: &mut Vec<SynonymRow>,
) -> Result<(), NoMemory>
    ensures { OnOk result (rows.new.items
        ≡ rows.old.items ++ filter_map (λ text. synonym_row key.now.items (words_in text)) (text.now ∷ [])) }
{
    let term = words_of(alloc, text)?;
    if term.is_empty() {
        return Ok(());
    }
    let key = key.clone()?;
    rows.push(SynonymRow { key, term })?;
    Ok(())
}

// The words of a text.
fn words_of(alloc: Global, text: &Word) -> Result<Vec<Word>, NoMemory>
    ensures { IfOk result (λ words. words.items ≡ words_in text.now) }
{
    let found = tokens(alloc, text.as_str())?;
    let mut words = Vec::new(alloc);
    for token in &found {
        words.push(token.word.clone()?)?;
    }
    Ok(words)
}
