ghost use Rattle.std.specs.Prelude.{◌≡◌, ◌<◌, ◌≤◌, ◌++◌, [], ◌∷◌, length, IfOk, OnOk};
ghost use Rattle.std.specs.List.{list_any, list_all, concat};
ghost use Rattle.query_graph.specs.ItemReadings.{words_of, block_of, term_of, single, written, synonyms, choices};
ghost use Rattle.query_graph.specs.Graph.{most_joined};
ghost use Rattle.query_graph.specs.Levels.{is_word};

use crate::item::Item;
use search_base::{Block, Kind, NoMemory, Term, Word};
use std::alloc::Global;
use synonym_terms::SynonymTable;

// The blocks of one item, or of two or three neighbouring ones.
pub fn choices(alloc: Global, table: &SynonymTable, part: &[Item]) -> Result<Vec<Block>, NoMemory>
    requires some { 0 < length part.now }
    requires few { length part.now ≤ most_joined }
    ensures { IfOk result (λ blocks. blocks.items ≡ choices table.now part.now) }
{
    let mut blocks = written(alloc, part)?;
    add_synonyms(alloc, table, part, &mut blocks)?;
    Ok(blocks)
}

// The words of the items, phrases written out.
pub fn words_of(alloc: Global, items: &[Item]) -> Result<Vec<Word>, NoMemory>
    ensures { IfOk result (λ words. words.items ≡ words_of items.now) }
{
    let mut words = Vec::new(alloc);
    for item in items {
        add_words(item.words.as_slice(), &mut words)?;
    }
    Ok(words)
}

fn add_words(more: &[Word], words: &mut Vec<Word>) -> Result<(), NoMemory>
    ensures { OnOk result (words.new.items ≡ words.old.items ++ more.now) }
{
    for word in more {
        words.push(word.clone()?)?;
    }
    Ok(())
}

// The blocks of the items as they are written.
fn written(alloc: Global, part: &[Item]) -> Result<Vec<Block>, NoMemory>
    requires some { 0 < length part.now }
    requires few { length part.now ≤ most_joined }
    ensures { IfOk result (λ blocks. blocks.items ≡ written part.now) }
{
    if part.len() == 1 {
        return single(alloc, &part[0]);
    }
    let mut blocks = Vec::new(alloc);
    if are_words(part) {
        let words = words_of(alloc, part)?;
        let word = joined_word(alloc, words.as_slice())?;
        let term = Term {
            words: vec![in alloc; word]?,
            prefix: has_prefix_word(part),
        };
        blocks.push(Block {
            span: part.len() as u8,
            term,
            kind: Kind::Joined,
        })?;
    }
    Ok(blocks)
}

// A phrase is its words in a row. A word is itself, and the prefix word what begins with it too.
fn single(alloc: Global, item: &Item) -> Result<Vec<Block>, NoMemory>
    ensures { IfOk result (λ blocks. blocks.items ≡ single item.now) }
{
    let mut blocks = Vec::new(alloc);
    if item.phrase {
        blocks.push(block_of(item, Kind::Phrase, false)?)?;
    } else {
        blocks.push(block_of(item, Kind::Plain, false)?)?;
        if item.prefix {
            blocks.push(block_of(item, Kind::Prefix, true)?)?;
        }
    }
    Ok(blocks)
}

fn block_of(item: &Item, kind: Kind, prefix: bool) -> Result<Block, NoMemory>
    ensures { IfOk result (λ block. block ≡ block_of (item.now ∷ []) kind (term_of prefix item.now.words)) }
{
    let words = item.words.clone()?;
    Ok(Block {
        span: 1,
        term: Term { words, prefix },
        kind,
    })
}

fn are_words(part: &[Item]) -> bool
    ensures { result ≡ list_all is_word part.now }
{
    part.iter().all(|item| !item.phrase)
}

fn has_prefix_word(part: &[Item]) -> bool
    ensures { result ≡ list_any (λ item. item.prefix) part.now }
{
    part.iter().any(|item| item.prefix)
}

fn joined_word(alloc: Global, words: &[Word]) -> Result<Word, NoMemory>
    ensures { IfOk result (λ word. word ≡ concat words.now) }
{
    let mut text = String::new(alloc);
    for word in words {
        text.push_str(word.as_str())?;
    }
    Word::from_string(text)
}

// The blocks of what the words stand for by the rows of synonyms.
fn add_synonyms(
    alloc: Global,
    table: &SynonymTable,
    part: &[Item],
    blocks: &mut Vec<Block>,
) -> Result<(), NoMemory>
    requires { length part.now ≤ most_joined }
    ensures { OnOk result (blocks.new.items ≡ blocks.old.items ++ synonyms table.now part.now) }
{
    if !are_words(part) {
        return Ok(());
    }
    let words = words_of(alloc, part)?;
    for term in table.rows_for(alloc, words.as_slice())? {
        blocks.push(Block {
            span: part.len() as u8,
            term,
            kind: Kind::Synonym,
        })?;
    }
    Ok(())
}
