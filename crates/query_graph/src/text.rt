ghost use Rattle.std.specs.Prelude.{◌≡◌, ◌==◌, ◌&&◌, ◌++◌, not, length, map, take, filter, false, IfOk, OnOk};
ghost use Rattle.std.specs.List.{list_any, list_all};
ghost use Rattle.token_words.specs.Tokens.{tokens};
ghost use Rattle.query_graph.specs.Items.{word_item, word_items, phrase_items, part_items, most_items};
ghost use Rattle.query_graph.specs.Items.{first_items, is_among, is_left_out, without_stop_words, items_of, AreItems};

use crate::item::{Item, Items};
use search_base::{NoMemory, Token, Word};
use std::alloc::Global;
use token_words::{first_tokens, tokens};

const MOST_ITEMS: usize = 10;

/// The items of the query text `q`, ten at most.
///
/// Double quotes open and close phrases by turns, and the last may lack its end. A quote ends a word
/// as well. What stands in quotes is one item, unless it has no word; each word beside them is one.
/// Only the first ten items are read. A word that is typed to the very end of the text, beside
/// quotes, may be the beginning of another: where it is read it is the prefix word. Words of
/// `stop_words`, which are in normal form, are left out then, but for the prefix word, and not where
/// no item would stay.
pub fn items(alloc: Global, q: &str, stop_words: &[Word]) -> Result<Items, NoMemory>
    ensures items { IfOk result (λ list. list ≡ items_of q.now stop_words.now) }
    ensures each { IfOk result AreItems }
{
    let list = first_items(alloc, q)?;
    Ok(without_stop_words(list, stop_words))
}

fn first_items(alloc: Global, q: &str) -> Result<Vec<Item>, NoMemory>
    ensures { IfOk result (λ list. list.items ≡ first_items q.now) }
{
    let mut list = items_read(alloc, q)?;
    list.truncate(MOST_ITEMS);
    Ok(list)
}

// The items of the text up to the part in which the tenth stands, some of which may stand behind it.
fn items_read(alloc: Global, q: &str) -> Result<Vec<Item>, NoMemory>
    ensures { IfOk result (λ list. take most_items list.items ≡ first_items q.now) }
{
    let mut list = Vec::new(alloc);
    let mut quoted = false;
    let mut rest = q;
    while let Some((part, behind)) = rest.split_once('"') {
        add_part(alloc, quoted, false, part, &mut list)?;
        if list.len() >= MOST_ITEMS {
            return Ok(list);
        }
        quoted = !quoted;
        rest = behind;
    }
    add_part(alloc, quoted, true, rest, &mut list)?;
    Ok(list)
}

// The items of a part of the text, which may be the last one: of words no more than one behind the tenth, since only
// the last word of all may be the prefix word.
fn add_part(
    alloc: Global,
    quoted: bool,
    last: bool,
    part: &str,
    list: &mut Vec<Item>,
) -> Result<(), NoMemory>
    ensures { OnOk result (take most_items list.new.items
        ≡ take most_items (list.old.items ++ part_items quoted last part.now)) }
{
    if quoted {
        let words = tokens(alloc, part)?;
        add_phrase(alloc, words.as_slice(), list)
    } else {
        let words = first_tokens(alloc, part, MOST_ITEMS + 1)?;
        add_words(alloc, last, part.len() as u64, words.as_slice(), list)
    }
}

fn add_phrase(alloc: Global, words: &[Token], list: &mut Vec<Item>) -> Result<(), NoMemory>
    ensures { OnOk result (list.new.items ≡ list.old.items ++ phrase_items words.now) }
{
    if words.is_empty() {
        return Ok(());
    }
    list.push(Item {
        words: words_of(alloc, words)?,
        phrase: true,
        prefix: false,
    })?;
    Ok(())
}

fn words_of(alloc: Global, tokens: &[Token]) -> Result<Vec<Word>, NoMemory>
    ensures { IfOk result (λ words. words.items ≡ map (λ token. token.word) tokens.now) }
{
    let mut words = Vec::new(alloc);
    for token in tokens {
        words.push(token.word.clone()?)?;
    }
    Ok(words)
}

// The words of a part that ends at this byte, each an item of its own.
fn add_words(
    alloc: Global,
    last: bool,
    end: u64,
    words: &[Token],
    list: &mut Vec<Item>,
) -> Result<(), NoMemory>
    ensures { OnOk result (list.new.items ≡ list.old.items ++ word_items last end words.now) }
{
    let Some((word, front)) = words.split_last() else {
        return Ok(());
    };
    add_whole_words(alloc, front, list)?;
    let prefix = ends_text(last, end, word);
    list.push(word_item(alloc, prefix, &word.word)?)?;
    Ok(())
}

fn add_whole_words(alloc: Global, words: &[Token], list: &mut Vec<Item>) -> Result<(), NoMemory>
    ensures { OnOk result (list.new.items
        ≡ list.old.items ++ map (λ token. word_item false token.word) words.now) }
{
    for word in words {
        list.push(word_item(alloc, false, &word.word)?)?;
    }
    Ok(())
}

fn ends_text(last: bool, end: u64, word: &Token) -> bool
    ensures { result ≡ (last && (word.now.end == end)) }
{
    last && word.end == end
}

fn word_item(alloc: Global, prefix: bool, word: &Word) -> Result<Item, NoMemory>
    ensures { IfOk result (λ item. item ≡ word_item prefix word.now) }
{
    let words = vec![in alloc; word.clone()?]?;
    Ok(Item {
        words,
        phrase: false,
        prefix,
    })
}

// The items without the stop words, unless no item would stay.
fn without_stop_words(mut list: Vec<Item>, stop_words: &[Word]) -> Items
    ensures { result ≡ without_stop_words stop_words.now list.items }
{
    if all_left_out(stop_words, list.as_slice()) {
        return Items { list };
    }
    leave_out(stop_words, &mut list);
    Items { list }
}

fn leave_out(stop_words: &[Word], list: &mut Vec<Item>)
    ensures { list.new.items ≡ filter (λ item. not (is_left_out stop_words.now item)) list.old.items }
{
    list.retain(|item| !is_left_out(stop_words, item));
}

fn all_left_out(stop_words: &[Word], list: &[Item]) -> bool
    ensures { result ≡ list_all (is_left_out stop_words.now) list.now }
{
    list.iter().all(|item| is_left_out(stop_words, item))
}

// Whether the item is a stop word, and not the prefix word. A phrase is none.
fn is_left_out(stop_words: &[Word], item: &Item) -> bool
    ensures { result ≡ is_left_out stop_words.now item.now }
{
    !item.phrase && !item.prefix && has_stop_word(stop_words, item.words.as_slice())
}

fn has_stop_word(stop_words: &[Word], words: &[Word]) -> bool
    ensures { result ≡ list_any (is_among stop_words.now) words.now }
{
    words.iter().any(|word| is_among(stop_words, word))
}

fn is_among(words: &[Word], word: &Word) -> bool
    ensures { result ≡ is_among words.now word.now }
{
    words.iter().any(|other| other == word)
}
