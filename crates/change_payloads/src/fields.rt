ghost use Rattle.std.specs.Prelude.{◌≡◌, IfOk};
ghost use Rattle.std.specs.Int.{w32};
ghost use Rattle.change_payloads.specs.Answers.{Gives};
ghost use Rattle.change_payloads.specs.Fields.{byte_at, number_at, piece_at, utf8_of, text_at as text_in, optional_at, stored_at, documents_at, counted_at};

use crate::fault::ReadFault;
use doc_values::DocumentText;
use document_changes::Documents;
use search_base::{NoMemory, Word};
use std::alloc::Global;
use std::str;

/// The first byte, and those behind it. Where there is none, that is damage at the end.
pub fn u8_at(bytes: &[u8]) -> Result<(u8, &[u8]), ReadFault>
    ensures { Gives (λ x. (x.0, x.1.now)) result (byte_at bytes.now) }
{
    match bytes {
        [] => Err(ReadFault::Left(0)),
        [byte, rest @ ..] => Ok((*byte, rest)),
    }
}

/// The number of the first four bytes, little-endian, and the bytes behind it. Where there are fewer, all are damage.
pub fn u32_at(bytes: &[u8]) -> Result<(u32, &[u8]), ReadFault>
    ensures { Gives (λ x. (x.0, x.1.now)) result (number_at w32 bytes.now) }
{
    if bytes.len() < 4 {
        return Err(ReadFault::Left(bytes.len()));
    }
    let (front, rest) = bytes.split_at(4);
    let number = u32::from_le_bytes([front[0], front[1], front[2], front[3]]);
    Ok((number, rest))
}

/// The bytes of a text, and those behind it.
#[tactic(auto, unfolding(crate::specs::Fields::piece_at))]
pub(crate) fn piece(bytes: &[u8]) -> Result<(&[u8], &[u8]), ReadFault>
    ensures { Gives (λ x. (x.0.now, x.1.now)) result (piece_at w32 bytes.now) }
{
    let (len, rest) = u32_at(bytes)?;
    let len = len as usize;
    if rest.len() < len {
        return Err(ReadFault::Left(bytes.len()));
    }
    Ok(rest.split_at(len))
}

/// The text that the bytes begin with, and the bytes behind it. A length that is cut off or passes the end is damage at
/// the length, and bytes that are no UTF-8 are damage at the text. Fails too where there is no memory for the text.
#[tactic(auto, unfolding(crate::specs::Fields::text_at))]
pub fn text(alloc: Global, bytes: &[u8]) -> Result<(Word, &[u8]), ReadFault>
    ensures { Gives (λ x. (x.0, x.1.now)) result (text_in bytes.now) }
{
    let (front, rest) = piece(bytes)?;
    match word_of(alloc, front)? {
        Some(word) => Ok((word, rest)),
        None => Err(ReadFault::Left(front.len() + rest.len())),
    }
}

/// The word that bytes spell; none where they are no UTF-8.
fn word_of(alloc: Global, bytes: &[u8]) -> Result<Option<Word>, NoMemory>
    ensures { IfOk result (λ word. word ≡ utf8_of bytes.now) }
{
    match str::from_utf8(bytes) {
        Ok(text) => Ok(Some(Word::new(alloc, text)?)),
        Err(_) => Ok(None),
    }
}

/// The text, or none, that the bytes begin with, and the bytes behind it. The first byte tells: 0 that there is none, 1
/// that it follows. Another byte, or no byte, is damage there; a text fails as `text` does.
#[tactic(auto, unfolding(crate::specs::Fields::optional_at))]
pub fn optional(alloc: Global, bytes: &[u8]) -> Result<(Option<Word>, &[u8]), ReadFault>
    ensures { Gives (λ x. (x.0, x.1.now)) result (optional_at bytes.now) }
{
    match bytes {
        [] => Err(ReadFault::Left(0)),
        [0, rest @ ..] => Ok((None, rest)),
        [1, rest @ ..] => {
            let (word, rest) = text(alloc, rest)?;
            Ok((Some(word), rest))
        }
        [_, ..] => Err(ReadFault::Left(bytes.len())),
    }
}

/// The documents that are counted, and the bytes behind them.
#[tactic(auto, unfolding(crate::specs::Fields::counted_at))]
pub(crate) fn documents(alloc: Global, bytes: &[u8]) -> Result<(Documents, &[u8]), ReadFault>
    ensures { Gives (λ x. (x.0, x.1.now)) result (counted_at bytes.now) }
{
    let (count, rest) = u32_at(bytes)?;
    let (texts, rest) = some_documents(alloc, count, rest)?;
    Ok((Documents::unread(texts), rest))
}

fn some_documents(
    alloc: Global,
    count: u32,
    bytes: &[u8],
) -> Result<(Vec<DocumentText>, &[u8]), ReadFault>
    ensures { Gives (λ x. (x.0.items, x.1.now)) result (documents_at count bytes.now) }
{
    let mut documents = Vec::new(alloc);
    let mut rest = bytes;
    for _ in 0..count {
        let (document, after) = document(alloc, rest)?;
        documents.push(document)?;
        rest = after;
    }
    Ok((documents, rest))
}

#[tactic(auto, unfolding(crate::specs::Fields::stored_at))]
fn document(alloc: Global, bytes: &[u8]) -> Result<(DocumentText, &[u8]), ReadFault>
    ensures { Gives (λ x. (x.0, x.1.now)) result (stored_at bytes.now) }
{
    let (front, rest) = piece(bytes)?;
    match DocumentText::at(alloc, front)? {
        Some(document) => Ok((document, rest)),
        None => Err(ReadFault::Left(front.len() + rest.len())),
    }
}
