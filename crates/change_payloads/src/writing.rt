ghost use Rattle.std.specs.Prelude.{◌≡◌, ◌<◌, ◌≤◌, ◌^◌, ◌++◌, false, Ok, IfOk, OnOk, length};
ghost use Rattle.std.specs.Int.{w32, to_le_bytes};
ghost use Rattle.std.specs.List.{flat_map, AllByRecursion};
ghost use Rattle.serde_json.specs.Data.{depth};
ghost use Rattle.serde_json.specs.Read.{max_depth};
ghost use Rattle.serde_json.specs.View.{view as data_of};
ghost use Rattle.serde_json.specs.Written.{has_float};
ghost use Rattle.document_changes.specs.Changes.{kind_view, change_view};
ghost use Rattle.change_payloads.specs.Spelling.{text as text_bytes, optional as optional_bytes, json as json_bytes, texts_data, documents as documents_bytes, kind_byte as byte_of, body as body_bytes, change as change_bytes, HasText};
ghost use Rattle.change_payloads.specs.Change.{change_at};
ghost use Rattle.change_payloads.specs.Fits.{IsText, IsKey, IsStored, AreStored, AreIds, IsJson, IsKind};

use doc_values::DocumentText;
use document_changes::{Change, ChangeKind, Documents};
use search_base::{NoMemory, Word};
use serde_json::Value;
use std::alloc::Global;

/// The bytes that spell a change. `decode_change` decodes a spelling of each change that it allows.
///
/// The members of a patch hold no float and nest no deeper than a JSON text may. A text or a list of 2^32 bytes, documents
/// or more counts as one for which there is no memory.
pub fn encode_change(alloc: Global, change: &Change) -> Result<Vec<u8>, NoMemory>
    requires { HasText (kind_view change.now.kind) }
    ensures bytes { IfOk result (λ bytes. bytes.items ≡ change_bytes (change_view change.now)) }
    ensures back { IfOk result (λ bytes. change_at bytes.items ≡ Ok (change_view change.now)) }
{
    let bytes = encoded(alloc, change)?;
    Ok(bytes)
}

fn encoded(alloc: Global, change: &Change) -> Result<Vec<u8>, NoMemory>
    requires { HasText (kind_view change.now.kind) }
    ensures bytes { IfOk result (λ bytes. bytes.items ≡ change_bytes (change_view change.now)) }
    ensures uid { OnOk result (IsText change.now.uid) }
    ensures kind { OnOk result (IsKind (kind_view change.now.kind)) }
{
    let mut out = Vec::new(alloc);
    out.push(kind_byte(&change.kind))?;
    put_word(&mut out, &change.uid)?;
    put_body(alloc, &mut out, &change.kind)?;
    Ok(out)
}

fn kind_byte(kind: &ChangeKind) -> u8
    ensures { result ≡ byte_of (kind_view kind.now) }
{
    match kind {
        ChangeKind::Create { key: _ } => 1,
        ChangeKind::Drop => 2,
        ChangeKind::Replace {
            key: _,
            documents: _,
        } => 3,
        ChangeKind::Update {
            key: _,
            documents: _,
        } => 4,
        ChangeKind::Remove { ids: _ } => 5,
        ChangeKind::Clear => 6,
        ChangeKind::Patch { members: _ } => 7,
        ChangeKind::Reset => 8,
    }
}

/// Writes what a kind has at the end.
fn put_body(alloc: Global, out: &mut Vec<u8>, kind: &ChangeKind) -> Result<(), NoMemory>
    requires { HasText (kind_view kind.now) }
    ensures bytes { OnOk result (out.new.items ≡ out.old.items ++ body_bytes (kind_view kind.now)) }
    ensures kind { OnOk result (IsKind (kind_view kind.now)) }
{
    match kind {
        ChangeKind::Create { key } => put_optional(out, key),
        ChangeKind::Replace { key, documents } => put_stored(out, key, documents),
        ChangeKind::Update { key, documents } => put_stored(out, key, documents),
        ChangeKind::Remove { ids } => put_ids(alloc, out, ids),
        ChangeKind::Patch { members } => put_json(alloc, out, members),
        ChangeKind::Drop | ChangeKind::Clear | ChangeKind::Reset => Ok(()),
    }
}

/// Writes a number in four bytes at the end. Fails where there is no memory, and at a number of 2^32 or more, which counts
/// as one for which there is none; what the bytes are then is left open.
pub fn put_length(out: &mut Vec<u8>, count: usize) -> Result<(), NoMemory>
    ensures bytes { OnOk result (out.new.items ≡ out.old.items ++ to_le_bytes w32 count) }
    ensures short { OnOk result (count < 2 ^ 32) }
{
    match u32::try_from(count) {
        Ok(count) => {
            out.extend_from_slice(&count.to_le_bytes())?;
            Ok(())
        }
        Err(_) => Err(NoMemory),
    }
}

/// Writes a text at the end.
fn put_text(out: &mut Vec<u8>, text: &[u8]) -> Result<(), NoMemory>
    ensures bytes { OnOk result (out.new.items ≡ out.old.items ++ text_bytes text.now) }
    ensures short { OnOk result (length text.now < 2 ^ 32) }
{
    put_length(out, text.len())?;
    out.extend_from_slice(text)?;
    Ok(())
}

/// Writes a word at the end, as a text: its length, as `put_length` writes it and fails, and its bytes. Fails too where
/// there is no memory for them.
pub fn put_word(out: &mut Vec<u8>, word: &Word) -> Result<(), NoMemory>
    ensures bytes { OnOk result (out.new.items ≡ out.old.items ++ text_bytes word.now) }
    ensures text { OnOk result (IsText word.now) }
{
    put_text(out, word.as_str().as_bytes())?;
    Ok(())
}

/// Writes a word or none at the end: a byte 1 and the word as `put_word` writes it, or a byte 0. Fails where `put_word`
/// does, or where there is no memory for the byte.
pub fn put_optional(out: &mut Vec<u8>, text: &Option<Word>) -> Result<(), NoMemory>
    ensures bytes { OnOk result (out.new.items ≡ out.old.items ++ optional_bytes text.now) }
    ensures key { OnOk result (IsKey text.now) }
{
    match text {
        None => {
            out.push(0)?;
            Ok(())
        }
        Some(text) => {
            out.push(1)?;
            put_word(out, text)
        }
    }
}

fn put_stored(out: &mut Vec<u8>, key: &Option<Word>, documents: &Documents) -> Result<(), NoMemory>
    ensures bytes { OnOk result (out.new.items
        ≡ out.old.items ++ (optional_bytes key.now ++ documents_bytes documents.now)) }
    ensures key { OnOk result (IsKey key.now) }
    ensures stored { OnOk result (AreStored documents.now) }
{
    put_optional(out, key)?;
    put_length(out, documents.texts().len())?;
    put_documents(out, documents.texts())?;
    Ok(())
}

fn put_documents(out: &mut Vec<u8>, documents: &[DocumentText]) -> Result<(), NoMemory>
    ensures bytes { OnOk result (out.new.items
        ≡ out.old.items ++ flat_map json_bytes documents.now) }
    ensures stored { OnOk result (AllByRecursion IsStored documents.now) }
{
    for document in documents {
        put_document(out, document)?;
    }
    Ok(())
}

fn put_document(out: &mut Vec<u8>, document: &DocumentText) -> Result<(), NoMemory>
    ensures bytes { OnOk result (out.new.items ≡ out.old.items ++ json_bytes document.now) }
    ensures stored { OnOk result (IsStored document.now) }
{
    put_text(out, document.text().as_bytes())?;
    Ok(())
}

fn put_ids(alloc: Global, out: &mut Vec<u8>, ids: &Vec<Word>) -> Result<(), NoMemory>
    ensures bytes { OnOk result (out.new.items ≡ out.old.items ++ json_bytes (texts_data ids.now.items)) }
    ensures ids { OnOk result (AreIds ids.now.items) }
{
    let value = texts_value(alloc, ids)?;
    put_json(alloc, out, &value)?;
    Ok(())
}

/// An array of texts.
fn texts_value(alloc: Global, texts: &[Word]) -> Result<Value, NoMemory>
    ensures value { IfOk result (λ value. data_of value ≡ texts_data texts.now) }
    ensures whole { IfOk result (λ value. has_float (data_of value) ≡ false) }
    ensures shallow { IfOk result (λ value. depth (data_of value) ≤ max_depth) }
{
    let mut items = Vec::new(alloc);
    for text in texts {
        items.push(Value::try_from_str(alloc, text.as_str())?)?;
    }
    Ok(Value::Array(items))
}

/// Writes the compact text of a value at the end.
fn put_json(alloc: Global, out: &mut Vec<u8>, value: &Value) -> Result<(), NoMemory>
    requires whole { has_float (data_of value.now) ≡ false }
    requires shallow { depth (data_of value.now) ≤ max_depth }
    ensures bytes { OnOk result (out.new.items ≡ out.old.items ++ json_bytes (data_of value.now)) }
    ensures back { OnOk result (IsJson (data_of value.now)) }
{
    let text = value.to_vec(alloc)?;
    put_text(out, &text)?;
    Ok(())
}
