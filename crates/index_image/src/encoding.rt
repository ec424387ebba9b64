ghost use Rattle.std.specs.Prelude.{◌≡◌, ◌<◌, ◌^◌, ◌++◌, map, length, Ok, IfOk, OnOk};
ghost use Rattle.std.specs.Int.{w32, to_le_bytes};
ghost use Rattle.std.specs.List.{flat_map, AllByRecursion};
ghost use Rattle.change_payloads.specs.Fits.{IsText};
ghost use Rattle.index_image.specs.Fits.{ArePrinted, IsKept, HasIndexText, HasImage};
ghost use Rattle.index_image.specs.Image.{state_at};
ghost use Rattle.index_image.specs.Layout.{long, settings_text, document_bytes as bytes_of_document, list_bytes, index_bytes, image_bytes};
ghost use Rattle.index_image.specs.Rows.{index_view, image_view};
ghost use Rattle.change_payloads.specs.Spelling.{text as text_bytes};
ghost use Rattle.index_image.specs.State.{IsState};

use crate::image::VERSION;
use crate::outcomes::put_outcomes;
use crate::rows::{ImageDocument, ImageIndex, ImageRows};
use change_payloads::{put_length, put_optional, put_word};
use index_settings::{Settings, to_json};
use search_base::{NoMemory, Word};
use std::alloc::Global;

/// The image of a state, version 2. `decode` gives the state back, where it is one that an image may hold.
///
/// A uid, a key, a path or a list of 2^32 bytes or members counts as one for which there is no memory.
pub fn encode(alloc: Global, rows: &ImageRows) -> Result<Vec<u8>, NoMemory>
    ensures bytes { IfOk result (λ bytes. bytes.items ≡ image_bytes (image_view rows.now)) }
    ensures back { IfOk result (λ bytes. IsState (image_view rows.now) → state_at bytes.items ≡ Ok (image_view rows.now)) }
{
    let bytes = encoded(alloc, rows)?;
    Ok(bytes)
}

fn encoded(alloc: Global, rows: &ImageRows) -> Result<Vec<u8>, NoMemory>
    ensures bytes { IfOk result (λ bytes. bytes.items ≡ image_bytes (image_view rows.now)) }
    ensures texts { OnOk result (HasImage (image_view rows.now)) }
{
    let mut out = Vec::new(alloc);
    out.push(VERSION)?;
    out.extend_from_slice(&rows.changes.to_le_bytes())?;
    put_indexes(alloc, &mut out, &rows.indexes)?;
    put_outcomes(&mut out, &rows.outcomes)?;
    Ok(out)
}

fn put_indexes(alloc: Global, out: &mut Vec<u8>, indexes: &[ImageIndex]) -> Result<(), NoMemory>
    ensures bytes { OnOk result (out.new.items ≡ out.old.items ++ list_bytes index_bytes (map index_view indexes.now)) }
    ensures texts { OnOk result (AllByRecursion HasIndexText (map index_view indexes.now)) }
{
    put_length(out, indexes.len())?;
    put_each_index(alloc, out, indexes)?;
    Ok(())
}

fn put_each_index(alloc: Global, out: &mut Vec<u8>, indexes: &[ImageIndex]) -> Result<(), NoMemory>
    ensures bytes { OnOk result (out.new.items ≡ out.old.items ++ flat_map (λ i. index_bytes (index_view i)) indexes.now) }
    ensures texts { OnOk result (AllByRecursion (λ i. HasIndexText (index_view i)) indexes.now) }
{
    for index in indexes {
        put_index(alloc, out, index)?;
    }
    Ok(())
}

fn put_index(alloc: Global, out: &mut Vec<u8>, index: &ImageIndex) -> Result<(), NoMemory>
    ensures bytes { OnOk result (out.new.items ≡ out.old.items ++ index_bytes (index_view index.now)) }
    ensures text { OnOk result (HasIndexText (index_view index.now)) }
{
    put_word(out, &index.uid)?;
    put_optional(out, &index.key)?;
    put_number(out, index.next_id)?;
    put_paths(out, &index.paths)?;
    put_settings(alloc, out, &index.settings)?;
    put_documents(out, &index.documents)?;
    Ok(())
}

fn put_paths(out: &mut Vec<u8>, paths: &[Word]) -> Result<(), NoMemory>
    ensures bytes { OnOk result (out.new.items ≡ out.old.items ++ list_bytes text_bytes paths.now) }
    ensures texts { OnOk result (AllByRecursion IsText paths.now) }
{
    put_length(out, paths.len())?;
    put_words(out, paths)
}

fn put_words(out: &mut Vec<u8>, words: &[Word]) -> Result<(), NoMemory>
    ensures bytes { OnOk result (out.new.items ≡ out.old.items ++ flat_map text_bytes words.now) }
    ensures texts { OnOk result (AllByRecursion IsText words.now) }
{
    for word in words {
        put_word(out, word)?;
    }
    Ok(())
}

fn put_settings(alloc: Global, out: &mut Vec<u8>, settings: &Settings) -> Result<(), NoMemory>
    ensures bytes { OnOk result (out.new.items ≡ out.old.items ++ long (settings_text settings.now)) }
    ensures printed { OnOk result (ArePrinted settings.now) }
{
    let value = to_json(alloc, settings)?;
    let text = value.to_vec(alloc)?;
    put_long(out, &text)?;
    Ok(())
}

fn put_documents(out: &mut Vec<u8>, documents: &[ImageDocument]) -> Result<(), NoMemory>
    ensures bytes { OnOk result (out.new.items ≡ out.old.items ++ list_bytes bytes_of_document documents.now) }
    ensures kept { OnOk result (AllByRecursion IsKept documents.now) }
{
    put_length(out, documents.len())?;
    put_each_document(out, documents)
}

fn put_each_document(out: &mut Vec<u8>, documents: &[ImageDocument]) -> Result<(), NoMemory>
    ensures bytes { OnOk result (out.new.items ≡ out.old.items ++ flat_map bytes_of_document documents.now) }
    ensures kept { OnOk result (AllByRecursion IsKept documents.now) }
{
    for document in documents {
        put_document(out, document)?;
    }
    Ok(())
}

fn put_document(out: &mut Vec<u8>, document: &ImageDocument) -> Result<(), NoMemory>
    ensures bytes { OnOk result (out.new.items ≡ out.old.items ++ bytes_of_document document.now) }
    ensures kept { OnOk result (IsKept document.now) }
{
    put_number(out, document.id.0)?;
    put_long(out, document.document.text().as_bytes())?;
    Ok(())
}

fn put_number(out: &mut Vec<u8>, number: u32) -> Result<(), NoMemory>
    ensures bytes { OnOk result (out.new.items ≡ out.old.items ++ to_le_bytes w32 number) }
    ensures small { number < 2 ^ 32 }
{
    out.extend_from_slice(&number.to_le_bytes())?;
    Ok(())
}

/// Writes a length of eight bytes and the bytes at the end.
fn put_long(out: &mut Vec<u8>, bytes: &[u8]) -> Result<(), NoMemory>
    ensures bytes { OnOk result (out.new.items ≡ out.old.items ++ long bytes.now) }
    ensures short { length bytes.now < 2 ^ 64 }
{
    out.extend_from_slice(&(bytes.len() as u64).to_le_bytes())?;
    out.extend_from_slice(bytes)?;
    Ok(())
}
