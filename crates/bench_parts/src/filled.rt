use postings::{Change, Postings};
use search_base::{DocId, NoMemory, PathId, Place, Word};
use std::alloc::Global;

// A word of a document: few words stand often, and most seldom, out of about 25,000.
fn word_at(alloc: Global, document: u32, position: u16, turn: u32) -> Result<Word, NoMemory> {
    let mixed = document
        .wrapping_mul(2_654_435_761)
        .wrapping_add(u32::from(position).wrapping_mul(40_503))
        .wrapping_add(turn.wrapping_mul(97))
        .wrapping_mul(2_246_822_519);
    let drawn = mixed / 0x1_0000;
    let word = (drawn % 224).wrapping_mul(drawn / 0x100 % 224);
    let text = format!(in alloc; "w{word}")?;
    Word::from_string(text)
}

// The places of a document's 46 words, as they are at a turn.
fn places_of(alloc: Global, document: u32, turn: u32) -> Result<Vec<Place>, NoMemory> {
    let mut places = Vec::with_capacity(alloc, 46)?;
    for position in 0..46_u16 {
        places.push(Place {
            path: PathId(0),
            rank: 0,
            position,
            word: word_at(alloc, document, position, turn)?,
        })?;
    }
    Ok(places)
}

fn put_in(alloc: Global, change: &mut Change, document: u32, turn: u32) -> Result<(), NoMemory> {
    let places = places_of(alloc, document, turn)?;
    change.put_in(alloc, DocId(document), places.as_slice())
}

fn commit(alloc: Global, postings: &mut Postings, change: Change) -> Result<(), NoMemory> {
    let prepared = postings.prepare(alloc, change)?;
    postings.commit(prepared);
    Ok(())
}

/// Puts so many thousand documents in, a thousand at once.
pub(crate) fn fill(alloc: Global, postings: &mut Postings, thousands: u32) -> Result<(), NoMemory> {
    for batch in 0..thousands {
        let mut change = Change::new(alloc);
        for number in 0..1_000_u32 {
            let document = batch.saturating_mul(1_000).saturating_add(number);
            put_in(alloc, &mut change, document, 0)?;
        }
        commit(alloc, postings, change)?;
    }
    Ok(())
}

/// Puts one more document in.
pub(crate) fn put(alloc: Global, postings: &mut Postings, document: u32) -> Result<u64, NoMemory> {
    let mut change = Change::new(alloc);
    put_in(alloc, &mut change, document, 0)?;
    commit(alloc, postings, change)?;
    Ok(u64::from(document))
}

/// Takes a document out and puts it in with other words. Each is taken once before one is taken again.
pub(crate) fn replace(
    alloc: Global,
    postings: &mut Postings,
    size: u32,
    round: u32,
) -> Result<u64, NoMemory> {
    if size == 0 {
        return Ok(0);
    }
    let document = round.wrapping_mul(7_919) % size;
    let turn = round / size;
    let mut change = Change::new(alloc);
    let places = places_of(alloc, document, turn)?;
    change.take_out(alloc, DocId(document), places.as_slice())?;
    put_in(alloc, &mut change, document, turn.wrapping_add(1))?;
    commit(alloc, postings, change)?;
    Ok(u64::from(document))
}
