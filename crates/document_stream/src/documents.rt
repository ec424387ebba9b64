ghost use Rattle.std.specs.Prelude.{◌≡◌, ◌≢◌, ◌≤◌, [], ◌∷◌, MatchResult, IfOk};
ghost use Rattle.json.specs.Lex.{tokens};
ghost use Rattle.json.specs.Token.{begin_array};
ghost use Rattle.json.specs.Reads.{token_of};
ghost use Rattle.serde_json.specs.Data.{depth};
ghost use Rattle.serde_json.specs.Read.{max_depth};
ghost use Rattle.serde_json.specs.View.{view};
ghost use Rattle.doc_values.specs.Walk.{document_of};
ghost use Rattle.doc_values.specs.Bodies.{placed};
ghost use Rattle.search_base.specs.Gives.{Gives, Turns, Checks};
ghost use Rattle.search_base.specs.Trying.{refused_as};
ghost use Rattle.search_base.specs.declared.fault.Fault.TheVariants.{Refused as Turned};
ghost use Rattle.document_changes.specs.Reading.{IsReading};
ghost use Rattle.document_stream.specs.Bodies.{refusal_of, documents_read};
ghost use Rattle.document_stream.specs.Reads.{value_at, items_at, documents_left, broken_behind, refusal_behind};
ghost use Rattle.document_stream.specs.declared.fault.BodyRefusal.TheVariants.{NotJson as Broken};

use crate::fault::{BodyFault, BodyRefusal};
use crate::values::{read_value, value_from};
use doc_values::{Document, DocumentRefusal, documents_of};
use document_changes::{DocumentReading, Documents};
use json::{Reader, Scratch, Token};
use search_base::{Fault, NoMemory, Word};
use serde_json::Value;
use std::alloc::Global;

// How deep a body may nest.
const MAX_DEPTH: usize = 127;

// How deep a member of the list that a body is may nest.
const MEMBER_DEPTH: usize = 126;

/// The documents of a body, in order: the members of a list, or an object as the only one.
///
/// A body that is no JSON is `NotJson` whatever else is wrong with it; else the first fault in the order of documents
/// is the one that comes. A list of 2^32 members or more counts as one for which there is no memory. Beside the texts
/// it takes room for as many bytes as the body has, and for one document at a time as a tree. While a document stands
/// there, it is noted what a change needs of it, its id under `key`, or else under the key that the first one gives.
pub fn read_documents(alloc: Global, body: &[u8], key: Option<Word>) -> Result<Documents, BodyFault>
    ensures { Gives (λ documents. documents) result (documents_read body.now) }
{
    match simdutf8::compat::from_utf8(body) {
        Ok(text) => read_text(alloc, text, DocumentReading::new(alloc, key)),
        Err(_) => Err(Fault::Refused(BodyRefusal::NotJson)),
    }
}

fn read_text(alloc: Global, text: &str, reading: DocumentReading) -> Result<Documents, BodyFault>
    requires none { reading.texts.items ≡ [] }
    requires reading { IsReading reading }
    ensures { Gives (λ documents. documents) result
        (documents_left (value_at max_depth (tokens text.now))) }
{
    let mut scratch = Scratch::new(alloc);
    let mut reader = Reader::new(text, &mut scratch)?;
    let first = reader.next().ok_or(Fault::Refused(BodyRefusal::NotJson))?;
    match first {
        Token::BeginArray => read_list(alloc, &mut reader, reading),
        _ => read_single(alloc, first, &mut reader, reading),
    }
}

// The documents of the value that begins with the token `first`, read whole.
fn read_single(
    alloc: Global,
    first: Token<'_>,
    reader: &mut Reader<'_>,
    reading: DocumentReading,
) -> Result<Documents, BodyFault>
    requires none { reading.texts.items ≡ [] }
    requires reading { IsReading reading }
    ensures { Gives (λ documents. documents) result
        (documents_left (value_at max_depth (token_of first.entry ∷ reader.old))) }
{
    let value = value_from(alloc, first, reader, MAX_DEPTH)?;
    expect_end(reader)?;
    match documents_of(alloc, value) {
        Ok(documents) => Ok(read_each(alloc, documents, reading)?),
        Err(Fault::Refused(refusal)) => Err(Fault::Refused(BodyRefusal::from(refusal))),
        Err(Fault::NoMemory) => Err(Fault::NoMemory),
    }
}

fn read_each(
    alloc: Global,
    documents: Vec<Document>,
    mut reading: DocumentReading,
) -> Result<Documents, NoMemory>
    requires none { reading.texts.items ≡ [] }
    requires reading { IsReading reading }
    ensures { IfOk result (λ read. read ≡ documents.items) }
{
    for document in documents {
        reading.read(alloc, &document)?;
    }
    Ok(reading.finish())
}

// The documents of a list, behind the bracket that opens it.
fn read_list(
    alloc: Global,
    reader: &mut Reader<'_>,
    mut reading: DocumentReading,
) -> Result<Documents, BodyFault>
    requires none { reading.texts.items ≡ [] }
    requires reading { IsReading reading }
    ensures { Gives (λ documents. documents) result
        (documents_left (value_at max_depth (begin_array ∷ reader.old))) }
{
    let mut before: u32 = 0;
    'members: while !reader.take_end_array() {
        let value = read_value(alloc, reader, MEMBER_DEPTH)?;
        if before == u32::MAX {
            return Err(Fault::NoMemory);
        }
        match document_at(alloc, value, before + 1) {
            Ok(document) => reading.read(alloc, &document)?,
            Err(Fault::Refused(why)) => return Err(fault_of_list(alloc, reader, why)),
            Err(Fault::NoMemory) => return Err(Fault::NoMemory),
        }
        before += 1;
    }
    expect_end(reader)?;
    Ok(reading.finish())
}

fn document_at(alloc: Global, value: Value, place: u32) -> Result<Document, BodyFault>
    requires { depth (view value) ≤ max_depth }
    ensures { Gives (λ document. document) result
        (refused_as (λ why. refusal_of (placed place why)) (document_of (view value))) }
{
    match Document::from_json(alloc, value) {
        Ok(document) => Ok(document),
        Err(Fault::Refused(refusal)) => Err(Fault::Refused(refused_at(place, refusal))),
        Err(Fault::NoMemory) => Err(Fault::NoMemory),
    }
}

fn refused_at(place: u32, refusal: DocumentRefusal) -> BodyRefusal
    ensures { result ≡ refusal_of (placed place refusal) }
{
    match refusal {
        DocumentRefusal::NotObject => BodyRefusal::NotObject { document: place },
        DocumentRefusal::NumberNotWhole { path } => BodyRefusal::NumberNotWhole {
            document: place,
            path,
        },
    }
}

// The fault of a list whose first document that is none is refused for `why`: the rest is read, since a list that is
// broken behind is no JSON.
fn fault_of_list(alloc: Global, reader: &mut Reader<'_>, why: BodyRefusal) -> BodyFault
    ensures { Turns (refusal_behind why (items_at MEMBER_DEPTH reader.old)) result }
{
    match pass_members(alloc, reader) {
        Ok(()) => Fault::Refused(why),
        Err(broken) => broken,
    }
}

// Passes the members that are left of a list, and its end, behind which nothing may follow.
fn pass_members(alloc: Global, reader: &mut Reader<'_>) -> Result<(), BodyFault>
    ensures { Checks result (broken_behind (items_at MEMBER_DEPTH reader.old)) }
{
    'members: while !reader.take_end_array() {
        drop(read_value(alloc, reader, MEMBER_DEPTH)?);
    }
    expect_end(reader)?;
    Ok(())
}

// No token is left.
fn expect_end(reader: &mut Reader<'_>) -> Result<(), BodyFault>
    ensures { MatchResult result (λ _. reader.old ≡ [])
        (λ fault. (fault ≡ Turned Broken) × (reader.old ≢ [])) }
{
    match reader.next() {
        None => Ok(()),
        Some(_) => Err(Fault::Refused(BodyRefusal::NotJson)),
    }
}
