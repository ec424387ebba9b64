ghost use Rattle.std.specs.Prelude.{◌≡◌, ◌≤◌};
ghost use Rattle.serde_json.specs.Data.{depth, items_depth};
ghost use Rattle.serde_json.specs.Read.{max_depth};
ghost use Rattle.serde_json.specs.View.{view, items_view};
ghost use Rattle.search_base.specs.Gives.{Gives};
ghost use Rattle.search_base.specs.Trying.{refused_as};
ghost use Rattle.doc_values.specs.Walk.{document_of};
ghost use Rattle.doc_values.specs.Bodies.{documents_of as documents_of_data, documents_in, placed};

use crate::document::{Document, DocumentRefusal};
use search_base::{Fault, Word};
use serde_json::Value;
use std::alloc::Global;

/// Why a body has no documents. Documents are numbered from 1.
#[derive(Debug, Drop)]
pub enum BodyRefusal {
    /// It is neither a list nor an object.
    NotList,
    /// This document is no object, and those before it are documents.
    NotObject { document: u32 },
    /// This document holds a number that is not whole, under the first such path in the order of its walk, and those
    /// before it are documents.
    NumberNotWhole { document: u32, path: Word },
}

/// Why there are no documents: what `BodyRefusal` says, or want of memory.
pub type BodyFault = Fault<BodyRefusal>;

/// The documents of a body, in order: the items of a list, or an object as the only one.
///
/// A list of 2^32 items or more counts as one for which there is no memory.
pub fn documents_of(alloc: Global, value: Value) -> Result<Vec<Document>, BodyFault>
    requires { depth (view value) ≤ max_depth }
    ensures { Gives (λ documents. documents.items) result (documents_of_data (view value)) }
{
    match value {
        Value::Array(items) => documents_among(alloc, items),
        Value::Object(members) => {
            let mut documents = Vec::new(alloc);
            documents.push(document_at_place(alloc, Value::Object(members), 1)?)?;
            Ok(documents)
        }
        _ => Err(Fault::Refused(BodyRefusal::NotList)),
    }
}

fn documents_among(alloc: Global, items: Vec<Value>) -> Result<Vec<Document>, BodyFault>
    requires { items_depth (items_view items.items) ≤ max_depth }
    ensures { Gives (λ documents. documents.items) result (documents_in 1 (items_view items.items)) }
{
    let mut documents = Vec::new(alloc);
    let mut before: u32 = 0;
    for item in items {
        if before == u32::MAX {
            return Err(Fault::NoMemory);
        }
        documents.push(document_at_place(alloc, item, before + 1)?)?;
        before += 1;
    }
    Ok(documents)
}

fn document_at_place(alloc: Global, value: Value, place: u32) -> Result<Document, BodyFault>
    requires { depth (view value) ≤ max_depth }
    ensures { Gives (λ document. document) result (refused_as (placed place) (document_of (view value))) }
{
    match Document::from_json(alloc, value) {
        Ok(document) => Ok(document),
        Err(Fault::Refused(refusal)) => Err(Fault::Refused(placed_at(place, refusal))),
        Err(Fault::NoMemory) => Err(Fault::NoMemory),
    }
}

fn placed_at(place: u32, refusal: DocumentRefusal) -> BodyRefusal
    ensures { result ≡ placed place refusal }
{
    match refusal {
        DocumentRefusal::NotObject => BodyRefusal::NotObject { document: place },
        DocumentRefusal::NumberNotWhole { path } => BodyRefusal::NumberNotWhole {
            document: place,
            path,
        },
    }
}
