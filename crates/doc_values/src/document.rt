ghost use Rattle.std.specs.Prelude.{◌≡◌, ◌≤◌, false, IfOk};
ghost use Rattle.serde_json.specs.Data.{depth};
ghost use Rattle.serde_json.specs.Read.{max_depth};
ghost use Rattle.serde_json.specs.View.{view};
ghost use Rattle.serde_json.specs.Written.{has_float};
ghost use Rattle.search_base.specs.Gives.{Gives};
ghost use Rattle.doc_values.specs.Whole.{IsDocument};
ghost use Rattle.doc_values.specs.Walk.{document_of};

use crate::floats::check_object;
use search_base::{Fault, Word};
use serde_json::Value;
use std::alloc::{AllocError, Global};
use std::marker::Model;

/// A JSON object (RFC 8259) whose numbers are all whole, from -2^63 to 2^64 - 1, seen as its data.
#[derive(Drop)]
pub struct Document {
    value: Value,
}

impl Model for Document {
    ghost use Rattle.serde_json.specs.Data.{Data};
    ghost use Rattle.doc_values.specs.DataCode.{data_code};

    ghost Value = { Data };

    ghost coded = { data_code };

    ghost use Rattle.serde_json.specs.View.{view as data_of};
    ghost use Rattle.doc_values.specs.Whole.{IsDocument};

    ghost view = { λ document. data_of document.value };

    ghost invariant = { λ document. IsDocument (data_of document.value) };
}

/// Why a value is no document.
#[derive(Debug, Drop)]
pub enum DocumentRefusal {
    /// It is no object.
    NotObject,
    /// A number in it is not whole: `path` is that of the first member, in the order of the walk, that holds one
    /// directly or through arrays.
    NumberNotWhole { path: Word },
}

/// Why there is no document: what `DocumentRefusal` says, or want of memory.
pub type DocumentFault = Fault<DocumentRefusal>;

impl Document {
    /// The document that `value` is, as it stands, or the first reason why it is none.
    ///
    /// A number that JSON's reader keeps as a float is not whole: `1.0`, `1e3`, `-0` and 2^64 are such. Memory is
    /// taken only to name the path of a number that is not whole.
    pub fn from_json(alloc: Global, value: Value) -> Result<Document, DocumentFault>
        requires { depth (view value) ≤ max_depth }
        ensures answer { Gives (λ document. document) result (document_of (view value)) }
        ensures as_given { IfOk result (λ document. document ≡ view value) }
    {
        match &value {
            Value::Object(members) => check_object(alloc, members)?,
            _ => return Err(Fault::Refused(DocumentRefusal::NotObject)),
        }
        Ok(Document { value })
    }

    pub(crate) fn whole(value: Value) -> Document
        requires { IsDocument (view value) }
        ensures { result ≡ view value }
    {
        Document { value }
    }

    /// The document as JSON: an object, in which no number is a float. Takes no memory.
    #[tactic(auto, using(crate::proofs::Documents::no_float))]
    pub fn as_json(&self) -> &Value
        ensures value { view result.now ≡ self.now }
        ensures is_document { IsDocument self.now }
        ensures whole { has_float self.now ≡ false }
    {
        &self.value
    }
}

impl Clone for Document {
    ghost is_clone = { λ document copy. copy ≡ document };

    fn clone(&self) -> Result<Document, AllocError> {
        Ok(Document {
            value: self.value.clone()?,
        })
    }
}
