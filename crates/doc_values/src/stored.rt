ghost use Rattle.std.specs.Prelude.{◌≡◌, Some, IfOk};
ghost use Rattle.serde_json.specs.Written.{compact_text};
ghost use Rattle.doc_values.specs.Stored.{document_at};
ghost use Rattle.doc_values.specs.Whole.{IsDocument};

use crate::document::Document;
use search_base::{Fault, NoMemory};
use serde_json::Value;
use std::alloc::{AllocError, Global};
use std::marker::Model;
use std::rc::RcStr;

/// A document as an index keeps it: its canonical text, with no room to spare where the allocator gives that back.
/// Its clones share one text. Seen as the document's data, as a `Document` is.
#[derive(Drop)]
pub struct DocumentText {
    text: RcStr,
}

impl Model for DocumentText {
    ghost use Rattle.serde_json.specs.Data.{Data};
    ghost use Rattle.doc_values.specs.DataCode.{data_code};
    ghost use Rattle.std.specs.Rc.{rc_str_bytes};
    ghost use Rattle.doc_values.specs.Texts.{text_data, IsDocumentText};

    ghost Value = { Data };

    ghost coded = { data_code };

    ghost view = { λ kept. text_data (rc_str_bytes kept.text) };

    ghost invariant = { λ kept. IsDocumentText (rc_str_bytes kept.text) };
}

impl DocumentText {
    /// The text of a document: its JSON, members in byte order of names, with no blanks.
    pub fn of(alloc: Global, document: &Document) -> Result<DocumentText, NoMemory>
        ensures { IfOk result (λ kept. kept ≡ document.now) }
    {
        let mut text = document.as_json().to_string(alloc)?;
        text.shrink_to_fit();
        Ok(DocumentText {
            text: RcStr::from_string(text)?,
        })
    }

    /// The document whose canonical text these bytes are. None where they are the canonical text of no document, also
    /// where they are another JSON text of one.
    pub fn at(alloc: Global, text: &[u8]) -> Result<Option<DocumentText>, NoMemory>
        ensures { IfOk result (λ kept. kept ≡ document_at text.now) }
    {
        let value = match Value::from_slice(alloc, text) {
            Ok(value) => value,
            Err(e) => return if e.is_memory() {
                Err(NoMemory)
            } else {
                Ok(None)
            },
        };
        let document = match Document::from_json(alloc, value) {
            Ok(document) => document,
            Err(Fault::NoMemory) => return Err(NoMemory),
            Err(Fault::Refused(_)) => return Ok(None),
        };
        let own = DocumentText::of(alloc, &document)?;
        if own.text().as_bytes() == text {
            Ok(Some(own))
        } else {
            Ok(None)
        }
    }

    /// The canonical text, which gives the document back. Takes no memory.
    pub fn text(&self) -> &str
        ensures text { result.now ≡ compact_text self.now }
        ensures back { document_at result.now ≡ Some self.now }
        ensures is_document { IsDocument self.now }
    {
        self.text.as_str()
    }

    /// The document, read back from its text.
    pub fn document(&self, alloc: Global) -> Result<Document, NoMemory>
        ensures { IfOk result (λ document. document ≡ self.now) }
    {
        // The text is JSON, so memory alone can be wanting.
        match Value::from_str(alloc, self.text.as_str()) {
            Ok(value) => Ok(Document::whole(value)),
            Err(_) => Err(NoMemory),
        }
    }
}

impl Clone for DocumentText {
    ghost is_clone = { λ kept copy. copy ≡ kept };

    fn clone(&self) -> Result<DocumentText, AllocError> {
        let text = self.text.clone()?;
        Ok(DocumentText { text })
    }
}
