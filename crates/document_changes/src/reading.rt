ghost use Rattle.std.specs.Prelude.{◌≡◌, List, [], ◌∷◌, ◌++◌, OnOk, IfOk};
ghost use Rattle.serde_json.specs.Data.{Data};
ghost use Rattle.document_changes.specs.Notes.{AreRight};
ghost use Rattle.document_changes.specs.Reading.{IsReady, AreReady, IsNoting, AreNoting, IsReading};

use crate::documents::Documents;
use crate::notes::Notes;
use doc_values::{Document, DocumentText, external_id, infer_key};
use path_registry::MetPaths;
use search_base::{Fault, NoMemory, Word};
use std::alloc::Global;

/// Documents that are read one after the other, each of which is let go again when its text is kept and it is noted
/// what a change needs of it. Ids are noted under the key that was given, or else the one that the first document
/// gives. Nothing is noted of any where there is no such key, where one of them gives no id under it, or where they
/// have more paths than an index may have.
#[derive(Drop)]
pub struct DocumentReading {
    texts: Vec<DocumentText>,
    given: Option<Word>,
    notes: Option<Noting>,
}

// What is noted so far.
#[derive(Drop)]
struct Noting {
    key: Word,
    inferred: bool,
    ids: Vec<Word>,
    paths: MetPaths,
}

impl DocumentReading {
    /// No documents so far, and the key under which ids are to be noted, if it is known. Takes no memory.
    pub fn new(alloc: Global, given: Option<Word>) -> DocumentReading
        ensures texts { result.texts.items ≡ [] }
        ensures reading { IsReading result }
    {
        DocumentReading {
            texts: Vec::new(alloc),
            given,
            notes: None,
        }
    }

    /// Reads one document more. After an error the reading is of no use.
    pub fn read(&mut self, alloc: Global, document: &Document) -> Result<(), NoMemory>
        requires { IsReading self.old }
        ensures texts { OnOk result (self.new.texts.items ≡ self.old.texts.items ++ document.now ∷ []) }
        ensures reading { OnOk result (IsReading self.new) }
    {
        let notes = self.notes_with(alloc, document)?;
        self.texts.push(DocumentText::of(alloc, document)?)?;
        self.notes = notes;
        Ok(())
    }

    // The notes with those on one document more, which takes them from the reading.
    fn notes_with(&mut self, alloc: Global, document: &Document) -> Result<Option<Noting>, NoMemory>
        requires { IsReading self.old }
        ensures texts { self.new.texts ≡ self.old.texts }
        ensures notes { IfOk result (AreNoting (self.old.texts.items ++ document.now ∷ [])) }
    {
        match self.notes_before(alloc, document)? {
            Some(noting) => noting.with(alloc, document),
            None => Ok(None),
        }
    }

    // The notes to which those on one document more come, which are taken from the reading.
    fn notes_before(
        &mut self,
        alloc: Global,
        document: &Document,
    ) -> Result<Option<Noting>, NoMemory>
        requires { IsReading self.old }
        ensures texts { self.new.texts ≡ self.old.texts }
        ensures ready { IfOk result (AreReady self.old.texts.items document.now) }
    {
        if self.texts.is_empty() {
            Noting::begun(alloc, self.given.take(), document)
        } else {
            Ok(self.notes.take())
        }
    }

    /// The documents that were read. Takes no memory.
    pub fn finish(self) -> Documents
        requires { IsReading self }
        ensures { result ≡ self.texts.items }
    {
        let DocumentReading {
            texts,
            given: _,
            notes,
        } = self;
        let notes = match notes {
            Some(noting) => noting.finish(),
            None => None,
        };
        Documents::noted(texts, notes)
    }
}

impl Noting {
    // Notes on no document, before the first, where a key was given or this one gives one.
    fn begun(
        alloc: Global,
        given: Option<Word>,
        first: &Document,
    ) -> Result<Option<Noting>, NoMemory>
        ensures { IfOk result (AreReady [] first.now) }
    {
        let inferred = given.is_none();
        let key = match given {
            Some(key) => key,
            None => match infer_key(alloc, first) {
                Ok(key) => key,
                Err(Fault::Refused(_)) => return Ok(None),
                Err(Fault::NoMemory) => return Err(NoMemory),
            },
        };
        Ok(Some(Noting {
            key,
            inferred,
            ids: Vec::new(alloc),
            paths: MetPaths::new(alloc),
        }))
    }

    // The notes with those on one document more; none where it gives no id.
    fn with(mut self, alloc: Global, document: &Document) -> Result<Option<Noting>, NoMemory>
        requires { (documents : List Data) × IsReady documents document.now self }
        ensures { (documents : List Data) → IsReady documents document.now self
            → IfOk result (AreNoting (documents ++ document.now ∷ [])) }
    {
        match external_id(alloc, document, self.key.as_str()) {
            Ok(id) => self.ids.push(id)?,
            Err(Fault::Refused(_)) => return Ok(None),
            Err(Fault::NoMemory) => return Err(NoMemory),
        }
        self.paths.meet(alloc, document)?;
        Ok(Some(self))
    }

    // None where there are more paths than an index may have.
    fn finish(self) -> Option<Notes>
        ensures { (documents : List Data) → IsNoting documents self → AreRight documents result }
    {
        let Noting {
            key,
            inferred,
            ids,
            paths,
        } = self;
        Some(Notes {
            key,
            inferred,
            ids,
            paths: paths.into_paths()?,
        })
    }
}
