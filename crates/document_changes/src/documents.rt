ghost use Rattle.std.specs.Prelude.{◌≡◌, [], ◌∷◌, IfOk, IfErr, IfSome, Ok};
ghost use Rattle.std.specs.Option.{option_copied};
ghost use Rattle.path_registry.specs.Met.{all_registered};
ghost use Rattle.document_changes.specs.Notes.{AreIdsUnder, FirstGives, AreRight};

use crate::notes::Notes;
use doc_values::DocumentText;
use search_base::{NoMemory, Word};
use std::alloc::{AllocError, Global};
use std::marker::Model;

/// The documents that a change brings, in order, with what was noted of them where they were read one by one. Seen as
/// the list of their data.
#[derive(Drop)]
pub struct Documents {
    texts: Vec<DocumentText>,
    notes: Option<Notes>,
}

impl Model for Documents {
    ghost use Rattle.std.specs.Prelude.{List};
    ghost use Rattle.std.specs.Coded.{codes};
    ghost use Rattle.serde_json.specs.Data.{Data};
    ghost use Rattle.doc_values.specs.DataCode.{data_code};
    ghost use Rattle.document_changes.specs.Notes.{AreRight};

    ghost Value = { List Data };

    ghost coded = { Prim.hlevel (codes, data_code) };

    ghost view = { λ d. d.texts.items };

    ghost invariant = { λ d. AreRight d.texts.items d.notes };
}

/// Documents with their ids under a key and their paths.
#[derive(Drop)]
pub struct NotedDocuments {
    pub texts: Vec<DocumentText>,
    /// The external id of each document.
    pub ids: Vec<Word>,
    /// The paths of all of them, each once, in order of arrival.
    pub paths: Vec<Word>,
}

impl Documents {
    /// No documents. Takes no memory.
    pub fn none(alloc: Global) -> Documents
        ensures { result ≡ [] }
    {
        Documents::unread(Vec::new(alloc))
    }

    /// Documents of which nothing was noted. Takes no memory.
    pub fn unread(texts: Vec<DocumentText>) -> Documents
        ensures { result ≡ texts.items }
    {
        Documents { texts, notes: None }
    }

    pub(crate) fn noted(texts: Vec<DocumentText>, notes: Option<Notes>) -> Documents
        requires { AreRight texts.items notes }
        ensures { result ≡ texts.items }
    {
        Documents { texts, notes }
    }

    /// The texts of the documents, in order. Takes no memory.
    pub fn texts(&self) -> &[DocumentText]
        ensures { result.now ≡ self.now }
    {
        self.texts.as_slice()
    }

    /// The texts of the documents, in order, without what was noted. Takes no memory.
    pub fn into_texts(self) -> Vec<DocumentText>
        ensures { result.items ≡ self }
    {
        self.texts
    }

    /// The primary key that the first document gives, where that was noted. Takes no memory.
    pub fn first_key(&self) -> Option<&Word>
        ensures { IfSome (option_copied result) (λ key. FirstGives key self.now) }
    {
        match &self.notes {
            Some(notes) if notes.inferred => Some(&notes.key),
            _ => None,
        }
    }

    /// The documents with their ids under a key and their paths, where these were noted, and else the texts of the
    /// documents, in order. Takes no memory.
    pub fn noted_under(self, key: &str) -> Result<NotedDocuments, Vec<DocumentText>>
        ensures texts { IfOk result (λ noted. noted.texts.items ≡ self) }
        ensures ids { IfOk result (λ noted. AreIdsUnder key.now self noted.ids.items) }
        ensures paths { IfOk result (λ noted. noted.paths.items ≡ all_registered self []) }
        ensures unread { IfErr result (λ texts. texts.items ≡ self) }
    {
        let Documents { texts, notes } = self;
        match notes {
            Some(notes) if notes.key.as_str() == key => Ok(NotedDocuments {
                texts,
                ids: notes.ids,
                paths: notes.paths,
            }),
            _ => Err(texts),
        }
    }
}

impl Clone for Documents {
    ghost is_clone = { λ documents copy. copy ≡ documents };

    fn clone(&self) -> Result<Documents, AllocError> {
        Ok(Documents {
            texts: self.texts.clone()?,
            notes: self.notes.clone()?,
        })
    }
}
