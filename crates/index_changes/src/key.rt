ghost use Rattle.std.specs.Prelude.{◌≡◌, [], Ok, Some, None, IfOk, unwrap_or};
ghost use Rattle.std.specs.Option.{option_copied};
ghost use Rattle.search_base.specs.Gives.{Gives};
ghost use Rattle.search_base.specs.Trying.{refused_as};
ghost use Rattle.doc_values.specs.Ids.{key_of};
ghost use Rattle.index_changes.specs.Refusals.{key_refusal};
ghost use Rattle.index_changes.specs.Plans.{key_for as key_of_change};

use crate::refusal::{CoreFault, CoreRefusal};
use doc_values::{DocumentText, KeyRefusal, infer_key};
use document_changes::Documents;
use search_base::{Fault, NoMemory, Word};
use std::alloc::Global;

/// The primary key after a change: that of the index, the given one, or else that of the first document.
pub(crate) fn key_for(
    alloc: Global,
    own: Option<&Word>,
    given: Option<Word>,
    documents: &Documents,
) -> Result<Option<Word>, CoreFault>
    ensures { Gives (λ key. key) result (key_of_change (option_copied own.entry) given documents.now) }
{
    match (own, given) {
        (Some(own), Some(given)) => if own.as_str() == given.as_str() {
            Ok(Some(given))
        } else {
            Err(Fault::Refused(CoreRefusal::KeyDiffers))
        },
        (Some(own), None) => Ok(Some(own.clone()?)),
        (None, Some(given)) => Ok(Some(given)),
        (None, None) => first_key(alloc, documents),
    }
}

// The key that the first document gives, as it was noted, or else as it is read back from its text.
fn first_key(alloc: Global, documents: &Documents) -> Result<Option<Word>, CoreFault>
    ensures { Gives (λ key. key) result (key_of_change None None documents.now) }
{
    if let Some(key) = documents.first_key() {
        return Ok(Some(key.clone()?));
    }
    match documents.texts().first() {
        Some(document) => Ok(Some(inferred(alloc, document)?)),
        None => Ok(None),
    }
}

// The key that a document gives, which is read back from its text and let go at once.
fn inferred(alloc: Global, text: &DocumentText) -> Result<Word, CoreFault>
    ensures { Gives (λ key. key) result (refused_as key_refusal (key_of text.now)) }
{
    let document = text.document(alloc)?;
    match infer_key(alloc, &document) {
        Ok(key) => Ok(key),
        Err(Fault::Refused(KeyRefusal::NoCandidate)) => {
            Err(Fault::Refused(CoreRefusal::NoCandidate))
        }
        Err(Fault::Refused(KeyRefusal::SeveralCandidates { .. })) => {
            Err(Fault::Refused(CoreRefusal::SeveralCandidates))
        }
        Err(Fault::NoMemory) => Err(Fault::NoMemory),
    }
}

/// A key as another one is.
pub(crate) fn copy_of(key: Option<&Word>) -> Result<Option<Word>, NoMemory>
    ensures { IfOk result (λ copy. copy ≡ option_copied key.entry) }
{
    match key {
        Some(key) => Ok(Some(key.clone()?)),
        None => Ok(None),
    }
}

/// The text of a key, and that of no bytes where there is none.
pub(crate) fn text_of(key: &Option<Word>) -> &str
    ensures { result.now ≡ unwrap_or key.now [] }
{
    match key {
        Some(key) => key.as_str(),
        None => "",
    }
}
