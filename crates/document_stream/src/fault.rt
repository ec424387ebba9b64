ghost use Rattle.std.specs.Prelude.{◌≡◌};
ghost use Rattle.document_stream.specs.Bodies.{refusal_of};

use search_base::{Fault, Word};

/// Why no documents are read from a body. Documents are numbered from 1.
#[derive(Debug, Drop)]
pub enum BodyRefusal {
    /// It is no JSON (RFC 8259): no UTF-8, nested deeper than 127, with a number too large for a float, or another
    /// text. Where this holds it is the refusal, whatever stands before the place that is broken.
    NotJson,
    /// It is neither a list nor an object.
    NotList,
    /// This document is no object, and those before it are documents.
    NotObject { document: u32 },
    /// This document holds a number that is not whole, under the first such path in the order of its walk, and those
    /// before it are documents.
    NumberNotWhole { document: u32, path: Word },
}

/// Why no documents are read: what `BodyRefusal` says, or want of memory.
pub type BodyFault = Fault<BodyRefusal>;

impl From<doc_values::BodyRefusal> for BodyRefusal {
    ghost from_gives = { λ refusal own. own ≡ refusal_of refusal };

    fn from(refusal: doc_values::BodyRefusal) -> BodyRefusal {
        match refusal {
            doc_values::BodyRefusal::NotList => BodyRefusal::NotList,
            doc_values::BodyRefusal::NotObject { document } => BodyRefusal::NotObject { document },
            doc_values::BodyRefusal::NumberNotWhole { document, path } => {
                BodyRefusal::NumberNotWhole { document, path }
            }
        }
    }
}
