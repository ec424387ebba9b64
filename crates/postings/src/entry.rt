ghost use Rattle.std.specs.Prelude.{◌≡◌, ◌<◌, ◌^◌};
ghost use Rattle.postings.specs.Documents.{entry_of};

use search_base::{DocId, Place};

// The place of a document as one number.
pub(crate) fn entry_of(id: DocId, place: &Place) -> u64
    ensures entry { result ≡ entry_of id.0 place.now }
    ensures path { place.now.path.0 < 2 ^ 16 }
    ensures position { place.now.position < 2 ^ 16 }
{
    let path = u64::from(place.path.0);
    let position = u64::from(place.position);
    u64::from(id.0) * 0x1_0000_0000 + path * 0x1_0000 + position
}
