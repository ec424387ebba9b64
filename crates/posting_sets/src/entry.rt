ghost use Rattle.std.specs.Prelude.{◌≡◌};
ghost use Rattle.posting_sets.specs.Entries.{document_of, path_of, position_of};

use search_base::DocId;

// The document of an entry.
pub(crate) fn document_of(entry: u64) -> DocId
    ensures { result.0 ≡ document_of entry }
{
    DocId((entry / 0x1_0000_0000) as u32)
}

// The path of an entry.
pub(crate) fn path_of(entry: u64) -> u16
    ensures { result ≡ path_of entry }
{
    (entry / 0x1_0000 % 0x1_0000) as u16
}

// The position of an entry.
pub(crate) fn position_of(entry: u64) -> u16
    ensures { result ≡ position_of entry }
{
    (entry % 0x1_0000) as u16
}
