ghost use Rattle.std.specs.Prelude.{◌≡◌};
ghost use Rattle.search_server.specs.Statuses.{number_of};

use http_wire::HeadKind;

/// How the program ended, or serving a link.
#[derive(Clone, Copy, Debug, PartialEq, Eq)]
pub enum Status {
    /// Nothing is left to do: the input ended where a request may begin, or the last request asked to close; as many
    /// links as were asked for were served, or no more came; or the summary of the demo is written.
    Done,
    /// The words are none that the program knows. Serving a link never ends so.
    BadWords,
    /// The link's count of read faults rose.
    ReadFault,
    /// The link's count of write faults rose, or that of the pipe on which the server tells what it did.
    WriteFault,
    /// The door's count of faults rose. Serving a link never ends so.
    DoorFault,
    /// The count of faults of one of the two disks rose.
    DiskFault,
    /// What a disk, 0 or 1, holds is damaged: `found` is the first byte that is wrong, nothing at an end that comes too
    /// early. Serving a link never ends so.
    Damaged {
        disk: u8,
        place: u64,
        found: Option<u8>,
    },
    /// The input ended inside a request, `rest` bytes, above 0, after the last whole one.
    CutShort {
        rest: u64,
    },
    /// A head was refused, and the answer to it was written whole.
    BadHead {
        kind: HeadKind,
        number: u64,
    },
    /// As many requests as one link may send, 1,000,000, were served, and it would go on.
    RequestsSpent,
    NoMemory,
}

impl Status {
    /// The number with which the program ends: 0 and 2 to 11, in the order in which the statuses are declared.
    pub fn number(&self) -> u8
        ensures { result ≡ number_of self.now }
    {
        match self {
            Status::Done => 0,
            Status::BadWords => 2,
            Status::ReadFault => 3,
            Status::WriteFault => 4,
            Status::DoorFault => 5,
            Status::DiskFault => 6,
            Status::Damaged { .. } => 7,
            Status::CutShort { .. } => 8,
            Status::BadHead { .. } => 9,
            Status::RequestsSpent => 10,
            Status::NoMemory => 11,
        }
    }
}

/// How serving a link ended.
#[derive(Clone, Copy, Debug, PartialEq, Eq)]
pub struct LinkEnd {
    pub status: Status,
    /// How many whole requests were read, from 0 to 1,000,000. One whose reply could not be
    /// written is among them.
    pub requests: u64,
    /// How many checkpoints were due and passed over for want of memory.
    pub passed: u64,
    /// Whether the batch of tasks behind the last reply found no memory. Its tasks wait then, and the reply is whole.
    pub put_off: bool,
}
