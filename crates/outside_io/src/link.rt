ghost use Rattle.std.specs.Prelude.{◌≡◌, ◌<◌, ◌≤◌, List, ℕ, Option, length};
ghost use Rattle.outside_io.specs.Bytes.{Reads, Writes};
ghost use Rattle.outside_io.specs.Faults.{HasCause};

/// A call to the outside failed. The object's count of such faults rose.
#[derive(Clone, Copy, Debug, PartialEq, Eq)]
pub struct Failed;

/// A two-way stream of bytes to one peer.
///
/// A link may tell which bytes are left to read and which were written; whether it tells them never
/// changes. It keeps two counts of faults, which never fall and stay at 2^64 - 1 once they are
/// there.
pub trait Link {
    /// The bytes that are left to read, where the link tells them.
    ghost left: { Self → Option (List ℕ) };

    /// The bytes written so far, where the link tells them.
    ghost told: { Self → Option (List ℕ) };

    /// How many reads failed.
    ghost read_faults: { Self → ℕ };

    /// How many writes failed.
    ghost write_faults: { Self → ℕ };

    /// Reads into the front of a slice of at least one byte, and answers how many bytes came. That is 0
    /// at the end of input: where the bytes are told, exactly where none is left.
    /// `Failed`: the count of read faults rose, and the bytes that are left stay as they were.
    fn read(&mut self, into: &mut [u8]) -> Result<usize, Failed>
        requires { 0 < length into.old }
        ensures bytes { Reads (left self.old) (left self.new) result into.new }
        ensures cause { HasCause (read_faults self.old) (read_faults self.new) result }
        ensures told { told self.new ≡ told self.old }
        ensures write_faults { write_faults self.new ≡ write_faults self.old };

    /// Writes the front of a piece, at least one byte of it, and answers how many bytes those were.
    /// `Failed`: the count of write faults rose, and none of the piece was written.
    fn write(&mut self, piece: &[u8]) -> Result<usize, Failed>
        requires { 0 < length piece.now }
        ensures bytes { Writes (told self.old) (told self.new) result piece.now }
        ensures cause { HasCause (write_faults self.old) (write_faults self.new) result }
        ensures left { left self.new ≡ left self.old }
        ensures read_faults { read_faults self.new ≡ read_faults self.old };
}
