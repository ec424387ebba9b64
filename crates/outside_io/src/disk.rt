ghost use Rattle.std.specs.Prelude.{◌≡◌, ◌+◌, ◌<◌, ◌≤◌, ◌^◌, List, ℕ, Option, length, IfOk, OnOk, OnErr};
ghost use Rattle.std.specs.Option.{option_map};
ghost use Rattle.outside_io.specs.Faults.{HasCause};
ghost use Rattle.outside_io.specs.Disks.{Contents, Told, IsInRange, Gives, MayLeave, MayHave, MayLeaveAsRead, Elapses, spoiled, written, shortened, cut_to, settled};

use crate::Failed;

/// A row of bytes that outlives the process: what it holds, and what a crash may leave of it.
///
/// A disk may tell what it holds; whether it does never changes. After a crash it is as long as it
/// was at some time since its last sync that succeeded, or something between the least and the
/// greatest of these lengths. Below the least each byte that was not written since is unharmed, and
/// of all others nothing is known. What a read gives is among what a crash may leave. A write or a
/// cut that failed had no effect, or counts as made here. A disk keeps a clock that never goes back,
/// and a count of faults, which never falls and stays at 2^64 - 1 once it is there.
pub trait Disk {
    /// What a read gives and what a crash may leave, where the disk tells it.
    ghost contents: { Self → Option Contents };

    /// The clock.
    ghost moment: { Self → ℕ };

    /// What a crash at that moment or a later one, during a call or between two, might have left.
    ghost left_since: { Self → ℕ → List ℕ → Type 0 };

    /// How many calls failed.
    ghost disk_faults: { Self → ℕ };

    /// The number of bytes that the disk holds. `Failed`: the count of faults rose. What the disk
    /// holds stays either way.
    fn len(&mut self) -> Result<u64, Failed>
        ensures len { IfOk result (λ n. Told (contents self.old) (λ xs. n ≡ length xs)) }
        ensures contents { contents self.new ≡ contents self.old }
        ensures in_range { IsInRange (contents self.new) }
        ensures as_read { MayLeaveAsRead (contents self.new) }
        ensures time { Elapses (moment self.old) (moment self.new) (left_since self.old) (left_since self.new) (contents self.new) }
        ensures cause { HasCause (disk_faults self.old) (disk_faults self.new) result };

    /// Reads what stands from a place on into the front of a slice, and answers how many bytes:
    /// fewer than the slice has only at the end. `Failed`: the count of faults rose. What the disk
    /// holds stays either way.
    fn read_at(&mut self, at: u64, into: &mut [u8]) -> Result<usize, Failed>
        ensures within { IfOk result (λ n. n ≤ length into.new) }
        ensures bytes { IfOk result (λ n. Told (contents self.old) (λ xs. Gives xs at (length into.old) n into.new)) }
        ensures contents { contents self.new ≡ contents self.old }
        ensures in_range { IsInRange (contents self.new) }
        ensures as_read { MayLeaveAsRead (contents self.new) }
        ensures time { Elapses (moment self.old) (moment self.new) (left_since self.old) (left_since self.new) (contents self.new) }
        ensures cause { HasCause (disk_faults self.old) (disk_faults self.new) result };

    /// Writes a whole piece at a place that is not past the end, over what stands there and past
    /// the end. `Failed`: the count of faults rose, and the write had no effect or counts as made
    /// in what a crash may leave. It always comes where the piece would end past 2^64 - 1.
    fn write_at(&mut self, at: u64, piece: &[u8]) -> Result<(), Failed>
        requires { Told (contents self.old) (λ xs. at ≤ length xs) }
        ensures written { OnOk result (contents self.new ≡ option_map (written at piece.now) (contents self.old)) }
        ensures failed { OnErr result (MayHave (spoiled at piece.now) (contents self.old) (contents self.new)) }
        ensures fits { OnOk result (at + length piece.now < 2 ^ 64) }
        ensures in_range { IsInRange (contents self.new) }
        ensures as_read { MayLeaveAsRead (contents self.new) }
        ensures time { Elapses (moment self.old) (moment self.new) (left_since self.old) (left_since self.new) (contents self.new) }
        ensures cause { HasCause (disk_faults self.old) (disk_faults self.new) result };

    /// Cuts the disk to a length that is not above its own. `Failed`: the count of faults rose, and
    /// the cut had no effect or counts as made in what a crash may leave.
    fn cut(&mut self, len: u64) -> Result<(), Failed>
        requires { Told (contents self.old) (λ xs. len ≤ length xs) }
        ensures cut { OnOk result (contents self.new ≡ option_map (cut_to len) (contents self.old)) }
        ensures failed { OnErr result (MayHave (shortened len) (contents self.old) (contents self.new)) }
        ensures in_range { IsInRange (contents self.new) }
        ensures as_read { MayLeaveAsRead (contents self.new) }
        ensures time { Elapses (moment self.old) (moment self.new) (left_since self.old) (left_since self.new) (contents self.new) }
        ensures cause { HasCause (disk_faults self.old) (disk_faults self.new) result };

    /// Makes what was written last: from now on a crash leaves what a read gives. `Failed`: the
    /// count of faults rose, and nothing else changed.
    fn sync(&mut self) -> Result<(), Failed>
        ensures synced { OnOk result (contents self.new ≡ option_map settled (contents self.old)) }
        ensures failed { OnErr result (contents self.new ≡ contents self.old) }
        ensures in_range { IsInRange (contents self.new) }
        ensures as_read { MayLeaveAsRead (contents self.new) }
        ensures time { Elapses (moment self.old) (moment self.new) (left_since self.old) (left_since self.new) (contents self.new) }
        ensures cause { HasCause (disk_faults self.old) (disk_faults self.new) result };

    /// The present moment is one of those since an earlier one.
    ghost counts_now: { (disk : Self) (t : ℕ) (c : List ℕ) → t ≤ moment disk → MayLeave (contents disk) c → left_since disk t c };

    /// Since the present moment there is no other.
    ghost only_now: { (disk : Self) (c : List ℕ) → left_since disk (moment disk) c → MayLeave (contents disk) c };
}
