ghost use Rattle.std.specs.Prelude.{◌≡◌, ◌⊎◌, ◌↔◌, ◌+◌, ◌-◌, ◌^◌, ◌<◌, ◌≤◌, ◌++◌, [], ◌∷◌, List, Some, IfOk, OnOk, OnErr, IsErr, IsTrue, Contains, min, length, vec_len, vec_capacity, map, true, false};
ghost use Rattle.outside_io.specs.Faults.{Rose, HasCause, more_faults};
ghost use Rattle.outside_io.specs.Disks.{Contents, fresh, IsLeft, Gives, MayHave, MayLeaveAsRead, IsInRange, Elapses, replaced, spoiled, written, shortened, cut_to, settled};
ghost use Rattle.outside_io.specs.MemoryDisk.{Kept, wrote, shortened_to, synced, kept_of, step, MemoryDiskState, new_disk, contents_of, LeftSince, crashed, crash_content};
ghost use Rattle.outside_io.specs.Moments.{left_now, only_left};

use crate::memory_link::is_listed;
use crate::{Disk, Failed};
use search_base::NoMemory;
use std::alloc::{AllocError, Global};
use std::marker::Model;

#[derive(Drop)]
enum DiskCall {
    Write { at: u64, piece: Vec<u8>, done: bool },
    Cut { len: u64, done: bool },
    Sync,
}

/// A disk in memory, which tells what it holds, keeps each write, cut and sync, and fails at the
/// calls that it is told.
#[derive(Drop)]
pub struct MemoryDisk {
    alloc: Global,
    first: Vec<u8>,
    content: Vec<u8>,
    calls: Vec<DiskCall>,
    failing: Vec<u64>,
    number: u64,
    faults: u64,
    starved: u64,
}

impl Model for MemoryDisk {
    ghost use Rattle.std.specs.Prelude.{◌≡◌, map};
    ghost use Rattle.outside_io.specs.Disks.{fresh};
    ghost use Rattle.outside_io.specs.MemoryDisk.{MemoryDiskState, kept_of, run};

    ghost Value = { MemoryDiskState };

    ghost view = { λ m. record {
      first = m.first.items;
      calls = map kept_of m.calls.items;
      failing = m.failing.items;
      number = m.number;
      faults = m.faults;
      starved = m.starved;
    } };

    ghost invariant = { λ m. m.content.items ≡ (run (fresh m.first.items) (map kept_of m.calls.items)).now };
}

impl MemoryDisk {
    /// A disk that holds these bytes with nothing pending, and fails at the calls of these numbers,
    /// counted over all its calls from 0.
    pub fn new(alloc: Global, content: Vec<u8>, failing: Vec<u64>) -> Result<MemoryDisk, NoMemory>
        ensures { IfOk result (λ disk. disk ≡ new_disk content.items failing.items) }
    {
        let first = match content.to_vec(alloc) {
            Ok(first) => first,
            Err(_) => return Err(NoMemory),
        };
        Ok(MemoryDisk {
            alloc,
            first,
            content,
            calls: Vec::new(alloc),
            failing,
            number: 0,
            faults: 0,
            starved: 0,
        })
    }

    /// What a read gives.
    pub fn content(&self) -> &[u8]
        ensures { result.now ≡ (contents_of self.now).now }
    {
        &self.content
    }

    /// How many calls failed for want of memory. They count among the faults too.
    pub fn starved(&self) -> u64
        ensures { result ≡ self.now.starved }
    {
        self.starved
    }

    /// The disk after a crash that lets the first `kept` writes and cuts since the last sync
    /// through whole, and no other; the disk itself stays. That is one of the contents that a crash
    /// may leave. A piece that was to stand past the end stands at the end.
    #[tactic(auto, using(crate::proofs::Crashed::crashed_first))]
    pub fn after_crash(&self, kept: u64) -> Result<MemoryDisk, NoMemory>
        ensures content { IfOk result (λ disk. disk ≡ new_disk (crash_content self.now kept) []) }
        ensures left { IfOk result (λ disk. IsLeft (contents_of self.now) disk.first) }
    {
        match replayed(self.alloc, &self.first, &self.calls, kept) {
            Ok(content) => MemoryDisk::new(self.alloc, content, Vec::new(self.alloc)),
            Err(_) => Err(NoMemory),
        }
    }
}

// Copies what stands at a place into a slice, and says how much.
fn give(content: &[u8], at: u64, into: &mut [u8]) -> usize
    ensures within { result ≤ length into.new }
    ensures gives { Gives content.now at (length into.old) result into.new }
{
    if at >= content.len() as u64 {
        return 0;
    }
    let rest = &content[at as usize..];
    let count = rest.len().min(into.len());
    into[..count].copy_from_slice(&rest[..count]);
    count
}

// Puts a piece over what stands at a place, and past the end.
#[tactic(auto, using(crate::proofs::Pieces::put_over))]
fn put(content: &mut Vec<u8>, at: usize, piece: &[u8]) -> Result<(), AllocError>
    requires { at ≤ length content.old.items }
    ensures ok { OnOk result (content.new.items ≡ replaced at piece.now content.old.items) }
    ensures err { OnErr result (content.new.items ≡ content.old.items) }
{
    let over = piece.len().min(content.len() - at);
    content.extend_from_slice(&piece[over..])?;
    content[at..at + over].copy_from_slice(&piece[..over]);
    Ok(())
}

// Adds a call to a record that has room for it.
fn keep(calls: &mut Vec<DiskCall>, call: DiskCall)
    requires { vec_len calls.old < vec_capacity calls.old }
    ensures { map kept_of calls.new.items ≡ map kept_of calls.old.items ++ kept_of call ∷ [] }
{
    let _kept = calls.push(call);
}

impl MemoryDisk {
    // Whether this call is to fail; its number is counted.
    fn starts(&mut self) -> bool
        ensures in_range { IsInRange (Some (contents_of self.new)) }
        ensures same { self.new ≡ record self.old { number = min (self.old.number + 1) (2 ^ 64 - 1) } }
        ensures listed { IsTrue result ↔ Contains self.old.failing self.old.number }
    {
        let listed = is_listed(&self.failing, self.number);
        self.number = self.number.saturating_add(1);
        listed
    }

    // Counts a fault.
    fn fails(&mut self) -> Failed
        ensures later { self.old.faults ≤ self.new.faults }
        ensures rose { Rose self.old.faults self.new.faults }
        ensures in_range { IsInRange (Some (contents_of self.new)) }
        ensures same { self.new ≡ record self.old { faults = min (self.old.faults + 1) (2 ^ 64 - 1) } }
    {
        self.faults = self.faults.saturating_add(1);
        Failed
    }

    // Counts a fault for want of memory.
    fn starves(&mut self) -> Failed
        ensures later { self.old.faults ≤ self.new.faults }
        ensures rose { Rose self.old.faults self.new.faults }
        ensures in_range { IsInRange (Some (contents_of self.new)) }
        ensures same { self.new ≡ record self.old { faults = min (self.old.faults + 1) (2 ^ 64 - 1); starved = min (self.old.starved + 1) (2 ^ 64 - 1) } }
    {
        self.faults = self.faults.saturating_add(1);
        self.starved = self.starved.saturating_add(1);
        Failed
    }

    #[tactic(auto, using(crate::proofs::Calls::run_push))]
    fn keep_write(&mut self, at: u64, piece: &[u8], done: bool) -> Result<(), AllocError>
        requires { at ≤ length (contents_of self.old).now }
        ensures ok { OnOk result (self.new ≡ record self.old { calls = self.old.calls ++ wrote at piece.now done ∷ [] }) }
        ensures in_range { IsInRange (Some (contents_of self.new)) }
        ensures contents { OnOk result (contents_of self.new ≡ step (wrote at piece.now done) (contents_of self.old)) }
        ensures fits { at + length piece.now < 2 ^ 64 }
        ensures err { OnErr result (self.new ≡ self.old) }
    {
        let call = DiskCall::Write {
            at,
            piece: piece.to_vec(self.alloc)?,
            done,
        };
        self.calls.reserve(1)?;
        if done {
            put(&mut self.content, at as usize, piece)?;
        }
        keep(&mut self.calls, call);
        Ok(())
    }

    #[tactic(auto, using(crate::proofs::Calls::run_push))]
    fn keep_cut(&mut self, len: u64, done: bool) -> Result<(), AllocError>
        requires { len ≤ length (contents_of self.old).now }
        ensures ok { OnOk result (self.new ≡ record self.old { calls = self.old.calls ++ shortened_to len done ∷ [] }) }
        ensures in_range { IsInRange (Some (contents_of self.new)) }
        ensures contents { OnOk result (contents_of self.new ≡ step (shortened_to len done) (contents_of self.old)) }
        ensures err { OnErr result (self.new ≡ self.old) }
    {
        self.calls.reserve(1)?;
        keep(&mut self.calls, DiskCall::Cut { len, done });
        if done {
            self.content.truncate(len as usize);
        }
        Ok(())
    }

    #[tactic(auto, using(crate::proofs::Calls::run_push))]
    fn keep_sync(&mut self) -> Result<(), AllocError>
        ensures ok { OnOk result (self.new ≡ record self.old { calls = self.old.calls ++ synced ∷ [] }) }
        ensures in_range { IsInRange (Some (contents_of self.new)) }
        ensures contents { OnOk result (contents_of self.new ≡ settled (contents_of self.old)) }
        ensures err { OnErr result (self.new ≡ self.old) }
    {
        self.calls.reserve(1)?;
        keep(&mut self.calls, DiskCall::Sync);
        Ok(())
    }
}

impl Disk for MemoryDisk {
    ghost contents = { λ m. Some (contents_of m) };

    ghost moment = { λ m. length m.calls };

    ghost left_since = { λ m t c. LeftSince m.first m.calls t c };

    ghost disk_faults = { λ m. m.faults };

    ghost counts_now = { λ m t c le left. left_now m.first m.calls t c le left };

    ghost only_now = { λ m c left. only_left m.first m.calls c left };

    #[tactic(auto, using(crate::proofs::Crashed::left_as_read))]
    fn len(&mut self) -> Result<u64, Failed>
        ensures len { IfOk result (λ n. n ≡ length (contents_of self.old).now) }
        ensures contents { Some (contents_of self.new) ≡ Some (contents_of self.old) }
        ensures in_range { IsInRange (Some (contents_of self.new)) }
        ensures as_read { MayLeaveAsRead (Some (contents_of self.new)) }
        ensures time { Elapses (length self.old.calls) (length self.new.calls) (LeftSince self.old.first self.old.calls) (LeftSince self.new.first self.new.calls) (Some (contents_of self.new)) }
        ensures cause { HasCause self.old.faults self.new.faults result }
        // It fails exactly where its number is listed.
        ensures listed { IsErr result ↔ Contains self.old.failing self.old.number }
        ensures rest { self.new ≡ record self.old { number = min (self.old.number + 1) (2 ^ 64 - 1); faults = more_faults self.old.faults result } }
    {
        if self.starts() {
            return Err(self.fails());
        }
        Ok(self.content.len() as u64)
    }

    #[tactic(auto, using(crate::proofs::Crashed::left_as_read))]
    fn read_at(&mut self, at: u64, into: &mut [u8]) -> Result<usize, Failed>
        ensures within { IfOk result (λ n. n ≤ length into.new) }
        ensures bytes { IfOk result (λ n. Gives (contents_of self.old).now at (length into.old) n into.new) }
        ensures contents { Some (contents_of self.new) ≡ Some (contents_of self.old) }
        ensures in_range { IsInRange (Some (contents_of self.new)) }
        ensures as_read { MayLeaveAsRead (Some (contents_of self.new)) }
        ensures time { Elapses (length self.old.calls) (length self.new.calls) (LeftSince self.old.first self.old.calls) (LeftSince self.new.first self.new.calls) (Some (contents_of self.new)) }
        ensures cause { HasCause self.old.faults self.new.faults result }
        // It fails exactly where its number is listed.
        ensures listed { IsErr result ↔ Contains self.old.failing self.old.number }
        ensures rest { self.new ≡ record self.old { number = min (self.old.number + 1) (2 ^ 64 - 1); faults = more_faults self.old.faults result } }
    {
        if self.starts() {
            return Err(self.fails());
        }
        Ok(give(&self.content, at, into))
    }

    #[tactic(auto, using(crate::proofs::Crashed::left_as_read))]
    fn write_at(&mut self, at: u64, piece: &[u8]) -> Result<(), Failed>
        requires { at ≤ length (contents_of self.old).now }
        ensures written { OnOk result (Some (contents_of self.new) ≡ Some (written at piece.now (contents_of self.old))) }
        ensures failed { OnErr result (MayHave (spoiled at piece.now) (Some (contents_of self.old)) (Some (contents_of self.new))) }
        ensures fits { OnOk result (at + length piece.now < 2 ^ 64) }
        ensures in_range { IsInRange (Some (contents_of self.new)) }
        ensures as_read { MayLeaveAsRead (Some (contents_of self.new)) }
        ensures time { Elapses (length self.old.calls) (length self.new.calls) (LeftSince self.old.first self.old.calls) (LeftSince self.new.first self.new.calls) (Some (contents_of self.new)) }
        ensures cause { HasCause self.old.faults self.new.faults result }
        // It fails where its number is listed, and otherwise only for want of memory.
        ensures named { Contains self.old.failing self.old.number → IsErr result }
        ensures listed { OnErr result (Contains self.old.failing self.old.number ⊎ Rose self.old.starved self.new.starved) }
        ensures fed { OnOk result (self.new.starved ≡ self.old.starved) }
        // It is kept, also where it fails, unless that is for want of memory; only then want of memory is counted.
        ensures kept { OnOk result (self.new.calls ≡ self.old.calls ++ wrote at piece.now true ∷ []) }
        ensures kept_failed { OnErr result (((self.new.starved ≡ min (self.old.starved + 1) (2 ^ 64 - 1)) × (self.new.calls ≡ self.old.calls))
            ⊎ ((self.new.starved ≡ self.old.starved) × (self.new.calls ≡ self.old.calls ++ wrote at piece.now false ∷ []))) }
        ensures rest { self.new ≡ record self.old {
          calls = self.new.calls;
          number = min (self.old.number + 1) (2 ^ 64 - 1);
          faults = more_faults self.old.faults result;
          starved = self.new.starved;
        } }
    {
        let listed = self.starts();
        match self.keep_write(at, piece, !listed) {
            Ok(()) => {
                if listed {
                    return Err(self.fails());
                }
                Ok(())
            }
            Err(_) => Err(self.starves()),
        }
    }

    #[tactic(auto, using(crate::proofs::Crashed::left_as_read))]
    fn cut(&mut self, len: u64) -> Result<(), Failed>
        requires { len ≤ length (contents_of self.old).now }
        ensures cut { OnOk result (Some (contents_of self.new) ≡ Some (cut_to len (contents_of self.old))) }
        ensures failed { OnErr result (MayHave (shortened len) (Some (contents_of self.old)) (Some (contents_of self.new))) }
        ensures in_range { IsInRange (Some (contents_of self.new)) }
        ensures as_read { MayLeaveAsRead (Some (contents_of self.new)) }
        ensures time { Elapses (length self.old.calls) (length self.new.calls) (LeftSince self.old.first self.old.calls) (LeftSince self.new.first self.new.calls) (Some (contents_of self.new)) }
        ensures cause { HasCause self.old.faults self.new.faults result }
        // It fails where its number is listed, and otherwise only for want of memory.
        ensures named { Contains self.old.failing self.old.number → IsErr result }
        ensures listed { OnErr result (Contains self.old.failing self.old.number ⊎ Rose self.old.starved self.new.starved) }
        ensures fed { OnOk result (self.new.starved ≡ self.old.starved) }
        // It is kept, also where it fails, unless that is for want of memory; only then want of memory is counted.
        ensures kept { OnOk result (self.new.calls ≡ self.old.calls ++ shortened_to len true ∷ []) }
        ensures kept_failed { OnErr result (((self.new.starved ≡ min (self.old.starved + 1) (2 ^ 64 - 1)) × (self.new.calls ≡ self.old.calls))
            ⊎ ((self.new.starved ≡ self.old.starved) × (self.new.calls ≡ self.old.calls ++ shortened_to len false ∷ []))) }
        ensures rest { self.new ≡ record self.old {
          calls = self.new.calls;
          number = min (self.old.number + 1) (2 ^ 64 - 1);
          faults = more_faults self.old.faults result;
          starved = self.new.starved;
        } }
    {
        let listed = self.starts();
        match self.keep_cut(len, !listed) {
            Ok(()) => {
                if listed {
                    return Err(self.fails());
                }
                Ok(())
            }
            Err(_) => Err(self.starves()),
        }
    }

    #[tactic(auto, using(crate::proofs::Crashed::left_as_read))]
    fn sync(&mut self) -> Result<(), Failed>
        ensures synced { OnOk result (Some (contents_of self.new) ≡ Some (settled (contents_of self.old))) }
        ensures failed { OnErr result (Some (contents_of self.new) ≡ Some (contents_of self.old)) }
        ensures in_range { IsInRange (Some (contents_of self.new)) }
        ensures as_read { MayLeaveAsRead (Some (contents_of self.new)) }
        ensures time { Elapses (length self.old.calls) (length self.new.calls) (LeftSince self.old.first self.old.calls) (LeftSince self.new.first self.new.calls) (Some (contents_of self.new)) }
        ensures cause { HasCause self.old.faults self.new.faults result }
        // It fails where its number is listed, and otherwise only for want of memory.
        ensures named { Contains self.old.failing self.old.number → IsErr result }
        ensures listed { OnErr result (Contains self.old.failing self.old.number ⊎ Rose self.old.starved self.new.starved) }
        ensures fed { OnOk result (self.new.starved ≡ self.old.starved) }
        ensures named_fed { Contains self.old.failing self.old.number → self.new.starved ≡ self.old.starved }
        // It is kept where it succeeds.
        ensures kept { OnOk result (self.new.calls ≡ self.old.calls ++ synced ∷ []) }
        ensures kept_failed { OnErr result (self.new.calls ≡ self.old.calls) }
        ensures rest { self.new ≡ record self.old {
          calls = self.new.calls;
          number = min (self.old.number + 1) (2 ^ 64 - 1);
          faults = more_faults self.old.faults result;
          starved = self.new.starved;
        } }
    {
        if self.starts() {
            return Err(self.fails());
        }
        match self.keep_sync() {
            Ok(()) => Ok(()),
            Err(_) => Err(self.starves()),
        }
    }
}

// Puts a piece at a place, or at the end where the place lies past it.
#[tactic(auto, using(crate::proofs::Crashed::clamped))]
fn put_within(content: &mut Vec<u8>, at: u64, piece: &[u8]) -> Result<(), AllocError>
    ensures { OnOk result (content.new.items ≡ replaced (min at (length content.old.items)) piece.now content.old.items) }
{
    let place = (at as usize).min(content.len());
    put(content, place, piece)
}

// One call more: what a read gives then, what the crash leaves, and how many calls it still lets through.
fn replay(
    call: &DiskCall,
    now: &mut Vec<u8>,
    crash: &mut Vec<u8>,
    left: &mut u64,
    kept: u64,
) -> Result<(), AllocError>
    ensures { OnOk result ((s : Contents) → now.old.items ≡ s.now → (now.new.items ≡ (step (kept_of call.now) s).now)
        × ((rest : List Kept) → crashed kept s crash.old.items left.old (kept_of call.now ∷ rest) ≡ crashed kept (step (kept_of call.now) s) crash.new.items left.new rest)) }
{
    match call {
        DiskCall::Write { at, piece, done } => {
            if *left > 0 {
                put_within(crash, *at, piece)?;
                *left -= 1;
            }
            if *done {
                put_within(now, *at, piece)?;
            }
        }
        DiskCall::Cut { len, done } => {
            if *left > 0 {
                crash.truncate(*len as usize);
                *left -= 1;
            }
            if *done {
                now.truncate(*len as usize);
            }
        }
        DiskCall::Sync => {
            crash.clear();
            crash.extend_from_slice(now)?;
            *left = kept;
        }
    }
    Ok(())
}

// What a crash leaves that lets the first `kept` writes and cuts behind each sync through.
fn replayed(
    alloc: Global,
    first: &[u8],
    calls: &[DiskCall],
    kept: u64,
) -> Result<Vec<u8>, AllocError>
    ensures { IfOk result (λ crash. crash.items ≡ crashed kept (fresh first.now) first.now kept (map kept_of calls.now)) }
{
    let mut now = first.to_vec(alloc)?;
    let mut crash = first.to_vec(alloc)?;
    let mut left = kept;
    for call in calls {
        replay(call, &mut now, &mut crash, &mut left, kept)?;
    }
    Ok(crash)
}
