ghost use Rattle.std.specs.Prelude.{◌≡◌, ◌≢◌, ◌+◌, ◌*◌, ◌^◌, ◌<◌, ◌≤◌, [], ◌∷◌, ◌++◌, List, ℕ, Option, Result, Some, None, Ok, Err, ◌⊎◌, IfOk, IfErr, IfSome, OnOk, OnErr, MatchResult, length, take, drop, slice_index, bytes_eq, codes};
ghost use Rattle.std.specs.Int.{w32, w64, from_le_bytes};
ghost use Rattle.outside_io.specs.Faults.{HasCause, Rose};
ghost use Rattle.outside_io.specs.Disks.{Contents, Told, fresh, LeavesOnly};
ghost use Rattle.change_journal.specs.Format.{look, opened, field_in, walk, version_of, found_at, active_of, stored, Stored, Spot};
ghost use Rattle.change_journal.specs.Fits.{Fits, Holds, BothTold};
ghost use Rattle.index_image.specs.Rows.{image_view};
ghost use Rattle.index_image.specs.State.{IsState};
ghost use Rattle.change_journal.specs.Opens.{number_of, look_in, look_of, IsPiece, tail_of, behind, IsWithin, TailWithin, IsFront, IsChoice, IsImageOf, IsReadAs, GoesOn, OpensNone, AnswersAll, IsReady};
ghost use Rattle.change_journal.specs.declared.opening.JournalFault.TheVariants.{NoMemory, DiskFault};

use crate::{Journal, Side};
use change_payloads::ImageFault;
use index_image::{ImageRows, decode};
use outside_io::{Disk, Failed};
use std::alloc::{AllocError, AllocFailed, Global};

// The header of a disk: closed, the place of its first bad field, or what stands in it.
#[derive(Clone, Copy)]
enum Head {
    Closed,
    Bad(u64),
    Open { generation: u64, size: u64 },
}

// What stands behind an open gate: the length of a payload, or the place of the first bad field,
// counted from the gate.
#[derive(Clone, Copy)]
enum Piece {
    Payload(usize),
    BadField(u64),
}

// How a journal ends: the place of its shut gate, or of its first bad field.
#[derive(Clone, Copy)]
enum Tail {
    Shut(u64),
    Broken(u64),
}

// An open disk by its header: the generation, the length of the image, and the byte at 8, where the
// generation begins; and the length of the disk.
#[derive(Clone, Copy)]
struct Front {
    generation: u64,
    size: u64,
    eighth: Option<u8>,
    len: u64,
}

// An image that was read: its version, and the state that it spells.
#[derive(Drop)]
struct ImageFound {
    version: u8,
    rows: ImageRows,
}

/// What two disks hold, and the journal to go on with.
#[derive(Drop)]
pub struct Opened {
    pub journal: Journal,
    /// The number of the active disk, 0 where none is open.
    pub active: u8,
    /// The state that the image of the active disk spells, where one is open.
    pub image: Option<ImageRows>,
    /// The version of this image, 0 where none is open.
    pub version: u8,
    /// The place of the image on the active disk, 0 where none is open.
    pub image_at: u64,
    /// The changes since, in order.
    pub changes: Vec<StoredChange>,
}

/// A change that a journal holds.
#[derive(Debug, Drop)]
pub struct StoredChange {
    /// The place of the payload's first byte on the active disk.
    pub place: u64,
    pub payload: Vec<u8>,
}

/// Why two disks were not opened.
#[derive(Clone, Copy, Debug, PartialEq, Eq)]
pub enum JournalFault {
    /// A disk's count of faults rose.
    DiskFault,
    /// The field that begins at this place of this disk, 0 or 1, is cut off or not allowed; `found`
    /// is the byte there, nothing at the end of the disk or of the image.
    Damaged {
        disk: u8,
        place: u64,
        found: Option<u8>,
    },
    NoMemory,
}

impl From<AllocError> for JournalFault {
    ghost from_gives = { λ _ fault. fault ≡ NoMemory };

    fn from(_: AllocError) -> Self {
        JournalFault::NoMemory
    }
}

fn u64_at(bytes: &[u8], at: usize) -> u64
    requires { at + 8 ≤ length bytes.now }
    ensures { result ≡ from_le_bytes w64 (take 8 (drop at bytes.now)) }
{
    let mut raw = [0; 8];
    raw.copy_from_slice(&bytes[at..at + 8]);
    u64::from_le_bytes(raw)
}

fn u32_at(bytes: &[u8], at: usize) -> u32
    requires { at + 4 ≤ length bytes.now }
    ensures { result ≡ from_le_bytes w32 (take 4 (drop at bytes.now)) }
{
    let mut raw = [0; 4];
    raw.copy_from_slice(&bytes[at..at + 4]);
    u32::from_le_bytes(raw)
}

fn has_name(bytes: &[u8]) -> bool
    requires { 8 ≤ length bytes.now }
    ensures { result ≡ bytes_eq (take 7 (drop 1 bytes.now)) (codes "RANKIDX") }
{
    &bytes[1..8] == b"RANKIDX".as_slice()
}

// What a header says, which has 24 bytes unless the disk is shorter, and of which disk.
#[tactic(auto, unfolding(crate::specs::Format::generation_in, crate::specs::Format::length_in))]
fn look_at(header: &[u8], len: u64) -> Head
    ensures look { look_of result ≡ look_in len header.now }
    ensures within { IsWithin result (length header.now) len }
{
    if header.len() < 24 || header[0] == 0 {
        return Head::Closed;
    }
    if !has_name(header) {
        return Head::Bad(1);
    }
    let generation = u64_at(header, 8);
    if generation == 0 {
        return Head::Bad(8);
    }
    let size = u64_at(header, 16);
    if len < 25 || size > len - 25 {
        return Head::Bad(16);
    }
    Head::Open { generation, size }
}

#[tactic(auto, unfolding(crate::specs::Format::field_in, crate::specs::Format::field_size, crate::specs::Format::size_in))]
fn piece_at(rest: &[u8], number: u64) -> Piece
    ensures { IsPiece result (field_in number rest.now) rest.now }
{
    if rest.len() < 8 || u64_at(rest, 0) != number {
        return Piece::BadField(1);
    }
    if rest.len() < 12 {
        return Piece::BadField(9);
    }
    let size = u32_at(rest, 8) as usize;
    if rest.len() - 12 < size {
        return Piece::BadField(9);
    }
    Piece::Payload(size)
}

fn found(bytes: &[u8], place: u64) -> Option<u8>
    ensures { result ≡ found_at bytes.now place }
{
    if place < bytes.len() as u64 {
        Some(bytes[place as usize])
    } else {
        None
    }
}

fn rest_of(bytes: &[u8], at: usize) -> &[u8]
    requires { at ≤ length bytes.now }
    ensures { result.now ≡ drop at bytes.now }
{
    &bytes[at..]
}

fn part_of(bytes: &[u8], at: usize, size: usize) -> &[u8]
    requires { at + size ≤ length bytes.now }
    ensures { result.now ≡ take size (drop at bytes.now) }
{
    &bytes[at..at + size]
}

// The records of a journal that stands at a place of a disk, with the numbers from that one on, and
// how they end.
fn read_records(
    alloc: Global,
    bytes: &[u8],
    place: u64,
    before: u64,
) -> Result<(Vec<StoredChange>, Tail), AllocError>
    requires within { place + length bytes.now < 2 ^ 64 }
    requires few { before ≤ 1000000000 }
    ensures walk { IfOk result (λ read. walk 0 place before bytes.now ≡ behind read.0.items (tail_of read.1)) }
    ensures within { IfOk result (λ read. TailWithin read.1 place (place + length bytes.now)) }
{
    let mut changes = Vec::new(alloc);
    let mut at = 0;
    let mut number = before;
    while at < bytes.len() && bytes[at] != 0 {
        match piece_at(rest_of(bytes, at + 1), number) {
            Piece::BadField(k) => return Ok((changes, Tail::Broken(place + at as u64 + k))),
            Piece::Payload(size) => {
                let payload = part_of(bytes, at + 13, size).to_vec(alloc)?;
                changes.push(StoredChange {
                    place: place + at as u64 + 13,
                    payload,
                })?;
                at += 13 + size;
                number += 1;
            }
        }
    }
    if at < bytes.len() {
        Ok((changes, Tail::Shut(place + at as u64)))
    } else {
        Ok((changes, Tail::Broken(place + at as u64)))
    }
}

// The bytes of a disk from a place on, no more than so many.
fn read_part<K: Disk>(
    alloc: Global,
    disk: &mut K,
    at: u64,
    size: u64,
) -> Result<Vec<u8>, JournalFault>
    ensures bytes { IfOk result (λ bytes. Told (K.contents disk.old) (λ xs. bytes.items ≡ take size (drop at xs))) }
    ensures short { IfOk result (λ bytes. length bytes.items ≤ size) }
    ensures no_damage { IfErr result (λ fault. (r : Result (Option Stored) Spot) → AnswersAll (Err fault) r) }
    ensures contents { K.contents disk.new ≡ K.contents disk.old }
    ensures any_moment { (xs : List ℕ) → K.contents disk.old ≡ Some (fresh xs) → LeavesOnly K.moment K.left_since disk.old disk.new (λ c. c ≡ xs) }
    ensures fault { result ≡ Err DiskFault → Rose (K.disk_faults disk.old) (K.disk_faults disk.new) }
    ensures later { K.disk_faults disk.old ≤ K.disk_faults disk.new }
{
    let mut bytes = match vec![in alloc; 0u8; size as usize] {
        Ok(bytes) => bytes,
        Err(_) => return Err(JournalFault::NoMemory),
    };
    match disk.read_at(at, &mut bytes) {
        Ok(count) => {
            bytes.truncate(count);
            Ok(bytes)
        }
        Err(_) => Err(JournalFault::DiskFault),
    }
}

// A disk by the bytes of its header and its length; nothing where it is closed.
fn front_of(side: Side, header: &[u8], len: u64) -> Result<Option<Front>, JournalFault>
    ensures front { (xs : List ℕ) → header.now ≡ take 24 xs → len ≡ length xs → IsFront side result xs }
    ensures within { IfOk result (λ front. IfSome front (λ it. 25 + it.size ≤ it.len)) }
    ensures fault { result ≡ Err DiskFault → ⊥ }
{
    match look_at(header, len) {
        Head::Closed => Ok(None),
        Head::Bad(place) => Err(JournalFault::Damaged {
            disk: side.number(),
            place,
            found: found(header, place),
        }),
        Head::Open { generation, size } => Ok(Some(Front {
            generation,
            size,
            eighth: found(header, 8),
            len,
        })),
    }
}

// The same of a disk. It takes no memory.
fn read_front<K: Disk>(disk: &mut K, side: Side) -> Result<Option<Front>, JournalFault>
    ensures front { Told (K.contents disk.old) (IsFront side result) }
    ensures within { IfOk result (λ front. IfSome front (λ it. 25 + it.size ≤ it.len)) }
    ensures contents { K.contents disk.new ≡ K.contents disk.old }
    ensures any_moment { (xs : List ℕ) → K.contents disk.old ≡ Some (fresh xs) → LeavesOnly K.moment K.left_since disk.old disk.new (λ c. c ≡ xs) }
    ensures fault { result ≡ Err DiskFault → Rose (K.disk_faults disk.old) (K.disk_faults disk.new) }
    ensures later { K.disk_faults disk.old ≤ K.disk_faults disk.new }
{
    let len = match disk.len() {
        Ok(len) => len,
        Err(_) => return Err(JournalFault::DiskFault),
    };
    let mut header = [0; 24];
    let count = match disk.read_at(0, &mut header) {
        Ok(count) => count,
        Err(_) => return Err(JournalFault::DiskFault),
    };
    front_of(side, &header[..count], len)
}

// Which of two disks is active, if one is open.
fn active_front(
    first: Option<Front>,
    second: Option<Front>,
) -> Result<Option<(Side, Front)>, JournalFault>
    ensures { IsChoice first second result }
{
    match (first, second) {
        (None, None) => Ok(None),
        (Some(only), None) => Ok(Some((Side::A, only))),
        (None, Some(only)) => Ok(Some((Side::B, only))),
        (Some(one), Some(other)) => {
            if one.generation == other.generation {
                return Err(JournalFault::Damaged {
                    disk: 1,
                    place: 8,
                    found: other.eighth,
                });
            }
            if other.generation < one.generation {
                Ok(Some((Side::A, one)))
            } else {
                Ok(Some((Side::B, other)))
            }
        }
    }
}

fn version(image: &[u8]) -> u8
    ensures { result ≡ version_of image.now }
{
    match image {
        [] => 0,
        [version, ..] => *version,
    }
}

// The image of the active disk. The bytes are let go here.
#[tactic(auto, unfolding(crate::specs::Format::active_of, crate::specs::Format::by_state))]
fn read_image<K: Disk>(
    alloc: Global,
    disk: &mut K,
    side: Side,
    size: u64,
) -> Result<ImageFound, JournalFault>
    ensures image { IfOk result (λ image. Told (K.contents disk.old) (λ xs. IsImageOf image (take size (drop 24 xs)))) }
    ensures state { IfOk result (λ image. IsState (image_view image.rows)) }
    ensures damaged { IfErr result (λ fault. Told (K.contents disk.old) (λ xs. (generation : ℕ)
        → AnswersAll (Err fault) (active_of (number_of side) generation size xs))) }
    ensures contents { K.contents disk.new ≡ K.contents disk.old }
    ensures any_moment { (xs : List ℕ) → K.contents disk.old ≡ Some (fresh xs) → LeavesOnly K.moment K.left_since disk.old disk.new (λ c. c ≡ xs) }
    ensures fault { result ≡ Err DiskFault → Rose (K.disk_faults disk.old) (K.disk_faults disk.new) }
    ensures later { K.disk_faults disk.old ≤ K.disk_faults disk.new }
{
    let bytes = match read_part(alloc, disk, 24, size) {
        Ok(bytes) => bytes,
        Err(fault) => return Err(fault),
    };
    match decode(alloc, &bytes) {
        Ok(rows) => Ok(ImageFound {
            version: version(&bytes),
            rows,
        }),
        Err(ImageFault::NoMemory) => Err(JournalFault::NoMemory),
        Err(ImageFault::Damaged { place, found }) => Err(JournalFault::Damaged {
            disk: side.number(),
            place: 24 + place,
            found,
        }),
    }
}

// What the active disk holds, by its image and the bytes behind it.
fn opened_with(
    alloc: Global,
    side: Side,
    front: Front,
    image: ImageFound,
    bytes: &[u8],
) -> Result<Opened, JournalFault>
    requires within { 24 + front.size + length bytes.now < 2 ^ 64 }
    requires state { IsState (image_view image.rows) }
    ensures stored { (xs : List ℕ) → IsReadAs front image bytes.now xs
        → AnswersAll result (active_of (number_of side) front.generation front.size xs) }
    ensures holds { IfOk result (λ opened. (xs : List ℕ) → IsReadAs front image bytes.now xs → Holds opened.journal xs) }
    ensures goes_on { IfOk result (GoesOn side front.generation) }
    ensures fault { result ≡ Err DiskFault → ⊥ }
{
    let start = 24 + front.size;
    let (changes, tail) = match read_records(alloc, bytes, start, image.rows.changes) {
        Ok(read) => read,
        Err(_) => return Err(JournalFault::NoMemory),
    };
    let gate = match tail {
        Tail::Broken(place) => return Err(JournalFault::Damaged {
            disk: side.number(),
            place,
            found: found(bytes, place - start),
        }),
        Tail::Shut(gate) => gate,
    };
    let journal = Journal {
        active: Some(side),
        generation: front.generation,
        gate,
        count: image.rows.changes + changes.len() as u64,
        grown: gate + 1 - start,
    };
    Ok(Opened {
        journal,
        active: side.number(),
        image: Some(image.rows),
        version: image.version,
        image_at: 24,
        changes,
    })
}

// What the active disk holds. The image is read and let go before the journal is.
fn open_active<K: Disk>(
    alloc: Global,
    disk: &mut K,
    side: Side,
    front: Front,
) -> Result<Opened, JournalFault>
    requires front { Told (K.contents disk.old) (λ xs. (look xs ≡ opened front.generation front.size) × (length xs ≡ front.len)) }
    requires within { 25 + front.size ≤ front.len }
    ensures stored { Told (K.contents disk.old) (λ xs. AnswersAll result (active_of (number_of side) front.generation front.size xs)) }
    ensures holds { IfOk result (λ opened. Told (K.contents disk.new) (Holds opened.journal)) }
    ensures goes_on { IfOk result (GoesOn side front.generation) }
    ensures contents { K.contents disk.new ≡ K.contents disk.old }
    ensures any_moment { (xs : List ℕ) → K.contents disk.old ≡ Some (fresh xs) → LeavesOnly K.moment K.left_since disk.old disk.new (λ c. c ≡ xs) }
    ensures fault { result ≡ Err DiskFault → Rose (K.disk_faults disk.old) (K.disk_faults disk.new) }
    ensures later { K.disk_faults disk.old ≤ K.disk_faults disk.new }
{
    let image = match read_image(alloc, disk, side, front.size) {
        Ok(image) => image,
        Err(fault) => return Err(fault),
    };
    let start = 24 + front.size;
    let bytes = match read_part(alloc, disk, start, front.len - start) {
        Ok(bytes) => bytes,
        Err(fault) => return Err(fault),
    };
    opened_with(alloc, side, front, image, &bytes)
}

// What two disks hold of which none is open.
fn none_opened(alloc: Global) -> Opened
    ensures none { OpensNone result }
    ensures journal { result.journal ≡ record { active = None; generation = 0; gate = 0; count = 0; grown = 0 } }
{
    Opened {
        journal: Journal {
            active: None,
            generation: 0,
            gate: 0,
            count: 0,
            grown: 0,
        },
        active: 0,
        image: None,
        version: 0,
        image_at: 0,
        changes: Vec::new(alloc),
    }
}

/// Reads what two disks hold: the state that the image of the active disk spells, and the changes
/// behind it. With no open disk that is no image and no change. It changes nothing on the disks. Of
/// both it reads the headers first, and then the active one alone: the image, whose bytes are let go
/// once it is decoded, and what stands behind it.
///
/// `Damaged` comes exactly where a byte stands outside the format, with the first one in the order
/// in which the headers, the generations, the whole active image, and the gates, numbers and
/// lengths of its journal are read; `DiskFault` only where a disk's count of faults rose.
pub fn open<K: Disk>(alloc: Global, disk_a: &mut K, disk_b: &mut K) -> Result<Opened, JournalFault>
    ensures stored { BothTold (K.contents disk_a.old) (K.contents disk_b.old) (λ a b. AnswersAll result (stored a b)) }
    ensures fits { IfOk result (λ opened. Fits opened.journal (K.contents disk_a.new) (K.contents disk_b.new)) }
    ensures ready { IfOk result IsReady }
    ensures contents_a { K.contents disk_a.new ≡ K.contents disk_a.old }
    ensures contents_b { K.contents disk_b.new ≡ K.contents disk_b.old }
    ensures any_moment_a { (xs : List ℕ) → K.contents disk_a.old ≡ Some (fresh xs) → LeavesOnly K.moment K.left_since disk_a.old disk_a.new (λ c. c ≡ xs) }
    ensures any_moment_b { (xs : List ℕ) → K.contents disk_b.old ≡ Some (fresh xs) → LeavesOnly K.moment K.left_since disk_b.old disk_b.new (λ c. c ≡ xs) }
    ensures fault { result ≡ Err DiskFault → Rose (K.disk_faults disk_a.old) (K.disk_faults disk_a.new) ⊎ Rose (K.disk_faults disk_b.old) (K.disk_faults disk_b.new) }
    ensures later_a { K.disk_faults disk_a.old ≤ K.disk_faults disk_a.new }
    ensures later_b { K.disk_faults disk_b.old ≤ K.disk_faults disk_b.new }
{
    let first = match read_front(disk_a, Side::A) {
        Ok(first) => first,
        Err(fault) => return Err(fault),
    };
    let second = match read_front(disk_b, Side::B) {
        Ok(second) => second,
        Err(fault) => return Err(fault),
    };
    match active_front(first, second) {
        Err(fault) => Err(fault),
        Ok(None) => Ok(none_opened(alloc)),
        Ok(Some((Side::A, front))) => open_active(alloc, disk_a, Side::A, front),
        Ok(Some((Side::B, front))) => open_active(alloc, disk_b, Side::B, front),
    }
}
