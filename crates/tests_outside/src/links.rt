ghost use Rattle.std.specs.Prelude.{◌<◌};

use outside_io::{Disk, Failed, FileDisk, Link, MemoryDisk, MemoryLink, StdLink};
use std::alloc::Global;
use std::fs;
use std::process::Abort;

// A link that gives `head`, at most so many bytes a call, and whose calls of these numbers fail.
fn link(rt: &impl Abort, alloc: Global, failing: &[u64], most: usize) -> MemoryLink
    requires { 0 < most }
{
    let input = b"head".to_vec(alloc).expect(rt, "memory");
    let failing = failing.to_vec(alloc).expect(rt, "memory");
    MemoryLink::paced(alloc, input, failing, most).expect(rt, "memory")
}

#[test]
fn memory_link_gives_takes_and_fails(rt: HostRuntime) {
    let mut link = link(&rt, rt.alloc(), &[1], 3);
    let mut into = [0; 8];
    assert!(rt; link.read(&mut into) == Ok(3));
    assert!(rt; link.read(&mut into) == Err(Failed));
    assert!(rt; link.write(b"reply") == Ok(3));
    assert!(rt; link.written() == b"rep".as_slice());
    assert!(rt; link.read(&mut into) == Ok(1));
    assert!(rt; link.read(&mut into) == Ok(0));
    assert!(rt; into == *b"dea\0\0\0\0\0");
    assert!(rt; link.starved() == 0);
}

#[test]
fn memory_link_of_full_pace_gives_all_at_once(rt: HostRuntime) {
    let input = b"head".to_vec(rt.alloc()).expect(&rt, "memory");
    let mut link = MemoryLink::new(rt.alloc(), input, Vec::new(rt.alloc())).expect(&rt, "memory");
    let mut into = [0; 8];
    assert!(rt; link.read(&mut into) == Ok(4));
}

#[test]
fn std_link_writes(rt: HostRuntime) {
    let mut link = StdLink::new(&rt);
    assert!(rt; link.write(b"written by a test\n") == Ok(18));
}

// What a crash leaves of the disk where so many of the calls since its last sync were carried out.
const CRASHES: [(u64, &[u8]); 5] = [
    (0, b"first words"),
    (1, b"first wo"),
    (2, b"first try"),
    // The write that failed counts as made.
    (3, b"First try"),
    (u64::MAX, b"First try"),
];

#[test]
fn memory_disk_keeps_bytes_and_answers_for_a_crash(rt: HostRuntime) {
    let content = b"first".to_vec(rt.alloc()).expect(&rt, "memory");
    let failing = [4].to_vec(rt.alloc()).expect(&rt, "memory");
    let mut disk = MemoryDisk::new(rt.alloc(), content, failing).expect(&rt, "memory");
    assert!(rt; disk.write_at(5, b" words") == Ok(()));
    assert!(rt; disk.sync() == Ok(()));
    assert!(rt; disk.cut(8) == Ok(()));
    assert!(rt; disk.write_at(6, b"try") == Ok(()));
    assert!(rt; disk.write_at(0, b"F") == Err(Failed));
    assert!(rt; disk.content() == b"first try".as_slice());
    assert!(rt; disk.len() == Ok(9));
    let mut into = [0; 8];
    assert!(rt; disk.read_at(6, &mut into) == Ok(3));
    assert!(rt; into == *b"try\0\0\0\0\0");
    assert!(rt; disk.read_at(9, &mut into) == Ok(0));
    assert!(rt; disk.starved() == 0);
    for (calls, content) in CRASHES {
        assert!(rt; disk.after_crash(calls).expect(&rt, "memory").content() == content);
    }
}

// Writes two pieces, cuts the second and lets the disk go.
fn fill(rt: &impl Abort, mut disk: FileDisk) {
    assert!(rt; disk.cut(0) == Ok(()));
    assert!(rt; disk.write_at(0, b"first words") == Ok(()));
    assert!(rt; disk.write_at(6, b"try") == Ok(()));
    assert!(rt; disk.cut(9) == Ok(()));
    assert!(rt; disk.sync() == Ok(()));
    assert!(rt; disk.write_at(u64::MAX, b"past") == Err(Failed));
}

// The disk holds what `fill` wrote.
fn check(rt: &impl Abort, disk: &mut FileDisk) {
    assert!(rt; disk.len() == Ok(9));
    let mut into = [0; 8];
    assert!(rt; disk.read_at(6, &mut into) == Ok(3));
    assert!(rt; into == *b"try\0\0\0\0\0");
}

#[test]
fn file_disk_keeps_bytes_in_a_file_that_is_its_own(rt: HostRuntime) {
    let name = String::from_str(rt.alloc(), "disk.dat").expect(&rt, "memory");
    fill(&rt, FileDisk::new(&rt, name.clone().expect(&rt, "memory")));
    // The next disk opens the file as it is, and no other one does while it is there.
    let mut disk = FileDisk::new(&rt, name.clone().expect(&rt, "memory"));
    check(&rt, &mut disk);
    let mut other = FileDisk::new(&rt, name);
    assert!(rt; other.len() == Err(Failed));
    assert!(rt; other.cut(0) == Err(Failed));
    check(&rt, &mut disk);
    assert!(rt; fs::remove_file(&rt, "disk.dat").is_ok());
}

#[test]
fn file_disk_counts_a_file_that_cannot_be_opened(rt: HostRuntime) {
    let name = String::from_str(rt.alloc(), "no/such/folder/disk.dat").expect(&rt, "memory");
    assert!(rt; FileDisk::new(&rt, name).len() == Err(Failed));
}
