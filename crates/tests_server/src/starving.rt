ghost use Rattle.std.specs.Prelude.{◌≡◌, Some, length, ◌<◌};
ghost use Rattle.outside_io.specs.Bytes.{Reads, Writes};
ghost use Rattle.outside_io.specs.Faults.{HasCause};

use crate::checks::{add, bytes, check, text_of};
use crate::disks::{crashed, empty_disk, serve_on};
use outside_io::{Failed, Link, MemoryLink};
use search_server::{LinkEnd, Status};
use std::alloc::Global;
use std::process::Abort;

// A link in memory of which the first write finds no memory for what it would keep.
#[derive(Drop)]
struct StarvesOnce {
    link: MemoryLink,
    starved: bool,
    read_faults: u64,
    write_faults: u64,
}

impl Link for StarvesOnce {
    ghost left = { λ s. Some s.link.left };

    ghost told = { λ s. Some s.link.written };

    ghost read_faults = { λ s. s.read_faults };

    ghost write_faults = { λ s. s.write_faults };

    fn read(&mut self, into: &mut [u8]) -> Result<usize, Failed> {
        match self.link.read(into) {
            Ok(count) => Ok(count),
            Err(failed) => {
                self.read_faults = self.read_faults.saturating_add(1);
                Err(failed)
            }
        }
    }

    fn write(&mut self, piece: &[u8]) -> Result<usize, Failed> {
        if !self.starved {
            self.starved = true;
            self.write_faults = self.write_faults.saturating_add(1);
            return Err(Failed);
        }
        match self.link.write(piece) {
            Ok(count) => Ok(count),
            Err(failed) => {
                self.write_faults = self.write_faults.saturating_add(1);
                Err(failed)
            }
        }
    }
}

const ADD: &[u8] =
    b"POST /indexes/m/documents HTTP/1.1\r\ncontent-length: 23\r\n\r\n[{\"id\":1},{\"id\":\"two\"}]";

const SEARCH: &[u8] = b"POST /indexes/m/search HTTP/1.1\r\ncontent-length: 0\r\n\r\n";

fn starving(rt: &impl Abort, alloc: Global) -> StarvesOnce {
    let mut input = bytes(rt, alloc, ADD);
    add(rt, &mut input, SEARCH);
    let link = MemoryLink::paced(alloc, input, Vec::new(alloc), ADD.len());
    StarvesOnce {
        link: link.expect(rt, "memory"),
        starved: false,
        read_faults: 0,
        write_faults: 0,
    }
}

fn check_end(rt: &impl Abort, end: LinkEnd, status: Status) {
    check(rt, end.status == status, "status");
    check(rt, end.requests == 1, "requests");
    check(rt, end.passed == 0, "passed");
}

const FOUND: &str =
    r#"{"estimatedTotalHits":2,"hits":[{"id":1},{"id":"two"}],"limit":20,"offset":0,"query":""}"#;

// What a crash leaves of the disks is opened again.
#[test]
fn a_link_that_starves_once_is_served_afterwards(rt: HostRuntime) {
    let alloc = rt.alloc();
    let mut link = starving(&rt, alloc);
    let mut disk_a = empty_disk(&rt, alloc);
    let mut disk_b = empty_disk(&rt, alloc);
    let end = serve_on(&rt, alloc, &mut link, &mut disk_a, &mut disk_b);
    check_end(&rt, end, Status::WriteFault);
    check(&rt, link.link.written().is_empty(), "nothing is written");
    let mut disk_a = crashed(&rt, &disk_a, 0);
    let mut disk_b = crashed(&rt, &disk_b, 0);
    let end = serve_on(&rt, alloc, &mut link, &mut disk_a, &mut disk_b);
    check_end(&rt, end, Status::Done);
    let written = text_of(&rt, link.link.written());
    check(&rt, written.starts_with("HTTP/1.1 200 OK\r\n"), "status");
    check(&rt, written.ends_with(FOUND), "found");
}
