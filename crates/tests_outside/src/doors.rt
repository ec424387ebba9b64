ghost use Rattle.std.specs.Prelude.{◌≡◌, true, false, IsTrue};

use link_doors::{Door, MemoryDoor, TcpDoor};
use outside_io::{Failed, Link, MemoryLink};
use std::alloc::Global;
use std::io::{self, Read, Write};
use std::net::{Ipv4Addr, TcpListener, TcpStream};
use std::process::Abort;

// Whether the door could be opened.
fn opens<D: Door>(door: &mut D) -> bool
    requires none_out { D.is_out door.old ≡ false }
    ensures opened { IsTrue result → D.is_open door.new ≡ true }
    ensures none_out { D.is_out door.new ≡ false }
{
    door.open(7700).is_ok()
}

// Takes the next link, sends its first byte back over it, and gives it back. Tells that byte, `-` where no link comes,
// and `f` where the call fails.
fn echoes<D: Door>(door: &mut D) -> u8
    requires open { D.is_open door.old ≡ true }
    requires none_out { D.is_out door.old ≡ false }
    ensures open { D.is_open door.new ≡ true }
    ensures none_out { D.is_out door.new ≡ false }
{
    match door.next() {
        Err(Failed) => b'f',
        Ok(None) => b'-',
        Ok(Some(mut link)) => {
            let mut byte = [b'?'];
            let _count = link.read(&mut byte);
            let _written = link.write(&byte);
            door.give_back(link);
            byte[0]
        }
    }
}

// What six calls tell: the door is opened, `o`, as soon as that succeeds, and then echoes.
fn outcomes<D: Door>(rt: &impl Abort, alloc: Global, door: &mut D) -> Vec<u8>
    requires none_out { D.is_out door.old ≡ false }
{
    let mut told = Vec::new(alloc);
    let mut open = false;
    for _ in 0..6 {
        let outcome = if open {
            echoes(door)
        } else {
            open = opens(door);
            if open { b'o' } else { b'f' }
        };
        told.push(outcome).expect(rt, "memory");
    }
    told
}

// A link that gives these bytes.
fn link(rt: &impl Abort, alloc: Global, input: &[u8]) -> MemoryLink {
    let input = input.to_vec(alloc).expect(rt, "memory");
    MemoryLink::new(alloc, input, Vec::new(alloc)).expect(rt, "memory")
}

// What was written to the links that were given back.
fn written(rt: &impl Abort, alloc: Global, links: &[MemoryLink]) -> Vec<u8> {
    let mut written = Vec::new(alloc);
    for link in links {
        written
            .extend_from_slice(link.written())
            .expect(rt, "memory");
    }
    written
}

// Of a door whose calls of these numbers fail, six calls tell this.
fn check(rt: &impl Abort, alloc: Global, failing: &[u64], told: &[u8]) {
    let mut links = Vec::new(alloc);
    links.push(link(rt, alloc, b"a")).expect(rt, "memory");
    links.push(link(rt, alloc, b"b")).expect(rt, "memory");
    let failing = failing.to_vec(alloc).expect(rt, "memory");
    let mut door = MemoryDoor::new(alloc, links, failing).expect(rt, "memory");
    assert!(rt; outcomes(rt, alloc, &mut door).as_slice() == told);
    assert!(rt; written(rt, alloc, door.returned()).as_slice() == b"ab".as_slice());
}

const DOORS: [(&[u64], &[u8]); 7] = [
    (&[], b"oab---"),
    (&[0], b"foab--"),
    (&[1], b"ofab--"),
    (&[3], b"oabf--"),
    (&[3, 2], b"oaffb-"),
    (&[0, 1, 3], b"ffofab"),
    (&[6, u64::MAX], b"oab---"),
];

#[test]
fn memory_door_gives_its_links_in_order_and_fails_where_told(rt: HostRuntime) {
    for (failing, told) in DOORS {
        check(&rt, rt.alloc(), failing, told);
    }
}

// A port that is free.
fn free_port(rt: &HostRuntime) -> io::Result<u16> {
    let listener = TcpListener::bind(rt, (Ipv4Addr::LOCALHOST, 0))?;
    Ok(listener.local_addr()?.port())
}

#[test]
fn tcp_door_gives_a_connection_and_closes_it(rt: HostRuntime) {
    let port = free_port(&rt).expect(&rt, "a port");
    let mut door = TcpDoor::new(&rt);
    door.open(port).expect(&rt, "the port");
    assert!(rt; TcpDoor::new(&rt).open(port) == Err(Failed));
    let mut client = TcpStream::connect(&rt, (Ipv4Addr::LOCALHOST, port)).expect(&rt, "a client");
    client.write_all(b"request").expect(&rt, "a request");
    let mut link = door.next().expect(&rt, "a link").expect(&rt, "a link");
    let mut into = [0; 16];
    assert!(rt; link.read(&mut into) == Ok(7));
    assert!(rt; &into[..7] == b"request".as_slice());
    assert!(rt; link.write(b"answer") == Ok(6));
    door.give_back(link);
    let mut answer = Vec::new(rt.alloc());
    client.read_to_end(&mut answer).expect(&rt, "an answer");
    assert!(rt; answer.as_slice() == b"answer".as_slice());
}
