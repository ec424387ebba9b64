ghost use Rattle.std.specs.Prelude.{◌≡◌, ◌≤◌, None, IfOk, length};

use outside_io::{Failed, Link};
use std::io::{self, ErrorKind, Read, Write};
use std::net::TcpStream;

/// A TCP connection as a link, which tells no bytes.
///
/// It keeps no bytes of its own. A read or a write that a signal interrupts is tried again, and is
/// no fault. The connection is closed where the link is let go.
#[derive(Drop)]
pub struct TcpLink {
    stream: TcpStream,
    read_faults: u64,
    write_faults: u64,
}

impl TcpLink {
    /// A link over this connection, with no fault counted.
    pub fn new(stream: TcpStream) -> TcpLink
        ensures read_faults { result.read_faults ≡ 0 }
        ensures write_faults { result.write_faults ≡ 0 }
    {
        TcpLink {
            stream,
            read_faults: 0,
            write_faults: 0,
        }
    }
}

// Reads once, and again where a signal interrupts it.
fn read_once(stream: &mut TcpStream, into: &mut [u8]) -> io::Result<usize>
    ensures { IfOk result (λ n. n ≤ length into.new) }
{
    for _ in 0..u64::MAX {
        match stream.read(into) {
            Err(error) if error.kind() == ErrorKind::Interrupted => {}
            outcome => return outcome,
        }
    }
    Err(ErrorKind::Interrupted.into())
}

// Writes once, and again where a signal interrupts it.
fn write_once(stream: &mut TcpStream, piece: &[u8]) -> io::Result<usize>
    ensures { IfOk result (λ n. n ≤ length piece.now) }
{
    for _ in 0..u64::MAX {
        match stream.write(piece) {
            Err(error) if error.kind() == ErrorKind::Interrupted => {}
            outcome => return outcome,
        }
    }
    Err(ErrorKind::Interrupted.into())
}

impl Link for TcpLink {
    ghost left = { λ l. None };

    ghost told = { λ l. None };

    ghost read_faults = { λ l. l.read_faults };

    ghost write_faults = { λ l. l.write_faults };

    fn read(&mut self, into: &mut [u8]) -> Result<usize, Failed> {
        match read_once(&mut self.stream, into) {
            Ok(count) => Ok(count),
            Err(_) => {
                self.read_faults = self.read_faults.saturating_add(1);
                Err(Failed)
            }
        }
    }

    // A connection that takes nothing would be asked for ever, so that counts as a fault.
    fn write(&mut self, piece: &[u8]) -> Result<usize, Failed> {
        match write_once(&mut self.stream, piece) {
            Ok(0) | Err(_) => {
                self.write_faults = self.write_faults.saturating_add(1);
                Err(Failed)
            }
            Ok(count) => Ok(count),
        }
    }
}
