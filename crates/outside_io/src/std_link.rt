ghost use Rattle.std.specs.Prelude.{◌≡◌, ◌≤◌, None, IfOk, length};

use crate::{Failed, Link};
use std::io::{self, ErrorKind, Read, Stdin, Stdout, Write};

/// Standard input and output as a link, which tells no bytes.
///
/// It keeps no bytes of its own: a read asks the system for as much as it is handed room for, and
/// what a write answers for has reached the system before the call comes back. A read or a write
/// that a signal interrupts is tried again, and is no fault.
#[derive(Drop)]
pub struct StdLink {
    input: Stdin,
    output: Stdout,
    read_faults: u64,
    write_faults: u64,
}

impl StdLink {
    /// A link over the two streams of the process, with no fault counted.
    pub fn new(runtime: &HostRuntime) -> StdLink
        ensures read_faults { result.read_faults ≡ 0 }
        ensures write_faults { result.write_faults ≡ 0 }
    {
        StdLink {
            input: runtime.stdin(),
            output: runtime.stdout(),
            read_faults: 0,
            write_faults: 0,
        }
    }
}

// Reads once, and again where a signal interrupts it.
fn read_once(input: &mut Stdin, into: &mut [u8]) -> io::Result<usize>
    ensures { IfOk result (λ n. n ≤ length into.new) }
{
    for _ in 0..u64::MAX {
        match input.read(into) {
            Err(error) if error.kind() == ErrorKind::Interrupted => {}
            outcome => return outcome,
        }
    }
    Err(ErrorKind::Interrupted.into())
}

// Writes once, and again where a signal interrupts it.
fn write_once(output: &mut Stdout, piece: &[u8]) -> io::Result<usize>
    ensures { IfOk result (λ n. n ≤ length piece.now) }
{
    for _ in 0..u64::MAX {
        match output.write(piece) {
            Err(error) if error.kind() == ErrorKind::Interrupted => {}
            outcome => return outcome,
        }
    }
    Err(ErrorKind::Interrupted.into())
}

impl Link for StdLink {
    ghost left = { λ s. None };

    ghost told = { λ s. None };

    ghost read_faults = { λ s. s.read_faults };

    ghost write_faults = { λ s. s.write_faults };

    fn read(&mut self, into: &mut [u8]) -> Result<usize, Failed> {
        match read_once(&mut self.input, into) {
            Ok(count) => Ok(count),
            Err(_) => {
                self.read_faults = self.read_faults.saturating_add(1);
                Err(Failed)
            }
        }
    }

    // A stream that takes nothing would be asked for ever, so that counts as a fault.
    fn write(&mut self, piece: &[u8]) -> Result<usize, Failed> {
        match write_once(&mut self.output, piece) {
            Ok(0) | Err(_) => {
                self.write_faults = self.write_faults.saturating_add(1);
                Err(Failed)
            }
            Ok(count) => Ok(count),
        }
    }
}
