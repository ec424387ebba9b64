ghost use Rattle.std.specs.Prelude.{◌≡◌, None, is_some, false};

use crate::{Door, TcpLink};
use outside_io::Failed;
use std::io::{self, ErrorKind};
use std::net::{Ipv4Addr, TcpListener, TcpStream};

/// The connections to a port of this machine's own address, 127.0.0.1, as a door that tells nothing.
///
/// `next` waits for a connection, and gives `None` never. A connection that its peer gave up before
/// it was taken is passed over, and is no fault. What is written goes out at once and does not wait
/// to be sent with what follows (TCP_NODELAY); where the system refuses that for a connection, it is
/// given all the same. A link that is given back is closed. A door that is opened at another port
/// leaves the one that it had.
#[derive(Drop)]
pub struct TcpDoor {
    runtime: HostRuntime,
    listener: Option<TcpListener>,
    is_out: bool,
    faults: u64,
}

impl TcpDoor {
    /// A closed door with no link out and no fault counted. No port is taken yet.
    pub fn new(runtime: &HostRuntime) -> TcpDoor
        ensures closed { result.listener ≡ None }
        ensures none_out { result.is_out ≡ false }
        ensures faults { result.faults ≡ 0 }
    {
        TcpDoor {
            runtime: *runtime,
            listener: None,
            is_out: false,
            faults: 0,
        }
    }
}

// Waits for a connection. One that its peer gave up before it was taken is passed over.
fn accept_one(listener: &TcpListener) -> io::Result<TcpStream> {
    for _ in 0..u64::MAX {
        match listener.accept() {
            Ok((stream, _)) => return Ok(stream),
            Err(error) if error.kind() == ErrorKind::ConnectionAborted => {}
            Err(error) => return Err(error),
        }
    }
    Err(ErrorKind::ConnectionAborted.into())
}

impl Door for TcpDoor {
    type Link = TcpLink;

    ghost coming = { λ d. None };

    ghost returned = { λ d. None };

    ghost is_open = { λ d. is_some d.listener };

    ghost is_out = { λ d. d.is_out };

    ghost door_faults = { λ d. d.faults };

    fn open(&mut self, port: u16) -> Result<(), Failed> {
        match TcpListener::bind(&self.runtime, (Ipv4Addr::LOCALHOST, port)) {
            Ok(listener) => {
                self.listener = Some(listener);
                Ok(())
            }
            Err(_) => {
                self.faults = self.faults.saturating_add(1);
                Err(Failed)
            }
        }
    }

    fn next(&mut self) -> Result<Option<TcpLink>, Failed> {
        let accepted = match &self.listener {
            Some(listener) => accept_one(listener),
            None => unreachable!(),
        };
        match accepted {
            Ok(stream) => {
                let _passed_over = stream.set_nodelay(true);
                self.is_out = true;
                Ok(Some(TcpLink::new(stream)))
            }
            Err(_) => {
                self.faults = self.faults.saturating_add(1);
                Err(Failed)
            }
        }
    }

    fn give_back(&mut self, _link: TcpLink) {
        self.is_out = false;
    }
}
