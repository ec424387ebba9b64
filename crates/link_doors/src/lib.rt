//! What a server takes its connections from: doors, which give links one at a time.
//!
//! A `Door` means the links that still come and those that were given back, where it tells them,
//! and counts its faults; a call fails only where its count rose. `MemoryDoor` tells its links and
//! fails at the calls that it is told; `TcpDoor` gives the connections to a port of this machine,
//! each as a `TcpLink`, and both tell nothing. Contracts see a `MemoryDoor` as a `MemoryDoorState`.
//! Stands on `search_base` and `outside_io`.
#![tactic(auto)]

mod door;
mod memory_door;
mod tcp_door;
mod tcp_link;

pub use door::Door;
pub use memory_door::MemoryDoor;
pub use tcp_door::TcpDoor;
pub use tcp_link::TcpLink;
