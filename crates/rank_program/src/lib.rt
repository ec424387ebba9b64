//! What the programs do: `run` hands the standard streams, a door to the ports of this machine, the files `search-a.dat`
//! and `search-b.dat` of the working folder as the two disks, and the words of the command line to the server, prints
//! nothing of its own, and answers the code with which the program ends. Stands on `search_server` for all that is
//! served, and on `outside_io` and `link_doors` for what it is served over.
#![tactic(auto)]

ghost use Rattle.std.specs.Prelude.{◌≡◌};
ghost use Rattle.std.specs.Process.{exit_status};
ghost use Rattle.search_server.specs.Statuses.{number_of};
ghost use Rattle.search_server.specs.declared.status.Status.{Status};

use bucket_sort::{BucketLog, SilentLog};
use link_doors::TcpDoor;
use outside_io::{FileDisk, StdLink};
use search_base::Steps;
use search_server::{Status, run_search_server};
use std::env;
use std::fs::File;
use std::io::{self, ErrorKind};
use std::process::ExitCode;

// What is counted while the server runs: stored documents that are read, and buckets that are opened.
struct StoredDocument;

struct OpenedBucket;

/// Does what the words of the command line ask for, and answers the number of the status with which that ended.
///
/// While it runs, no file that it opens stands for a standard stream, also where the process began without one: standard
/// input is at its end then, and a write to standard output fails. The status is `DiskFault` where the null device cannot
/// be opened for that, `BadWords` where a word is no UTF-8 and `NoMemory` where the server itself found no memory to
/// begin with; nothing was read or written in these cases.
pub fn run(rt: &HostRuntime) -> ExitCode
    ensures { (status : Status) × (exit_status result ≡ number_of status) }
{
    let status = match null_handles(rt) {
        Ok(_handles) => served(rt),
        Err(_) => Status::DiskFault,
    };
    exit_of(status)
}

// Three handles on the null device that read. A new handle has the least number that is free, so while these are held
// no other one is standard input, output or error.
fn null_handles(rt: &HostRuntime) -> io::Result<[File; 3]> {
    Ok([null_handle(rt)?, null_handle(rt)?, null_handle(rt)?])
}

fn null_handle(rt: &HostRuntime) -> io::Result<File> {
    File::open(rt, "/dev/null")
}

// The status with which the server ended.
fn served(rt: &HostRuntime) -> Status {
    match serve(rt) {
        Ok(status) => status,
        // A word that is no UTF-8 is none that the server knows.
        Err(error) if error.kind() == ErrorKind::InvalidData => Status::BadWords,
        Err(_) => Status::NoMemory,
    }
}

// Does what the words ask for. Its error is that of the words, or want of memory, and then nothing was done.
fn serve(rt: &HostRuntime) -> io::Result<Status> {
    let words = words(rt)?;
    let mut pipe = StdLink::new(rt);
    let mut door = TcpDoor::new(rt);
    let mut disk_a = disk(rt, "search-a.dat")?;
    let mut disk_b = disk(rt, "search-b.dat")?;
    // Searches tell nobody what they open.
    let log = Box::new(rt.alloc(), SilentLog)?;
    let log: Box<dyn BucketLog> = log;
    let mut fetches: Steps<StoredDocument> = Steps::new();
    let mut openings: Steps<OpenedBucket> = Steps::new();
    Ok(run_search_server(
        rt.alloc(),
        &words,
        &mut pipe,
        &mut door,
        &mut disk_a,
        &mut disk_b,
        log,
        &mut fetches,
        &mut openings,
    ))
}

// The words after the program's own name.
fn words(rt: &HostRuntime) -> io::Result<Vec<String>> {
    let mut words = Vec::new(rt.alloc());
    for word in env::args(rt)?.skip(1) {
        words.push(word)?;
    }
    Ok(words)
}

// The disk over the file of this name. Its error is want of memory.
fn disk(rt: &HostRuntime, name: &str) -> io::Result<FileDisk> {
    Ok(FileDisk::new(rt, String::from_str(rt.alloc(), name)?))
}

// The code with which the program ends.
fn exit_of(status: Status) -> ExitCode
    ensures { exit_status result ≡ number_of status }
{
    ExitCode::from(status.number())
}
