ghost use Rattle.std.specs.Prelude.{◌≡◌, ◌≤◌, None, IfOk, Ok, length};
ghost use Rattle.outside_io.specs.Faults.{HasCause};

use crate::{Disk, Failed};
use std::fs::{File, OpenOptions};
use std::io::{self, ErrorKind};
use std::os::unix::fs::FileExt;
use std::path::Path;

/// A file as a disk, which tells nothing of what it holds.
///
/// The first call opens the file, and makes it where there is none; it is never cut then. From then
/// on the disk holds the file's exclusive lock (`flock`), until it is let go or the process ends,
/// however it ends. A call that finds the file not open yet, and cannot open it, or finds its lock
/// taken by another `FileDisk` of this process or of any other, fails; nothing was read then, and
/// nothing written.
#[derive(Drop)]
pub struct FileDisk {
    runtime: HostRuntime,
    name: String,
    file: Option<File>,
    faults: u64,
}

impl FileDisk {
    /// A disk over the file of this name, with no fault counted. The file is not touched yet.
    pub fn new(runtime: &HostRuntime, name: String) -> FileDisk
        ensures { result.faults ≡ 0 }
    {
        FileDisk {
            runtime: *runtime,
            name,
            file: None,
            faults: 0,
        }
    }
}

// Counts a fault where a call failed.
fn counted<T>(faults: &mut u64, outcome: io::Result<T>) -> Result<T, Failed>
    ensures cause { HasCause faults.old faults.new result }
    ensures value { IfOk result (λ value. outcome ≡ Ok value) }
{
    match outcome {
        Ok(value) => Ok(value),
        Err(_) => {
            *faults = faults.saturating_add(1);
            Err(Failed)
        }
    }
}

// Writes the folder of a name: a file that was just made there outlives a crash only then.
fn sync_folder(runtime: &HostRuntime, name: &str) -> io::Result<()> {
    let folder = match Path::new(name).parent() {
        Some(folder) if !folder.as_str().is_empty() => File::open(runtime, folder.as_str())?,
        _ => File::open(runtime, ".")?,
    };
    folder.sync_all()
}

// Opens the file of this name as it is, or makes it. Who holds its lock is alone with it.
fn open_or_make(runtime: &HostRuntime, name: &str) -> io::Result<File> {
    let file = OpenOptions::new()
        .read(true)
        .write(true)
        .create(true)
        .open(runtime, name)?;
    file.try_lock()?;
    sync_folder(runtime, name)?;
    Ok(file)
}

// The file, which is opened if it is not open yet.
fn opened<'a>(
    file: &'a mut Option<File>,
    runtime: &HostRuntime,
    name: &str,
) -> io::Result<&'a File> {
    match file {
        Some(open) => Ok(open),
        None => Ok(file.insert(open_or_make(runtime, name)?)),
    }
}

// Reads on until the slice is full or the file ends; a read that a signal interrupts is tried again.
fn read_fully(file: &File, at: u64, into: &mut [u8]) -> io::Result<usize>
    ensures { IfOk result (λ n. n ≤ length into.new) }
{
    let mut done = 0;
    for _ in 0..u64::MAX {
        if done >= into.len() {
            break;
        }
        match file.read_at(&mut into[done..], at.saturating_add(done as u64)) {
            Ok(0) => break,
            Ok(count) => done += count,
            Err(error) if error.kind() == ErrorKind::Interrupted => {}
            Err(error) => return Err(error),
        }
    }
    Ok(done)
}

impl Disk for FileDisk {
    ghost contents = { λ d. None };

    ghost moment = { λ d. 0 };

    ghost left_since = { λ d t c. ⊥ };

    ghost disk_faults = { λ d. d.faults };

    ghost counts_now = { λ d t c le now. now };

    ghost only_now = { λ d c left. left };

    fn len(&mut self) -> Result<u64, Failed> {
        let outcome = match opened(&mut self.file, &self.runtime, &self.name) {
            Ok(file) => match file.metadata() {
                Ok(metadata) => Ok(metadata.len()),
                Err(error) => Err(error),
            },
            Err(error) => Err(error),
        };
        counted(&mut self.faults, outcome)
    }

    fn read_at(&mut self, at: u64, into: &mut [u8]) -> Result<usize, Failed> {
        let outcome = match opened(&mut self.file, &self.runtime, &self.name) {
            Ok(file) => read_fully(file, at, into),
            Err(error) => Err(error),
        };
        counted(&mut self.faults, outcome)
    }

    fn write_at(&mut self, at: u64, piece: &[u8]) -> Result<(), Failed> {
        if at.checked_add(piece.len() as u64).is_none() {
            self.faults = self.faults.saturating_add(1);
            return Err(Failed);
        }
        let outcome = match opened(&mut self.file, &self.runtime, &self.name) {
            Ok(file) => file.write_all_at(piece, at),
            Err(error) => Err(error),
        };
        counted(&mut self.faults, outcome)
    }

    fn cut(&mut self, len: u64) -> Result<(), Failed> {
        let outcome = match opened(&mut self.file, &self.runtime, &self.name) {
            Ok(file) => file.set_len(len),
            Err(error) => Err(error),
        };
        counted(&mut self.faults, outcome)
    }

    // The bytes and the length.
    fn sync(&mut self) -> Result<(), Failed> {
        let outcome = match opened(&mut self.file, &self.runtime, &self.name) {
            Ok(file) => file.sync_all(),
            Err(error) => Err(error),
        };
        counted(&mut self.faults, outcome)
    }
}
