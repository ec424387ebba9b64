use crate::checks::silent;
use bucket_sort::BucketLog;
use durable_machine::DurableMachine;
use outside_io::{Link, MemoryDisk};
use search_base::Steps;
use search_server::{LinkEnd, serve_link};
use std::alloc::Global;
use std::process::Abort;

/// A disk in memory that holds nothing and never fails.
pub(crate) fn empty_disk(rt: &impl Abort, alloc: Global) -> MemoryDisk {
    MemoryDisk::new(alloc, Vec::new(alloc), Vec::new(alloc)).expect(rt, "memory")
}

/// What a crash leaves of a disk that lets so many later writes through.
pub(crate) fn crashed(rt: &impl Abort, disk: &MemoryDisk, kept: u64) -> MemoryDisk {
    disk.after_crash(kept).expect(rt, "memory")
}

/// The machine of two disks serves a link.
pub(crate) fn serve_on<P: Link>(
    rt: &impl Abort,
    alloc: Global,
    link: &mut P,
    disk_a: &mut MemoryDisk,
    disk_b: &mut MemoryDisk,
) -> LinkEnd {
    let mut log: Box<dyn BucketLog> = silent(rt, alloc);
    let mut fetches: Steps<()> = Steps::new();
    let mut openings: Steps<()> = Steps::new();
    let opened = DurableMachine::opened(alloc, disk_a, disk_b, &mut fetches);
    let mut machine = opened.expect(rt, "a machine");
    serve_link(
        alloc,
        &mut machine,
        link,
        disk_a,
        disk_b,
        &mut log,
        &mut fetches,
        &mut openings,
    )
}
