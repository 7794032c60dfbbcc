//! Marks between which requests for memory are counted (`checks/memory/count.c`, preloaded).
use std::alloc::Global;
use std::process::Abort;
use std::test::Fail;

const MARK: usize = 77_000_000;

/// Begins a part of the count. Part 0 is what stands between the others.
pub(crate) fn mark(rt: &impl Abort, alloc: Global, part: u8) -> Result<(), Fail> {
    let room: Vec<u8> = Vec::with_capacity(alloc, MARK + part as usize)?;
    assert!(rt; room.is_empty());
    Ok(())
}
