//! Room for the stack of the program's first thread.
//!
//! The system lets this stack grow as the program needs more of it. Where the address space is limited (`ulimit -v`) and nothing of it is left, the
//! system ends the program by a signal. So the program lets the stack grow before it reads a text, once it has found that there is room.

use std::alloc::{AllocError, Global};

/// The depth in bytes to which the stack grows. Commands need less.
const DEPTH_BYTES: usize = 0x6_0000;

/// The distance in bytes between two that are written, at most the size of a page of memory.
const STEP_BYTES: usize = 0x1000;

/// Lets the stack of the first thread grow to the depth that commands need. It is an error if there is no room for it. `seed` is a number that the
/// compiler cannot know.
pub fn grow_stack(alloc: Global, seed: usize) -> Result<(), AllocError> {
    // What the allocation has taken is free again when the stack grows.
    let room = Vec::<u8>::with_capacity(alloc, DEPTH_BYTES)?;
    drop(room);
    if byte_of_stack(seed) < LEAST_BYTE {
        return Err(AllocError);
    }
    Ok(())
}

/// The least byte that is written.
const LEAST_BYTE: u8 = 1;

/// One of the bytes of an array that takes the whole depth. Since the seed decides which one, the compiler must write all of them.
#[inline(never)]
fn byte_of_stack(seed: usize) -> u8 {
    let mut bytes = [LEAST_BYTE; DEPTH_BYTES];
    for step in 0..DEPTH_BYTES / STEP_BYTES {
        bytes[step * STEP_BYTES] = (seed % 255) as u8 + LEAST_BYTE;
    }
    bytes[seed % DEPTH_BYTES]
}
