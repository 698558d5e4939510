//! Positions and numbers of names as 32-bit integers, which take half the memory.
ghost use Rattle.std.specs.Prelude.{◌≡◌, ◌<◌, ◌^◌, OnOk, IfOk};

use std::alloc::AllocError;

/// Converts an index to 32 bits. An index that does not fit is reported as out of memory, since
/// memory does not suffice for 2^32 claims or names.
pub fn to_u32(number: usize) -> Result<u32, AllocError>
    ensures value { IfOk result (λ short. short ≡ number) }
    ensures fits { OnOk result (number < 2 ^ 32) }
{
    u32::try_from(number).map_err(|_| AllocError)
}
