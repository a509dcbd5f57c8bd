//! The bytes of `fill`.

ghost use Rattle.std.specs.Prelude.{◌≡◌, ◌≤◌, take, drop, vec_len, IfOk};
ghost use Rattle.scenario_runs.specs.Applications.{most, filling};

use std::alloc::{AllocError, Global};

/// At most so many bytes are offered or asked in one call.
pub(crate) const MOST: u32 = 65_536;

/// Behind so many bytes those of `fill` come again.
const PERIOD: u32 = 251;

/// The bytes of `fill`, of which as many as are offered at once stand together from whichever of them on.
#[derive(Drop)]
pub struct FillBytes {
    bytes: Vec<u8>,
    ghost pattern: { bytes.items ≡ filling (vec_len bytes) },
    ghost enough: { 65786 ≤ vec_len bytes },
}

impl FillBytes {
    /// The error is want of memory.
    pub fn new(alloc: Global) -> Result<FillBytes, AllocError> {
        FillBytes::of(alloc, MOST + PERIOD)
    }

    /// So many of them. The error is want of memory.
    fn of(alloc: Global, count: u32) -> Result<FillBytes, AllocError>
        requires { 65786 ≤ count }
    {
        let bytes = first_bytes(alloc, count)?;
        Ok(FillBytes { bytes })
    }

    /// Of so many bytes those behind the ones that were taken, as many as are offered at once.
    pub fn rest(&self, done: u32, count: u32) -> &[u8]
        requires { done ≤ count }
        ensures { result.now ≡ take most (drop done (filling count)) }
    {
        let from = (done % PERIOD) as usize;
        let to = from + MOST.min(count - done) as usize;
        &self.bytes[from..to]
    }
}

/// The first bytes of `fill`. The error is want of memory.
fn first_bytes(alloc: Global, count: u32) -> Result<Vec<u8>, AllocError>
    ensures { IfOk result (λ bytes. bytes.items ≡ filling count) }
{
    (0..count).map(|k| (k % PERIOD) as u8).collect(alloc)
}
