//! The report is read, up to its limit.

ghost use Rattle.std.specs.Prelude.{◌≡◌, ◌++◌, IfOk, IfErr, IfSome, OnOk};
ghost use Rattle.picture_top.specs.Stops.{ReadsWhole, Unread};

use crate::stop::Stop;
use std::alloc::{AllocError, Global};
use tas_num::{IoFault, Source};

/// The most bytes that a report may have: 64 MiB.
const MOST_BYTES: usize = 67_108_864;

/// The most bytes that one call of a source is asked for.
const PIECE: usize = 32_768;

/// All that the source has left, at most 64 MiB. Reading stops one byte past that.
pub fn read_report<S: Source>(alloc: Global, source: &mut S) -> Result<Vec<u8>, Stop>
    ensures all { IfOk result (λ v. IfSome (S.state source.old).left (λ bytes. v.items ≡ bytes)) }
    ensures read { OnOk result (ReadsWhole (S.state source.old) (S.state source.new)) }
    ensures cause { IfErr result (Unread (S.state source.old) (S.state source.new)) }
{
    let mut all = Vec::new(alloc);
    let mut buf = [0u8; PIECE];
    while all.len() <= MOST_BYTES {
        let room = (MOST_BYTES + 1 - all.len()).min(PIECE);
        let count = match source.read(&mut buf[..room]) {
            Ok(count) => count,
            Err(IoFault::Failed) => return Err(Stop::Read),
            Err(IoFault::OutOfMemory) => return Err(Stop::Memory),
        };
        if count == 0 {
            return Ok(all);
        }
        if put(&mut all, &buf[..count]).is_err() {
            return Err(Stop::Memory);
        }
    }
    Err(Stop::TooLong)
}

/// Appends the bytes.
fn put(all: &mut Vec<u8>, bytes: &[u8]) -> Result<(), AllocError>
    ensures ok { OnOk result (all.new.items ≡ all.old.items ++ bytes.now) }
{
    all.extend_from_slice(bytes)
}
