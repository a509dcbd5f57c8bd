//! The input is read, up to its limit.

ghost use Rattle.std.specs.Prelude.{◌≡◌, ℕ, ◌≤◌, ◌++◌, length, IsOk, IfOk, IfErr, IfSome, OnOk, Err};
ghost use Rattle.std.specs.Io.KnownBytes.{IsAtEnd};
ghost use Rattle.program_words.specs.Words as asked;
ghost use Rattle.program_words.specs.Requests.{input_in};
ghost use Rattle.tas_top.specs.Runs.{bytes_of};
ghost use Rattle.tas_top.specs.Stops.{IsReadFor, ReadsPast, SourceCalm, Unread};
ghost use Rattle.tas_top.specs.declared.stop.Stop.{Stop};

use crate::stop::Stop;
use program_words::Input;
use std::alloc::{AllocError, Global};
use tas_num::{IoFault, Source};

/// The most bytes that one call of a source is asked for.
pub const PIECE: usize = 32_768;

/// The bytes of the input: nothing for a made scenario, and else all that the source has left, at most `limit` bytes.
pub fn read_input<S: Source>(
    alloc: Global,
    input: Input,
    limit: u32,
    source: &mut S,
) -> Result<Vec<u8>, Stop>
    ensures all { IfOk result
        (λ v. IfSome (bytes_of (input_in input) (S.state source.old).left) (λ bytes. v.items ≡ bytes)) }
    ensures short { IfOk result (λ v. length v.items ≤ limit) }
    ensures read { OnOk result (IsReadFor (input_in input) (S.state source.old) (S.state source.new)) }
    ensures cause { IfErr result (Unread (bytes_of (input_in input) (S.state source.old).left)
        (S.state source.old) (S.state source.new) limit) }
    ensures past { result ≡ Err Stop.TooLong → ReadsPast limit (S.state source.old) (S.state source.new) }
    // For a made scenario it can't fail.
    ensures made { (clients : ℕ) → input_in input ≡ asked.Made clients → IsOk result }
    ensures calm { OnOk result ((S.state source.new).faults ≡ (S.state source.old).faults) }
    ensures failed { IfErr result (SourceCalm (S.state source.old) (S.state source.new)) }
{
    match input {
        Input::Made { .. } => Ok(Vec::new(alloc)),
        Input::Scenario | Input::Capture { .. } => read_all(alloc, limit, source),
    }
}

/// All that the source has left, at most `limit` bytes. Reading stops one byte past the limit.
pub fn read_all<S: Source>(alloc: Global, limit: u32, source: &mut S) -> Result<Vec<u8>, Stop>
    ensures all { IfOk result (λ v. IfSome (S.state source.old).left (λ bytes. v.items ≡ bytes)) }
    ensures short { IfOk result (λ v. length v.items ≤ limit) }
    ensures end { OnOk result (IsAtEnd (S.state source.new).left) }
    ensures cause { IfErr result
        (Unread (S.state source.old).left (S.state source.old) (S.state source.new) limit) }
    ensures past { result ≡ Err Stop.TooLong → ReadsPast limit (S.state source.old) (S.state source.new) }
    // A fault of the source is never told as another stop.
    ensures calm { OnOk result ((S.state source.new).faults ≡ (S.state source.old).faults) }
    ensures failed { IfErr result (SourceCalm (S.state source.old) (S.state source.new)) }
{
    let limit = limit as usize;
    let mut all = Vec::new(alloc);
    let mut buf = [0u8; PIECE];
    while all.len() <= limit {
        let room = (limit + 1 - all.len()).min(PIECE);
        let count = match source.read(&mut buf[..room]) {
            Ok(count) => count,
            Err(IoFault::Failed) => return Err(Stop::Read),
            Err(IoFault::OutOfMemory) => return Err(Stop::Memory),
        };
        if count == 0 {
            return Ok(all);
        }
        if put(&mut all, &buf[..count]).is_err() {
            return Err(Stop::Memory);
        }
    }
    Err(Stop::TooLong)
}

/// Appends the bytes.
fn put(all: &mut Vec<u8>, bytes: &[u8]) -> Result<(), AllocError>
    ensures ok { OnOk result (all.new.items ≡ all.old.items ++ bytes.now) }
{
    all.extend_from_slice(bytes)
}
