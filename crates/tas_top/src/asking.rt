//! What the words ask for, with its input.

ghost use Rattle.std.specs.Prelude.{map, string_bytes, IfOk, IfErr};
ghost use Rattle.program_words.specs.Words.{form_of, Asks};
ghost use Rattle.program_words.specs.Requests.{request_in};
ghost use Rattle.tas_top.specs.Stops.{Untaken};

use crate::stop::Stop;
use program_words::{Request, WordsFault, read_words};
use std::alloc::Global;

/// What the words ask for. The error is `Words` where they are of no form of the program, and else want of memory.
#[tactic(auto, using(program_words::proofs::Asked::form_is_asked))]
pub fn asked_by(alloc: Global, words: &[String]) -> Result<Request, Stop>
    ensures ok { IfOk result (λ r. Asks (form_of (map string_bytes words.now)) (request_in r)) }
    ensures err { IfErr result (Untaken (map string_bytes words.now)) }
{
    match read_words(alloc, words) {
        Ok(request) => Ok(request),
        Err(WordsFault::Unknown) => Err(Stop::Words),
        Err(WordsFault::OutOfMemory) => Err(Stop::Memory),
    }
}
