//! A text is read, or refused at its first line at fault.

ghost use Rattle.std.specs.Prelude.{◌≡◌, ◌≢◌, ◌≤◌, ◌+◌, List, length, Ok, Err, None, IfOk, IfErr, MatchOption};
ghost use Rattle.std.specs.Str.Lines.{strip_carriage_return};
ghost use Rattle.scenario_text.specs.Drafts as drafts;
ghost use Rattle.scenario_text.specs.Reads as rules;

use crate::draft::Draft;
use crate::line::read_line;
use crate::names::Names;
use crate::scenario::Scenario;
use crate::statement::Reading;
use crate::words::cut;
use std::alloc::{AllocError, Global};

/// Why a text is no scenario.
#[derive(Clone, Copy, PartialEq, Eq, Debug)]
pub enum ScenarioFault {
    OutOfMemory,
    /// The first line that is refused, counted from 1, and the kind of the refusal: 1 a line above 4,096 bytes, 2 a
    /// byte
    /// outside 32 to 126, 3 an unknown first word, 4 another number of words, 5 a number, name or address not of its
    /// form or range, 6 an unknown name, another word in the place of an option's name, `at` or `holding`, or a step
    /// before any `app`, 7 a repetition, 8 above a limit, 9 no host, at the line after the last.
    Refused { line: u64, kind: u8 },
}

/// More bytes than any memory holds.
const LONGEST_TEXT: usize = 1 << 62;

/// The scenario that a text is. A text that is none is refused, at its first refused line and by its lowest kind; want
/// of memory is told where it comes first.
#[tactic(auto, unfolding(crate::specs::Reads::reads))]
pub fn read_scenario(alloc: Global, text: &[u8]) -> Result<Scenario, ScenarioFault>
    ensures read { IfOk result (λ s. rules.reads text.now ≡ Ok s) }
    ensures refused { IfErr result (λ fault. fault ≢ ScenarioFault.OutOfMemory → rules.reads text.now ≡ Err fault) }
{
    if text.len() > LONGEST_TEXT {
        return Err(ScenarioFault::OutOfMemory);
    }
    let Ok(mut draft) = Draft::new(alloc) else {
        return Err(ScenarioFault::OutOfMemory);
    };
    let mut names = Names::new(alloc);
    let mut line: u64 = 1;
    let mut rest = text;
    while let Some((front, behind)) = cut(rest, b'\n') {
        match draft.take_line(alloc, &mut names, without_return(front)) {
            Ok(None) => {}
            Ok(Some(kind)) => return Err(ScenarioFault::Refused { line, kind }),
            Err(_) => return Err(ScenarioFault::OutOfMemory),
        }
        line += 1;
        rest = behind;
    }
    if !rest.is_empty() {
        match draft.take_line(alloc, &mut names, rest) {
            Ok(None) => {}
            Ok(Some(kind)) => return Err(ScenarioFault::Refused { line, kind }),
            Err(_) => return Err(ScenarioFault::OutOfMemory),
        }
        line += 1;
    }
    draft.finish(line)
}

/// A line without the carriage return at its end.
fn without_return(line: &[u8]) -> &[u8]
    ensures { result.now ≡ strip_carriage_return line.now }
{
    match line {
        [front @ .., b'\r'] => front,
        _ => line,
    }
}

impl Draft {
    /// Reads a line, and gives the kind of its refusal where it is refused; then nothing more is to be read. The error
    /// is want of memory.
    fn take_line(
        &mut self,
        alloc: Global,
        names: &mut Names,
        line: &[u8],
    ) -> Result<Option<u8>, AllocError>
        requires names { drafts.AreNames names.old self.old }
        requires few { length self.old.hosts ≤ 8 }
        ensures line { IfOk result (λ kind. MatchOption kind (rules.taken self.old line.now ≡ Ok self.new)
            (λ k. rules.taken self.old line.now ≡ Err k)) }
        ensures names { IfOk result (λ kind. kind ≡ None → drafts.AreNames names.new self.new) }
        ensures few { IfOk result (λ kind. kind ≡ None → length self.new.hosts ≤ 8) }
    {
        match read_line(alloc, line)? {
            Reading::Nothing => Ok(None),
            Reading::Wrong(kind) => Ok(Some(kind)),
            Reading::Says(statement) => {
                match self.judged(alloc, names, &statement)? {
                    Some(kind) => Ok(Some(kind)),
                    None => {
                        self.take(alloc, names, statement)?;
                        Ok(None)
                    }
                }
            }
        }
    }

    /// The scenario that was read up to the line before this one.
    fn finish(self, line: u64) -> Result<Scenario, ScenarioFault>
        ensures { result ≡ rules.finished line self self.hosts }
    {
        if self.hosts.is_nil() {
            return Err(ScenarioFault::Refused { line, kind: 9 });
        }
        Ok(Scenario {
            limit: self.limit.unwrap_or(1_000),
            hosts: self.hosts,
            apps: self.apps,
            link: self.link,
            moves: self.moves,
            kills: self.kills,
        })
    }
}
