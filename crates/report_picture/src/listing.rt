//! The first reading of a report: whether it is one, and its flows.

ghost use Rattle.std.specs.Prelude.{◌≡◌, ◌<◌, ◌+◌, ◌-◌, ◌^◌, ◌++◌, ◌∷◌, [], ℕ, List, OnOk, IfOk, IfErr, true, false};
ghost use Rattle.report_lines.specs.Lines.{Line};
ghost use Rattle.report_lines.specs.Shown.{AreNames};
ghost use Rattle.trace_audit.specs.TextLines.{text_lines};
ghost use Rattle.report_picture.specs.Flows.{flows_in};
ghost use Rattle.report_picture.specs.Forms.{seen_said, AreReport, BeginReport};
ghost use Rattle.report_picture.specs.Hosts.{Named, seen_hosts};
ghost use Rattle.report_picture.specs.Reading.{HasListed, IsUnlisted, begun_by, above_by};

use crate::flows::{Above, Flow, push_begun};
use crate::hosts::Hosts;
use crate::lines::next_line;
use crate::pictures::PictureFault;
use crate::said::{SaidLine, said_by};
use crate::stage::Stage;
use std::alloc::{AllocError, Global};

/// How far a report was read: how many lines, where it stands, and the flows so far.
#[derive(Drop)]
pub struct Listing {
    pub count: usize,
    pub stage: Stage,
    pub above: Above,
    pub flows: Vec<Flow>,
}

impl Listing {
    /// Nothing was read.
    fn new(alloc: Global) -> Listing
        ensures listed { (n : Named) → HasListed n result [] }
        ensures count { result.count ≡ 0 }
    {
        Listing {
            count: 0,
            stage: Stage::start(),
            above: Above::nowhere(),
            flows: Vec::new(alloc),
        }
    }

    /// Takes what a line says. The error is want of memory.
    fn take_said(&mut self, said: &SaidLine<'_>) -> Result<(), AllocError>
        ensures flows { OnOk result
            (self.new.flows.items ≡ self.old.flows.items ++ begun_by self.old.above (seen_said said.now)) }
        ensures above { OnOk result (self.new.above ≡ above_by self.old.above (seen_said said.now)) }
        ensures count { OnOk result (self.new.count ≡ self.old.count) }
    {
        let SaidLine::Plain(line) = said else {
            return Ok(());
        };
        push_begun(&mut self.flows, &self.above, line)?;
        self.above = self.above.with_line(line);
        Ok(())
    }

    /// Takes a line; false where it is at fault. The error is want of memory.
    fn take(&mut self, hosts: &Hosts<'_>, text: &[u8]) -> Result<bool, AllocError>
        requires names { AreNames (seen_hosts hosts.now).names }
        requires few { self.old.count < 2 ^ 64 - 1 }
        ensures taken { IfOk result (λ right. right ≡ true → (before : List (List ℕ))
            → HasListed (seen_hosts hosts.now) self.old before
            → HasListed (seen_hosts hosts.now) self.new (before ++ text.now ∷ [])) }
        ensures counted { IfOk result (λ right. right ≡ true → self.new.count ≡ self.old.count + 1) }
        ensures refused { IfOk result (λ right. right ≡ false → (before : List (List ℕ))
            → HasListed (seen_hosts hosts.now) self.old before
            → BeginReport (seen_hosts hosts.now) (before ++ text.now ∷ []) → ⊥) }
    {
        let Some(said) = said_by(hosts, text) else {
            return Ok(false);
        };
        let Some(stage) = self.stage.next_by(hosts, &said) else {
            return Ok(false);
        };
        self.take_said(&said)?;
        self.stage = stage;
        self.count += 1;
        Ok(true)
    }
}

/// The flows of a report, which names these hosts. A text that is none is refused at the earliest line at fault.
pub fn flows_of(alloc: Global, hosts: &Hosts<'_>, report: &[u8]) -> Result<Vec<Flow>, PictureFault>
    requires names { AreNames (seen_hosts hosts.now).names }
    ensures found { IfOk result (λ flows. (lines : List Line)
        × AreReport (seen_hosts hosts.now) (text_lines report.now) lines × (flows.items ≡ flows_in lines)) }
    ensures unfound { IfErr result (IsUnlisted (seen_hosts hosts.now) (text_lines report.now)) }
{
    let mut listing = Listing::new(alloc);
    let mut rest = report;
    while let Some((line, more)) = next_line(rest) {
        let count = listing.count;
        match listing.take(hosts, line) {
            Ok(true) => {}
            Ok(false) => {
                return Err(PictureFault::Refused {
                    line: count as u64 + 1,
                });
            }
            Err(_) => return Err(PictureFault::OutOfMemory),
        }
        rest = more;
    }
    if !listing.stage.is_over(hosts.replay) {
        return Err(PictureFault::Refused {
            line: listing.count as u64 + 1,
        });
    }
    Ok(listing.flows)
}
