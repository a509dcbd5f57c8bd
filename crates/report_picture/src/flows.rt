//! Where the lines of a report stand, and the flows that they begin.

ghost use Rattle.std.specs.Prelude.{◌≡◌, ◌++◌, OnOk};
ghost use Rattle.report_lines.specs.Views.{seen_line};
ghost use Rattle.report_picture.specs.Flows as rules;

use report_lines::ReportLine;
use std::alloc::AllocError;
use tas_model::FourTuple;

/// The host and the flow that a line belongs to, by the last such lines above it. Both are counted from 0, flows in
/// their host.
#[derive(Clone, Copy)]
pub struct Above {
    pub host: usize,
    pub flow: Option<u32>,
}

/// A flow that lines of a report begin: its host and its opening number, both counted from 0, and its ends.
#[derive(Clone, Copy)]
pub struct Flow {
    pub host: usize,
    pub number: u32,
    pub tuple: FourTuple,
}

impl Above {
    /// Before the first line.
    pub fn nowhere() -> Above
        ensures { result ≡ rules.nowhere }
    {
        Above {
            host: 0,
            flow: None,
        }
    }

    /// What stands above the line behind this one.
    pub fn with_line(&self, line: &ReportLine<'_>) -> Above
        ensures { result ≡ rules.with_line self.now (seen_line line.now) }
    {
        match line {
            ReportLine::Host { host, .. } => Above {
                host: *host,
                flow: None,
            },
            ReportLine::Begins { number, .. } => Above {
                host: self.host,
                flow: Some(*number),
            },
            _ => *self,
        }
    }

    /// Whether the line belongs to this host's flow.
    pub fn is_in(&self, host: usize, number: u32) -> bool
        ensures { result ≡ rules.is_in self.now host number }
    {
        self.host == host && self.flow == Some(number)
    }
}

/// Appends the flow that a line begins, where it begins one. The error is want of memory.
pub fn push_begun(
    flows: &mut Vec<Flow>,
    above: &Above,
    line: &ReportLine<'_>,
) -> Result<(), AllocError>
    ensures { OnOk result (flows.new.items ≡ flows.old.items ++ rules.begun above.now (seen_line line.now)) }
{
    let ReportLine::Begins { number, tuple, .. } = line else {
        return Ok(());
    };
    flows.push(Flow {
        host: above.host,
        number: *number,
        tuple: *tuple,
    })?;
    Ok(())
}
