//! The picture that is asked for, of the report that the source has.

ghost use Rattle.std.specs.Prelude.{IfOk, IfErr, IfSome, OnOk, option_map};
ghost use Rattle.picture_top.specs.Asking.{name_in, asked_in};
ghost use Rattle.picture_top.specs.Pictures.{Shows, Wants};
ghost use Rattle.picture_top.specs.Stops.{ReadsWhole, Undrawn, Lacks};

use crate::input::read_report;
use crate::stop::Stop;
use crate::words::{Asked, FlowName};
use report_picture::{PictureFault, Wanted, picture};
use std::alloc::Global;
use tas_num::Source;

/// The picture that is asked for, of the report that the source has.
pub fn picture_in<S: Source>(
    alloc: Global,
    asked: &Asked<'_>,
    source: &mut S,
) -> Result<Vec<u8>, Stop>
    ensures shown { IfOk result
        (λ out. IfSome (S.state source.old).left (λ b. Shows (asked_in asked.now) b out.items)) }
    ensures read { OnOk result (ReadsWhole (S.state source.old) (S.state source.new)) }
    ensures cause { IfErr result (Undrawn (asked_in asked.now) (S.state source.old) (S.state source.new)) }
{
    let report = read_report(alloc, source)?;
    drawn(alloc, &report, asked)
}

/// The picture that is asked for, of a report.
fn drawn(alloc: Global, report: &[u8], asked: &Asked<'_>) -> Result<Vec<u8>, Stop>
    ensures shown { IfOk result (λ out. Shows (asked_in asked.now) report.now out.items) }
    ensures cause { IfErr result (Lacks (asked_in asked.now) report.now) }
{
    match picture(alloc, report, wanted(asked.flow), asked.absolute) {
        Ok(out) => Ok(out),
        Err(PictureFault::Refused { line }) => Err(Stop::Line { number: line }),
        Err(PictureFault::Absent { line }) => Err(Stop::Line { number: line }),
        Err(PictureFault::OutOfMemory) => Err(Stop::Memory),
    }
}

/// The flow that is wanted: the one that is named, or the first.
fn wanted(flow: Option<FlowName<'_>>) -> Wanted<'_>
    ensures { Wants (option_map name_in flow.entry) result }
{
    match flow {
        Some(named) => Wanted::Flow {
            host: named.host.as_bytes(),
            number: named.number,
        },
        None => Wanted::First,
    }
}
