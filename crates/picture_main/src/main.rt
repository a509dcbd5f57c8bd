//! The program: its words, its streams, and the call that draws.
#![tactic(auto)]

mod streams;

use picture_top::{Stop, draw, tell};
use std::alloc::{AllocError, Global};
use std::env;
use std::process::ExitCode;
use streams::{StderrSink, StdinSource, StdoutSink};

fn main(rt: HostRuntime) -> ExitCode {
    let alloc = rt.alloc();
    let mut faults = StderrSink::new(rt.stderr());
    let Ok(words) = words_of(&rt, alloc) else {
        tell(&mut faults, Stop::Memory);
        return ExitCode::from(Stop::Memory.status());
    };
    let mut source = StdinSource::new(rt.stdin());
    let mut sink = StdoutSink::new(rt.stdout());
    ExitCode::from(draw(alloc, &words, &mut source, &mut sink, &mut faults))
}

/// The words behind the program's name. The error is want of memory.
fn words_of(rt: &HostRuntime, alloc: Global) -> Result<Vec<String>, AllocError> {
    let Ok(arguments) = env::args(rt) else {
        return Err(AllocError);
    };
    let mut words = Vec::new(alloc);
    for word in arguments.skip(1) {
        words.push(word)?;
    }
    Ok(words)
}
