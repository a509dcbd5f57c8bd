//! What a phase of a crew costs. Without words it plays short phases and says how often each job was worked on; with
//! the words measure and 4 it measures phases of four workers.
#![tactic(auto)]

mod count;
mod measure;
mod play;

use measure::measure_all;
use play::play_all;
use std::alloc::AllocError;
use std::{env, io};

fn main(rt: HostRuntime) -> io::Result<()> {
    let words = words_of(&rt)?;
    if words.len() < 2 {
        return play_all(&rt, rt.alloc());
    }
    let Ok(workers) = words[1].parse::<usize>() else {
        println!(rt; "usage: crew_bench [measure WORKERS]")?;
        return Ok(());
    };
    measure_all(&rt, rt.alloc(), workers)
}

/// The words behind the program's name.
fn words_of(rt: &HostRuntime) -> io::Result<Vec<String>> {
    let mut words = Vec::new(rt.alloc());
    for word in env::args(rt)?.skip(1) {
        words.push(word)?;
    }
    Ok(words)
}
