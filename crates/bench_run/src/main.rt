//! Runs a loop for a million steps by the serial schedule, and prints how many events there were.
#![tactic(auto)]

use go_samples::counting;
use go_state::{Limits, serial};
use std::io;

/// How many steps the program takes.
const STEPS: u32 = 1_000_000;

fn main(rt: HostRuntime) -> io::Result<()> {
    let Ok(program) = counting(rt.alloc(), STEPS) else {
        return println!(rt; "no program");
    };
    match serial(rt.alloc(), &program, Limits { steps: STEPS }) {
        Ok(run) => println!(rt; "{} events", run.events().len()),
        Err(_) => println!(rt; "no run"),
    }
}
