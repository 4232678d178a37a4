//! Two workers that call a function 1,000 times each.
use cov_cut::with_counts;
use cov_erase::erase_events;
use go_ast::NoMemory;
use go_meaning::{Event, Program};
use go_samples::working;
use go_state::{Limits, Run, serial};
use std::alloc::Global;
use std::test::Fail;

fn counted(alloc: Global) -> Result<Program, NoMemory> {
    let program = working(alloc)?;
    with_counts(alloc, &program)
}

fn counted_run(alloc: Global) -> Result<Run, NoMemory> {
    let program = counted(alloc)?;
    serial(alloc, &program, Limits { steps: 1_000_000 })
}

fn is_count(event: Event) -> bool {
    matches!(event, Event::Count { .. })
}

fn counts_unit(event: Event, of: u32) -> bool {
    match event {
        Event::Count { unit, .. } => unit == of,
        Event::Step { .. } => false,
    }
}

fn entries(events: &[Event], unit: u32) -> usize {
    let mut count = 0;
    for event in events {
        if counts_unit(*event, unit) {
            count += 1;
        }
    }
    count
}

fn counter_events(events: &[Event]) -> usize {
    let mut count = 0;
    for event in events {
        if is_count(*event) {
            count += 1;
        }
    }
    count
}

fn without_counters(alloc: Global, events: &[Event]) -> Result<usize, NoMemory> {
    let rest = erase_events(alloc, events)?;
    Ok(counter_events(rest.as_slice()))
}

// 2, 2,000 and 2 entries in the worker, 2,000 in what it calls, 1 in `main`.
#[test]
fn counts_entries(rt: HostRuntime) -> Result<(), Fail> {
    let run = counted_run(rt.alloc())?;
    assert_eq!(rt; counter_events(run.events()), 4005);
    assert_eq!(rt; entries(run.events(), 0), 2);
    assert_eq!(rt; entries(run.events(), 1), 2);
    assert_eq!(rt; entries(run.events(), 2), 2000);
    assert_eq!(rt; entries(run.events(), 3), 2000);
    assert_eq!(rt; entries(run.events(), 4), 1);
    Ok(())
}

#[test]
fn erases_counters(rt: HostRuntime) -> Result<(), Fail> {
    let run = counted_run(rt.alloc())?;
    assert_eq!(rt; without_counters(rt.alloc(), run.events())?, 0);
    Ok(())
}
