//! Runs of small programs.
ghost use Rattle.std.specs.Prelude.{◌≡◌, IfOk};

use crate::laws::histories_grow;
use crate::{Limits, Run, StepRefusal, serial};
use go_ast::NoMemory;
use go_meaning::{End, Event, Program};
use go_samples::{counting, doubling, sending, spinning, turning};
use std::alloc::Global;
use std::test::Fail;

// A step of a goroutine that takes no clause and has no partner.
fn step_of(goroutine: u16) -> Event {
    Event::Step {
        goroutine,
        case: 0,
        partner: 0,
        partner_case: 0,
    }
}

fn sent(alloc: Global, steps: u32) -> Result<Run, NoMemory> {
    let program = sending(alloc)?;
    serial(alloc, &program, Limits { steps })
}

fn doubled(alloc: Global) -> Result<Run, NoMemory> {
    let program = doubling(alloc)?;
    serial(alloc, &program, Limits { steps: 100_000 })
}

fn spun(alloc: Global) -> Result<Run, NoMemory> {
    let program = spinning(alloc)?;
    serial(alloc, &program, Limits { steps: 3001 })
}

fn turned(alloc: Global) -> Result<Run, NoMemory> {
    let program = turning(alloc)?;
    serial(alloc, &program, Limits { steps: 100_000 })
}

fn is_step(run: &Run, at: usize, goroutine: u16) -> bool {
    run.events().get(at) == Some(&step_of(goroutine))
}

// Eight steps lead to the send, which waits.
#[test]
fn sends_alone(rt: HostRuntime) -> Result<(), Fail> {
    let run = sent(rt.alloc(), 1000)?;
    assert_eq!(rt; run.events().len(), 8);
    assert!(rt; run.end() == Some(&End::Deadlock));
    assert_eq!(rt; run.goroutines(), 1);
    Ok(())
}

// A run that comes to its limit where it would wait forever is a deadlock.
#[test]
fn ends_at_the_limit(rt: HostRuntime) -> Result<(), Fail> {
    let run = sent(rt.alloc(), 8)?;
    assert!(rt; run.end() == Some(&End::Deadlock));
    let run = sent(rt.alloc(), 7)?;
    assert!(rt; run.end() == Some(&End::StepLimit));
    Ok(())
}

#[test]
fn doubles_a_text(rt: HostRuntime) -> Result<(), Fail> {
    let run = doubled(rt.alloc())?;
    assert!(rt; run.end() == Some(&End::StringLimit));
    assert_eq!(rt; run.output(), b"1048576\n".as_slice());
    Ok(())
}

// Of two goroutines each takes a thousand steps before the other goes on.
#[test]
fn takes_turns(rt: HostRuntime) -> Result<(), Fail> {
    let run = spun(rt.alloc())?;
    assert!(rt; is_step(&run, 999, 1) && is_step(&run, 1000, 2));
    assert!(rt; is_step(&run, 1999, 2) && is_step(&run, 2000, 1));
    assert!(rt; is_step(&run, 2999, 1) && is_step(&run, 3000, 2));
    assert_eq!(rt; run.events().len(), 3001);
    Ok(())
}

// Each of two goroutines has 1,001 steps: one of each is left when both had a turn.
#[test]
fn ends_turns_early(rt: HostRuntime) -> Result<(), Fail> {
    let run = turned(rt.alloc())?;
    assert!(rt; is_step(&run, 999, 1) && is_step(&run, 1000, 2));
    assert!(rt; is_step(&run, 1999, 2) && is_step(&run, 2000, 1));
    assert!(rt; is_step(&run, 2001, 2));
    assert_eq!(rt; run.events().len(), 2002);
    assert!(rt; run.end() == Some(&End::Deadlock));
    Ok(())
}

fn counted(alloc: Global) -> Result<Program, NoMemory> {
    counting(alloc, 0)
}

fn started(alloc: Global, program: &Program) -> Result<Run, NoMemory>
    ensures { IfOk result (λ r. r.program ≡ program.now) }
{
    let mut run = Run::start(alloc, program, Limits { steps: 2 })?;
    run.reserve()?;
    Ok(run)
}

fn applied(run: &mut Run, program: &Program, goroutine: u16) -> Result<(), StepRefusal>
    requires { program.now ≡ run.old.program }
    ensures { run.new.program ≡ run.old.program }
{
    run.apply(program, step_of(goroutine))
}

#[test]
fn applies_events(rt: HostRuntime) -> Result<(), Fail> {
    let program = counted(rt.alloc())?;
    let mut run = started(rt.alloc(), &program)?;
    assert!(rt; applied(&mut run, &program, 2) == Err(StepRefusal::NotReady));
    assert!(rt; applied(&mut run, &program, 1) == Ok(()));
    assert!(rt; applied(&mut run, &program, 1) == Ok(()));
    assert!(rt; applied(&mut run, &program, 1) == Err(StepRefusal::NotReady));
    assert!(rt; run.end() == Some(&End::StepLimit));
    Ok(())
}

fn serves(run: &mut Run) {
    run.known();
    if run.served() < run.goroutines() {
        run.serve();
    }
}

#[test]
fn serves_goroutines(rt: HostRuntime) -> Result<(), Fail> {
    histories_grow();
    let mut run = sent(rt.alloc(), 8)?;
    serves(&mut run);
    serves(&mut run);
    assert_eq!(rt; run.served(), 1);
    run.refuse();
    assert!(rt; run.refused());
    assert_eq!(rt; run.config().goroutines.len(), 1);
    assert_eq!(rt; run.output().len(), 0);
    Ok(())
}
