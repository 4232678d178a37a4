//! Workers with a thread for each.
use crate::counted::{counted_crowd, counted_working};
use crate::gates::Meeting;
use crate::running::ran;
use cov_outside::{Mode, OpenGate};
use std::test::Fail;

#[test]
fn counts_two_workers(rt: HostRuntime) -> Result<(), Fail> {
    let program = counted_working(rt.alloc())?;
    let closed = ran(&rt, rt.alloc(), &program, Mode::Atomic, &OpenGate)?;
    assert_eq!(rt; closed.words(), [2, 2, 2000, 2000, 1].as_slice());
    Ok(())
}

#[test]
fn sets_two_workers(rt: HostRuntime) -> Result<(), Fail> {
    let program = counted_working(rt.alloc())?;
    let closed = ran(&rt, rt.alloc(), &program, Mode::Set, &OpenGate)?;
    assert_eq!(rt; closed.words(), [1, 1, 1, 1, 1].as_slice());
    Ok(())
}

#[test]
fn two_workers_meet(rt: HostRuntime) -> Result<(), Fail> {
    let program = counted_working(rt.alloc())?;
    let gate = Meeting::of(rt.alloc(), 2)?;
    let closed = ran(&rt, rt.alloc(), &program, Mode::Atomic, &gate)?;
    assert!(rt; !gate.is_late());
    assert_eq!(rt; closed.words(), [2, 2, 2000, 2000, 1].as_slice());
    Ok(())
}

#[test]
fn counts_eight_workers(rt: HostRuntime) -> Result<(), Fail> {
    let program = counted_crowd(rt.alloc())?;
    let closed = ran(&rt, rt.alloc(), &program, Mode::Atomic, &OpenGate)?;
    assert_eq!(rt; closed.words(), [8, 8, 8000, 8000, 1].as_slice());
    Ok(())
}

#[test]
fn sets_eight_workers(rt: HostRuntime) -> Result<(), Fail> {
    let program = counted_crowd(rt.alloc())?;
    let closed = ran(&rt, rt.alloc(), &program, Mode::Set, &OpenGate)?;
    assert_eq!(rt; closed.words(), [1, 1, 1, 1, 1].as_slice());
    Ok(())
}

#[test]
fn eight_workers_meet(rt: HostRuntime) -> Result<(), Fail> {
    let program = counted_crowd(rt.alloc())?;
    let gate = Meeting::of(rt.alloc(), 8)?;
    let closed = ran(&rt, rt.alloc(), &program, Mode::Atomic, &gate)?;
    assert!(rt; !gate.is_late());
    assert_eq!(rt; closed.words(), [8, 8, 8000, 8000, 1].as_slice());
    Ok(())
}
