//! A hundred runs to each end.
use crate::counted::{counted_failing, counted_finishing, counted_leaving, counted_stuck};
use crate::running::ran;
use cov_outside::{Mode, OpenGate};
use go_meaning::End;
use std::test::Fail;

#[test]
fn deadlocks_each_time(rt: HostRuntime) -> Result<(), Fail> {
    let program = counted_stuck(rt.alloc())?;
    for _ in 0..100 {
        let closed = ran(&rt, rt.alloc(), &program, Mode::Atomic, &OpenGate)?;
        assert!(rt; matches!(closed.run().end(), Some(End::Deadlock)));
        assert_eq!(rt; closed.words(), [1, 1].as_slice());
    }
    Ok(())
}

#[test]
fn panics_each_time(rt: HostRuntime) -> Result<(), Fail> {
    let program = counted_failing(rt.alloc())?;
    for _ in 0..100 {
        let closed = ran(&rt, rt.alloc(), &program, Mode::Atomic, &OpenGate)?;
        assert!(rt;
            matches!(closed.run().end(), Some(End::Panic(text)) if text.bytes() == b"x".as_slice())
        );
        assert_eq!(rt; closed.words(), [1, 1].as_slice());
    }
    Ok(())
}

#[test]
fn exits_each_time(rt: HostRuntime) -> Result<(), Fail> {
    let program = counted_leaving(rt.alloc())?;
    for _ in 0..100 {
        let closed = ran(&rt, rt.alloc(), &program, Mode::Atomic, &OpenGate)?;
        assert!(rt; matches!(closed.run().end(), Some(End::Exit(3))));
        assert_eq!(rt; closed.words().last(), Some(&1));
    }
    Ok(())
}

#[test]
fn returns_each_time(rt: HostRuntime) -> Result<(), Fail> {
    let program = counted_finishing(rt.alloc())?;
    for _ in 0..100 {
        let closed = ran(&rt, rt.alloc(), &program, Mode::Atomic, &OpenGate)?;
        assert!(rt; matches!(closed.run().end(), Some(End::Returned)));
        assert_eq!(rt; closed.words(), [1, 1].as_slice());
    }
    Ok(())
}
