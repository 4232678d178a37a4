//! Stacks, ends and laws by hand.
use crate::laws::{acts_fit, covering, goroutines, one_serial_history, shapes_run_alike, standing};
use crate::{End, Queue, Row, Stack};
use go_ast::Text;
use std::test::Fail;

#[test]
fn stacks(rt: HostRuntime) -> Result<(), Fail> {
    let mut stack = Stack::new(rt.alloc());
    assert_eq!(rt; stack.len(), 0);
    stack.push(1u64)?;
    stack.push(2)?;
    stack.push(3)?;
    assert_eq!(rt; stack.peek(0), Some(&3));
    assert_eq!(rt; stack.peek(2), Some(&1));
    assert_eq!(rt; stack.peek(3), None);
    let mut more = Stack::new(rt.alloc());
    more.push(5u64)?;
    more.push(4)?;
    stack.replace_top(more)?;
    assert_eq!(rt; stack.pop(), Some(4));
    assert_eq!(rt; stack.pop(), Some(5));
    assert_eq!(rt; stack.len(), 2);
    stack.reduce(2, 7);
    assert_eq!(rt; stack.swap_top(8), 7);
    stack.cut(1);
    assert_eq!(rt; stack.pop(), None);
    stack.clear();
    Ok(())
}

#[test]
fn rows(rt: HostRuntime) -> Result<(), Fail> {
    let mut row = Row::new(rt.alloc());
    row.push(1u64)?;
    row.push(2)?;
    assert_eq!(rt; row.replace(0, 3), 1);
    assert_eq!(rt; row.as_slice(), [3, 2].as_slice());
    assert_eq!(rt; row.get(1), Some(&2));
    assert_eq!(rt; row.get(2), None);
    assert_eq!(rt; row.len(), 2);
    Ok(())
}

#[test]
fn queues(rt: HostRuntime) -> Result<(), Fail> {
    let mut queue = Queue::new(rt.alloc());
    assert!(rt; queue.push(1u64).is_ok());
    assert!(rt; queue.push(2).is_ok());
    assert_eq!(rt; queue.len(), 2);
    assert_eq!(rt; queue.pop(), Some(1));
    assert!(rt; queue.push(3).is_ok());
    assert_eq!(rt; queue.pop(), Some(2));
    assert_eq!(rt; queue.pop(), Some(3));
    assert_eq!(rt; queue.pop(), None);
    Ok(())
}

#[test]
fn ends(rt: HostRuntime) -> Result<(), Fail> {
    shapes_run_alike();
    standing();
    goroutines();
    one_serial_history();
    covering();
    acts_fit();
    let message = Text::of(rt.alloc(), b"x")?;
    let again = Text::of(rt.alloc(), b"x")?;
    assert!(rt; End::Panic(message) == End::Panic(again));
    assert!(rt; End::Exit(3) != End::Exit(4));
    Ok(())
}
