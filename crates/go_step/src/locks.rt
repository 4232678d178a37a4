//! What operations on mutexes and wait groups do.
#![tactic(auto, unfolding(go_meaning::specs::Operations::locked, go_meaning::specs::Operations::unlocked, go_meaning::specs::Operations::set_number, go_meaning::specs::Operations::added, go_meaning::specs::Operations::waited))]

ghost use Rattle.std.specs.Prelude.{◌≡◌, IfOk, unsigned_abs, ◌<◌, ◌^◌};
ghost use Rattle.std.specs.Option.{option_copied};
ghost use Rattle.go_meaning.specs.Operations as operations;

use crate::answers::panics;
use go_ast::Text;
use go_meaning::{Act, End, Stack};
use std::alloc::{AllocError, Global};

/// `Lock` of a mutex that is locked or not.
pub fn lock(mutex: u64, locked: Option<bool>) -> Act
    ensures { result ≡ operations.locked mutex locked }
{
    match locked {
        Some(true) => Act::Waits,
        Some(false) => Act::Locks(mutex, true),
        None => Act::Stuck,
    }
}

/// `Unlock` of a mutex that is locked or not.
pub fn unlock(alloc: Global, mutex: u64, locked: Option<bool>) -> Result<Act, AllocError>
    ensures { IfOk result (λ a. a ≡ operations.unlocked mutex locked) }
{
    match locked {
        Some(true) => Ok(Act::Locks(mutex, false)),
        Some(false) => {
            let message = Text::of(alloc, b"sync: unlock of unlocked mutex")?;
            Ok(Act::Ends(0, End::Fatal(message)))
        }
        None => Ok(Act::Stuck),
    }
}

fn set_number(alloc: Global, pops: u64, group: u64, number: i128) -> Result<Act, AllocError>
    ensures { IfOk result (λ a. a ≡ operations.set_number pops group number) }
{
    match u32::try_from(number) {
        Ok(number) if number <= 2_147_483_647 => Ok(Act::Sets {
            pops,
            group,
            number,
        }),
        _ => panics(alloc, b"sync: negative WaitGroup counter"),
    }
}

/// The number of a wait group goes up by `more`, which is less than 2^64 on either side of 0.
pub fn add(
    alloc: Global,
    pops: u64,
    group: u64,
    number: Option<u32>,
    more: i128,
) -> Result<Act, AllocError>
    requires { unsigned_abs more < 2 ^ 64 }
    ensures { IfOk result (λ a. a ≡ operations.added pops group number more) }
{
    match number {
        Some(n) => set_number(alloc, pops, group, i128::from(n) + more),
        None => Ok(Act::Stuck),
    }
}

/// `Wait` of a wait group with a number.
pub fn wait(alloc: Global, number: Option<u32>) -> Act
    ensures { result ≡ operations.waited number }
{
    match number {
        Some(0) => Act::Replaces(0, Stack::new(alloc)),
        Some(_) => Act::Waits,
        None => Act::Stuck,
    }
}
