//! A gate at which workers wait for each other.
use cov_outside::Gate;
use go_ast::NoMemory;
use std::alloc::Global;
use std::sync::atomic::AtomicBool;
use std::sync::atomic::Ordering::SeqCst;
use std::thread::yield_now;

/// How often a wait looks at most.
const LOOKS: u32 = 10_000_000;

// Waits for a flag.
fn is_set(flag: &AtomicBool) -> bool {
    for _ in 0..LOOKS {
        if flag.load(SeqCst) {
            return true;
        }
        yield_now();
    }
    false
}

/// The first pass of each worker sets its flag, and waits for those of all workers. Workers are the goroutines from 2 on.
#[derive(Drop)]
pub(crate) struct Meeting {
    flags: Vec<AtomicBool>,
    late: AtomicBool,
}

impl Meeting {
    pub(crate) fn of(alloc: Global, workers: usize) -> Result<Meeting, NoMemory> {
        let mut flags = Vec::new(alloc);
        for _ in 0..workers {
            flags.push(AtomicBool::new(false))?;
        }
        Ok(Meeting {
            flags,
            late: AtomicBool::new(false),
        })
    }

    // A flag that was waited for in vain.
    pub(crate) fn is_late(&self) -> bool {
        self.late.load(SeqCst)
    }

    // Whether this is the first pass of a worker.
    fn is_first(&self, goroutine: u32) -> bool {
        if goroutine < 2 {
            return false;
        }
        match self.flags.get(goroutine as usize - 2) {
            Some(flag) => !flag.swap(true, SeqCst),
            None => false,
        }
    }
}

impl Gate for Meeting {
    fn pass(&self, goroutine: u32) {
        if !self.is_first(goroutine) {
            return;
        }
        for flag in &self.flags {
            if !is_set(flag) {
                self.late.store(true, SeqCst);
            }
        }
    }
}
