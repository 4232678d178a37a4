//! The top call.
ghost use Rattle.std.specs.Prelude.{◌≡◌, IfSome, Ok, map};
ghost use Rattle.gocov_tools.specs.Command.{Commands};
ghost use Rattle.gocov_words.specs.Words.{meaning};
ghost use Rattle.gocov_tools.specs.Outcome.{Leaves, TopLeaves, Receives, TopReceives, IsDone};
ghost use Rattle.gocov_tools.specs.Outside.{Causes, IsOfWords, Keeps, TopCauses};
ghost use Rattle.gocov_tools.specs.Line.{HasLine, HasPart, line_of};
ghost use Rattle.cov_outside.specs.Faults.{Rose};
ghost use Rattle.gocov_tools.specs.declared.status.Status.{Status};
ghost use Rattle.gocov_tools.specs.declared.work.Work.{Work};

use crate::covering::cover;
use crate::data::covdata;
use crate::journal::Journal;
use crate::laws::one_outcome;
use crate::line::finish;
use crate::status::Status;
use cov_outside::{Files, Gate, Sink, Stamp};
use gocov_words::{Command, WordsFault, read_words};
use std::alloc::Global;
use std::sync::Wait;
use std::thread::Threads;

/// Does what the words mean.
fn answer<F: Files, O: Sink>(
    alloc: Global,
    words: &[&str],
    files: &mut F,
    out: &mut O,
    stamp: Stamp,
) -> Status
    ensures told { IfSome (F.tree files.old) (λ t. Leaves result (Commands stamp (map (λ w. w.now) words.now) t) t (F.tree files.new) (F.put_faults files.old) (F.put_faults files.new) (O.faults out.old) (O.faults out.new)) }
    ensures received { IfSome (F.tree files.old) (λ t. Receives result (Commands stamp (map (λ w. w.now) words.now) t) (O.contents out.old) (O.contents out.new)) }
    ensures causes { Causes result (F.read_faults files.old) (F.read_faults files.new) (F.put_faults files.old) (F.put_faults files.new) (O.faults out.old) (O.faults out.new) }
    ensures of_words { IsOfWords result (meaning (map (λ w. w.now) words.now)) }
    ensures kept { Keeps result (F.tree files.old) (F.tree files.new) }
    ensures kept_out { Keeps result (O.contents out.old) (O.contents out.new) }
{
    match read_words(alloc, words) {
        Ok(Command::Cover(args)) => cover(alloc, &args, files),
        Ok(Command::Run(_)) => Status::NotBuilt,
        Ok(Command::Covdata(args)) => covdata(alloc, &args, files, out, stamp),
        Err(WordsFault::Usage(word)) => Status::Usage(word),
        Err(WordsFault::Limit(which)) => Status::InputLimit(which),
        Err(WordsFault::NoMemory) => Status::NoMemory,
    }
}

/// Does what a list of words means, those after the program's name, and writes the line of the answer to `err`.
pub fn gocov<R: Threads + Wait + Sync, F: Files, O: Sink, E: Sink, G: Gate>(
    _rt: &R,
    alloc: Global,
    words: &[&str],
    files: &mut F,
    out: &mut O,
    err: &mut E,
    stamp: Stamp,
    _gate: &G,
    journal: &mut Journal,
) -> Status
    ensures told { IfSome (F.tree files.old) (λ t. TopLeaves result (Commands stamp (map (λ w. w.now) words.now) t) t (F.tree files.new) (F.put_faults files.old) (F.put_faults files.new) (O.faults out.old) (O.faults out.new) (E.faults err.old) (E.faults err.new)) }
    ensures received { IfSome (F.tree files.old) (λ t. TopReceives result (Commands stamp (map (λ w. w.now) words.now) t) (O.contents out.old) (O.contents out.new)) }
    ensures complete { IfSome (F.tree files.old) (λ t. (work : Work) → Commands stamp (map (λ w. w.now) words.now) t (Ok work) → ¬ Rose (F.read_faults files.old) (F.read_faults files.new) → ¬ Rose (F.put_faults files.old) (F.put_faults files.new) → ¬ Rose (O.faults out.old) (O.faults out.new) → ¬ Rose (E.faults err.old) (E.faults err.new) → IsDone result) }
    ensures causes { TopCauses result (F.read_faults files.old) (F.read_faults files.new) (F.put_faults files.old) (F.put_faults files.new) (O.faults out.old) (O.faults out.new) (E.faults err.old) (E.faults err.new) }
    ensures of_words { IsOfWords result (meaning (map (λ w. w.now) words.now)) }
    ensures kept { Keeps result (F.tree files.old) (F.tree files.new) }
    ensures kept_out { Keeps result (O.contents out.old) (O.contents out.new) }
    ensures line { HasLine result (E.faults err.old) (E.faults err.new) (E.contents err.old) (E.contents err.new) }
    ensures part { (status : Status) × IfSome (F.tree files.old) (λ t. Leaves status (Commands stamp (map (λ w. w.now) words.now) t) t (F.tree files.new) (F.put_faults files.old) (F.put_faults files.new) (O.faults out.old) (O.faults out.new)) × HasPart (line_of status) (E.contents err.old) (E.contents err.new) }
    ensures journal { journal.new ≡ journal.old }
{
    one_outcome();
    let status = answer(alloc, words, files, out, stamp);
    finish(err, status)
}
