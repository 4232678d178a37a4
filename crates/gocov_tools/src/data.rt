//! `covdata`.
ghost use Rattle.std.specs.Prelude.{◌≡◌, IfSome};
ghost use Rattle.std.specs.Str.{IsUtf8};
ghost use Rattle.gocov_tools.specs.Command as spec;
ghost use Rattle.gocov_tools.specs.Refusals.{Gives};
ghost use Rattle.gocov_tools.specs.Outcome.{Is, Leaves, Receives};
ghost use Rattle.gocov_tools.specs.Outside.{Causes, CountsRead, IsOfData, Keeps};

use crate::combine::combine_work;
use crate::dump::dump_work;
use crate::merge::merge_work;
use crate::operation::Operation;
use crate::perform::perform;
use crate::refusal::{Refusal, status_of};
use crate::report::{Report, report_work};
use crate::status::Status;
use crate::work::Work;
use cov_outside::{Files, Sink, Stamp, Text};
use gocov_words::{DataArgs, Sub};
use std::alloc::Global;

/// What a command of `covdata` writes.
fn work_of<F: Files>(
    alloc: Global,
    args: &DataArgs,
    files: &mut F,
    stamp: Stamp,
) -> Result<Work, Refusal>
    ensures told { IfSome (F.tree files.old) (λ t. Gives (λ work. work) result (spec.work_of stamp args.now t)) }
    ensures same { F.tree files.new ≡ F.tree files.old }
    ensures cause { CountsRead (F.read_faults files.old) (F.read_faults files.new) result }
    ensures puts { F.put_faults files.new ≡ F.put_faults files.old }
{
    match args.sub {
        Sub::Textfmt => report_work(alloc, Report::Textfmt, args, files),
        Sub::Percent => report_work(alloc, Report::Percent, args, files),
        Sub::Pkglist => report_work(alloc, Report::Pkglist, args, files),
        Sub::Merge => merge_work(alloc, args, files, stamp),
        Sub::Subtract => combine_work(alloc, Operation::Subtract, args, files, stamp),
        Sub::Intersect => combine_work(alloc, Operation::Intersect, args, files, stamp),
        Sub::Func => report_work(alloc, Report::Func, args, files),
        Sub::Debugdump => dump_work(alloc, args, files),
    }
}

/// The directory that a command puts pods in.
fn pod_dir(args: &DataArgs) -> Option<&Text>
    ensures { IfSome result (λ dir. IsUtf8 dir.now) }
{
    match args.sub {
        Sub::Merge | Sub::Subtract | Sub::Intersect => args.out.as_ref(),
        Sub::Textfmt | Sub::Percent | Sub::Func | Sub::Pkglist | Sub::Debugdump => None,
    }
}

/// Does what a command of `covdata` says with the pods of its directories.
///
/// All pods are decoded before anything is written. The text goes to `out`; files are put in order.
pub fn covdata<F: Files, O: Sink>(
    alloc: Global,
    args: &DataArgs,
    files: &mut F,
    out: &mut O,
    stamp: Stamp,
) -> Status
    ensures told { IfSome (F.tree files.old) (λ t. Leaves result (Is (spec.work_of stamp args.now t)) t (F.tree files.new) (F.put_faults files.old) (F.put_faults files.new) (O.faults out.old) (O.faults out.new)) }
    ensures received { IfSome (F.tree files.old) (λ t. Receives result (Is (spec.work_of stamp args.now t)) (O.contents out.old) (O.contents out.new)) }
    ensures causes { Causes result (F.read_faults files.old) (F.read_faults files.new) (F.put_faults files.old) (F.put_faults files.new) (O.faults out.old) (O.faults out.new) }
    ensures of_data { IsOfData result }
    ensures kept { Keeps result (F.tree files.old) (F.tree files.new) }
    ensures kept_out { Keeps result (O.contents out.old) (O.contents out.new) }
{
    match work_of(alloc, args, files, stamp) {
        Ok(work) => perform(files, out, pod_dir(args), &work),
        Err(refusal) => status_of(refusal),
    }
}
