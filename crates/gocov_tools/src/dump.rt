//! `debugdump`: all that pods say.
ghost use Rattle.std.specs.Prelude.{◌≡◌, IfSome};
ghost use Rattle.gocov_tools.specs.Command.{dumped};
ghost use Rattle.gocov_tools.specs.Outside.{CountsRead};
ghost use Rattle.gocov_tools.specs.Refusals.{Gives};

use crate::pods::read_dirs;
use crate::refusal::Refusal;
use crate::report::bring;
use crate::work::Work;
use cov_outside::{Files, copy_texts};
use cov_report::{Filter, debugdump};
use gocov_words::DataArgs;
use std::alloc::Global;

/// What the pods of some directories say.
#[tactic(auto, unfolding(crate::specs::Command::dumped))]
pub fn dump_work<F: Files>(alloc: Global, args: &DataArgs, files: &mut F) -> Result<Work, Refusal>
    ensures told { IfSome (F.tree files.old) (λ t. Gives (λ work. work) result (dumped args.now t)) }
    ensures same { F.tree files.new ≡ F.tree files.old }
    ensures cause { CountsRead (F.read_faults files.old) (F.read_faults files.new) result }
    ensures puts { F.put_faults files.new ≡ F.put_faults files.old }
{
    let pods = read_dirs(alloc, files, args.dirs.as_slice())?;
    let patterns = copy_texts(alloc, args.pkg.as_slice())?;
    let text = debugdump(alloc, &pods, &Filter { patterns })?;
    Ok(bring(alloc, &args.out, text)?)
}
