//! Reports of tables.
ghost use Rattle.std.specs.Prelude.{◌≡◌, IfOk, IfSome};
ghost use Rattle.gocov_words.specs.Texts.{IsName};
ghost use Rattle.gocov_tools.specs.Command.{report_of, text_to, reported};
ghost use Rattle.gocov_tools.specs.Outside.{CountsRead};
ghost use Rattle.gocov_tools.specs.Refusals.{Gives};

use crate::pods::table_of_dirs;
use crate::refusal::Refusal;
use crate::work::{PutFile, Work};
use cov_outside::{Files, NoMemory, Sequence, Text, copy_texts};
use cov_report::{Filter, func_report, percent, pkglist, textfmt};
use cov_table::Table;
use gocov_words::DataArgs;
use std::alloc::Global;

/// A report of a table.
#[derive(Clone, Copy, Debug, PartialEq, Eq)]
pub enum Report {
    Textfmt,
    Percent,
    Func,
    Pkglist,
}

/// The report of a table.
fn report_table(
    alloc: Global,
    report: Report,
    table: &Table,
    filter: &Filter,
) -> Result<Vec<u8>, NoMemory>
    ensures { IfOk result (λ text. text.items ≡ report_of report table.now filter.now.patterns) }
{
    match report {
        Report::Textfmt => textfmt(alloc, table, filter),
        Report::Percent => percent(alloc, table, filter),
        Report::Func => func_report(alloc, table, filter),
        Report::Pkglist => pkglist(alloc, table, filter),
    }
}

/// The work that brings a text to a path, or to the sink where there is no path.
pub fn bring(alloc: Global, path: &Option<Text>, text: Vec<u8>) -> Result<Work, NoMemory>
    requires { IfSome path.now IsName }
    ensures { IfOk result (λ work. work ≡ text_to path.now text.items) }
{
    let bytes = Sequence::from_vec(text);
    let Some(path) = path else {
        return Ok(Work {
            text: bytes,
            puts: Sequence::new(alloc),
        });
    };
    let path = String::from_str(alloc, path.as_str())?;
    let mut puts = Sequence::new(alloc);
    puts.push(PutFile { path, bytes })?;
    Ok(Work {
        text: Sequence::new(alloc),
        puts,
    })
}

/// The report of the pods of some directories.
#[tactic(auto, unfolding(crate::specs::Command::reported))]
pub fn report_work<F: Files>(
    alloc: Global,
    report: Report,
    args: &DataArgs,
    files: &mut F,
) -> Result<Work, Refusal>
    ensures told { IfSome (F.tree files.old) (λ t. Gives (λ work. work) result (reported report args.now t)) }
    ensures same { F.tree files.new ≡ F.tree files.old }
    ensures cause { CountsRead (F.read_faults files.old) (F.read_faults files.new) result }
    ensures puts { F.put_faults files.new ≡ F.put_faults files.old }
{
    let table = table_of_dirs(alloc, files, args.dirs.as_slice())?;
    let patterns = copy_texts(alloc, args.pkg.as_slice())?;
    let text = report_table(alloc, report, &table, &Filter { patterns })?;
    Ok(bring(alloc, &args.out, text)?)
}
