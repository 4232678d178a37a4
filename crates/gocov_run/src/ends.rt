//! Ends of runs.
ghost use Rattle.std.specs.Prelude.{◌≡◌, IfOk};

use go_ast::NoMemory;
use go_meaning::End;

/// An equal end.
pub(crate) fn copy_end(end: &End) -> Result<End, NoMemory>
    ensures { IfOk result (λ copy. copy ≡ end.now) }
{
    Ok(match end {
        End::Returned => End::Returned,
        End::Exit(status) => End::Exit(*status),
        End::Panic(message) => End::Panic(message.clone()?),
        End::Fatal(message) => End::Fatal(message.clone()?),
        End::Deadlock => End::Deadlock,
        End::StepLimit => End::StepLimit,
        End::StringLimit => End::StringLimit,
        End::OutputLimit => End::OutputLimit,
        End::GoroutineLimit => End::GoroutineLimit,
        End::StackLimit => End::StackLimit,
    })
}
