//! The texts that are put into a source.
ghost use Rattle.std.specs.Prelude.{◌≡◌, ◌++◌, OnOk};
ghost use Rattle.cov_rewrite.specs.Additions as spec;

use crate::number::push_number;
use crate::piece::Addition;
use cov_outside::{Mode, NoMemory};

/// Appends what is put in.
pub fn push_addition(
    text: &mut Vec<u8>,
    var: &[u8],
    mode: Mode,
    addition: Addition,
) -> Result<(), NoMemory>
    ensures { OnOk result (text.new.items ≡ text.old.items ++ spec.addition_text var.now mode addition) }
{
    match addition {
        Addition::Import => text.extend_from_slice(b"; import _cover_atomic_ \"sync/atomic\"")?,
        Addition::LeftBrace => text.extend_from_slice(b"{ ")?,
        Addition::RightBrace => text.push(b'}')?,
        Addition::Counter(i) => push_counter(text, var, mode, i)?,
    }
    Ok(())
}

fn push_counter(text: &mut Vec<u8>, var: &[u8], mode: Mode, i: usize) -> Result<(), NoMemory>
    ensures { OnOk result (text.new.items ≡ text.old.items ++ spec.counter_text var.now mode i) }
{
    text.extend_from_slice(counter_begin(mode))?;
    text.extend_from_slice(var)?;
    text.extend_from_slice(b".Count[")?;
    push_number(text, i)?;
    text.extend_from_slice(counter_end(mode))?;
    Ok(())
}

/// What stands before the variable of the counters.
fn counter_begin(mode: Mode) -> &'static [u8]
    ensures { result.now ≡ spec.counter_begin mode }
{
    match mode {
        Mode::Set | Mode::Count => b"",
        Mode::Atomic => b"_cover_atomic_.AddUint32(&",
    }
}

/// What stands behind a counter's number.
fn counter_end(mode: Mode) -> &'static [u8]
    ensures { result.now ≡ spec.counter_end mode }
{
    match mode {
        Mode::Set => b"] = 1;",
        Mode::Count => b"]++;",
        Mode::Atomic => b"], 1);",
    }
}
