//! The texts of a package, as the string table of its blob has them.
ghost use Rattle.std.specs.Prelude.{◌≡◌, ◌&&◌, IfOk, OnOk, flat_map};
ghost use Rattle.cov_bytes.specs.Intern.{with_text};
ghost use Rattle.cov_meta.specs.Written.{with_texts, function_texts};
ghost use Rattle.cov_meta.specs.Written as written;
ghost use Rattle.gocov_tools.specs.Measure as spec;
ghost use Rattle.gocov_tools.specs.Texts.{AreMeasured};

use cov_bytes::StringTable;
use cov_meta::{MetaFunction, MetaPackage};
use cov_outside::NoMemory;
use std::alloc::{AllocError, Global};

/// The most bytes that one text may have.
const MOST_NAME_BYTES: usize = 2_048;

/// Texts, each once, how many bytes they have in all, and whether none has too many.
#[derive(Debug, Drop)]
pub struct Texts {
    pub table: StringTable,
    pub bytes: u64,
    pub short: bool,
}

fn is_short(text: &[u8]) -> bool
    ensures { result ≡ spec.is_short text.now }
{
    text.len() <= MOST_NAME_BYTES
}

/// Whether both tests passed.
pub fn both(first: bool, second: bool) -> bool
    ensures { result ≡ (first && second) }
{
    first && second
}

impl Texts {
    /// Adds a text that may be there already.
    fn add(&mut self, text: &[u8]) -> Result<(), NoMemory>
        requires { AreMeasured self.old }
        ensures measured { OnOk result (AreMeasured self.new) }
        ensures table { OnOk result (self.new.table ≡ with_text self.old.table text.now) }
    {
        let count = self.table.len();
        if count >= u32::MAX as usize {
            return Err(AllocError);
        }
        self.table.intern(text)?;
        if self.table.len() == count {
            return Ok(());
        }
        self.bytes = self.bytes.saturating_add(text.len() as u64);
        self.short = both(self.short, is_short(text));
        Ok(())
    }

    /// Adds the names and files of functions.
    fn add_functions(&mut self, functions: &[MetaFunction]) -> Result<(), NoMemory>
        requires { AreMeasured self.old }
        ensures measured { OnOk result (AreMeasured self.new) }
        ensures table { OnOk result (self.new.table ≡ with_texts self.old.table (flat_map function_texts functions.now)) }
    {
        for function in functions {
            self.add(function.name.bytes())?;
            self.add(function.file.bytes())?;
        }
        Ok(())
    }
}

/// The texts of a package.
pub fn texts_of(alloc: Global, package: &MetaPackage) -> Result<Texts, NoMemory>
    ensures measured { IfOk result AreMeasured }
    ensures table { IfOk result (λ texts. texts.table ≡ written.texts_of «package».now) }
{
    let mut texts = Texts {
        table: StringTable::new(alloc),
        bytes: 0,
        short: true,
    };
    texts.add(package.name.bytes())?;
    texts.add(package.path.bytes())?;
    texts.add(package.module.bytes())?;
    texts.add_functions(package.functions.as_slice())?;
    Ok(texts)
}
