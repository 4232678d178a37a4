//! Where a list of statements is cut.
ghost use Rattle.std.specs.Prelude.{◌≡◌, ◌+◌, ◌<◌, ◌^◌};
ghost use Rattle.cov_cut.specs.Outline.{braces, else_braces, else_if, clause};
ghost use Rattle.cov_cut.specs.Units as spec;

/// Offsets of a list of statements.
#[derive(Clone, Copy)]
pub struct Frame {
    /// Where its first unit starts.
    pub start: u32,
    /// Where the counter of its first unit is put.
    pub insert: u32,
    /// Where its only unit ends, if nothing breaks it off before.
    pub end: u32,
    /// Whether a list without a breaker goes on to the end.
    pub extends: bool,
    /// Where its unit starts if it is empty.
    pub empty: u32,
}

impl Frame {
    /// Of a block.
    pub fn braces(left: u32, right: u32) -> Frame
        requires left_fits { left + 1 < 2 ^ 32 }
        requires right_fits { right + 1 < 2 ^ 32 }
        ensures { result ≡ spec.frame (braces left right) }
    {
        Frame {
            start: left,
            insert: left + 1,
            end: right + 1,
            extends: true,
            empty: left + 1,
        }
    }

    /// Of a block after `else`, which ends at `after`.
    pub fn else_braces(after: u32, left: u32, right: u32) -> Frame
        requires after_fits { after + 1 < 2 ^ 32 }
        requires left_fits { left + 1 < 2 ^ 32 }
        requires right_fits { right + 1 < 2 ^ 32 }
        ensures { result ≡ spec.frame (else_braces after left right) }
    {
        Frame {
            start: after,
            insert: left + 1,
            end: right + 1,
            extends: true,
            empty: after + 1,
        }
    }

    /// Of an `if` directly after `else`: the offset after that word, and the end of the `if`.
    pub fn else_if(after: u32, right: u32) -> Frame
        ensures { result ≡ spec.frame (else_if after right) }
    {
        Frame {
            start: after,
            insert: after,
            end: right,
            extends: true,
            empty: after,
        }
    }

    /// Of a clause.
    pub fn clause(colon: u32) -> Frame
        requires { colon + 1 < 2 ^ 32 }
        ensures { result ≡ spec.frame (clause colon) }
    {
        let start = colon + 1;
        Frame {
            start,
            insert: start,
            end: start,
            extends: false,
            empty: start,
        }
    }
}
