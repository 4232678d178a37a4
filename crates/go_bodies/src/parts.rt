//! The parts of a `for`.
ghost use Rattle.std.specs.Prelude.{◌≡◌, None};
ghost use Rattle.go_bodies.specs.Parts.{for_node};

use go_meaning::{Expr, NodeForm, Simple};

/// The parts of a `for`, as far as they are checked.
#[derive(Debug, Drop)]
pub struct ForParts {
    first: Option<Simple>,
    test: Option<Expr>,
    last: Option<Simple>,
    body: u64,
}

impl ForParts {
    pub fn new() -> ForParts
        ensures { result ≡ record { first = None; test = None; last = None; body = 0 } }
    {
        ForParts {
            first: None,
            test: None,
            last: None,
            body: 0,
        }
    }

    pub fn set_first(&mut self, first: Option<Simple>)
        ensures { self.new ≡ record self.old { first = first } }
    {
        self.first = first;
    }

    pub fn set_test(&mut self, test: Option<Expr>)
        ensures { self.new ≡ record self.old { test = test } }
    {
        self.test = test;
    }

    pub fn set_last(&mut self, last: Option<Simple>)
        ensures { self.new ≡ record self.old { last = last } }
    {
        self.last = last;
    }

    pub fn set_body(&mut self, body: u64)
        ensures { self.new ≡ record self.old { body = body } }
    {
        self.body = body;
    }

    /// The `for` that has these parts.
    pub fn into_node(self) -> NodeForm
        ensures { result ≡ for_node self }
    {
        let ForParts {
            first,
            test,
            last,
            body,
        } = self;
        NodeForm::For {
            first,
            test,
            last,
            body,
        }
    }
}
