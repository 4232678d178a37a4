//! The forms of a text.
use go_ast::Text;

/// How a covered text counts the entries of unit i, where `V` is its variable.
#[derive(Clone, Copy, Debug, PartialEq, Eq)]
pub enum CounterForm {
    /// `V.Count[i] = 1`
    SetForm,
    /// `V.Count[i]++`
    CountForm,
    /// `_cover_atomic_.AddUint32(&V.Count[i], 1)`
    AtomicForm,
}

/// The form of a text.
#[derive(Drop)]
pub enum Form {
    /// As its author wrote it.
    Source,
    /// With the counters of `count` units in the variable `var`.
    Covered {
        var: Text,
        mode: CounterForm,
        count: u32,
    },
}
