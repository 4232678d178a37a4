//! Laws of reading texts of each form. The calls do nothing.
ghost use Rattle.go_grammar.specs.declared.form.Form.{Form};
ghost use Rattle.go_reading.specs.Counters.{Small};
ghost use Rattle.go_reading.specs.Outcomes.{ReadsFiles, SpellsOne, TreeOrFault, TreeHasNoFault, OneFault};

/// With more turns than tokens the reader of files gives the file that all the tokens spell within the limits, or the first
/// fault where it stands.
pub fn reading()
    ensures { (form : Form) → Small form → ReadsFiles form }
{}

/// Tokens spell at most one file.
pub fn one_tree()
    ensures { (form : Form) → Small form → SpellsOne form }
{}

/// Within limits tokens either spell a file or have a first fault, and that is one alone.
pub fn one_outcome()
    ensures some { (form : Form) → Small form → TreeOrFault form }
    ensures apart { (form : Form) → TreeHasNoFault form }
    ensures one_fault { (form : Form) → OneFault form }
{}

#[cfg(test)]
mod tests {
    use super::{one_outcome, one_tree, reading};

    #[test]
    fn laws_do_nothing() {
        reading();
        one_tree();
        one_outcome();
    }
}
