//! What the clauses of a `select` wait for.
ghost use Rattle.std.specs.Prelude.{◌≡◌, ◌<◌, ◌≤◌, length, drop, reverse, take, MatchOption};
ghost use Rattle.std.specs.Option.{option_copied};
ghost use Rattle.go_meaning.specs.Channels as channels;
ghost use Rattle.go_step.specs.Heads as heads;
ghost use Rattle.go_step.specs.Ways as ways;

use crate::ways::Way;
use go_meaning::{Comm, CommClause, NodeForm, Stack, Value};

fn operands_of(comm: &Comm) -> usize
    ensures { result ≡ channels.operands_of comm.now }
{
    match comm {
        Comm::Default => 0,
        Comm::Send(_, _) => 2,
        Comm::Receive { .. } => 1,
    }
}

// How many operands clauses have, if there are so many values.
#[tactic(auto, using(crate::proofs::SelectWays::operands_next))]
pub(crate) fn operands(clauses: &[CommClause], values: usize) -> Option<usize>
    ensures { MatchOption result (values < channels.pick_operands clauses.now) (λ n. (n ≡ channels.pick_operands clauses.now) × (n ≤ values)) }
{
    let mut sum = 0;
    for clause in clauses {
        let more = operands_of(&clause.comm);
        if more > values - sum {
            return None;
        }
        sum += more;
    }
    Some(sum)
}

fn offered(value: Option<&Value>) -> Way
    ensures { result ≡ heads.offered (option_copied value.entry) }
{
    match value {
        Some(Value::Channel(o)) => Way::Offers(*o),
        _ => Way::Neither,
    }
}

fn wanted(value: Option<&Value>) -> Way
    ensures { result ≡ heads.wanted (option_copied value.entry) }
{
    match value {
        Some(Value::Channel(o)) => Way::Wants(*o),
        _ => Way::Neither,
    }
}

// The way of a clause whose operands are the first of so many that lie on top.
#[tactic(auto, using(crate::proofs::SelectWays::send_clause, crate::proofs::SelectWays::receive_clause))]
fn comm_way(comm: &Comm, stack: &Stack<Value>, left: usize) -> Way
    requires enough { channels.operands_of comm.now ≤ left }
    requires there { left ≤ length stack.now }
    ensures { result ≡ ways.comm_way comm.now (reverse (take left stack.now)) }
{
    match comm {
        Comm::Default => Way::Default,
        Comm::Send(_, _) => offered(stack.peek(left - 1)),
        Comm::Receive { .. } => wanted(stack.peek(left - 1)),
    }
}

// The clauses from one on.
#[tactic(auto, using(std::proofs::lemmas::List::drop_all))]
fn later(clauses: &[CommClause], number: usize) -> &[CommClause]
    ensures { result.now ≡ drop number clauses.now }
{
    if number < clauses.len() {
        &clauses[number..]
    } else {
        &[]
    }
}

// The way of the clause with this number, from 0.
fn clause_way(clauses: &[CommClause], stack: &Stack<Value>, number: usize) -> Way
    requires { channels.pick_operands clauses.now ≤ length stack.now }
    ensures { result ≡ ways.clause_way clauses.now (ways.operands_on clauses.now stack.now) number }
{
    let clauses = later(clauses, number);
    let Some(clause) = clauses.first() else {
        return Way::Neither;
    };
    let Some(left) = operands(clauses, stack.len()) else {
        unreachable!();
    };
    comm_way(&clause.comm, stack, left)
}

fn select_way(clauses: &[CommClause], stack: &Stack<Value>, case: u16) -> Way
    ensures { result ≡ heads.select_way clauses.now stack.now case }
{
    if case == 0 || operands(clauses, stack.len()).is_none() {
        return Way::Neither;
    }
    clause_way(clauses, stack, case as usize - 1)
}

/// The way of a clause of a `select`, from 1.
pub fn pick_way(form: Option<&NodeForm>, stack: &Stack<Value>, case: u16) -> Way
    ensures { result ≡ heads.pick_way (option_copied form.entry) stack.now case }
{
    match form {
        Some(NodeForm::Select(clauses)) => select_way(clauses.as_slice(), stack, case),
        _ => Way::Neither,
    }
}

fn is_default(comm: &Comm) -> bool
    ensures { result ≡ heads.is_default comm.now }
{
    match comm {
        Comm::Default => true,
        _ => false,
    }
}

fn has_default(clauses: &[CommClause]) -> bool
    ensures { result ≡ heads.has_default clauses.now }
{
    clauses.iter().any(|clause| is_default(&clause.comm))
}

/// Whether a `select` has a default clause.
pub fn pick_default(form: Option<&NodeForm>) -> bool
    ensures { result ≡ heads.pick_default (option_copied form.entry) }
{
    match form {
        Some(NodeForm::Select(clauses)) => has_default(clauses.as_slice()),
        _ => false,
    }
}
