//! Whether an item has what it needs to go on by itself. Nothing here takes memory.
#![tactic(auto, unfolding(crate::specs::Needs::can_apply, crate::specs::Needs::can_act))]

ghost use Rattle.std.specs.Prelude.{◌≡◌, ◌<◌, is_some, length, slice_get, Option, List};
ghost use Rattle.std.specs.Option.{option_copied};
ghost use Rattle.go_meaning.specs.Operations.{top};
ghost use Rattle.go_meaning.specs.declared.expr.Expr.{out-Expr};
ghost use Rattle.go_meaning.specs.Programs.{form_at, function_at};
ghost use Rattle.go_meaning.specs.Moves as moves;
ghost use Rattle.go_meaning.specs.Values as values;
ghost use Rattle.go_step.specs.Needs as needs;

use crate::choices::case_at;
use crate::functions::{operands_of, params_of};
use crate::loops::form_at;
use go_meaning::{
    Config, Deferral, Expr, Frame, Item, NodeForm, Op, Program, Relation, Stack, Target, Value,
    Variable,
};

fn is_flag(stack: &Stack<Value>, below: usize) -> bool
    ensures { result ≡ needs.is_flag (top below stack.now) }
{
    match stack.peek(below) {
        Some(Value::Flag(_)) => true,
        _ => false,
    }
}

fn is_number(stack: &Stack<Value>, below: usize) -> bool
    ensures { result ≡ needs.is_number (top below stack.now) }
{
    match stack.peek(below) {
        Some(Value::Number(_)) => true,
        _ => false,
    }
}

fn is_text(stack: &Stack<Value>, below: usize) -> bool
    ensures { result ≡ needs.is_text (top below stack.now) }
{
    match stack.peek(below) {
        Some(Value::Text(_)) => true,
        _ => false,
    }
}

fn is_channel(stack: &Stack<Value>, below: usize) -> bool
    ensures { result ≡ needs.is_channel (top below stack.now) }
{
    match stack.peek(below) {
        Some(Value::Channel(_)) => true,
        _ => false,
    }
}

fn is_there(stack: &Stack<Value>, below: usize) -> bool
    ensures { result ≡ is_some (top below stack.now) }
{
    stack.peek(below).is_some()
}

fn is_measured(stack: &Stack<Value>) -> bool
    ensures { result ≡ needs.is_measured (top 0 stack.now) }
{
    match stack.peek(0) {
        Some(Value::Text(_)) => true,
        Some(Value::Channel(_)) => true,
        _ => false,
    }
}

fn have_equality(v: &Value, w: &Value) -> bool
    ensures { result ≡ is_some (values.equal v.now w.now) }
{
    match (v, w) {
        (Value::Flag(_), Value::Flag(_)) => true,
        (Value::Number(_), Value::Number(_)) => true,
        (Value::Text(_), Value::Text(_)) => true,
        (Value::Channel(_), Value::Channel(_)) => true,
        _ => false,
    }
}

fn have_order(v: &Value, w: &Value) -> bool
    ensures { result ≡ is_some (values.less v.now w.now) }
{
    match (v, w) {
        (Value::Number(_), Value::Number(_)) => true,
        (Value::Text(_), Value::Text(_)) => true,
        _ => false,
    }
}

fn can_compare(relation: Relation, stack: &Stack<Value>) -> bool
    ensures { result ≡ needs.can_compare relation (top 0 stack.now) (top 1 stack.now) }
{
    let (Some(right), Some(left)) = (stack.peek(0), stack.peek(1)) else {
        return false;
    };
    match relation {
        Relation::Equal => have_equality(left, right),
        Relation::NotEqual => have_equality(left, right),
        Relation::Less => have_order(left, right),
        Relation::LessEqual => have_order(right, left),
        Relation::Greater => have_order(right, left),
        Relation::GreaterEqual => have_order(left, right),
    }
}

fn can_cut(low: bool, high: bool, stack: &Stack<Value>) -> bool
    ensures { result ≡ needs.can_cut low high stack.now }
{
    match (low, high) {
        (true, true) => is_number(stack, 0) && (is_number(stack, 1) && is_text(stack, 2)),
        (true, false) => is_number(stack, 0) && is_text(stack, 1),
        (false, true) => is_number(stack, 0) && is_text(stack, 1),
        (false, false) => is_text(stack, 0),
    }
}

fn can_close(config: &Config, stack: &Stack<Value>) -> bool
    ensures { result ≡ needs.can_close config.now (top 0 stack.now) }
{
    match stack.peek(0) {
        Some(Value::Channel(None)) => true,
        Some(Value::Channel(Some(k))) => config.channels.get(*k as usize).is_some(),
        _ => false,
    }
}

fn is_unlocked(config: &Config, mutex: u64) -> bool
    ensures { result ≡ needs.is_unlocked (slice_get config.now.mutexes mutex) }
{
    match config.mutexes.as_slice().get(mutex as usize) {
        Some(locked) => !*locked,
        None => false,
    }
}

fn is_mutex(config: &Config, mutex: u64) -> bool
    ensures { result ≡ is_some (slice_get config.now.mutexes mutex) }
{
    config.mutexes.as_slice().get(mutex as usize).is_some()
}

fn is_group(config: &Config, group: u64) -> bool
    ensures { result ≡ is_some (slice_get config.now.groups group) }
{
    config.groups.as_slice().get(group as usize).is_some()
}

fn is_zero(config: &Config, group: u64) -> bool
    ensures { result ≡ needs.is_zero (slice_get config.now.groups group) }
{
    match config.groups.as_slice().get(group as usize) {
        Some(0) => true,
        _ => false,
    }
}

// Whether an operation goes on.
fn can_apply(config: &Config, op: &Op, stack: &Stack<Value>) -> bool
    ensures { result ≡ needs.can_apply config.now op.now stack.now }
{
    match op {
        Op::Arithmetic(_) => is_number(stack, 0) && is_number(stack, 1),
        Op::Join => is_text(stack, 0) && is_text(stack, 1),
        Op::Compare(relation) => can_compare(*relation, stack),
        Op::Not => is_flag(stack, 0),
        Op::Plus => is_number(stack, 0),
        Op::Minus => is_number(stack, 0),
        Op::Flip => is_number(stack, 0),
        Op::Convert(_) => is_number(stack, 0),
        Op::Spell => is_number(stack, 0),
        Op::Keep => is_there(stack, 0),
        Op::Index => is_number(stack, 0) && is_text(stack, 1),
        Op::Cut { low, high } => can_cut(*low, *high, stack),
        Op::Len => is_measured(stack),
        Op::Cap => is_channel(stack, 0),
        Op::Make { sized, .. } => !*sized || is_number(stack, 0),
        Op::Close => can_close(config, stack),
        Op::Println(n) => *n <= stack.len() as u64,
        Op::Panic => is_there(stack, 0),
        Op::Exit => is_number(stack, 0),
        Op::Itoa => is_number(stack, 0),
        Op::Lock(m) => is_unlocked(config, *m),
        Op::Unlock(m) => is_mutex(config, *m),
        Op::Add(g) => is_number(stack, 0) && is_group(config, *g),
        Op::Done(g) => is_group(config, *g),
        Op::Wait(g) => is_zero(config, *g),
    }
}

fn can_read(config: &Config, frame: &Frame, variable: Variable) -> bool
    ensures { result ≡ needs.can_read config.now frame.now.slots variable }
{
    match variable {
        Variable::Slot(s) => match frame.slots.as_slice().get(s as usize) {
            Some(Some(_)) => true,
            _ => false,
        },
        Variable::Global(g) => config.globals.as_slice().get(g as usize).is_some(),
    }
}

fn can_eval(config: &Config, frame: &Frame, e: &Expr) -> bool
    ensures { result ≡ needs.can_eval config.now frame.now.slots (out-Expr e.now) }
{
    match e {
        Expr::Variable(x) => can_read(config, frame, *x),
        _ => true,
    }
}

fn can_assign(targets: &Stack<Target>, stack: &Stack<Value>) -> bool
    ensures { result ≡ needs.can_assign targets.now stack.now }
{
    let count = targets.len();
    count == 0 || is_there(stack, count - 1)
}

fn can_run(program: &Program, list: u64, index: u64) -> bool
    ensures { result ≡ needs.can_run (form_at program.now list index) }
{
    match form_at(program, list, index) {
        Some(NodeForm::Count(_)) => false,
        _ => true,
    }
}

fn is_for(program: &Program, list: u64, index: u64) -> bool
    ensures { result ≡ needs.is_for (form_at program.now list index) }
{
    match form_at(program, list, index) {
        Some(NodeForm::For { .. }) => true,
        _ => false,
    }
}

fn is_range(program: &Program, list: u64, index: u64) -> bool
    ensures { result ≡ needs.is_range (form_at program.now list index) }
{
    match form_at(program, list, index) {
        Some(NodeForm::RangeText { .. }) => true,
        _ => false,
    }
}

fn is_switch(program: &Program, list: u64, index: u64) -> bool
    ensures { result ≡ needs.is_switch (form_at program.now list index) }
{
    match form_at(program, list, index) {
        Some(NodeForm::Switch { .. }) => true,
        _ => false,
    }
}

fn has_case(program: &Program, list: u64, index: u64, number: u64) -> bool
    ensures { result ≡ needs.has_case (form_at program.now list index) number }
{
    match form_at(program, list, index) {
        Some(NodeForm::Switch { clauses, .. }) => case_at(clauses.as_slice(), number).is_some(),
        _ => false,
    }
}

/// Whether an item at the head of a frame's control goes on by itself.
pub fn can_act(config: &Config, program: &Program, item: &Item, frame: &Frame) -> bool
    ensures { result ≡ needs.can_act program.now config.now item.now frame.now.slots frame.now.stack }
{
    let stack = &frame.stack;
    let len = stack.len() as u64;
    match item {
        Item::Run(n, i) => can_run(program, *n, *i),
        Item::Eval(e) => can_eval(config, frame, e),
        Item::Drop(n) => *n <= len,
        Item::Assign(targets) => can_assign(targets, stack),
        Item::Do(op) => can_apply(config, op, stack),
        Item::And(_) => is_flag(stack, 0),
        Item::Or(_) => is_flag(stack, 0),
        Item::Branch(_, _) => is_flag(stack, 0),
        Item::Loop(n, i) => is_for(program, *n, *i),
        Item::Test(n, i) => is_flag(stack, 0) && is_for(program, *n, *i),
        Item::Next(n, i) => is_for(program, *n, *i),
        Item::Each(n, i) => is_number(stack, 0) && (is_text(stack, 1) && is_range(program, *n, *i)),
        Item::Match(n, i, _) => is_there(stack, 0) && is_switch(program, *n, *i),
        Item::Compare(n, i, k) => {
            is_there(stack, 0) && (is_there(stack, 1) && has_case(program, *n, *i, *k))
        }
        Item::Leave => true,
        Item::Spawn(f) => params_of(program, *f) <= len,
        Item::Defer(deferral) => operands_of(program, *deferral) <= len,
        Item::Call(f) => params_of(program, *f) <= len,
        Item::Return(n) => *n <= len,
        Item::Unwind(_) => true,
        Item::Pull(_, _) => false,
        Item::Pick(_, _) => false,
        Item::Send => false,
        Item::Recv => false,
        Item::RecvOk => false,
    }
}
