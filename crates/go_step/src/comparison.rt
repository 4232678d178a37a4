//! Comparisons of values.
#![tactic(auto, unfolding(go_meaning::specs::Operations::on_value, go_meaning::specs::Operations::compared))]

ghost use Rattle.std.specs.Prelude.{◌≡◌, option_map, not};
ghost use Rattle.go_meaning.specs.Values as values;
ghost use Rattle.go_meaning.specs.Operations.{on_value, top, compared};

use go_meaning::{Act, Relation, Stack, Value};

fn same_channel(a: Option<u32>, b: Option<u32>) -> bool
    ensures { result ≡ values.same_channel a b }
{
    match (a, b) {
        (Some(a), Some(b)) => a == b,
        (None, None) => true,
        _ => false,
    }
}

/// Whether two values of one kind are equal.
pub fn equal(v: &Value, w: &Value) -> Option<bool>
    ensures { result ≡ values.equal v.now w.now }
{
    match (v, w) {
        (Value::Flag(a), Value::Flag(b)) => Some(if *a { *b } else { !*b }),
        (Value::Number(a), Value::Number(b)) => Some(a.value() == b.value()),
        (Value::Text(s), Value::Text(t)) => Some(s.bytes() == t.bytes()),
        (Value::Channel(a), Value::Channel(b)) => Some(same_channel(*a, *b)),
        _ => None,
    }
}

fn less(v: &Value, w: &Value) -> Option<bool>
    ensures { result ≡ values.less v.now w.now }
{
    match (v, w) {
        (Value::Number(a), Value::Number(b)) => Some(a.value() < b.value()),
        (Value::Text(s), Value::Text(t)) => Some(s.bytes().cmp(t.bytes()).is_lt()),
        _ => None,
    }
}

fn negated(answer: Option<bool>) -> Option<bool>
    ensures { result ≡ option_map not answer }
{
    match answer {
        Some(b) => Some(!b),
        None => None,
    }
}

fn compare(relation: Relation, v: &Value, w: &Value) -> Option<bool>
    ensures { result ≡ values.compare relation v.now w.now }
{
    match relation {
        Relation::Equal => equal(v, w),
        Relation::NotEqual => negated(equal(v, w)),
        Relation::Less => less(v, w),
        Relation::LessEqual => negated(less(w, v)),
        Relation::Greater => less(w, v),
        Relation::GreaterEqual => negated(less(v, w)),
    }
}

/// Whether a case expression's value equals the tag. Values of two kinds are not equal.
pub fn is_equal(v: &Value, w: &Value) -> bool
    ensures { result ≡ values.is_equal v.now w.now }
{
    match equal(v, w) {
        Some(b) => b,
        None => false,
    }
}

fn compared_act(answer: Option<bool>) -> Act
    ensures { result ≡ compared answer }
{
    match answer {
        Some(b) => Act::Pushes(2, Value::Flag(b)),
        None => Act::Stuck,
    }
}

/// A comparison of the two values on top.
pub fn comparison(relation: Relation, stack: &Stack<Value>) -> Act
    ensures { result ≡ on_value (top 0 stack.now) (λ right. on_value (top 1 stack.now) (λ left. compared (values.compare relation left right))) }
{
    match (stack.peek(0), stack.peek(1)) {
        (Some(right), Some(left)) => compared_act(compare(relation, left, right)),
        _ => Act::Stuck,
    }
}
