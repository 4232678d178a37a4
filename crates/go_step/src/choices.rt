//! What the items of choices do.
ghost use Rattle.std.specs.Prelude.{◌≡◌, [], ◌∷◌, IfOk, option_map, slice_get};
ghost use Rattle.std.specs.Option.{option_copied};
ghost use Rattle.go_meaning.specs.Acts as acts;

use crate::items::push_eval;
use go_meaning::{Act, CaseClause, Expr, Item, NodeForm, Stack};
use sqlite_items::Items;
use std::alloc::{AllocError, Global};

fn enter_list(alloc: Global, list: u64) -> Result<Act, AllocError>
    ensures { IfOk result (λ a. a ≡ Act.Replaces 1 (Item.Run list 0 ∷ [])) }
{
    let mut items = Stack::new(alloc);
    items.push(Item::Run(list, 0))?;
    Ok(Act::Replaces(1, items))
}

/// What an `if` does after its test.
#[tactic(auto, unfolding(go_meaning::specs::Acts::branch))]
pub fn branch(alloc: Global, then: u64, other: Option<u64>, test: bool) -> Result<Act, AllocError>
    ensures { IfOk result (λ a. a ≡ acts.branch then other test) }
{
    match (test, other) {
        (true, _) => enter_list(alloc, then),
        (false, Some(list)) => enter_list(alloc, list),
        (false, None) => Ok(Act::Replaces(1, Stack::new(alloc))),
    }
}

fn enter(alloc: Global, list: Option<u64>) -> Result<Stack<Item>, AllocError>
    ensures { IfOk result (λ is. is ≡ acts.enter list) }
{
    let mut items = Stack::new(alloc);
    match list {
        Some(list) => {
            items.push(Item::Leave)?;
            items.push(Item::Run(list, 0))?;
            Ok(items)
        }
        None => Ok(items),
    }
}

fn values_of(values: &Option<Items<Expr>>) -> &[Expr]
    ensures { result.now ≡ acts.values_of values.now }
{
    match values {
        Some(es) => es.as_slice(),
        None => &[],
    }
}

/// A case expression by its number in its `switch`, and the list of its clause.
#[derive(Clone, Copy)]
pub struct Case<'a> {
    pub value: &'a Expr,
    pub list: u64,
}

/// The case expression with a number, from 0, in source order.
#[tactic(auto, using(crate::proofs::Cases::case_found, crate::proofs::Cases::case_later))]
pub fn case_at(clauses: &[CaseClause], number: u64) -> Option<Case<'_>>
    ensures { option_map (λ case. (case.value.now, case.list)) result ≡ slice_get (acts.cases clauses.now) number }
{
    let mut left = number;
    for clause in clauses {
        let values = values_of(&clause.values);
        let count = values.len() as u64;
        if left < count {
            return Some(Case {
                value: &values[left as usize],
                list: clause.list,
            });
        }
        left -= count;
    }
    None
}

fn default_of(clauses: &[CaseClause]) -> Option<u64>
    ensures { result ≡ acts.default_of clauses.now }
{
    for clause in clauses {
        if clause.values.is_none() {
            return Some(clause.list);
        }
    }
    None
}

/// What a `switch` does before it compares its tag with a case expression, or where no more are left.
#[tactic(auto, unfolding(go_meaning::specs::Acts::matched))]
pub fn match_next(
    alloc: Global,
    list: u64,
    index: u64,
    number: u64,
    form: Option<&NodeForm>,
) -> Result<Act, AllocError>
    ensures { IfOk result (λ a. a ≡ acts.matched list index number (option_copied form.entry)) }
{
    let Some(NodeForm::Switch { clauses, .. }) = form else {
        return Ok(Act::Stuck);
    };
    let clauses = clauses.as_slice();
    match case_at(clauses, number) {
        Some(case) => {
            let mut items = Stack::new(alloc);
            items.push(Item::Compare(list, index, number))?;
            push_eval(alloc, &mut items, case.value)?;
            Ok(Act::Replaces(0, items))
        }
        None => Ok(Act::Replaces(1, enter(alloc, default_of(clauses))?)),
    }
}

/// What a `switch` does where a case expression equals its tag or not. A number without a next one is answered as want of
/// memory.
#[tactic(auto, unfolding(go_meaning::specs::Acts::compare))]
pub fn compared_case(
    alloc: Global,
    list: u64,
    index: u64,
    number: u64,
    form: Option<&NodeForm>,
    equal: bool,
) -> Result<Act, AllocError>
    ensures { IfOk result (λ a. a ≡ acts.compare list index number (option_copied form.entry) equal) }
{
    let Some(NodeForm::Switch { clauses, .. }) = form else {
        return Ok(Act::Stuck);
    };
    let Some(case) = case_at(clauses.as_slice(), number) else {
        return Ok(Act::Stuck);
    };
    if equal {
        return Ok(Act::Replaces(2, enter(alloc, Some(case.list))?));
    }
    let after = number.checked_add(1).ok_or(AllocError)?;
    let mut items = Stack::new(alloc);
    items.push(Item::Match(list, index, after))?;
    Ok(Act::Replaces(1, items))
}
