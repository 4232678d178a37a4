//! Statements with lists in them.
ghost use Rattle.std.specs.Prelude.{◌≡◌, ◌+◌, ◌<◌, ◌^◌, length};
ghost use Rattle.go_ast.specs.declared.block.Stmt.{Stmt};
ghost use Rattle.go_ast.specs.declared.block.StmtForm.{out-StmtForm};
ghost use Rattle.go_ast.specs.declared.block.CaseClause.{CaseClause as Case};
ghost use Rattle.go_ast.specs.declared.block.CommClause.{CommClause as Communication};
ghost use Rattle.go_types.specs.Walking.{Walks};
ghost use Rattle.go_types.specs.Bodies as spec;
ghost use Rattle.go_bodies.specs.Parts.{FillsFor};

use crate::lists::{new_lists, set_list};
use crate::parts::ForParts;
use crate::placing::{is_at_colon, next_at, next_clause, simple_of};
use go_ast::{Block, CaseClause, CommClause, Expr as Written, Name, Other, Stmt, StmtForm};
use go_meaning::{CaseClause as CaseNode, CommClause as CommNode, Node, NodeForm, Simple};
use go_types::{
    Enclosing, Position, Ranged, Refusal, Seen, ValueType, Walk, case_head, comm_of, comm_seen,
    condition, condition_if, plain_form, range_node, ranged, tag,
};
use sqlite_items::{Boxed, Items};
use std::alloc::Global;

/// A statement at its place in its list.
#[cycle(stmt)]
#[tactic(auto, using(crate::proofs::Layers::check_stmt_is))]
fn check_stmt(
    alloc: Global,
    walk: &mut Walk,
    stmt: &Stmt,
    position: Position,
) -> Result<Node, Refusal>
    ensures { Walks (spec.check_stmt stmt.now position walk.old) result walk.new }
{
    let span = stmt.span;
    let form = check_form(alloc, walk, span.start, &stmt.form, position)?;
    Ok(Node { span, form })
}

/// The form of a statement at an offset.
#[cycle(stmt)]
#[tactic(auto, unfolding(go_types::specs::Bodies::select_parts))]
fn check_form(
    alloc: Global,
    walk: &mut Walk,
    at: u32,
    form: &StmtForm,
    position: Position,
) -> Result<NodeForm, Refusal>
    ensures { Walks (spec.form_of (out-StmtForm form.now) at position walk.old) result walk.new }
{
    match form {
        StmtForm::Block(block) => {
            let list = check_block(alloc, walk, block)?;
            let at_colon = is_at_colon(position, block.left);
            Ok(NodeForm::Block { list, at_colon })
        }
        StmtForm::Label(name, stmt) => {
            let label = walk.new_label(name)?;
            let position = Position {
                colon: position.colon,
                next: position.next,
                label: Some(label),
            };
            let node = check_stmt(alloc, walk, stmt.get(), position)?;
            Ok(node.form)
        }
        StmtForm::Select { clauses, .. } => {
            let clauses = clauses.as_slice();
            let first = new_lists(alloc, walk, clauses.len())?;
            let around = walk.around.len();
            walk.around.push(Enclosing {
                label: position.label,
                repeats: false,
            })?;
            let nodes = check_comms(alloc, walk, at, first, clauses)?;
            walk.around.truncate(around);
            Ok(NodeForm::Select(nodes))
        }
        _ => check_branch(alloc, walk, at, form, position),
    }
}

/// An `if` or a `switch`, or what has no branches.
#[cycle(stmt)]
#[tactic(auto, unfolding(go_types::specs::Bodies::if_parts, go_types::specs::Bodies::switch_parts))]
fn check_branch(
    alloc: Global,
    walk: &mut Walk,
    at: u32,
    form: &StmtForm,
    position: Position,
) -> Result<NodeForm, Refusal>
    ensures { Walks (spec.branch_of (out-StmtForm form.now) at position walk.old) result walk.new }
{
    match form {
        StmtForm::If {
            first,
            test,
            then,
            other,
        } => {
            let scope = walk.open();
            let first = check_first(alloc, walk, first)?;
            let test = condition(alloc, walk, test)?;
            let then = check_block(alloc, walk, then)?;
            let other = check_other(alloc, walk, other)?;
            walk.close(scope);
            Ok(NodeForm::If {
                first,
                test,
                then,
                other,
            })
        }
        StmtForm::Switch {
            first,
            tag: expression,
            clauses,
            ..
        } => {
            let clauses = clauses.as_slice();
            let scope = walk.open();
            let first = check_first(alloc, walk, first)?;
            let typed = tag(alloc, walk, expression)?;
            let number = new_lists(alloc, walk, clauses.len())?;
            let around = walk.around.len();
            walk.around.push(Enclosing {
                label: position.label,
                repeats: false,
            })?;
            let nodes = check_clauses(alloc, walk, at, typed.of, number, clauses)?;
            walk.around.truncate(around);
            walk.close(scope);
            Ok(NodeForm::Switch {
                first,
                tag: typed.code,
                clauses: nodes,
            })
        }
        _ => check_loop(alloc, walk, at, form, position),
    }
}

/// The last part of a `for`. What it declares is known nowhere else.
#[cycle(stmt)]
#[tactic(auto, unfolding(go_types::specs::Bodies::last_part))]
fn check_last(
    alloc: Global,
    walk: &mut Walk,
    stmt: &Option<Boxed<Stmt>>,
) -> Result<Option<Simple>, Refusal>
    ensures { Walks (spec.last_part (spec.first_of Stmt spec.check_stmt stmt.now) walk.old) result walk.new }
{
    let scope = walk.open();
    let last = check_first(alloc, walk, stmt)?;
    walk.close(scope);
    Ok(last)
}

/// Fills in the parts of a `for` that bears a label or none. Of any other form nothing is said.
#[cycle(stmt)]
#[tactic(auto, unfolding(go_types::specs::Bodies::for_parts))]
fn check_for(
    alloc: Global,
    walk: &mut Walk,
    label: Option<u64>,
    form: &StmtForm,
    parts: &mut ForParts,
) -> Result<(), Refusal>
    ensures { FillsFor label (out-StmtForm form.now) walk.old result parts.new walk.new }
{
    let StmtForm::For {
        first,
        test,
        last,
        body,
    } = form
    else {
        return Ok(());
    };
    parts.set_first(check_first(alloc, walk, first)?);
    parts.set_test(condition_if(alloc, walk, test)?);
    parts.set_last(check_last(alloc, walk, last)?);
    parts.set_body(check_body(alloc, walk, label, body)?);
    Ok(())
}

/// A `for` with `range` that bears a label or none.
#[cycle(stmt)]
#[tactic(auto, unfolding(go_types::specs::Bodies::range_parts))]
fn check_range(
    alloc: Global,
    walk: &mut Walk,
    body: &Block,
    at: u32,
    label: Option<u64>,
    names: &[Name],
    over: &Written,
) -> Result<NodeForm, Refusal>
    ensures { Walks (spec.range_parts at names.now over.now (spec.repeated label (spec.block_parts body.now).list) walk.old) result walk.new }
{
    let Ranged {
        text,
        targets,
        code,
    } = ranged(alloc, walk, at, names, over)?;
    let body = check_body(alloc, walk, label, body)?;
    Ok(range_node(text, targets.as_slice(), code, body))
}

/// A `for`, or a statement without lists.
#[cycle(stmt)]
fn check_loop(
    alloc: Global,
    walk: &mut Walk,
    at: u32,
    form: &StmtForm,
    position: Position,
) -> Result<NodeForm, Refusal>
    ensures { Walks (spec.loop_of (out-StmtForm form.now) at position walk.old) result walk.new }
{
    match form {
        StmtForm::For { .. } => {
            let scope = walk.open();
            let mut parts = ForParts::new();
            check_for(alloc, walk, position.label, form, &mut parts)?;
            walk.close(scope);
            Ok(parts.into_node())
        }
        StmtForm::Range { names, over, body } => {
            let scope = walk.open();
            let names = names.as_slice();
            let node = check_range(alloc, walk, body, at, position.label, names, over)?;
            walk.close(scope);
            Ok(node)
        }
        _ => plain_form(alloc, walk, form, at, position),
    }
}

/// The statements of a list: after the colon of a clause, if it is one, and before the list of the next clause, if any.
#[cycle(stmt)]
fn check_list(
    alloc: Global,
    walk: &mut Walk,
    colon: Option<u32>,
    next: Option<u64>,
    list: &[Stmt],
) -> Result<Items<Node>, Refusal>
    ensures { Walks (spec.list_of Stmt spec.check_stmt colon next list.now walk.old) result walk.new }
{
    let mut nodes = Items::new(alloc);
    let mut colon = colon;
    let mut following = list.len();
    for stmt in list {
        following -= 1;
        let position = Position {
            colon,
            next: next_at(following, next),
            label: None,
        };
        let node = check_stmt(alloc, walk, stmt, position)?;
        nodes.push(node)?;
        colon = None;
    }
    Ok(nodes)
}

/// The statement before a condition or behind it.
#[cycle(stmt)]
fn check_first(
    alloc: Global,
    walk: &mut Walk,
    stmt: &Option<Boxed<Stmt>>,
) -> Result<Option<Simple>, Refusal>
    ensures { Walks (spec.first_of Stmt spec.check_stmt stmt.now walk.old) result walk.new }
{
    let Some(stmt) = stmt else {
        return Ok(None);
    };
    let position = Position {
        colon: None,
        next: None,
        label: None,
    };
    let node = check_stmt(alloc, walk, stmt.get(), position)?;
    Ok(Some(simple_of(alloc, node)?))
}

/// A block, whose list takes the next number.
#[cycle(stmt)]
fn check_block(alloc: Global, walk: &mut Walk, block: &Block) -> Result<u64, Refusal>
    ensures { Walks ((spec.block_parts block.now).list walk.old) result walk.new }
{
    let number = new_lists(alloc, walk, 1)?;
    let scope = walk.open();
    let nodes = check_list(alloc, walk, None, None, block.list.as_slice())?;
    walk.close(scope);
    set_list(walk, number, nodes);
    Ok(number)
}

/// What follows `else`.
#[cycle(stmt)]
fn check_other(
    alloc: Global,
    walk: &mut Walk,
    other: &Option<Other>,
) -> Result<Option<u64>, Refusal>
    ensures { Walks (spec.other_of_tree other.now walk.old) result walk.new }
{
    match other {
        Some(other) => Ok(Some(check_block(alloc, walk, &other.block)?)),
        None => Ok(None),
    }
}

/// The body of a loop that bears a label or none.
#[cycle(stmt)]
#[tactic(auto, unfolding(go_types::specs::Bodies::repeated))]
fn check_body(
    alloc: Global,
    walk: &mut Walk,
    label: Option<u64>,
    body: &Block,
) -> Result<u64, Refusal>
    ensures { Walks (spec.repeated label (spec.block_parts body.now).list walk.old) result walk.new }
{
    let around = walk.around.len();
    walk.around.push(Enclosing {
        label,
        repeats: true,
    })?;
    let number = check_block(alloc, walk, body)?;
    walk.around.truncate(around);
    Ok(number)
}

/// The clauses of the `switch` at an offset, from the list with a number on.
#[cycle(stmt)]
fn check_clauses(
    alloc: Global,
    walk: &mut Walk,
    at: u32,
    of: ValueType,
    number: u64,
    clauses: &[CaseClause],
) -> Result<Items<CaseNode>, Refusal>
    requires { number + length clauses.now < 2 ^ 64 }
    ensures { Walks (spec.clauses_of Case spec.case_parts at of number spec.none_seen clauses.now walk.old) result walk.new }
{
    let mut nodes = Items::new(alloc);
    let mut seen = Seen::new(alloc);
    let mut number = number;
    let mut following = clauses.len();
    for clause in clauses {
        following -= 1;
        let next = next_clause(number, following);
        let (node, more) = check_clause(alloc, walk, at, of, number, next, seen, clause)?;
        nodes.push(node)?;
        seen = more;
        number += 1;
    }
    Ok(nodes)
}

/// A clause of the `switch` at an offset, whose list has a number, before the list of the next clause, if any.
#[cycle(stmt)]
#[tactic(auto, unfolding(go_types::specs::Bodies::clause))]
fn check_clause(
    alloc: Global,
    walk: &mut Walk,
    at: u32,
    of: ValueType,
    number: u64,
    next: Option<u64>,
    seen: Seen,
    clause: &CaseClause,
) -> Result<(CaseNode, Seen), Refusal>
    ensures { Walks (spec.clause at of number next seen (spec.case_parts clause.now) walk.old) result walk.new }
{
    let (values, more) = case_head(alloc, walk, at, of, seen, &clause.values)?;
    let scope = walk.open();
    let nodes = check_list(
        alloc,
        walk,
        Some(clause.colon),
        next,
        clause.list.as_slice(),
    )?;
    walk.close(scope);
    set_list(walk, number, nodes);
    let list = number;
    Ok((CaseNode { values, list }, more))
}

/// The clauses of the `select` at an offset, from the list with a number on.
#[cycle(stmt)]
fn check_comms(
    alloc: Global,
    walk: &mut Walk,
    at: u32,
    number: u64,
    clauses: &[CommClause],
) -> Result<Items<CommNode>, Refusal>
    requires { number + length clauses.now < 2 ^ 64 }
    ensures { Walks (spec.comm_clauses_of Communication spec.comm_parts_of at number spec.none_seen clauses.now walk.old) result walk.new }
{
    let mut nodes = Items::new(alloc);
    let mut seen = Seen::new(alloc);
    let mut number = number;
    for clause in clauses {
        let (node, more) = check_comm(alloc, walk, at, number, seen, clause)?;
        nodes.push(node)?;
        seen = more;
        number += 1;
    }
    Ok(nodes)
}

/// A clause of the `select` at an offset, whose list has a number.
#[cycle(stmt)]
#[tactic(auto, unfolding(go_types::specs::Bodies::comm_clause))]
fn check_comm(
    alloc: Global,
    walk: &mut Walk,
    at: u32,
    number: u64,
    seen: Seen,
    clause: &CommClause,
) -> Result<(CommNode, Seen), Refusal>
    ensures { Walks (spec.comm_clause at number seen (spec.comm_parts_of clause.now) walk.old) result walk.new }
{
    let more = comm_seen(at, seen, &clause.comm)?;
    let scope = walk.open();
    let comm = comm_of(alloc, walk, &clause.comm)?;
    let nodes = check_list(
        alloc,
        walk,
        Some(clause.colon),
        None,
        clause.list.as_slice(),
    )?;
    set_list(walk, number, nodes);
    walk.close(scope);
    let list = number;
    Ok((CommNode { comm, list }, more))
}

/// The statements of a function at their braces, whose list takes the next number.
pub fn check_function_body(alloc: Global, walk: &mut Walk, list: &[Stmt]) -> Result<u64, Refusal>
    ensures { Walks (spec.body list.now walk.old) result walk.new }
{
    let number = new_lists(alloc, walk, 1)?;
    let nodes = check_list(alloc, walk, None, None, list)?;
    set_list(walk, number, nodes);
    Ok(number)
}
