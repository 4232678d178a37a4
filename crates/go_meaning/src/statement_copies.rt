//! Copies of statements.
ghost use Rattle.std.specs.Prelude.{◌≡◌, IfOk, MatchOption};
ghost use Rattle.go_meaning.specs.Copies.{IsLeaf};
ghost use Rattle.go_meaning.specs.declared.node.NodeForm.TheVariants as node;

use crate::copies::{copy_all, copy_expr, copy_op};
use crate::expr::{Expr, Target};
use crate::node::{Assignment, CaseClause, Comm, CommClause, Node, NodeForm, Simple};
use sqlite_items::Items;
use std::alloc::{AllocError, Global};

/// The same targets.
fn copy_targets(alloc: Global, targets: &[Target]) -> Result<Items<Target>, AllocError>
    ensures { IfOk result (λ copies. copies ≡ targets.now) }
{
    let mut copies = Items::new(alloc);
    for target in targets {
        copies.push(*target)?;
    }
    Ok(copies)
}

fn copy_assignment(alloc: Global, assignment: &Assignment) -> Result<Assignment, AllocError>
    ensures { IfOk result (λ copy. copy ≡ assignment.now) }
{
    Ok(Assignment {
        targets: copy_targets(alloc, assignment.targets.as_slice())?,
        values: copy_all(alloc, assignment.values.as_slice())?,
    })
}

fn copy_assignments(
    alloc: Global,
    assignments: &[Assignment],
) -> Result<Items<Assignment>, AllocError>
    ensures { IfOk result (λ copies. copies ≡ assignments.now) }
{
    let mut copies = Items::new(alloc);
    for assignment in assignments {
        copies.push(copy_assignment(alloc, assignment)?)?;
    }
    Ok(copies)
}

fn copy_simple(alloc: Global, simple: &Simple) -> Result<Simple, AllocError>
    ensures { IfOk result (λ copy. copy ≡ simple.now) }
{
    Ok(match simple {
        Simple::Eval {
            value,
            results,
            panics,
        } => Simple::Eval {
            value: copy_expr(alloc, value)?,
            results: *results,
            panics: *panics,
        },
        Simple::Send(channel, value) => {
            Simple::Send(copy_expr(alloc, channel)?, copy_expr(alloc, value)?)
        }
        Simple::Update(variable, op, value) => {
            Simple::Update(*variable, copy_op(op)?, copy_expr(alloc, value)?)
        }
        Simple::Assign(assignment) => Simple::Assign(copy_assignment(alloc, assignment)?),
    })
}

fn copy_first(alloc: Global, simple: &Option<Simple>) -> Result<Option<Simple>, AllocError>
    ensures { IfOk result (λ copy. copy ≡ simple.now) }
{
    Ok(match simple {
        None => None,
        Some(simple) => Some(copy_simple(alloc, simple)?),
    })
}

fn copy_condition(alloc: Global, condition: &Option<Expr>) -> Result<Option<Expr>, AllocError>
    ensures { IfOk result (λ copy. copy ≡ condition.now) }
{
    Ok(match condition {
        None => None,
        Some(condition) => Some(copy_expr(alloc, condition)?),
    })
}

fn copy_values(
    alloc: Global,
    values: &Option<Items<Expr>>,
) -> Result<Option<Items<Expr>>, AllocError>
    ensures { IfOk result (λ copy. copy ≡ values.now) }
{
    Ok(match values {
        None => None,
        Some(values) => Some(copy_all(alloc, values.as_slice())?),
    })
}

fn copy_cases(alloc: Global, clauses: &[CaseClause]) -> Result<Items<CaseClause>, AllocError>
    ensures { IfOk result (λ copies. copies ≡ clauses.now) }
{
    let mut copies = Items::new(alloc);
    for clause in clauses {
        copies.push(CaseClause {
            values: copy_values(alloc, &clause.values)?,
            list: clause.list,
        })?;
    }
    Ok(copies)
}

fn copy_comm(alloc: Global, comm: &Comm) -> Result<Comm, AllocError>
    ensures { IfOk result (λ copy. copy ≡ comm.now) }
{
    Ok(match comm {
        Comm::Default => Comm::Default,
        Comm::Send(channel, value) => {
            Comm::Send(copy_expr(alloc, channel)?, copy_expr(alloc, value)?)
        }
        Comm::Receive { channel, targets } => Comm::Receive {
            channel: copy_expr(alloc, channel)?,
            targets: copy_targets(alloc, targets.as_slice())?,
        },
    })
}

fn copy_comms(alloc: Global, clauses: &[CommClause]) -> Result<Items<CommClause>, AllocError>
    ensures { IfOk result (λ copies. copies ≡ clauses.now) }
{
    let mut copies = Items::new(alloc);
    for clause in clauses {
        copies.push(CommClause {
            comm: copy_comm(alloc, &clause.comm)?,
            list: clause.list,
        })?;
    }
    Ok(copies)
}

fn copy_if(
    alloc: Global,
    first: &Option<Simple>,
    condition: &Expr,
    then: u64,
    other: Option<u64>,
) -> Result<NodeForm, AllocError>
    ensures { IfOk result (λ copy. copy ≡ node.If first.now condition.now then other) }
{
    Ok(NodeForm::If {
        first: copy_first(alloc, first)?,
        test: copy_expr(alloc, condition)?,
        then,
        other,
    })
}

fn copy_for(
    alloc: Global,
    first: &Option<Simple>,
    condition: &Option<Expr>,
    last: &Option<Simple>,
    body: u64,
) -> Result<NodeForm, AllocError>
    ensures { IfOk result (λ copy. copy ≡ node.For first.now condition.now last.now body) }
{
    Ok(NodeForm::For {
        first: copy_first(alloc, first)?,
        test: copy_condition(alloc, condition)?,
        last: copy_first(alloc, last)?,
        body,
    })
}

fn copy_switch(
    alloc: Global,
    first: &Option<Simple>,
    tag: &Expr,
    clauses: &Items<CaseClause>,
) -> Result<NodeForm, AllocError>
    ensures { IfOk result (λ copy. copy ≡ node.Switch first.now tag.now clauses.now) }
{
    Ok(NodeForm::Switch {
        first: copy_first(alloc, first)?,
        tag: copy_expr(alloc, tag)?,
        clauses: copy_cases(alloc, clauses.as_slice())?,
    })
}

/// A statement that has lists nested in it. Others come to nothing.
fn copy_nesting(alloc: Global, form: &NodeForm) -> Result<Option<NodeForm>, AllocError>
    ensures { IfOk result (λ copy. MatchOption copy (IsLeaf form.now) (λ same. same ≡ form.now)) }
{
    Ok(match form {
        NodeForm::Block { list, at_colon } => Some(NodeForm::Block {
            list: *list,
            at_colon: *at_colon,
        }),
        NodeForm::If {
            first,
            test,
            then,
            other,
        } => Some(copy_if(alloc, first, test, *then, *other)?),
        NodeForm::For {
            first,
            test,
            last,
            body,
        } => Some(copy_for(alloc, first, test, last, *body)?),
        NodeForm::RangeText {
            offset,
            rune,
            over,
            body,
        } => Some(NodeForm::RangeText {
            offset: *offset,
            rune: *rune,
            over: copy_expr(alloc, over)?,
            body: *body,
        }),
        NodeForm::RangeChannel { value, over, body } => Some(NodeForm::RangeChannel {
            value: *value,
            over: copy_expr(alloc, over)?,
            body: *body,
        }),
        NodeForm::Switch {
            first,
            tag,
            clauses,
        } => Some(copy_switch(alloc, first, tag, clauses)?),
        NodeForm::Select(clauses) => {
            Some(NodeForm::Select(copy_comms(alloc, clauses.as_slice())?))
        }
        _ => None,
    })
}

/// A statement that has none.
fn copy_leaf(alloc: Global, form: &NodeForm) -> Result<NodeForm, AllocError>
    requires { IsLeaf form.now }
    ensures { IfOk result (λ copy. copy ≡ form.now) }
{
    Ok(match form {
        NodeForm::Const => NodeForm::Const,
        NodeForm::Var(assignments) => NodeForm::Var(copy_assignments(
            alloc,
            assignments.as_slice(),
        )?),
        NodeForm::Simple(simple) => NodeForm::Simple(copy_simple(alloc, simple)?),
        NodeForm::Return(values, results) => NodeForm::Return(
            copy_all(alloc, values.as_slice())?,
            *results,
        ),
        NodeForm::Break(marks) => NodeForm::Break(*marks),
        NodeForm::Continue(marks) => NodeForm::Continue(*marks),
        NodeForm::Fallthrough(list) => NodeForm::Fallthrough(*list),
        NodeForm::Go(function, values) => NodeForm::Go(
            *function,
            copy_all(alloc, values.as_slice())?,
        ),
        NodeForm::Defer(deferral, values) => NodeForm::Defer(
            *deferral,
            copy_all(alloc, values.as_slice())?,
        ),
        NodeForm::Count(unit) => NodeForm::Count(*unit),
        _ => unreachable!(),
    })
}

fn copy_form(alloc: Global, form: &NodeForm) -> Result<NodeForm, AllocError>
    ensures { IfOk result (λ copy. copy ≡ form.now) }
{
    match copy_nesting(alloc, form)? {
        Some(copy) => Ok(copy),
        None => copy_leaf(alloc, form),
    }
}

/// The same statement.
pub fn copy_node(alloc: Global, node: &Node) -> Result<Node, AllocError>
    ensures { IfOk result (λ copy. copy ≡ node.now) }
{
    Ok(Node {
        span: node.span,
        form: copy_form(alloc, &node.form)?,
    })
}
