//! The variables of a package.
ghost use Rattle.std.specs.Prelude.{◌≡◌, ◌+◌, IfOk, OnOk};
ghost use Rattle.go_ast.specs.declared.expr.TypeForm.{out-TypeForm};
ghost use Rattle.go_meaning.specs.declared.expr.Expr.{out-Expr};
ghost use Rattle.go_types.specs.Checking.{Gives, Checks};
ghost use Rattle.go_packages.specs.Placing.{Turns};
ghost use Rattle.go_packages.specs.Variables as spec;

use crate::draft::{Draft, next};
use crate::initial::Initial;
use crate::lower::{fill, given, repeated, type_if, wanted_code, wanted_type};
use crate::outline::add_name;
use crate::sizes::size_at;
use go_ast::{Expr as Written, Name, NoMemory, SourceKind, TypeExpr, TypeForm, VarSpec};
use go_meaning::{Expr, Global as Begun, Op, Value, Variable};
use go_types::{
    Argument, Given, Marks, Meaning, Names, Refusal, Shared, Term, ValueType, zero_value,
};
use sqlite_items::at as item;
use std::alloc::Global;

fn is_fixed(term: &Term) -> bool
    ensures { result ≡ spec.is_fixed term.now }
{
    matches!(term, Term::Constant(_, _))
}

fn not_constant(at: u32) -> Refusal
    ensures { result ≡ Refusal.At (record { offset = at; kind = SourceKind.NotConstant }) }
{
    Refusal::at(at, SourceKind::NotConstant)
}

/// A channel that is made with a size.
fn sized(zero: Value, at: u32, size: &Expr) -> Result<Begun, Refusal>
    ensures { Gives (spec.sized zero at (out-Expr size.now)) result }
{
    match size {
        Expr::Value(Value::Number(number)) => Ok(Begun::Make {
            zero,
            capacity: number.bits,
        }),
        _ => Err(not_constant(at)),
    }
}

/// A channel that is made.
fn made(zero: Value, operands: &[Expr], at: u32) -> Result<Begun, Refusal>
    ensures { Gives (spec.made zero operands.now at) result }
{
    match item(operands, 0) {
        Some(size) => sized(zero, at, size),
        None => Ok(Begun::Make { zero, capacity: 0 }),
    }
}

fn made_by(op: Op, operands: &[Expr], at: u32, size: u32) -> Result<Begun, Refusal>
    ensures { Gives (spec.made_by op operands.now at size) result }
{
    match op {
        Op::Make { zero, .. } => made(zero, operands, size),
        _other => Err(not_constant(at)),
    }
}

/// A constant, or a channel that is made.
fn global_of(fixed: bool, at: u32, size: u32, code: Expr) -> Result<Begun, Refusal>
    ensures { Gives (spec.global_of fixed at size (out-Expr code)) result }
{
    match code {
        Expr::Value(value) => {
            if fixed {
                Ok(Begun::Value(value))
            } else {
                Err(not_constant(at))
            }
        }
        Expr::Apply(op, operands) => {
            if fixed {
                Err(not_constant(at))
            } else {
                made_by(op, operands.as_slice(), at, size)
            }
        }
        _other => Err(not_constant(at)),
    }
}

#[tactic(auto, unfolding(crate::specs::Variables::global_in))]
fn global_in(fixed: bool, at: u32, e: &Written, code: Expr) -> Result<Begun, Refusal>
    ensures { Gives (spec.global_in fixed at e.now code) result }
{
    global_of(fixed, at, size_at(e), code)
}

/// What a variable begins with that has the value.
#[tactic(auto, unfolding(crate::specs::Variables::initial_of))]
fn initial_of(wanted: Option<ValueType>, a: Argument, e: &Written) -> Result<Initial, Refusal>
    ensures { Gives (spec.initial_of wanted a e.now) result }
{
    let fixed = is_fixed(&a.term);
    let at = a.at;
    let of = wanted_type(wanted, &a);
    let code = wanted_code(wanted, a)?;
    let global = global_in(fixed, at, e, code)?;
    Ok(Initial { of, global })
}

fn first_at(names: &[Name]) -> u32
    ensures { result ≡ spec.first_at names.now }
{
    match names.first() {
        Some(name) => name.at,
        None => 0,
    }
}

impl Draft {
    fn add_global(&mut self, name: &Name, meaning: Meaning, global: Begun) -> Result<(), NoMemory>
        ensures { OnOk result (self.new ≡ spec.with_global name.now meaning global self.old) }
    {
        add_name(&mut self.names.own, name, meaning)?;
        self.globals.all.push(global)
    }

    fn add_value(&mut self, name: &Name, of: ValueType, global: Begun) -> Result<(), NoMemory>
        ensures { OnOk result (self.new ≡ spec.with_value name.now of global self.old) }
    {
        let number = self.globals.values;
        let meaning = Meaning::Variable(Variable::Global(number), of);
        self.add_global(name, meaning, global)?;
        self.globals.values = next(number)?;
        Ok(())
    }

    fn add_shared(&mut self, of: Shared, name: &Name) -> Result<(), NoMemory>
        ensures { OnOk result (self.new ≡ spec.with_shared of name.now self.old) }
    {
        match of {
            Shared::Mutex => {
                let number = self.globals.mutexes;
                self.add_global(name, Meaning::Mutex(number), Begun::Mutex)?;
                self.globals.mutexes = next(number)?;
            }
            Shared::Group => {
                let number = self.globals.groups;
                self.add_global(name, Meaning::Group(number), Begun::Group)?;
                self.globals.groups = next(number)?;
            }
        }
        Ok(())
    }

    fn share(&mut self, of: Shared, names: &[Name]) -> Result<(), NoMemory>
        ensures { OnOk result (self.new ≡ spec.share of names.now self.old) }
    {
        for name in names {
            self.add_shared(of, name)?;
        }
        Ok(())
    }

    fn zero(&mut self, alloc: Global, of: ValueType, names: &[Name]) -> Result<(), NoMemory>
        ensures { OnOk result (self.new ≡ spec.zero of names.now self.old) }
    {
        for name in names {
            let zero = zero_value(alloc, of)?;
            self.add_value(name, of, Begun::Value(zero))?;
        }
        Ok(())
    }

    #[tactic(auto, unfolding(crate::specs::Variables::begin_given))]
    fn begin_given(
        &mut self,
        alloc: Global,
        wanted: Option<ValueType>,
        names: &[Name],
        values: &[Written],
    ) -> Result<(), Refusal>
        ensures { Turns (spec.begin_given wanted names.now values.now self.old) result self.new }
    {
        let at = first_at(names);
        let count = names.len();
        let of = given(alloc, &self.names, &mut self.marks, true, at, count, values)?;
        self.begin_with(alloc, wanted, names, values, of)
    }

    fn begin_with(
        &mut self,
        alloc: Global,
        wanted: Option<ValueType>,
        names: &[Name],
        values: &[Written],
        of: Given,
    ) -> Result<(), Refusal>
        ensures { Turns (spec.begin_with wanted names.now values.now of self.old) result self.new }
    {
        match of {
            Given::Each(mut arguments) => {
                let mut left = values;
                for name in names {
                    let Some(a) = arguments.take() else {
                        return Ok(());
                    };
                    let [e, rest @ ..] = left else {
                        return Ok(());
                    };
                    let initial = initial_of(wanted, a, e)?;
                    self.add_value(name, initial.of, initial.global)?;
                    left = rest;
                }
                Ok(())
            }
            Given::Whole { at, types, code } => {
                let all = repeated(alloc, wanted, names.len())?;
                fill(alloc, all.as_slice(), Given::Whole { at, types, code })?;
                Err(not_constant(at))
            }
        }
    }

    fn begin(
        &mut self,
        alloc: Global,
        wanted: Option<ValueType>,
        names: &[Name],
        values: &[Written],
    ) -> Result<(), Refusal>
        ensures { Turns (spec.begin wanted names.now values.now self.old) result self.new }
    {
        match wanted {
            Some(of) if values.is_empty() => Ok(self.zero(alloc, of, names)?),
            _ => self.begin_given(alloc, wanted, names, values),
        }
    }

    fn begin_typed(&mut self, alloc: Global, one: &VarSpec) -> Result<(), Refusal>
        ensures { Turns (spec.begin_typed one.now self.old) result self.new }
    {
        let wanted = type_if(&self.names, &mut self.marks, &one.kind)?;
        self.begin(alloc, wanted, one.names.as_slice(), one.values.as_slice())
    }

    /// Variables of a declaration.
    #[tactic(auto, unfolding(crate::specs::Variables::var_spec))]
    pub fn var_spec(&mut self, alloc: Global, one: &VarSpec) -> Result<(), Refusal>
        ensures { Turns (spec.var_spec one.now self.old) result self.new }
    {
        let shared = shared_of(
            &self.names,
            &mut self.marks,
            &one.kind,
            one.values.as_slice(),
        )?;
        match shared {
            Some(of) => Ok(self.share(of, one.names.as_slice())?),
            None => self.begin_typed(alloc, one),
        }
    }
}

fn shared_meant(meaning: &Meaning) -> Option<Shared>
    ensures { result ≡ spec.shared_meant meaning.now }
{
    match meaning {
        Meaning::Shared(of) => Some(*of),
        _ => None,
    }
}

fn shared_named(
    names: &Names,
    marks: &mut Marks,
    form: &TypeForm,
) -> Result<Option<Shared>, Refusal>
    ensures { Checks (spec.shared_named (out-TypeForm form.now) names.now marks.old) result marks.new }
{
    match form {
        TypeForm::Member(first, name) => {
            let meaning = names.member(marks, first, name)?;
            Ok(shared_meant(&meaning))
        }
        _ => Ok(None),
    }
}

/// Whether a type without values is one of mutexes or wait groups.
fn shared_of(
    names: &Names,
    marks: &mut Marks,
    t: &Option<TypeExpr>,
    values: &[Written],
) -> Result<Option<Shared>, Refusal>
    ensures { Checks (spec.shared_of t.now values.now names.now marks.old) result marks.new }
{
    match t {
        Some(t) if values.is_empty() => shared_named(names, marks, &t.form),
        _ => Ok(None),
    }
}
