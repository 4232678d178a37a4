//! The signatures of a package's functions, and what its names mean while constants and variables are checked.
ghost use Rattle.std.specs.Prelude.{◌≡◌, ◌++◌, Ok, IfOk, OnOk};
ghost use Rattle.go_types.specs.Checking.{Gives};
ghost use Rattle.go_types.specs.Statements as statements;
ghost use Rattle.go_packages.specs.Outlines as spec;

use crate::imports::{FileImport, enter};
use crate::lower::{is_blank, type_if};
use go_ast::{Decl, Func, Name, NoMemory, Param, SourceFile, SourceKind, TypeExpr, VarSpec};
use go_meaning::Variable;
use go_types::{
    Basic, Binding, Callee, Declared, Fault, Lifo, Marks, Meaning, Names, Placed, Refusal,
    Signature, ValueType, type_of,
};
use sqlite_items::Items;
use std::alloc::Global;

/// What is known of a package before its constants and variables.
#[derive(Drop)]
pub struct Outline {
    /// No name of the package is a type; its signatures stand behind those of the packages before.
    pub names: Names,
    /// What the package's functions and variables mean.
    pub own: Lifo<Binding>,
    /// The first fault of a signature.
    pub fault: Option<Placed>,
}

/// Declares a name in a package; `_` declares nothing.
pub fn add_name(own: &mut Lifo<Binding>, name: &Name, meaning: Meaning) -> Result<(), NoMemory>
    ensures { OnOk result (own.new ≡ spec.with_name name.now meaning own.old) }
{
    if is_blank(name.text.bytes()) {
        return Ok(());
    }
    own.push(Binding {
        name: name.text.clone()?,
        meaning,
    })
}

/// The names of a package, of which none is a type.
pub fn no_types(alloc: Global, declared: &[Declared]) -> Result<Lifo<Binding>, NoMemory>
    ensures { IfOk result (λ bs. bs ≡ spec.no_types declared.now) }
{
    let mut all = Lifo::new(alloc);
    for one in declared {
        if !one.is_import && !is_blank(one.name.bytes()) {
            all.push(Binding {
                name: one.name.clone()?,
                meaning: Meaning::Nil,
            })?;
        }
    }
    Ok(all)
}

fn no_marks(alloc: Global) -> Marks
    ensures { result ≡ spec.no_marks }
{
    Marks {
        read: Items::new(alloc),
        used: Items::new(alloc),
    }
}

fn type_written(alloc: Global, t: &TypeExpr, names: &Names) -> Result<ValueType, Refusal>
    ensures { Gives (spec.type_written t.now names.now) result }
{
    let mut marks = no_marks(alloc);
    type_of(names, &mut marks, t)
}

fn param_types(alloc: Global, params: &[Param], names: &Names) -> Result<Items<ValueType>, Refusal>
    ensures { Gives (spec.param_types params.now names.now) result }
{
    let mut all = Items::new(alloc);
    for param in params {
        let of = type_written(alloc, &param.kind, names)?;
        all.push(of)?;
    }
    Ok(all)
}

fn result_types(
    alloc: Global,
    results: &[TypeExpr],
    names: &Names,
) -> Result<Items<ValueType>, Refusal>
    ensures { Gives (spec.result_types results.now names.now) result }
{
    let mut all = Items::new(alloc);
    for one in results {
        let of = type_written(alloc, one, names)?;
        all.push(of)?;
    }
    Ok(all)
}

fn is_main(name: &[u8]) -> bool
    ensures { result ≡ spec.is_main name.now }
{
    name == b"main".as_slice()
}

fn main_fits(root: bool, func: &Func) -> Result<(), Refusal>
    ensures { Gives (spec.main_fits root func.now) result }
{
    if root
        && is_main(func.name.text.bytes())
        && (func.params.len() > 0 || func.results.len() > 0)
    {
        return Err(Refusal::at(func.name.at, SourceKind::BadName));
    }
    Ok(())
}

/// The types of a function.
#[tactic(auto, unfolding(crate::specs::Outlines::signature))]
fn signature(alloc: Global, root: bool, func: &Func, names: &Names) -> Result<Signature, Refusal>
    ensures { Gives (spec.signature root func.now names.now) result }
{
    main_fits(root, func)?;
    let params = param_types(alloc, func.params.as_slice(), names)?;
    let results = result_types(alloc, func.results.as_slice(), names)?;
    Ok(Signature { params, results })
}

/// The type that is written, or `int`.
fn type_or_int(alloc: Global, t: &Option<TypeExpr>, names: &Names) -> Result<ValueType, NoMemory>
    ensures { IfOk result (λ u. u ≡ spec.type_or_int (statements.type_if t.now names.now spec.no_marks)) }
{
    let mut marks = no_marks(alloc);
    match type_if(names, &mut marks, t) {
        Ok(Some(of)) => Ok(of),
        Ok(None) | Err(Refusal::At(_)) => Ok(ValueType::basic(Basic::Int)),
        Err(Refusal::NoMemory) => Err(std::alloc::AllocError),
    }
}

impl Outline {
    fn add_function(&mut self, name: &Name, signature: Signature) -> Result<(), NoMemory>
        ensures { OnOk result (self.new ≡ spec.with_function name.now signature self.old) }
    {
        let number = self.names.signatures.len() as u64;
        add_name(
            &mut self.own,
            name,
            Meaning::Callee(Callee::Function(number)),
        )?;
        self.names.signatures.push(signature)
    }

    fn add_fault(&mut self, file: u64, fault: Fault)
        ensures { self.new ≡ spec.with_fault file fault self.old }
    {
        if self.fault.is_none() {
            self.fault = Some(Placed { file, fault });
        }
    }

    /// Adds a function of a file.
    fn add_func(
        &mut self,
        alloc: Global,
        root: bool,
        file: u64,
        func: &Func,
    ) -> Result<(), NoMemory>
        ensures { OnOk result (self.new ≡ spec.with_signature file func.now.name (spec.signature root func.now self.old.names) self.old) }
    {
        match signature(alloc, root, func, &self.names) {
            Ok(signature) => self.add_function(&func.name, signature),
            Err(Refusal::At(fault)) => {
                let none = Signature {
                    params: Items::new(alloc),
                    results: Items::new(alloc),
                };
                self.add_function(&func.name, none)?;
                self.add_fault(file, fault);
                Ok(())
            }
            Err(Refusal::NoMemory) => Err(std::alloc::AllocError),
        }
    }

    fn add_variables(&mut self, of: ValueType, names: &[Name]) -> Result<(), NoMemory>
        ensures { OnOk result (self.new ≡ spec.with_variables of names.now self.old) }
    {
        for name in names {
            let meaning = Meaning::Variable(Variable::Global(0), of);
            add_name(&mut self.own, name, meaning)?;
        }
        Ok(())
    }

    #[tactic(auto, unfolding(crate::specs::Outlines::with_spec))]
    fn add_spec(&mut self, alloc: Global, one: &VarSpec) -> Result<(), NoMemory>
        ensures { OnOk result (self.new ≡ spec.with_spec one.now self.old) }
    {
        let of = type_or_int(alloc, &one.kind, &self.names)?;
        self.add_variables(of, one.names.as_slice())
    }

    fn add_specs(&mut self, alloc: Global, specs: &[VarSpec]) -> Result<(), NoMemory>
        ensures { OnOk result (self.new ≡ spec.with_specs specs.now self.old) }
    {
        for one in specs {
            self.add_spec(alloc, one)?;
        }
        Ok(())
    }

    fn add_decl(
        &mut self,
        alloc: Global,
        root: bool,
        file: u64,
        decl: &Decl,
    ) -> Result<(), NoMemory>
        ensures { OnOk result (self.new ≡ spec.with_decl root file decl.now self.old) }
    {
        match decl {
            Decl::Const(_) => Ok(()),
            Decl::Var(specs) => self.add_specs(alloc, specs.as_slice()),
            Decl::Func(func) => self.add_func(alloc, root, file, func),
        }
    }

    fn add_decls(
        &mut self,
        alloc: Global,
        root: bool,
        file: u64,
        decls: &[Decl],
    ) -> Result<(), NoMemory>
        ensures { OnOk result (self.new ≡ spec.with_decls root file decls.now self.old) }
    {
        for decl in decls {
            self.add_decl(alloc, root, file, decl)?;
        }
        Ok(())
    }

    /// Adds what the files of a package declare.
    pub fn add_files(
        &mut self,
        alloc: Global,
        root: bool,
        imports: &[FileImport],
        files: &[SourceFile],
    ) -> Result<(), NoMemory>
        ensures { OnOk result (self.new ≡ spec.with_files root imports.now 0 files.now self.old) }
    {
        for (number, file) in files.iter().enumerate() {
            enter(&mut self.names, imports, number as u64)?;
            self.add_decls(alloc, root, number as u64, file.tree.decls.as_slice())?;
        }
        Ok(())
    }
}
