//! Members of another package.
use crate::checking::Row;
use crate::loading::agrees;
use go_ast::SourceKind::{ConstRange, NotConstant, NotExported, Undeclared, WrongCount, WrongType};
use std::fmt::Write;
use std::test::Fail;

const PACKAGE_A: (&str, &str) = (
    "m/a/a.go",
    "package a\n\nimport \"sync\"\n\nconst Limit = 300\n\nconst limit = 300\n\nvar Count int\n\nvar Text string\n\n\
     var count int\n\nvar Mu sync.Mutex\n\nfunc Add(n int) int { return n + limit }\n\nfunc add() { count++; Mu.Lock() }\n\n\
     func main(n int) {}\n",
);

/// Statements of a `main` that imports the package `a`.
const MEMBERS: [Row; 27] = [
    ("_ = a.Limit + a.Count", None),
    ("a.Count = 1; a.Count++; a.Count += a.Add(2)", None),
    ("a.Add(1); go a.Add(2); defer a.Add(3)", None),
    ("const k = a.Limit + 1; _ = k", None),
    ("var x string = a.Text; _ = x", None),
    ("_ = a.Limit; { a := 1; _ = a }", None),
    ("_ = a.@limit", Some(NotExported)),
    ("_ = a.@count", Some(NotExported)),
    ("a.@count = 1", Some(NotExported)),
    ("a.@add()", Some(NotExported)),
    ("var x a.@count", Some(NotExported)),
    ("a.@main(1)", Some(NotExported)),
    ("_ = a.@nope", Some(Undeclared)),
    ("_ = a.@Nope", Some(Undeclared)),
    ("a.@Nope()", Some(Undeclared)),
    ("_ = @Limit", Some(Undeclared)),
    ("_ = @a", Some(WrongType)),
    ("_ = @a.Add", Some(WrongType)),
    ("_ = @a.Mu", Some(WrongType)),
    ("@a.Limit = 1", Some(WrongType)),
    ("@a.Add = 1", Some(WrongType)),
    ("a.Count = @a.Text", Some(WrongType)),
    ("a.Add(@a.Text)", Some(WrongType)),
    ("var x @a.Count", Some(WrongType)),
    ("@a.Add()", Some(WrongCount)),
    ("const k int8 = @a.Limit", Some(ConstRange)),
    ("const k = @a.Count", Some(NotConstant)),
];

#[test]
fn members_of_packages(rt: HostRuntime) -> Result<(), Fail> {
    let mut wrong = String::new(rt.alloc());
    for (row, kind) in &MEMBERS {
        let mut text = String::new(rt.alloc());
        write!(
            text,
            "package main\n\nimport \"e.org/m/a\"\n\nfunc main() {{\n\t{row}\n}}\n"
        )?;
        if !agrees(
            rt.alloc(),
            &[("m/main.go", text.as_str()), PACKAGE_A],
            *kind,
        )? {
            writeln!(wrong, "{row}")?;
        }
    }
    assert_eq!(rt; wrong.as_str(), "");
    Ok(())
}
