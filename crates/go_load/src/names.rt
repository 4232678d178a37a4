//! The names of source files.
ghost use Rattle.std.specs.Prelude.{◌≡◌};
ghost use Rattle.go_load.specs.Names as spec;

/// Whether a file of a package's directory is read: its name ends in `.go`, doesn't end in `_test.go`, and doesn't begin with
/// `_` or `.`.
pub fn is_source_name(name: &[u8]) -> bool
    ensures { result ≡ spec.is_source_name name.now }
{
    name.ends_with(b".go")
        && !name.ends_with(b"_test.go")
        && !name.starts_with(b"_")
        && !name.starts_with(b".")
}
