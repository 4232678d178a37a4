//! Import paths.
ghost use Rattle.std.specs.Prelude.{◌≡◌, ◌<◌, IfSome, length, position};
ghost use Rattle.go_load.specs.Paths as spec;

use crate::go_mod::is_utf8;

/// One of the packages of the standard library that a program may import.
fn is_standard(path: &[u8]) -> bool
    ensures { result ≡ spec.is_standard path.now }
{
    path == b"fmt".as_slice()
        || path == b"os".as_slice()
        || path == b"strconv".as_slice()
        || path == b"sync".as_slice()
}

fn is_element(name: &[u8]) -> bool
    ensures { result ≡ spec.is_element name.now }
{
    !name.is_empty() && name != b".".as_slice() && name != b"..".as_slice()
}

fn first_slash(bytes: &[u8]) -> Option<usize>
    ensures place { result ≡ position spec.is_slash bytes.now }
    ensures within { IfSome result (λ i. i < length bytes.now) }
{
    bytes.iter().position(|c| *c == b'/')
}

fn are_elements(rest: &[u8]) -> bool
    ensures { result ≡ spec.are_elements rest.now }
{
    let mut rest = rest;
    while let Some(end) = first_slash(rest) {
        if !is_element(&rest[..end]) {
            return false;
        }
        rest = &rest[end + 1..];
    }
    is_element(rest)
}

/// A slash, and elements in UTF-8 with slashes between them.
fn leads_below(rest: &[u8]) -> bool
    ensures { result ≡ spec.leads_below rest.now }
{
    match rest {
        [b'/', elements @ ..] => is_utf8(elements) && are_elements(elements),
        _ => false,
    }
}

fn is_below(module_path: &[u8], path: &[u8]) -> bool
    ensures { result ≡ spec.is_below module_path.now path.now }
{
    match path.strip_prefix(module_path) {
        Some(rest) => leads_below(rest),
        None => false,
    }
}

/// Whether a path is that of a package of the module: the module path, or the module path, a slash and elements in UTF-8 with
/// slashes between them, of which none is empty, `.` or `..`. The names of packages of the standard library mean those.
pub fn is_own(module_path: &[u8], path: &[u8]) -> bool
    ensures { result ≡ spec.is_own module_path.now path.now }
{
    !is_standard(path) && (path == module_path || is_below(module_path, path))
}

/// Whether a path may be imported: it is one of a package of the module, `fmt`, `os`, `strconv` or `sync`.
pub fn is_known(module_path: &[u8], path: &[u8]) -> bool
    ensures { result ≡ spec.is_known module_path.now path.now }
{
    is_standard(path) || is_own(module_path, path)
}
