//! Which packages a report shows.
ghost use Rattle.std.specs.Prelude.{◌≡◌};
ghost use Rattle.std.specs.List.{list_any};
ghost use Rattle.cov_report.specs.Filter.{is_at_or_below, matches, keeps};

use cov_outside::{Sequence, Text};

/// The patterns of `-pkg`; none keep all packages.
///
/// A pattern that ends in `/...` keeps the path before that ending and all paths below it, any other pattern keeps
/// the path that it is.
#[derive(Debug, Drop)]
pub struct Filter {
    pub patterns: Sequence<Text>,
}

/// Whether a path is one at or below another.
fn is_under(path: &[u8], above: &[u8]) -> bool
    ensures { result ≡ is_at_or_below above.now path.now }
{
    match path.strip_prefix(above) {
        None => false,
        Some([]) => true,
        Some([first, ..]) => *first == b'/',
    }
}

fn matches_pattern(pattern: &[u8], path: &[u8]) -> bool
    ensures { result ≡ matches pattern.now path.now }
{
    match pattern.strip_suffix(b"/...") {
        Some(above) => is_under(path, above),
        None => pattern == path,
    }
}

fn matches_any(patterns: &[Text], path: &[u8]) -> bool
    ensures { result ≡ list_any (λ pattern. matches pattern path.now) patterns.now }
{
    patterns
        .iter()
        .any(|pattern| matches_pattern(pattern.bytes(), path))
}

impl Filter {
    /// Whether a package is kept.
    pub fn keeps(&self, path: &[u8]) -> bool
        ensures { result ≡ keeps self.now.patterns path.now }
    {
        self.patterns.is_empty() || matches_any(self.patterns.as_slice(), path)
    }
}
