//! The names of meta and counter files.
ghost use Rattle.std.specs.Prelude.{◌≡◌, ◌<◌, IfSome, length, position};
ghost use Rattle.std.specs.List.{list_all};
ghost use Rattle.std.specs.Option.{option_copied};
ghost use Rattle.cov_pods.specs.Names as names;

fn is_digit(c: u8) -> bool
    ensures { result ≡ names.is_digit c }
{
    (b'0'..=b'9').contains(&c)
}

fn is_hash_digit(c: u8) -> bool
    ensures { result ≡ names.is_hash_digit c }
{
    is_digit(c) || (b'a'..=b'f').contains(&c)
}

fn are_hash_digits(bytes: &[u8]) -> bool
    ensures { result ≡ list_all names.is_hash_digit bytes.now }
{
    bytes.iter().all(|c| is_hash_digit(*c))
}

fn is_hash(bytes: &[u8]) -> bool
    ensures { result ≡ names.is_hash bytes.now }
{
    bytes.len() == 32 && are_hash_digits(bytes)
}

fn are_digits(bytes: &[u8]) -> bool
    ensures { result ≡ list_all names.is_digit bytes.now }
{
    bytes.iter().all(|c| is_digit(*c))
}

fn is_number(bytes: &[u8]) -> bool
    ensures { result ≡ names.is_number bytes.now }
{
    !bytes.is_empty() && bytes.len() <= 20 && are_digits(bytes)
}

fn dot_in(bytes: &[u8]) -> Option<usize>
    ensures place { result ≡ position names.is_dot bytes.now }
    ensures within { IfSome result (λ i. i < length bytes.now) }
{
    bytes.iter().position(|c| *c == b'.')
}

/// Two numbers with a dot between them.
fn is_stamp(bytes: &[u8]) -> bool
    ensures { result ≡ names.is_stamp bytes.now }
{
    match dot_in(bytes) {
        None => false,
        Some(i) => is_number(&bytes[..i]) && is_number(&bytes[i + 1..]),
    }
}

/// The hash before a stamp.
fn stamped_hash(rest: &[u8]) -> Option<&[u8]>
    ensures { option_copied result ≡ names.stamped_hash rest.now }
{
    if rest.len() <= 32 {
        return None;
    }
    let (hash, stamp) = rest.split_at(32);
    if is_hash(hash) && stamp[0] == b'.' && is_stamp(&stamp[1..]) {
        Some(hash)
    } else {
        None
    }
}

/// The hash in a meta file's name: `covmeta.` and 32 hexadecimal digits.
pub fn meta_hash(name: &[u8]) -> Option<&[u8]>
    ensures { option_copied result ≡ names.meta_hash name.now }
{
    let hash = name.strip_prefix(b"covmeta.")?;
    if is_hash(hash) { Some(hash) } else { None }
}

/// The hash in a counter file's name: `covcounters.`, 32 hexadecimal digits, a dot, a process, a dot and a time,
/// the last two of 1 to 20 decimal digits.
pub fn counter_hash(name: &[u8]) -> Option<&[u8]>
    ensures { option_copied result ≡ names.counter_hash name.now }
{
    stamped_hash(name.strip_prefix(b"covcounters.")?)
}
