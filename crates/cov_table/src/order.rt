//! The order of units.
ghost use Rattle.std.specs.Prelude.{◌≡◌, []};
ghost use Rattle.cov_table.specs.Key.{text_cmp, place_cmp, key_cmp};
ghost use Rattle.cov_table.specs.Rows.{text_at, row_key};

use crate::row::Row;
use cov_bytes::StringTable;
use std::cmp::Ordering;

/// The text with a number, which each row's has.
pub fn text_of(texts: &StringTable, number: u32) -> &[u8]
    ensures { result.now ≡ text_at texts.now number }
{
    match texts.get(number) {
        Some(text) => text,
        None => &[],
    }
}

/// By their bytes. Equal numbers are equal texts.
pub fn compare_texts(texts: &StringTable, a: u32, b: u32) -> Ordering
    ensures { result ≡ text_cmp (text_at texts.now a) (text_at texts.now b) }
{
    if a == b {
        return Ordering::Equal;
    }
    text_of(texts, a).cmp(text_of(texts, b))
}

/// By start line, end line, start column, end column, then statements.
fn compare_places(a: &Row, b: &Row) -> Ordering
    ensures { result ≡ place_cmp (row_key [] a.now) (row_key [] b.now) }
{
    if a.start_line != b.start_line {
        return a.start_line.cmp(&b.start_line);
    }
    if a.end_line != b.end_line {
        return a.end_line.cmp(&b.end_line);
    }
    if a.start_column != b.start_column {
        return a.start_column.cmp(&b.start_column);
    }
    if a.end_column != b.end_column {
        return a.end_column.cmp(&b.end_column);
    }
    a.statements.cmp(&b.statements)
}

/// By package path, file, places and statements, then function and literal flag. The first difference decides.
pub fn compare(texts: &StringTable, a: &Row, b: &Row) -> Ordering
    ensures { result ≡ key_cmp (row_key texts.now a.now) (row_key texts.now b.now) }
{
    let by_package = compare_texts(texts, a.package_path, b.package_path);
    if by_package != Ordering::Equal {
        return by_package;
    }
    let by_file = compare_texts(texts, a.file, b.file);
    if by_file != Ordering::Equal {
        return by_file;
    }
    let by_places = compare_places(a, b);
    if by_places != Ordering::Equal {
        return by_places;
    }
    let by_function = compare_texts(texts, a.function, b.function);
    if by_function != Ordering::Equal {
        return by_function;
    }
    a.literal.cmp(&b.literal)
}
