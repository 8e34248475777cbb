// Rows as text, with commas between the values.

ghost use Rattle.std.specs.Prelude.{◌≡◌, ◌++◌, flat_map, map, IfOk, OnOk, string_bytes};
ghost use Rattle.std.specs.List.{list_any};
ghost use Rattle.series.specs.Csv.{csv_text, field_text, is_comma, row_line, value_text};

use crate::rows::Row;
use std::alloc::{AllocError, Global};

/// The rows of series with these names: a head, and a line for each row. A name with a comma stands between quotes. (No name of a series has a quote or
/// an end of a line.)
pub fn csv_of(alloc: Global, names: &[&str], rows: &[Row]) -> Result<String, AllocError>
    ensures { IfOk result (λ text. string_bytes text
        ≡ csv_text (map (λ name. name.now) names.now) rows.now) }
{
    let mut text = String::new(alloc);
    text.push_str("run")?;
    push_names(&mut text, names)?;
    text.push_str("\n")?;
    push_rows(&mut text, rows)?;
    Ok(text)
}

// Adds names, a comma before each.
fn push_names(text: &mut String, names: &[&str]) -> Result<(), AllocError>
    ensures { OnOk result (string_bytes text.new
        ≡ string_bytes text.old ++ flat_map field_text (map (λ name. name.now) names.now)) }
{
    for name in names {
        push_name(text, name)?;
    }
    Ok(())
}

// Adds a name with a comma before it, between quotes where it has a comma.
fn push_name(text: &mut String, name: &str) -> Result<(), AllocError>
    ensures { OnOk result (string_bytes text.new ≡ string_bytes text.old ++ field_text name.now) }
{
    if has_comma(name) {
        return write!(text, ",\"{name}\"");
    }
    write!(text, ",{name}")
}

// Whether a name has a comma.
fn has_comma(name: &str) -> bool
    ensures { result ≡ list_any is_comma name.now }
{
    name.as_bytes().iter().any(|byte| *byte == b',')
}

// Adds the lines of rows.
fn push_rows(text: &mut String, rows: &[Row]) -> Result<(), AllocError>
    ensures { OnOk result (string_bytes text.new
        ≡ string_bytes text.old ++ flat_map row_line rows.now) }
{
    for row in rows {
        push_row(text, row)?;
    }
    Ok(())
}

// Adds the line of a row.
fn push_row(text: &mut String, row: &Row) -> Result<(), AllocError>
    ensures { OnOk result (string_bytes text.new ≡ string_bytes text.old ++ row_line row.now) }
{
    let run = row.run;
    write!(text, "{run}")?;
    push_values(text, row.values.as_slice())?;
    text.push_str("\n")?;
    Ok(())
}

// Adds values, a comma before each.
fn push_values(text: &mut String, values: &[i64]) -> Result<(), AllocError>
    ensures { OnOk result (string_bytes text.new
        ≡ string_bytes text.old ++ flat_map value_text values.now) }
{
    for value in values {
        write!(text, ",{value}")?;
    }
    Ok(())
}
