//! A listing as JSON.

ghost use Rattle.std.specs.Prelude.{◌≡◌, ◌++◌, [], ◌∷◌, map, IfOk, OnOk, OnErr, string_bytes};
ghost use Rattle.std.specs.List.{flat_map};
ghost use Rattle.serde_json.specs.View.{view};
ghost use Rattle.board_lines.specs.Replies.{AppendsPrefix};
ghost use Rattle.board_lines.specs.Json.{number_data, cells, row_data, rows_data, json_text, comma_number, cells_text, next_cells, rows_json, in_pieces};

use crate::digits::{push_ascii, push_decimal, push_text};
use board_rules::Row;
use serde_json::{Value, json};
use std::alloc::{AllocError, Global};

fn push_value(list: &mut Vec<Value>, n: u64) -> Result<(), AllocError>
    ensures { OnOk result (map view list.new.items ≡ map view list.old.items ++ number_data n ∷ []) }
{
    match list.push(Value::from(n)) {
        Ok(()) => Ok(()),
        Err(_) => Err(AllocError),
    }
}

fn push_values(list: &mut Vec<Value>, numbers: &[u64]) -> Result<(), AllocError>
    ensures { OnOk result (map view list.new.items ≡ map view list.old.items ++ map number_data numbers.now) }
{
    for n in numbers {
        push_value(list, *n)?;
    }
    Ok(())
}

fn push_row_values(list: &mut Vec<Value>, row: &Row) -> Result<(), AllocError>
    ensures { OnOk result (map view list.new.items ≡ map view list.old.items ++ map number_data (cells row.now)) }
{
    push_value(list, u64::from(row.vehicle()))?;
    push_value(list, u64::from(row.place()))?;
    push_value(list, u64::from(row.customer()))?;
    push_values(list, row.early())
}

// The list is filled by functions that own no value: a function that owns values drops each of them at each of its exits.
fn row_value(alloc: Global, row: &Row) -> Result<Value, AllocError>
    ensures { IfOk result (λ value. view value ≡ row_data row.now) }
{
    let mut list = Vec::new(alloc);
    push_row_values(&mut list, row)?;
    Ok(Value::Array(list))
}

fn rows_value(alloc: Global, rows: &[Row]) -> Result<Value, AllocError>
    ensures { IfOk result (λ value. view value ≡ rows_data rows.now) }
{
    let mut list = Vec::new(alloc);
    for row in rows {
        list.push(row_value(alloc, row)?)?;
    }
    Ok(Value::Array(list))
}

/// The text of a listing as JSON, compact and without a line end: an object with the one key `rows`, each row a list of its vehicle, its
/// place, its customer and its early values.
pub fn list_json(alloc: Global, rows: &[Row]) -> Result<String, AllocError>
    ensures { IfOk result (λ text. string_bytes text ≡ json_text rows.now) }
{
    let rows = rows_value(alloc, rows)?;
    let whole = json!(in alloc; {"rows": rows})?;
    whole.to_string(alloc)
}

// ---- the same text, appended piece by piece

#[inline(always)]
fn push_comma(out: &mut String, n: u64) -> Result<(), AllocError>
    ensures ok { OnOk result (string_bytes out.new ≡ string_bytes out.old ++ comma_number n) }
    ensures left { OnErr result (AppendsPrefix (string_bytes out.old) (comma_number n) (string_bytes out.new)) }
{
    push_ascii(out, ',')?;
    push_decimal(out, n)
}

fn push_commas(out: &mut String, numbers: &[u64]) -> Result<(), AllocError>
    ensures ok { OnOk result (string_bytes out.new ≡ string_bytes out.old ++ flat_map comma_number numbers.now) }
    ensures left { OnErr result (AppendsPrefix (string_bytes out.old) (flat_map comma_number numbers.now) (string_bytes out.new)) }
{
    for n in numbers {
        push_comma(out, *n)?;
    }
    Ok(())
}

fn push_cells(out: &mut String, row: &Row) -> Result<(), AllocError>
    ensures ok { OnOk result (string_bytes out.new ≡ string_bytes out.old ++ cells_text row.now) }
    ensures left { OnErr result (AppendsPrefix (string_bytes out.old) (cells_text row.now) (string_bytes out.new)) }
{
    push_decimal(out, u64::from(row.vehicle()))?;
    push_comma(out, u64::from(row.place()))?;
    push_comma(out, u64::from(row.customer()))?;
    push_commas(out, row.early())
}

// What stands between the cells of two rows is appended at once: that is a third of the calls for what stands around them.
fn push_more(out: &mut String, rows: &[Row]) -> Result<(), AllocError>
    ensures ok { OnOk result (string_bytes out.new ≡ string_bytes out.old ++ flat_map next_cells rows.now) }
    ensures left { OnErr result (AppendsPrefix (string_bytes out.old) (flat_map next_cells rows.now) (string_bytes out.new)) }
{
    for row in rows {
        push_text(out, "],[")?;
        push_cells(out, row)?;
    }
    Ok(())
}

fn push_rows(out: &mut String, rows: &[Row]) -> Result<(), AllocError>
    ensures ok { OnOk result (string_bytes out.new ≡ string_bytes out.old ++ rows_json rows.now) }
    ensures left { OnErr result (AppendsPrefix (string_bytes out.old) (rows_json rows.now) (string_bytes out.new)) }
{
    let [first, more @ ..] = rows else {
        return Ok(());
    };
    push_ascii(out, '[')?;
    push_cells(out, first)?;
    push_more(out, more)?;
    push_ascii(out, ']')
}

fn push_pieces(out: &mut String, rows: &[Row]) -> Result<(), AllocError>
    ensures ok { OnOk result (string_bytes out.new ≡ string_bytes out.old ++ in_pieces rows.now) }
    ensures left { OnErr result (AppendsPrefix (string_bytes out.old) (in_pieces rows.now) (string_bytes out.new)) }
{
    push_text(out, "{\"rows\":[")?;
    push_rows(out, rows)?;
    push_text(out, "]}")
}

/// Appends the text of a listing as JSON, the same as that of `list_json`, without building a value.
pub fn push_json(out: &mut String, rows: &[Row]) -> Result<(), AllocError>
    ensures ok { OnOk result (string_bytes out.new ≡ string_bytes out.old ++ json_text rows.now) }
    ensures left { OnErr result (AppendsPrefix (string_bytes out.old) (json_text rows.now) (string_bytes out.new)) }
{
    push_pieces(out, rows)
}
