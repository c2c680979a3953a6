// The top level of a policy file.
ghost use Rattle.std.specs.Prelude.{◌≡◌, Some, codes, option_map};
ghost use Rattle.mb_policy.specs.Policy.{sided_by, sided_of, are_tables as all_tables, if_tables as items_if_tables, rows_of};
ghost use Rattle.toml.specs.Data.{get_member};
ghost use Rattle.toml.specs.View.{view, items_view, table_view};

use toml::{Table, Value};

// Whether rows may name sides, by the file's version.
pub(crate) fn sided(file: &Table) -> Option<bool>
    ensures { result ≡ sided_of (table_view file.now) }
{
    match file.get("version") {
        Some(value) => match value.as_integer() {
            Some(version) => sided_by_version(version),
            None => None,
        },
        None => None,
    }
}

fn sided_by_version(version: i64) -> Option<bool>
    ensures { result ≡ sided_by version }
{
    if version == 1 {
        Some(false)
    } else if version == 2 {
        Some(true)
    } else {
        None
    }
}

// The rows, none where the field isn't there.
pub(crate) fn rows(file: &Table) -> Option<&[Value]>
    ensures { option_map (λ rows. items_view rows.now) result
        ≡ rows_of (get_member (codes "rule") (table_view file.now)) }
{
    match file.get("rule") {
        Some(value) => rows_in(value),
        None => Some(&[]),
    }
}

// The rows in a value.
fn rows_in(value: &Value) -> Option<&[Value]>
    ensures { option_map (λ rows. items_view rows.now) result ≡ rows_of (Some (view value.now)) }
{
    match value.as_array() {
        Some(rows) => if_tables(rows.as_slice()),
        None => None,
    }
}

fn if_tables(rows: &[Value]) -> Option<&[Value]>
    ensures { option_map (λ rows. items_view rows.now) result ≡ items_if_tables (items_view rows.now) }
{
    if are_tables(rows) { Some(rows) } else { None }
}

fn are_tables(rows: &[Value]) -> bool
    ensures { result ≡ all_tables (items_view rows.now) }
{
    for place in 0..rows.len() {
        if !rows[place].is_table() {
            return false;
        }
    }
    true
}
