// JSON values of groups and entries.
ghost use Rattle.std.specs.Prelude.{◌≡◌, IfOk, map};
ghost use Rattle.serde_json.specs.View.{view};
ghost use Rattle.lineage.specs.Groups.{seen};
ghost use Rattle.report_terms.specs.Report.{count};
ghost use Rattle.provenance.specs.Report.{entry_data, group_data};

use lineage::{Group, GroupedEntry};
use serde_json::{Value, json, push};
use std::alloc::{AllocError, Global};

fn number_values(alloc: Global, numbers: &[u32]) -> Result<Vec<Value>, AllocError>
    ensures { IfOk result (λ values. map view values.items ≡ map count numbers.now) }
{
    let mut values = Vec::with_capacity(alloc, numbers.len())?;
    for number in numbers {
        push(&mut values, Value::from(*number))?;
    }
    Ok(values)
}

/// Returns the value of a group: some of its entry numbers, and the number of further ones.
fn group_value(alloc: Global, group: &Group) -> Result<Value, AllocError>
    ensures { IfOk result (λ value. view value ≡ group_data (seen group.now)) }
{
    let given = number_values(alloc, &group.given)?;
    json!(in alloc; {"given": given, "more": (group.more)})
}

/// Returns the values of groups. Returns `AllocError` if out of memory.
pub fn group_values(alloc: Global, groups: &[Group]) -> Result<Vec<Value>, AllocError>
    ensures { IfOk result (λ values. map view values.items ≡ map group_data (map seen groups.now)) }
{
    let mut values = Vec::with_capacity(alloc, groups.len())?;
    for group in groups {
        let value = group_value(alloc, group)?;
        push(&mut values, value)?;
    }
    Ok(values)
}

/// Returns the value of a new entry: its number and the number of its group.
fn entry_value(alloc: Global, entry: &GroupedEntry) -> Result<Value, AllocError>
    ensures { IfOk result (λ value. view value ≡ entry_data entry.now) }
{
    json!(in alloc; {"entry": (entry.number), "group": (entry.group)})
}

/// Returns the values of new entries. Returns `AllocError` if out of memory.
pub fn entry_values(alloc: Global, entries: &[GroupedEntry]) -> Result<Vec<Value>, AllocError>
    ensures { IfOk result (λ values. map view values.items ≡ map entry_data entries.now) }
{
    let mut values = Vec::with_capacity(alloc, entries.len())?;
    for entry in entries {
        let value = entry_value(alloc, entry)?;
        push(&mut values, value)?;
    }
    Ok(values)
}
