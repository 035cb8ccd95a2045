// JSON values of notices.
ghost use Rattle.std.specs.Prelude.{◌≡◌, ◌++◌, IfOk, OnOk, map};
ghost use Rattle.serde_json.specs.View.{view};
ghost use Rattle.report_terms.specs.Report.{notice_data};

use list_terms::Notice;
use serde_json::{Value, json, push};
use std::alloc::{AllocError, Global};

/// Returns the value of a notice: its number, and its line or index.
fn notice_value(alloc: Global, notice: &Notice) -> Result<Value, AllocError>
    ensures { IfOk result (λ value. view value ≡ notice_data notice.now) }
{
    if notice.kind <= 2 {
        json!(in alloc; {"line": (notice.at), "notice": (notice.kind)})
    } else {
        json!(in alloc; {"index": (notice.at), "notice": (notice.kind)})
    }
}

/// Appends the values of notices.
fn push_notices(
    alloc: Global,
    values: &mut Vec<Value>,
    notices: &[Notice],
) -> Result<(), AllocError>
    ensures { OnOk result (map view values.new.items ≡ map view values.old.items ++ map notice_data notices.now) }
{
    for notice in notices {
        let value = notice_value(alloc, notice)?;
        push(values, value)?;
    }
    Ok(())
}

/// Returns the values of a list's notices, followed by those about its files. Returns `AllocError`
/// if out of memory.
pub fn notice_values(
    alloc: Global,
    list: &[Notice],
    files: &[Notice],
) -> Result<Vec<Value>, AllocError>
    ensures { IfOk result (λ values. map view values.items ≡ map notice_data (list.now ++ files.now)) }
{
    let mut values = Vec::new(alloc);
    push_notices(alloc, &mut values, list)?;
    push_notices(alloc, &mut values, files)?;
    Ok(values)
}
