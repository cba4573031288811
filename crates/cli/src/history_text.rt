//! The lines of a history.
ghost use Rattle.std.specs.Prelude.{◌≡◌, ◌++◌, IfOk, OnOk};
ghost use Rattle.cli.specs.Served.{history_lines, row_line};

use capexplain::append_audit_line;
use capstep::Row;
use std::alloc::{AllocError, Global};

// The line of each row, in order.
pub(crate) fn history_lines(alloc: Global, rows: &[Row]) -> Result<Vec<u8>, AllocError>
    ensures { IfOk result (λ text. text.items ≡ history_lines rows.now) }
{
    let mut text = Vec::new(alloc);
    for row in rows {
        add_line(&mut text, row)?;
    }
    Ok(text)
}

fn add_line(text: &mut Vec<u8>, row: &Row) -> Result<(), AllocError>
    ensures { OnOk result (text.new.items ≡ text.old.items ++ row_line row.now) }
{
    append_audit_line(text, row)?;
    text.push(b'\n')?;
    Ok(())
}
