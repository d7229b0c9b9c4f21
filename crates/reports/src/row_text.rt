//! Records in text form.

ghost use Rattle.std.specs.Prelude.{◌≡◌, ◌++◌, OnOk};
ghost use Rattle.std.specs.List.{join_with_byte};
ghost use Rattle.options_spec.specs.declared.options.Form.TheVariants.{Text};
ghost use Rattle.report_spec.specs.Records.{record_bytes};

use crate::record::Record;
use text_spec::NoMemory;

/// Appends the fields with a space between them.
fn put_fields(text: &mut Vec<u8>, row: &Record) -> Result<(), NoMemory>
    ensures { OnOk result (text.new.items ≡ text.old.items ++ join_with_byte 32 row.now) }
{
    let count = row.len();
    if count == 0 {
        return Ok(());
    }
    text.extend_from_slice(row.field(0))?;
    for k in 1..count {
        text.push(b' ')?;
        text.extend_from_slice(row.field(k))?;
    }
    Ok(())
}

/// Appends the record in text form: its fields with a space between them, and a newline.
pub fn put_text(text: &mut Vec<u8>, row: &Record) -> Result<(), NoMemory>
    ensures { OnOk result (text.new.items ≡ text.old.items ++ record_bytes Text row.now) }
{
    put_fields(text, row)?;
    text.push(b'\n')?;
    Ok(())
}
