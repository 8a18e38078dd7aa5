//! Fields of fixed parts, appended.
ghost use Rattle.std.specs.Prelude.{◌≡◌, ◌++◌, OnOk};
ghost use Rattle.fuse_requests.specs.Layout.{field_bytes, fields_text};
ghost use Rattle.fuse_requests.specs.Fields.{field_of, fields_of};

use fuse_head::{append_u32, append_u64};
use io_ports::NoMemory;

/// A field of a body's fixed part: little-endian, of four bytes or of eight.
#[derive(Clone, Copy)]
pub(crate) enum Field {
    Word(u32),
    Long(u64),
}

/// Appends the fields of a fixed part.
pub(crate) fn push_fields(out: &mut Vec<u8>, fields: &[Field]) -> Result<(), NoMemory>
    ensures ok { OnOk result (out.new.items ≡ out.old.items ++ fields_text (fields_of fields.now)) }
{
    for field in fields {
        push_field(out, *field)?;
    }
    Ok(())
}

/// Appends one field.
fn push_field(out: &mut Vec<u8>, field: Field) -> Result<(), NoMemory>
    ensures ok { OnOk result (out.new.items ≡ out.old.items ++ field_bytes (field_of field)) }
{
    match field {
        Field::Word(number) => append_u32(out, number)?,
        Field::Long(number) => append_u64(out, number)?,
    }
    Ok(())
}
