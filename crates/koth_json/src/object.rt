//! An object of JSON on one line.

ghost use Rattle.std.specs.Prelude.{◌≡◌, ◌++◌, codes, map, OnOk};
ghost use Rattle.koth_json.specs.Objects.{field_of, field_text, further_text, object_line, truth_text, type_field, value_of, value_text};

use crate::key::Key;
use crate::string::put_string;
use itoa::Buffer;
use std::alloc::{AllocError, Allocator};

/// The value of a field.
#[derive(Clone, Copy)]
pub(crate) enum Value<'v> {
    /// A string for these bytes, in which U+FFFD stands for each byte that is no UTF-8.
    Text(&'v [u8]),
    Number(u64),
    Truth(bool),
    /// There is nothing.
    Null,
}

/// A field, by its name.
pub(crate) type Field<'f> = (Key, Value<'f>);

/// Puts the line of an object: what it is, and these fields.
pub(crate) fn put_object<A: Allocator>(
    line: &mut Vec<u8, A>,
    name: &str,
    fields: &[Field<'_>],
) -> Result<(), AllocError>
    ensures { OnOk result (line.new.items ≡ line.old.items
        ++ object_line (type_field name.now) (map field_of fields.now)) }
{
    begin(line, (Key::Type, Value::Text(name.as_bytes())))?;
    end_with(line, fields)
}

/// Begins an object with a field.
pub(crate) fn begin<A: Allocator>(line: &mut Vec<u8, A>, field: Field<'_>) -> Result<(), AllocError>
    ensures { OnOk result (line.new.items ≡ line.old.items ++ (codes "{" ++ field_text (field_of field.entry))) }
{
    line.extend_from_slice(b"{")?;
    put_field(line, field)
}

/// Puts further fields.
#[tactic(auto, unfolding(crate::specs::Objects::further_field))]
pub(crate) fn put_fields<A: Allocator>(
    line: &mut Vec<u8, A>,
    fields: &[Field<'_>],
) -> Result<(), AllocError>
    ensures { OnOk result (line.new.items ≡ line.old.items ++ further_text (map field_of fields.now)) }
{
    let mut rest = fields;
    while let [field, behind @ ..] = rest {
        line.extend_from_slice(b",")?;
        put_field(line, *field)?;
        rest = behind;
    }
    Ok(())
}

/// Puts further fields, and ends an object and its line.
pub(crate) fn end_with<A: Allocator>(
    line: &mut Vec<u8, A>,
    fields: &[Field<'_>],
) -> Result<(), AllocError>
    ensures { OnOk result (line.new.items ≡ line.old.items ++ (further_text (map field_of fields.now) ++ codes "}\n")) }
{
    put_fields(line, fields)?;
    line.extend_from_slice(b"}\n")
}

#[tactic(auto, unfolding(crate::specs::Objects::field_text))]
fn put_field<A: Allocator>(line: &mut Vec<u8, A>, field: Field<'_>) -> Result<(), AllocError>
    ensures { OnOk result (line.new.items ≡ line.old.items ++ field_text (field_of field.entry)) }
{
    put_string(line, field.0.text().as_bytes())?;
    line.extend_from_slice(b":")?;
    put_value(line, field.1)
}

fn put_value<A: Allocator>(line: &mut Vec<u8, A>, value: Value<'_>) -> Result<(), AllocError>
    ensures { OnOk result (line.new.items ≡ line.old.items ++ value_text (value_of value.entry)) }
{
    match value {
        Value::Text(bytes) => put_string(line, bytes),
        Value::Number(number) => line.extend_from_slice(Buffer::new().format(number).as_bytes()),
        Value::Truth(truth) => line.extend_from_slice(truth_text(truth).as_bytes()),
        Value::Null => line.extend_from_slice(b"null"),
    }
}

fn truth_text(truth: bool) -> &'static str
    ensures { result.now ≡ truth_text truth }
{
    if truth { "true" } else { "false" }
}
