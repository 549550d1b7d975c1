// One line of a sheet, read from lent bytes or put into a lent buffer.
#![tactic(auto)]

ghost use Rattle.std.specs.Prelude.{◌≡◌};
ghost use Rattle.text.specs.Lines.{show_line};
ghost use Rattle.print.specs.Put.{Put};
ghost use Rattle.values.specs.Values.{show_field};
ghost use Rattle.lines.specs.Lines.{field_line, unless_taken, if_used};

use layer::SheetError;
use print::{put_byte, put_text};
use text::{Items, part_of, read_line};
use values::{Field, is_default_value, put_value, unread_error, value_of};

// A line with its key and a value of its field: its value and the place of the next line.
fn field_line(s: &[u8], at: usize, key: &[u8], field: Field) -> Result<(Items, usize), SheetError>
    ensures { result ≡ field_line key.now field s.now at }
{
    let line = read_line(s, at, key).ok_or(SheetError::Key)?;
    let value = part_of(s, line.start, line.end);
    let items = value_of(value, field).ok_or(unread_error(field))?;
    Ok((items, line.next))
}

// The line at a place, whose value is used or at its default.
pub fn line_at(
    s: &[u8],
    at: usize,
    key: &[u8],
    field: Field,
    used: bool,
) -> Result<(Items, usize), SheetError>
    ensures { result ≡ unless_taken (if_used used) (field_line key.now field s.now at) }
{
    let (items, next) = field_line(s, at, key, field)?;
    if used || is_default_value(items) {
        return Ok((items, next));
    }
    Err(SheetError::Unused)
}

// The text of a line, from a place on.
pub fn put_line(buf: &mut [u8], at: usize, key: &[u8], field: Field, items: Items) -> usize
    ensures { Put buf.old at (show_line key.now (show_field field items)) result buf.new }
{
    let value = put_text(buf, at, key);
    let end = put_value(buf, value, field, items);
    put_byte(buf, end, b'\n')
}
