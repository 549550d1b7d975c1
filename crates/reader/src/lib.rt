// The reader of a sheet's lines over lent bytes: the version line, and the twelve others three at a time. Line numbers are counted from `first`, that of the
// line `op=`. Each line's answer is taken apart by `let .. else` and no `?`: document 01 asks for this form ("Places and their forms").
#![tactic(auto)]

ghost use Rattle.std.specs.Prelude.{◌+◌, ◌≡◌};
ghost use Rattle.text.specs.Texts.{text};
ghost use Rattle.lines.specs.Lines.{field_line, unless_taken};
ghost use Rattle.lines.specs.Form.{refusal, read_form};
ghost use Rattle.fields.specs.Sheet.{op_taken, first_lines, size_lines, pad_lines, last_lines, twelve_lines, thirteen_lines};
ghost use Rattle.reader.specs.Reader.{ReadThree};

use fields::{kernel_numbers, padded_layer, sized_layer};
use layer::{Layer, Op, SheetError, SheetRefusal, is_pool, is_transposed, lacks_op};
use lines::line_at;
use text::Items;
use values::{Field, auto_pad_of, axis_of, op_of, rounding_of};

// A line that every operator uses.
const ALWAYS: bool = true;

// The values of three lines and the place of the next line.
type ThreeLines = (Items, Items, Items, usize);

// A line's refusal, with its number.
fn refusal(error: SheetError, line: u32) -> SheetRefusal
    ensures { result ≡ refusal error line }
{
    SheetRefusal { error, line }
}

// The line `op=`, whose operator the version has.
fn read_op(version: u32, s: &[u8], at: usize) -> Result<(Items, usize), SheetError>
    ensures { result ≡ unless_taken (op_taken version) (field_line (text "op=") Field.OpWord s.now at) }
{
    let r = line_at(s, at, b"op=", Field::OpWord, ALWAYS);
    let Ok((word, next)) = r else {
        return Err(r.unwrap_err());
    };
    if lacks_op(version, op_of(word)) {
        return Err(SheetError::Unused);
    }
    Ok((word, next))
}

// op, axes and input.
fn read_first(version: u32, first: u8, s: &[u8], at0: usize) -> Result<ThreeLines, SheetRefusal>
    ensures { ReadThree (first_lines version) first (first + 3) s.now at0 result }
{
    let line = u32::from(first);
    let r = read_op(version, s, at0);
    let Ok((op, at1)) = r else {
        return Err(refusal(r.unwrap_err(), line));
    };
    let r = line_at(s, at1, b"axes=", Field::AxesNumber, ALWAYS);
    let Ok((axes, at2)) = r else {
        return Err(refusal(r.unwrap_err(), line + 1));
    };
    let sizes = Field::NumberList(axes.a as usize + 2);
    let r = line_at(s, at2, b"input=", sizes, ALWAYS);
    let Ok((input, at3)) = r else {
        return Err(refusal(r.unwrap_err(), line + 2));
    };
    Ok((op, axes, input, at3))
}

// kernel, strides and dilations.
fn read_sizes(
    first: u8,
    op: Op,
    axes: u32,
    s: &[u8],
    at3: usize,
) -> Result<ThreeLines, SheetRefusal>
    ensures { ReadThree (size_lines op axes) (first + 3) (first + 6) s.now at3 result }
{
    let line = u32::from(first);
    let count = axes as usize;
    let sizes = Field::NumberList(kernel_numbers(op, axes));
    let r = line_at(s, at3, b"kernel=", sizes, ALWAYS);
    let Ok((kernel, at4)) = r else {
        return Err(refusal(r.unwrap_err(), line + 3));
    };
    let r = line_at(s, at4, b"strides=", Field::NumberList(count), ALWAYS);
    let Ok((strides, at5)) = r else {
        return Err(refusal(r.unwrap_err(), line + 4));
    };
    let r = line_at(s, at5, b"dilations=", Field::NumberList(count), ALWAYS);
    let Ok((dilations, at6)) = r else {
        return Err(refusal(r.unwrap_err(), line + 5));
    };
    Ok((kernel, strides, dilations, at6))
}

// auto_pad, pads_begin and pads_end.
fn read_pads(first: u8, axes: u32, s: &[u8], at6: usize) -> Result<ThreeLines, SheetRefusal>
    ensures { ReadThree (pad_lines axes) (first + 6) (first + 9) s.now at6 result }
{
    let line = u32::from(first);
    let count = axes as usize;
    let r = line_at(s, at6, b"auto_pad=", Field::AutoPadWord, ALWAYS);
    let Ok((mode, at7)) = r else {
        return Err(refusal(r.unwrap_err(), line + 6));
    };
    let r = line_at(s, at7, b"pads_begin=", Field::NumberList(count), ALWAYS);
    let Ok((begin, at8)) = r else {
        return Err(refusal(r.unwrap_err(), line + 7));
    };
    let r = line_at(s, at8, b"pads_end=", Field::NumberList(count), ALWAYS);
    let Ok((end, at9)) = r else {
        return Err(refusal(r.unwrap_err(), line + 8));
    };
    Ok((mode, begin, end, at9))
}

// output_padding, rounding and axis.
fn read_last(
    version: u32,
    first: u8,
    op: Op,
    axes: u32,
    s: &[u8],
    at9: usize,
) -> Result<ThreeLines, SheetRefusal>
    ensures { ReadThree (last_lines version op axes) (first + 9) (first + 12) s.now at9 result }
{
    let line = u32::from(first);
    let list = Field::NumberList(axes as usize);
    let r = line_at(s, at9, b"output_padding=", list, is_transposed(op));
    let Ok((padding, at10)) = r else {
        return Err(refusal(r.unwrap_err(), line + 9));
    };
    let rounding_word = Field::RoundingWord(version);
    let r = line_at(s, at10, b"rounding=", rounding_word, is_pool(op));
    let Ok((rounding, at11)) = r else {
        return Err(refusal(r.unwrap_err(), line + 10));
    };
    let r = line_at(s, at11, b"axis=", Field::AxisDigit, is_pool(op));
    let Ok((axis, at12)) = r else {
        return Err(refusal(r.unwrap_err(), line + 11));
    };
    Ok((padding, rounding, axis, at12))
}

// The layer of a version that the twelve lines from a place on say, or the first bad line.
pub fn read_lines(version: u32, first: u8, s: &[u8], at0: usize) -> Result<Layer, SheetRefusal>
    ensures { result ≡ read_form (twelve_lines version) first s.now at0 }
{
    let r3 = read_first(version, first, s, at0);
    let Ok((word, number, input, at3)) = r3 else {
        return Err(r3.unwrap_err());
    };
    let op = op_of(word);
    let axes = number.a;
    let r6 = read_sizes(first, op, axes, s, at3);
    let Ok((kernel, strides, dilations, at6)) = r6 else {
        return Err(r6.unwrap_err());
    };
    let sized = sized_layer(version, op, axes, input, kernel, strides, dilations);
    let r9 = read_pads(first, axes, s, at6);
    let Ok((mode, begin, end, at9)) = r9 else {
        return Err(r9.unwrap_err());
    };
    let r12 = read_last(version, first, op, axes, s, at9);
    let Ok((padding, rounding, axis, at12)) = r12 else {
        return Err(r12.unwrap_err());
    };
    if at12 != s.len() {
        return Err(refusal(SheetError::Key, u32::from(first) + 12));
    }
    let used = rounding_of(rounding);
    let position = axis_of(axis);
    Ok(padded_layer(
        sized,
        auto_pad_of(mode),
        begin,
        end,
        padding,
        used,
        position,
    ))
}

// The layer that a sheet with a version line says, or the first bad line.
pub fn read_versioned(s: &[u8]) -> Result<Layer, SheetRefusal>
    ensures { result ≡ read_form thirteen_lines 1 s.now 0 }
{
    let r = line_at(s, 0, b"version=", Field::VersionWord, ALWAYS);
    let Ok((_, at)) = r else {
        return Err(refusal(r.unwrap_err(), 1));
    };
    read_lines(14, 2, s, at)
}
