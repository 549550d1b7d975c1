// The writer of a layer's sheet into a lent buffer.
#![tactic(auto)]

ghost use Rattle.std.specs.Prelude.{◌≡◌, length, drop};
ghost use Rattle.std.specs.Fn.{FnReturnsAt};
ghost use Rattle.text.specs.Lines.{show_line};
ghost use Rattle.print.specs.Put.{Put};
ghost use Rattle.values.specs.Values.{show_field};
ghost use Rattle.lines.specs.Form.{layer, show_form};
ghost use Rattle.fields.specs.Layers.{axis_list};
ghost use Rattle.fields.specs.Sheet.{first_lines, size_lines, pad_lines, last_lines, sheet_values, version_line, show_sheet};
ghost use Rattle.faults.specs.Faults.{fault_of};
ghost use Rattle.writer.specs.Writer.{write_sheet, buffer_after};

use faults::fault_of;
use fields::{PerAxis, axis_list, input_list, kernel_list, kernel_numbers};
use layer::{Axis, Layer, Op, SheetError, SheetRefusal};
use lines::put_line;
use text::one_item;
use values::{Field, auto_pad_items, axis_items, op_items, rounding_items};

// ---- the lines

// A list with one number for each axis: a field of the axes.
fn put_axes<F: Fn(&Axis) -> u32>(
    buf: &mut [u8],
    at: usize,
    key: &[u8],
    l: &Layer,
    field: F,
) -> usize
    requires { F.IsAlwaysCallable field }
    ensures { (z : _) × (y : _) × (x : _) × FnReturnsAt F.Fn field l.now.z z × FnReturnsAt F.Fn field l.now.y y × FnReturnsAt F.Fn field l.now.x x
        × Put buf.old at (show_line key.now (show_field (Field.NumberList l.now.axes) (axis_list l.now.axes z y x))) result buf.new }
{
    let on = PerAxis {
        z: field(&l.z),
        y: field(&l.y),
        x: field(&l.x),
    };
    let list = Field::NumberList(l.axes as usize);
    put_line(buf, at, key, list, axis_list(l.axes, on))
}

// The version line, which a sheet of the default version does not have.
#[tactic(auto, using(crate::proofs::WriteLaws::no_version_line))]
fn put_version(buf: &mut [u8], at: usize, version: u32) -> usize
    ensures { Put buf.old at (version_line version) result buf.new }
{
    if version == Layer::VERSION {
        return at;
    }
    put_line(buf, at, b"version=", Field::VersionWord, one_item(0))
}

// The lines op, axes and input.
fn put_first(buf: &mut [u8], at: usize, l: &Layer) -> usize
    ensures { Put buf.old at (show_form (first_lines l.now.version λ op axes input. layer l.now) (sheet_values l.now)) result buf.new }
{
    let on = PerAxis {
        z: l.z.input,
        y: l.y.input,
        x: l.x.input,
    };
    let input = input_list(l.axes, l.n, l.c, on);
    let list = Field::NumberList(l.axes as usize + 2);
    let at1 = put_line(buf, at, b"op=", Field::OpWord, op_items(l.op));
    let at2 = put_line(buf, at1, b"axes=", Field::AxesNumber, one_item(l.axes));
    put_line(buf, at2, b"input=", list, input)
}

// The lines kernel, strides and dilations.
fn put_sizes(buf: &mut [u8], at: usize, l: &Layer) -> usize
    ensures { Put buf.old at (show_form (size_lines l.now.op l.now.axes λ kernel strides dilations. layer l.now) (drop 3 (sheet_values l.now))) result buf.new }
{
    let list = Field::NumberList(kernel_numbers(l.op, l.axes));
    let at4 = put_line(buf, at, b"kernel=", list, kernel_list(l));
    let at5 = put_axes(buf, at4, b"strides=", l, |a| a.stride);
    put_axes(buf, at5, b"dilations=", l, |a| a.dilation)
}

// The lines auto_pad, pads_begin and pads_end.
fn put_pads(buf: &mut [u8], at: usize, l: &Layer) -> usize
    ensures { Put buf.old at (show_form (pad_lines l.now.axes λ mode begin end. layer l.now) (drop 6 (sheet_values l.now))) result buf.new }
{
    let word = auto_pad_items(l.auto_pad);
    let at7 = put_line(buf, at, b"auto_pad=", Field::AutoPadWord, word);
    let at8 = put_axes(buf, at7, b"pads_begin=", l, |a| a.pad_begin);
    put_axes(buf, at8, b"pads_end=", l, |a| a.pad_end)
}

// The lines output_padding, rounding and axis.
fn put_last(buf: &mut [u8], at: usize, l: &Layer) -> usize
    ensures { Put buf.old at (show_form (last_lines l.now.version l.now.op l.now.axes λ padding rounding axis. layer l.now) (drop 9 (sheet_values l.now))) result buf.new }
{
    let word = rounding_items(l.rounding);
    let at10 = put_axes(buf, at, b"output_padding=", l, |a| a.output_padding);
    let at11 = put_line(
        buf,
        at10,
        b"rounding=",
        Field::RoundingWord(l.version),
        word,
    );
    put_line(buf, at11, b"axis=", Field::AxisDigit, axis_items(l.axis))
}

// The sheet of a layer, from a place on, after its version line by threes: functions that are called one after another share the stack.
fn put_sheet(buf: &mut [u8], at: usize, l: &Layer) -> usize
    ensures { Put buf.old at (show_sheet l.now) result buf.new }
{
    let at0 = put_version(buf, at, l.version);
    let at3 = put_first(buf, at0, l);
    let at6 = put_sizes(buf, at3, l);
    let at9 = put_pads(buf, at6, l);
    put_last(buf, at9, l)
}

// ---- the writer

// The sheet from the buffer's start, and its length; or a refusal with the buffer as it was. The first pass, over a buffer of one byte, tells the length, so that
// a refusal writes nothing.
pub fn write_lines(layer: Layer, buf: &mut [u8]) -> Result<usize, SheetRefusal>
    ensures answer { result ≡ write_sheet layer (length buf.old) }
    ensures contents { buf.new ≡ buffer_after layer buf.old }
{
    fault_of(layer)?;
    let size = put_sheet(&mut [0u8], 0, &layer);
    if buf.len() < size {
        return Err(SheetRefusal {
            error: SheetError::Room,
            line: 0,
        });
    }
    put_sheet(buf, 0, &layer);
    Ok(size)
}
