// What a sheet comes to: the sizes of its layer's output, or the refusal, as values and as the text that the program prints.
// That text is at most 80 bytes long: two keys and line ends, and two numbers of at most ten digits or, after the answer 0, five with commas between them.
#![tactic(auto)]

ghost use Rattle.std.specs.Prelude.{◌≡◌, ◌++◌, ◌*◌, ◌≤◌};
ghost use Rattle.layer.specs.Refusals.{sheet_number};
ghost use Rattle.text.specs.Numbers.{decimal};
ghost use Rattle.text.specs.Lines.{show_line};
ghost use Rattle.print.specs.Put.{Put};
ghost use Rattle.report.specs.Output.{output_of};
ghost use Rattle.report.specs.Report.{answer_line, line_line, output_line, sizes_report, report_of};

use fields::{PerAxis, input_list};
use layer::{Layer, Refusal, SheetRefusal};
use lines::put_line;
use shape::judge;
use sheet::read_sheet;
use text::{one_item, part_of};
use values::Field;

// The sizes of an output: images, channels, depths, rows and columns. `tensor::Dimensions` are those of the picker's tensor; `report` stands on no tensor.
#[derive(Clone, Copy)]
pub struct Output {
    pub n: u32,
    pub c: u32,
    pub z: u32,
    pub y: u32,
    pub x: u32,
}

// Checks 1 to 7 of the layer's own operator, and the sizes of the output.
#[tactic(auto, unfolding(crate::specs::Output::output_of))]
pub fn output_sizes(layer: Layer) -> Result<Output, Refusal>
    ensures { result ≡ output_of layer }
{
    let s = judge(layer.op, layer)?;
    Ok(Output {
        n: s.n as u32,
        c: s.channels as u32,
        z: s.z.out,
        y: s.y.out,
        x: s.x.out,
    })
}

// ---- the text that the program prints

// A line with one number.
fn put_number_line(buf: &mut [u8], at: usize, key: &[u8], n: u32) -> usize
    ensures { Put buf.old at (show_line key.now (decimal n)) result buf.new }
{
    put_line(buf, at, key, Field::NumberList(1), one_item(n))
}

// The lines of an accepted layer.
fn put_output(buf: &mut [u8], axes: u32, o: Output) -> usize
    requires { axes ≤ 3 }
    ensures put { Put buf.old 0 (answer_line 0 ++ output_line axes o) result buf.new }
    ensures upper_bound { result ≤ 80 }
{
    let on = PerAxis {
        z: o.z,
        y: o.y,
        x: o.x,
    };
    let sizes = input_list(axes, o.n, o.c, on);
    let next = put_number_line(buf, 0, b"answer=", 0);
    let list = Field::NumberList(axes as usize + 2);
    put_line(buf, next, b"output=", list, sizes)
}

// The lines of a layer that is read.
fn put_layer(buf: &mut [u8], layer: Layer) -> usize
    ensures put { Put buf.old 0 (sizes_report layer.axes (output_of layer)) result buf.new }
    ensures upper_bound { result ≤ 80 }
{
    match output_sizes(layer) {
        Ok(o) => put_output(buf, layer.axes, o),
        Err(refusal) => put_number_line(buf, 0, b"answer=", refusal.number()),
    }
}

// The lines of a sheet that is not read.
fn put_refusal(buf: &mut [u8], refusal: SheetRefusal) -> usize
    ensures put { Put buf.old 0 (answer_line (sheet_number refusal.error) ++ line_line refusal.line) result buf.new }
    ensures upper_bound { result ≤ 80 }
{
    let next = put_number_line(buf, 0, b"answer=", refusal.error.number());
    put_number_line(buf, next, b"line=", refusal.line)
}

// The report of the first 512 bytes as a sheet, from the start of the buffer, as far as it goes; the place after it.
pub fn report(input: &[u8], buf: &mut [u8]) -> usize
    ensures text { Put buf.old 0 (report_of input.now) result buf.new }
    ensures bound { result ≤ 80 }
{
    match read_sheet(part_of(input, 0, 512)) {
        Ok(layer) => put_layer(buf, layer),
        Err(refusal) => put_refusal(buf, refusal),
    }
}
