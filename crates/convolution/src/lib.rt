// Convolution over lent f32 tensors, by either profile. A running sum runs over the taps that lie inside the input: along each axis over a range of them. Halved
// sums are crate `halved`'s.
#![tactic(auto)]

ghost use Rattle.std.specs.Prelude.{◌≡◌, ◌+◌, ◌*◌, ◌≤◌, ◌<◌, length, IsOk};
ghost use Rattle.shape.specs.Facts.{Grouped};
ghost use Rattle.shape.specs.Volumes.{kernel_volume};
ghost use Rattle.tensor.specs.Table.{tabulate};
ghost use Rattle.sums.specs.declared.Profile.TheVariants.{Running};
ghost use Rattle.sums.specs.Taps.{output_of};
ghost use Rattle.rows.specs.Rows.{Summed};
ghost use Rattle.call.specs.Call.{answer_of, contents_of, WholeOutputs, FiniteOutputs};
ghost use Rattle.call.specs.Fitting.{Fitting};
ghost use Rattle.places.specs.Places.{place_of};
ghost use Rattle.places.specs.Taps.{plane_taps};
ghost use Rattle.convolution.specs.Inside.{LineOf, line_taps, channel_taps, depth_taps, row_taps, span_taps, row_number, row_of, weights_of, DepthInside, RowInside, RowFits, BlockInside, first_output, none_inside, ColumnsInside, PartInside, PartOf};

use call::check_sum;
use halved::with_halved_sums;
use layer::{Layer, Op, Refusal};
use rows::{add_beside, add_taps, start};
use shape::{Shape, input_rows, out_rows};
use sizes::Span;
use sums::Profile;
use taps::{Taps, outputs_inside, position_of, run_from, taps_inside};

// The lent tensors of a call, with the shape that they fit. `transposed` has its own: methods stand in the crate of their type, and these fill by other sums.
#[derive(Clone, Copy)]
struct Tensors<'a> {
    shape: Shape,
    input: &'a [f32],
    kernel: &'a [f32],
    ghost fitting: { Fitting shape input.now kernel.now },
}

// A row of outputs, by its number among all rows: the first plane of its group in the input, its first weight, its depth and row in its plane, and its taps along
// z and y that lie inside the input.
#[derive(Clone, Copy)]
struct Line {
    number: usize,
    plane: usize,
    weight: usize,
    depth: u32,
    row: u32,
    depths: Taps,
    rows: Taps,
}

// A row of outputs with the tensors of its call.
#[derive(Clone, Copy)]
struct OutputRow<'a> {
    tensors: Tensors<'a>,
    line: Line,
    ghost line_of: { LineOf tensors.shape line },
}

// A kernel row: its channel among those of its group, its depth and its row there.
#[derive(Clone, Copy)]
struct KernelRow {
    channel: usize,
    depth: u32,
    row: u32,
}

// A row of the input and the weights of the kernel row over it, as long as their axis says.
#[derive(Clone, Copy)]
struct RowPair<'a> {
    row: &'a [f32],
    weights: &'a [f32],
    x: Span,
    ghost fits: { RowFits x (length row.now) (length weights.now) },
}

// Outputs of a row that follow one another, and how their taps along x are taken. Alike: from number `output` on, each has exactly these taps inside the input.
// Whole: all outputs of the row, tap by tap.
#[derive(Clone, Copy)]
enum Columns {
    Alike { output: u32, taps: Taps },
    Whole,
}

// Outputs of a row, up to `end`, that are taken at a time.
#[derive(Clone, Copy)]
struct Part {
    columns: Columns,
    end: usize,
}

// Row number `number` of all rows of outputs. `transposed` and `halved` decode theirs: over any numbers the products could leave 64 bits, so a public one would ask.
fn line_of(s: Shape, number: usize) -> Line
    requires grouped { Grouped s }
    requires out_bound { number * s.x.out < s.outputs }
    ensures { (result.number ≡ number) × LineOf s result }
{
    let rows = out_rows(s);
    let plane = number / rows;
    let place = number % rows;
    let depth = (place / s.y.out as usize) as u32;
    let row = (place % s.y.out as usize) as u32;
    let depths = taps_inside(s.z, depth);
    let rows_inside = taps_inside(s.y, row);
    Line {
        number,
        plane: plane / s.o * s.i,
        weight: plane % s.channels * s.taps,
        depth,
        row,
        depths,
        rows: rows_inside,
    }
}

// ---- a kernel row over a row of the input, of one axis

impl RowPair<'_> {
    // These taps more for each of the outputs from number `output` on, where all of them lie inside the input: the part of the row from the first of them on.
    fn add_block(&self, output: u32, taps: Taps, out: &mut [f32])
        requires { BlockInside self.now.x output taps (length out.old) }
        ensures { Summed (λ j t. span_taps self.now.x self.now.row.now self.now.weights.now (output + j) (taps.first + t)) taps.count (length out.old) out.old out.new }
    {
        let first = taps.first;
        let end = first + taps.count;
        let from = position_of(self.x, output, first as u32);
        add_taps(
            out,
            &self.row[from..],
            &self.weights[first..end],
            self.x.stride as usize,
            self.x.dilation as usize,
        );
    }

    // Tap k more for each output of a row that it reaches, with a stride of 1.
    fn add_tap(&self, k: u32, out: &mut [f32])
        requires { (self.now.x.stride ≡ 1) × ((k < self.now.x.kernel) × (length out.old ≡ self.now.x.out)) }
        ensures { Summed (λ j t. span_taps self.now.x self.now.row.now self.now.weights.now j (k + t)) 1 (length out.old) out.old out.new }
    {
        let outputs = outputs_inside(self.x, k);
        let first = outputs.first;
        let count = outputs.count;
        if count == 0 {
            return;
        }
        let end = first + count;
        let from = position_of(self.x, first as u32, k);
        let to = from + count;
        add_beside(
            &mut out[first..end],
            &self.row[from..to],
            self.weights[k as usize],
        );
    }

    // All taps more for each output of a row: tap by tap.
    fn add_by_taps(&self, out: &mut [f32])
        requires { (self.now.x.stride ≡ 1) × (length out.old ≡ self.now.x.out) }
        ensures { Summed (span_taps self.now.x self.now.row.now self.now.weights.now) self.now.x.kernel (length out.old) out.old out.new }
    {
        for k in 0..self.x.kernel {
            self.add_tap(k, out);
        }
    }

    // All taps more for each of these outputs: those that are alike side by side, a whole row tap by tap.
    fn add_span(&self, c: Columns, out: &mut [f32])
        requires { ColumnsInside self.now.x c (length out.old) }
        ensures { Summed (λ j. span_taps self.now.x self.now.row.now self.now.weights.now (first_output c + j)) self.now.x.kernel (length out.old) out.old out.new }
    {
        match c {
            Columns::Alike { output, taps } => self.add_block(output, taps, out),
            Columns::Whole => self.add_by_taps(out),
        }
    }
}

// ---- the outputs that are taken at a time

// The taps along x of a kernel row from which on a row of outputs is taken tap by tap, if it has as many outputs and the stride is 1.
const WIDE: u32 = 9;

// The outputs of a row from number p on that are taken at a time: those that have the same taps along x inside the input, by these taps; or, under a wide kernel,
// the whole row, by the outputs that each tap reaches. Both are the same pairs of output and tap.
fn part_from(x: Span, p: u32) -> Part
    requires { p < x.out }
    ensures { PartOf x p result }
{
    let n = x.out;
    if (WIDE <= x.kernel) & (WIDE <= n) & (x.stride == 1) & (p == 0) {
        return Part {
            columns: Columns::Whole,
            end: n as usize,
        };
    }
    let run = run_from(x, p);
    let columns = Columns::Alike {
        output: p,
        taps: run.taps,
    };
    let end = run.end.min(n as usize);
    Part { columns, end }
}

// Whether no tap along x of these outputs lies inside the input.
fn none_inside(c: Columns) -> bool
    ensures { result ≡ none_inside c }
{
    match c {
        Columns::Alike { taps, .. } => taps.count == 0,
        Columns::Whole => false,
    }
}

// What a call's own arguments must meet stays a `requires`: it speaks of them and of the row together.
impl OutputRow<'_> {
    // ---- a kernel row inside the input

    // The number, among all rows of the input, of the one under a kernel row.
    fn row_number(&self, r: KernelRow) -> usize
        requires { RowInside self.now.tensors.shape self.now.line r }
        ensures { result ≡ row_number self.now.tensors.shape self.now.line r }
    {
        let s = self.tensors.shape;
        let f = self.line;
        let z = position_of(s.z, f.depth, r.depth);
        let y = position_of(s.y, f.row, r.row);
        (f.plane + r.channel) * input_rows(s) + (z * s.y.input as usize + y)
    }

    // That row of the input.
    fn row_of(&self, r: KernelRow) -> &[f32]
        requires { RowInside self.now.tensors.shape self.now.line r }
        ensures { result.now ≡ row_of self.now.tensors.shape self.now.tensors.input.now self.now.line r }
    {
        let width = self.tensors.shape.x.input as usize;
        let start = self.row_number(r) * width;
        let end = start + width;
        &self.tensors.input[start..end]
    }

    // The weights of a kernel row.
    fn weights_of(&self, r: KernelRow) -> &[f32]
        requires { RowInside self.now.tensors.shape self.now.line r }
        ensures { result.now ≡ weights_of self.now.tensors.shape self.now.tensors.kernel.now self.now.line r }
    {
        let s = self.tensors.shape;
        let depth = r.channel * s.z.kernel as usize + r.depth as usize;
        let row = depth * s.y.kernel as usize + r.row as usize;
        let taps = s.x.kernel as usize;
        let start = self.line.weight + row * taps;
        let end = start + taps;
        &self.tensors.kernel[start..end]
    }

    // The taps of a kernel row more for each of these outputs.
    fn add_row(&self, r: KernelRow, c: Columns, out: &mut [f32])
        requires row_in { RowInside self.now.tensors.shape self.now.line r }
        requires columns_in { ColumnsInside self.now.tensors.shape.x c (length out.old) }
        ensures { Summed (row_taps self.now.tensors.shape self.now.tensors.input.now self.now.tensors.kernel.now self.now.line r (first_output c)) self.now.tensors.shape.x.kernel (length out.old) out.old out.new }
    {
        let pair = RowPair {
            row: self.row_of(r),
            weights: self.weights_of(r),
            x: self.tensors.shape.x,
        };
        pair.add_span(c, out);
    }

    // ---- all kernel rows inside the input: three loops of one call each. A function that takes the step as a closure would ask for the same invariant, as a law of
    // the closure, at each of its calls.

    // The taps of a kernel depth more for each of these outputs: row by row.
    fn add_rows(&self, channel: usize, depth: u32, c: Columns, out: &mut [f32])
        requires depth_in { DepthInside self.now.tensors.shape self.now.line channel depth }
        requires columns_in { ColumnsInside self.now.tensors.shape.x c (length out.old) }
        ensures { Summed (depth_taps self.now.tensors.shape self.now.tensors.input.now self.now.tensors.kernel.now self.now.line channel depth (first_output c)) (plane_taps self.now.tensors.shape) (length out.old) out.old out.new }
    {
        let first = self.line.rows.first;
        for k in 0..self.line.rows.count {
            let row = (first + k) as u32;
            let r = KernelRow {
                channel,
                depth,
                row,
            };
            self.add_row(r, c, out);
        }
    }

    // The taps of a channel more for each of these outputs: depth by depth.
    fn add_depths(&self, channel: usize, c: Columns, out: &mut [f32])
        requires channel_in { channel < self.now.tensors.shape.i }
        requires columns_in { ColumnsInside self.now.tensors.shape.x c (length out.old) }
        ensures { Summed (channel_taps self.now.tensors.shape self.now.tensors.input.now self.now.tensors.kernel.now self.now.line channel (first_output c)) (kernel_volume self.now.tensors.shape) (length out.old) out.old out.new }
    {
        let first = self.line.depths.first;
        for k in 0..self.line.depths.count {
            self.add_rows(channel, (first + k) as u32, c, out);
        }
    }

    // All taps of each of these outputs: channel by channel.
    fn add_channels(&self, c: Columns, out: &mut [f32])
        requires columns_in { ColumnsInside self.now.tensors.shape.x c (length out.old) }
        ensures { Summed (line_taps self.now.tensors.shape self.now.tensors.input.now self.now.tensors.kernel.now self.now.line.number (first_output c)) self.now.tensors.shape.taps (length out.old) out.old out.new }
    {
        for channel in 0..self.tensors.shape.i {
            self.add_depths(channel, c, out);
        }
    }

    // ---- every output of the row

    // All taps of each of these outputs. No tap lies inside the input where none does along x.
    fn add_part(&self, c: Columns, out: &mut [f32])
        requires part_in { PartInside self.now.tensors.shape.x c (length out.old) }
        ensures { Summed (line_taps self.now.tensors.shape self.now.tensors.input.now self.now.tensors.kernel.now self.now.line.number (first_output c)) self.now.tensors.shape.taps (length out.old) out.old out.new }
    {
        if none_inside(c) {
            return;
        }
        self.add_channels(c, out);
    }

    // All taps of each output of the row. No `for`: where a part ends tells only the part.
    fn add_outputs(&self, out: &mut [f32])
        requires out_len { length out.old ≡ self.now.tensors.shape.x.out }
        ensures { Summed (line_taps self.now.tensors.shape self.now.tensors.input.now self.now.tensors.kernel.now self.now.line.number 0) self.now.tensors.shape.taps (length out.old) out.old out.new }
    {
        let x = self.tensors.shape.x;
        let mut p = 0;
        while p < out.len() {
            let part = part_from(x, p as u32);
            let end = part.end;
            self.add_part(part.columns, &mut out[p..end]);
            p = end;
        }
    }

    // The same. No tap lies inside the input where none does along z or along y.
    fn add_line(&self, out: &mut [f32])
        requires out_len { length out.old ≡ self.now.tensors.shape.x.out }
        ensures { Summed (line_taps self.now.tensors.shape self.now.tensors.input.now self.now.tensors.kernel.now self.now.line.number 0) self.now.tensors.shape.taps (length out.old) out.old out.new }
    {
        if self.line.depths.count == 0 {
            return;
        }
        if self.line.rows.count == 0 {
            return;
        }
        self.add_outputs(out);
    }
}

// ---- every row of outputs

impl Tensors<'_> {
    // The outputs of one row, of number `line` among all rows.
    fn fill_line(&self, line: usize, out: &mut [f32])
        requires out_bound { (line * self.now.shape.x.out + self.now.shape.x.out ≤ self.now.shape.outputs) × (length out.old ≡ self.now.shape.x.out) }
        ensures { out.new ≡ tabulate (λ x. output_of Running (place_of self.now.shape) self.now.shape.taps self.now.input.now self.now.kernel.now (line * self.now.shape.x.out + x)) self.now.shape.x.out }
    {
        start(out, self.kernel[0]);
        let row = OutputRow {
            tensors: *self,
            line: line_of(self.shape, line),
        };
        row.add_line(out);
    }

    // Every output, row by row. No `chunks_mut`: a proof knows no element of the slice after it.
    fn fill(&self, output: &mut [f32])
        requires output_len { length output.old ≡ self.now.shape.outputs }
        ensures { output.new ≡ tabulate (output_of Running (place_of self.now.shape) self.now.shape.taps self.now.input.now self.now.kernel.now) self.now.shape.outputs }
    {
        let width = self.shape.x.out as usize;
        let rows = output.len() / width;
        for line in 0..rows {
            let from = line * width;
            self.fill_line(line, &mut output[from..from + width]);
        }
    }
}

// Convolution with running sums. What it shares with the other calls is `check_sum`; the fill between is its own.
fn with_running_sums(
    layer: Layer,
    input: &[f32],
    kernel: &[f32],
    output: &mut [f32],
) -> Result<(), Refusal>
    ensures answer { result ≡ answer_of Op.Convolution layer input.now kernel.now (length output.old) }
    ensures contents { output.new ≡ contents_of Op.Convolution Running place_of layer input.now kernel.now output.old }
    ensures whole { IsOk result → WholeOutputs Op.Convolution Running place_of layer input.now kernel.now output.new }
    ensures finite { IsOk result → FiniteOutputs output.new }
{
    let shape = check_sum(Op::Convolution, layer, input, kernel, output.len())?;
    let tensors = Tensors {
        shape,
        input,
        kernel,
    };
    tensors.fill(output);
    Ok(())
}

// Convolution by either profile, which is a value, for "the profile is named in the call" (C-17): checks 1 to 9, and only then every output. No call is asked to be valid: each is answered.
pub fn convolution(
    profile: Profile,
    layer: Layer,
    input: &[f32],
    kernel: &[f32],
    output: &mut [f32],
) -> Result<(), Refusal>
    ensures answer { result ≡ answer_of Op.Convolution layer input.now kernel.now (length output.old) }
    ensures contents { output.new ≡ contents_of Op.Convolution profile place_of layer input.now kernel.now output.old }
    ensures whole { IsOk result → WholeOutputs Op.Convolution profile place_of layer input.now kernel.now output.new }
    ensures finite { IsOk result → FiniteOutputs output.new }
{
    match profile {
        Profile::Running => with_running_sums(layer, input, kernel, output),
        Profile::Halved => with_halved_sums(layer, input, kernel, output),
    }
}
