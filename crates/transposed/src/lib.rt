// Transposed convolution over lent f32 tensors.
#![tactic(auto)]

ghost use Rattle.std.specs.Prelude.{◌≡◌, ◌+◌, ◌*◌, ◌≤◌, ◌<◌, length, IsOk};
ghost use Rattle.sizes.specs.Bounds.{SpanLimits};
ghost use Rattle.shape.specs.Facts.{Grouped};
ghost use Rattle.shape.specs.Volumes.{kernel_rows};
ghost use Rattle.tensor.specs.Table.{tabulate};
ghost use Rattle.sums.specs.declared.Profile.TheVariants.{Running};
ghost use Rattle.sums.specs.Taps.{output_of};
ghost use Rattle.rows.specs.Rows.{Summed};
ghost use Rattle.call.specs.Call.{answer_of, contents_of, WholeOutputs, FiniteOutputs};
ghost use Rattle.call.specs.Fitting.{Fitting};
ghost use Rattle.transposed.specs.Transposed.{place_of};
ghost use Rattle.transposed.specs.Rows.{first_tap_of, row_tap, row_taps, channel_taps, line_taps, row_of, Within};

use call::check_sum;
use layer::{Layer, Op, Refusal};
use rows::{add_spread, start};
use shape::{Shape, input_rows, kernel_rows, out_rows, row_tap};
use sizes::{Span, ceil_div};
use taps::direction::Backward;

// The first taps of a row of outputs: their plane of the input and of the kernel, and the row's number in its plane.
#[derive(Clone, Copy)]
struct FirstTap {
    plane: usize,
    weight: usize,
    row: u32,
}

// The lent tensors of a call, with the shape that they fit. `convolution` has its own: methods stand in the crate of their type, and these fill by other sums.
#[derive(Clone, Copy)]
struct Tensors<'a> {
    shape: Shape,
    input: &'a [f32],
    kernel: &'a [f32],
    ghost fitting: { Fitting shape input.now kernel.now },
}

// A row of outputs with the tensors of its call.
#[derive(Clone, Copy)]
struct OutputRow<'a> {
    tensors: Tensors<'a>,
    first: FirstTap,
    ghost within: { Within tensors.shape first },
}

// Tap k of a kernel row more for each output of a row that it reaches: these stand a stride apart, and the input's elements that it reaches follow one another.
fn add_tap(out: &mut [f32], row: &[f32], weights: &[f32], x: Span, k: usize)
    requires limits { SpanLimits x }
    requires weights_len_bound { (length weights.now ≤ 64) × (k < length weights.now) }
    ensures { Summed (λ p j. row_tap row.now weights.now (p + x.begin) x.dilation x.stride (k + j)) 1 (length out.old) out.old out.new }
{
    let begin = x.begin as usize;
    let stride = x.stride as usize;
    let back = k * x.dilation as usize;
    let first = ceil_div(begin.saturating_sub(back), stride);
    let lo = first * stride + back - begin;
    if (row.len() <= first) | (out.len() <= lo) {
        return;
    }
    add_spread(&mut out[lo..], &row[first..], stride, weights[k]);
}

// The taps of one kernel row, for each output of a row.
fn add_taps(out: &mut [f32], row: &[f32], weights: &[f32], x: Span)
    requires limits { SpanLimits x }
    requires weights_len_bound { length weights.now ≤ 64 }
    ensures { Summed (λ p k. row_tap row.now weights.now (p + x.begin) x.dilation x.stride k) (length weights.now) (length out.old) out.old out.new }
{
    for k in 0..weights.len() {
        add_tap(out, row, weights, x, k);
    }
}

// The part of a tensor that is its row number `row`, the rows having `width` elements.
#[tactic(auto, unfolding(crate::specs::Rows::row_of))]
fn row_of(t: &[f32], row: usize, width: usize) -> &[f32]
    requires { row * width + width ≤ length t.now }
    ensures { result.now ≡ row_of t.now row width }
{
    let start = row * width;
    let end = start + width;
    &t[start..end]
}

// The first taps of row number `line` of all rows of outputs.
fn first_tap(s: Shape, line: usize) -> FirstTap
    requires grouped { Grouped s }
    requires out_bound { line * s.x.out < s.outputs }
    ensures { result ≡ first_tap_of s line }
{
    let rows = out_rows(s);
    let plane = line / rows;
    let row = line % rows;
    let channel = plane % s.channels;
    FirstTap {
        plane: plane / s.o * s.i,
        weight: channel / s.o * s.i * s.o + channel % s.o,
        row: row as u32,
    }
}

impl OutputRow<'_> {
    // The taps of kernel row k of channel i more for each output of the row.
    fn add_row(&self, i: usize, k: usize, out: &mut [f32])
        requires row { (i < self.now.tensors.shape.i) × ((k < kernel_rows self.now.tensors.shape) × (length out.old ≡ self.now.tensors.shape.x.out)) }
        ensures { Summed (row_taps self.now.tensors.shape self.now.tensors.input.now self.now.tensors.kernel.now self.now.first i k) self.now.tensors.shape.x.kernel self.now.tensors.shape.x.out out.old out.new }
    {
        let s = self.tensors.shape;
        let f = self.first;
        let tap = row_tap::<Backward>(s, f.row, k as u32);
        let Some(y) = tap else {
            return;
        };
        let row = row_of(
            self.tensors.input,
            (f.plane + i) * input_rows(s) + y,
            s.x.input as usize,
        );
        let weights = row_of(
            self.tensors.kernel,
            (f.weight + i * s.o) * kernel_rows(s) + k,
            s.x.kernel as usize,
        );
        add_taps(out, row, weights, s.x);
    }

    // The taps of channel i more, kernel row by kernel row; no closure takes the step, as in `convolution`.
    fn add_channel(&self, i: usize, out: &mut [f32])
        requires row { (i < self.now.tensors.shape.i) × (length out.old ≡ self.now.tensors.shape.x.out) }
        ensures { Summed (channel_taps self.now.tensors.shape self.now.tensors.input.now self.now.tensors.kernel.now self.now.first i) (kernel_rows self.now.tensors.shape * self.now.tensors.shape.x.kernel) self.now.tensors.shape.x.out out.old out.new }
    {
        for k in 0..kernel_rows(self.tensors.shape) {
            self.add_row(i, k, out);
        }
    }

    // The taps of every channel, channel by channel.
    fn add_channels(&self, out: &mut [f32])
        requires row { length out.old ≡ self.now.tensors.shape.x.out }
        ensures { Summed (line_taps self.now.tensors.shape self.now.tensors.input.now self.now.tensors.kernel.now self.now.first) self.now.tensors.shape.taps self.now.tensors.shape.x.out out.old out.new }
    {
        for i in 0..self.tensors.shape.i {
            self.add_channel(i, out);
        }
    }
}

impl Tensors<'_> {
    // The outputs of one row, of number `line` among all rows.
    fn fill_line(&self, line: usize, out: &mut [f32])
        requires out_bound { (line * self.now.shape.x.out + self.now.shape.x.out ≤ self.now.shape.outputs) × (length out.old ≡ self.now.shape.x.out) }
        ensures { out.new ≡ tabulate (λ x. output_of Running (place_of self.now.shape) self.now.shape.taps self.now.input.now self.now.kernel.now (line * self.now.shape.x.out + x)) self.now.shape.x.out }
    {
        start(out, self.kernel[0]);
        let row = OutputRow {
            tensors: *self,
            first: first_tap(self.shape, line),
        };
        row.add_channels(out);
    }

    // Every output, row by row. No `chunks_mut`: a proof knows no element of the slice after it.
    fn fill(&self, output: &mut [f32])
        requires output_len { length output.old ≡ self.now.shape.outputs }
        ensures { output.new ≡ tabulate (output_of Running (place_of self.now.shape) self.now.shape.taps self.now.input.now self.now.kernel.now) self.now.shape.outputs }
    {
        let width = self.shape.x.out as usize;
        let rows = output.len() / width;
        for line in 0..rows {
            let from = line * width;
            self.fill_line(line, &mut output[from..from + width]);
        }
    }
}

// Transposed convolution: checks 1 to 9, and only then every output. No call is asked to be valid: each is answered.
pub fn transposed(
    layer: Layer,
    input: &[f32],
    kernel: &[f32],
    output: &mut [f32],
) -> Result<(), Refusal>
    ensures answer { result ≡ answer_of Op.Transposed layer input.now kernel.now (length output.old) }
    ensures contents { output.new ≡ contents_of Op.Transposed Running place_of layer input.now kernel.now output.old }
    ensures whole { IsOk result → WholeOutputs Op.Transposed Running place_of layer input.now kernel.now output.new }
    ensures finite { IsOk result → FiniteOutputs output.new }
{
    let shape = check_sum(Op::Transposed, layer, input, kernel, output.len())?;
    let tensors = Tensors {
        shape,
        input,
        kernel,
    };
    tensors.fill(output);
    Ok(())
}
