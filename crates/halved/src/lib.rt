// Convolution with halved sums (C-17): each output by itself, a run of its taps by the two parts of the run.
#![tactic(auto)]

ghost use Rattle.std.specs.Prelude.{◌≡◌, ◌+◌, ◌≤◌, ◌<◌, length, IsOk};
ghost use Rattle.shape.specs.Facts.{Grouped};
ghost use Rattle.tensor.specs.Table.{plus_zero, tabulate};
ghost use Rattle.sums.specs.declared.Profile.TheVariants.{Halved};
ghost use Rattle.sums.specs.Taps.{add_tap, halved, output_of};
ghost use Rattle.call.specs.Call.{answer_of, contents_of, WholeOutputs, FiniteOutputs};
ghost use Rattle.call.specs.Fitting.{Fitting};
ghost use Rattle.places.specs.Places.{place_of};
ghost use Rattle.halved.specs.Outputs.{output_taps, output_at, Held};

use call::check_sum;
use layer::{Layer, Op, Refusal};
use shape::{Shape, out_rows};
use sizes::Span;
use sums::add_product;
use taps::forward;

// An output, which goes through the recursion beside both tensors: a struct of all three would be larger in each of its frames. The axes, its position along each, the first plane of its group in the input and its first weight.
#[derive(Clone, Copy)]
struct Output {
    z: Span,
    y: Span,
    x: Span,
    depth: u32,
    row: u32,
    column: u32,
    plane: usize,
    weight: usize,
}

// Output number j of all outputs.
#[tactic(auto, using(crate::proofs::Outputs::row_bounds))]
fn output_at(s: Shape, j: usize) -> Output
    requires { Grouped s × (j < s.outputs) }
    ensures { result ≡ output_at s j }
{
    let z = s.z;
    let y = s.y;
    let x = s.x;
    let rows = out_rows(s);
    let line = j / x.out as usize;
    let plane = line / rows;
    let place = line % rows;
    Output {
        z,
        y,
        x,
        depth: (place / y.out as usize) as u32,
        row: (place % y.out as usize) as u32,
        column: (j % x.out as usize) as u32,
        plane: plane / s.o * s.i,
        weight: plane % s.channels * s.taps,
    }
}

// A single tap is its product added to +0; outside the input it is +0, and no product is formed.
fn single(input: &[f32], kernel: &[f32], o: Output, t: usize) -> f32
    requires { Held o (t + 1) (length input.now) (length kernel.now) }
    ensures { result ≡ add_tap plus_zero (output_taps input.now kernel.now o t) }
{
    let tap = t as u32;
    let row = tap / o.x.kernel;
    let depth = row / o.y.kernel;
    let channel = depth / o.z.kernel;
    let z = forward(o.z, o.depth, depth % o.z.kernel);
    let Some(iz) = z else {
        return 0.0;
    };
    let y = forward(o.y, o.row, row % o.y.kernel);
    let Some(iy) = y else {
        return 0.0;
    };
    let x = forward(o.x, o.column, tap % o.x.kernel);
    let Some(ix) = x else {
        return 0.0;
    };
    let plane = (o.plane + channel as usize) * o.z.input as usize + iz;
    let place = (plane * o.y.input as usize + iy) * o.x.input as usize + ix;
    let weight = o.weight + t;
    add_product(0.0, input[place], kernel[weight])
}

// The sum of `count` taps from number `first` on: of a single tap, or of the two parts of the run, the first having the larger half.
fn halved_sum(input: &[f32], kernel: &[f32], o: Output, first: usize, count: usize) -> f32
    requires count_1 { 1 ≤ count }
    requires held { Held o (first + count) (length input.now) (length kernel.now) }
    ensures { result ≡ halved (output_taps input.now kernel.now o) first count }
{
    if count < 2 {
        return single(input, kernel, o, first);
    }
    let second = count / 2;
    let larger = count - second;
    let a = halved_sum(input, kernel, o, first, larger);
    let b = halved_sum(input, kernel, o, first + larger, second);
    a + b
}

// Every output, one after another.
#[tactic(auto, using(crate::proofs::Outputs::taps_1))]
fn fill(s: Shape, input: &[f32], kernel: &[f32], output: &mut [f32])
    requires fitting { Fitting s input.now kernel.now }
    requires output_len { length output.old ≡ s.outputs }
    ensures { output.new ≡ tabulate (output_of Halved (place_of s) s.taps input.now kernel.now) s.outputs }
{
    for (j, out) in output.iter_mut().enumerate() {
        *out = halved_sum(input, kernel, output_at(s, j), 0, s.taps);
    }
}

// Convolution with halved sums: checks 1 to 9, and only then every output.
pub fn with_halved_sums(
    layer: Layer,
    input: &[f32],
    kernel: &[f32],
    output: &mut [f32],
) -> Result<(), Refusal>
    ensures answer { result ≡ answer_of Op.Convolution layer input.now kernel.now (length output.old) }
    ensures contents { output.new ≡ contents_of Op.Convolution Halved place_of layer input.now kernel.now output.old }
    ensures whole { IsOk result → WholeOutputs Op.Convolution Halved place_of layer input.now kernel.now output.new }
    ensures finite { IsOk result → FiniteOutputs output.new }
{
    let s = check_sum(Op::Convolution, layer, input, kernel, output.len())?;
    fill(s, input, kernel, output);
    Ok(())
}
