// Checks 1 to 7 of a layer, and what an accepted layer tells an operator.
#![tactic(auto)]

ghost use Rattle.std.specs.Prelude.{◌*◌, ◌/◌, ◌%◌, ◌≤◌, ◌^◌, ◌≡◌, not, ◌&&◌};
ghost use Rattle.layer.specs.Kinds.{is_pool};
ghost use Rattle.sizes.specs.Bounds.{SpanLimits};
ghost use Rattle.taps.specs.Joins.{both, Below};
ghost use Rattle.counts.specs.Counts.{capped};
ghost use Rattle.shape.specs.Counts.{input_count, kernel_count, tap_count, output_channels, modulus_of, shape_with};
ghost use Rattle.shape.specs.Volumes.{input_rows, kernel_rows, out_rows, on_depths, on_rows};
ghost use Rattle.shape.specs.Windows.{some_empty};
ghost use Rattle.shape.specs.Checks.{groups_within, axis_within, dimensions_ok, pads_at_default, axis_at_default, axis_fields_ok, axes_ok, pooling_ok, not_pooling_ok, unused_ok, version_ok, attributes_ok, groups_ok, counts_ok};
ghost use Rattle.shape.specs.Judge.{judged};
ghost use Rattle.shape.specs.Facts.{Passed, Fitted};

use counts::{modulus_of, times, volume};
use layer::{
    AutoPad, Axis, Layer, Op, Refusal, Rounding, axes_in, axis_ok, channels_ok, elements_ok,
    images_ok, is_default_axis_attribute, is_default_rounding, is_explicit, is_pool, lacks_op,
    lacks_rounding, same_op, taps_ok, uses_y, uses_z, version_in,
};
use sizes::{Span, axis_attributes_ok, axis_dimensions_ok, mode_ok, size_axis};
use taps::direction::Direction;
use taps::some_missed;

// What an accepted layer comes to: its sizes and output channels, the spans of its axes, the taps of an output, the elements of input, kernel and output, and
// what the index of a pooled element is counted modulo.
#[derive(Clone, Copy)]
pub struct Shape {
    pub n: usize,
    pub c: usize,
    pub g: usize,
    pub o: usize,
    pub i: usize,
    pub channels: usize,
    pub z: Span,
    pub y: Span,
    pub x: Span,
    pub taps: usize,
    pub inputs: usize,
    pub weights: usize,
    pub outputs: usize,
    pub modulus: usize,
}

// ---- number 1

fn groups_within(op: Op, g: u32, o: u32, i: u32) -> bool
    ensures { result ≡ groups_within op g o i }
{
    is_pool(op) | (channels_ok(g) & channels_ok(o) & channels_ok(i))
}

fn axis_within(used: bool, a: Axis) -> bool
    ensures { result ≡ axis_within used a }
{
    !used | axis_dimensions_ok(a)
}

#[tactic(auto, unfolding(crate::specs::Checks::dimensions_ok))]
fn dimensions_ok(op: Op, l: Layer) -> bool
    ensures { result ≡ dimensions_ok op l }
{
    axes_in(l.axes)
        & images_ok(l.n)
        & channels_ok(l.c)
        & axis_within(uses_z(l.axes), l.z)
        & axis_within(uses_y(l.axes), l.y)
        & axis_dimensions_ok(l.x)
        & groups_within(op, l.g, l.o, l.i)
}

// ---- number 2

fn pads_at_default(m: AutoPad, begin: u32, end: u32) -> bool
    ensures { result ≡ pads_at_default m begin end }
{
    !is_explicit(m) | ((begin == Axis::PAD) & (end == Axis::PAD))
}

// Every field of an unused axis is at its default, but for pads that are ignored.
#[tactic(auto, unfolding(crate::specs::Checks::axis_at_default))]
fn axis_at_default(m: AutoPad, a: Axis) -> bool
    ensures { result ≡ axis_at_default m a }
{
    (a.input == Axis::SIZE)
        & (a.kernel == Axis::SIZE)
        & (a.stride == Axis::STRIDE)
        & (a.dilation == Axis::DILATION)
        & pads_at_default(m, a.pad_begin, a.pad_end)
        & (a.output_padding == Axis::OUTPUT_PADDING)
}

fn axis_fields_ok(op: Op, m: AutoPad, used: bool, a: Axis) -> bool
    ensures { result ≡ axis_fields_ok op m used a }
{
    axis_attributes_ok(op, m, a) & (used | axis_at_default(m, a))
}

#[tactic(auto, unfolding(crate::specs::Checks::axes_ok))]
fn axes_ok(op: Op, m: AutoPad, axes: u32, z: Axis, y: Axis, x: Axis) -> bool
    ensures { result ≡ axes_ok op m axes z y x }
{
    axis_fields_ok(op, m, uses_z(axes), z)
        & axis_fields_ok(op, m, uses_y(axes), y)
        & axis_attributes_ok(op, m, x)
}

#[tactic(auto, unfolding(crate::specs::Checks::pooling_ok))]
fn pooling_ok(axes: u32, axis: i32, g: u32, o: u32, i: u32) -> bool
    ensures { result ≡ pooling_ok axes axis g o i }
{
    axis_ok(axes, axis) & ((g == Layer::SIZE) & (o == Layer::SIZE) & (i == Layer::SIZE))
}

#[tactic(auto, unfolding(crate::specs::Checks::not_pooling_ok))]
fn not_pooling_ok(rounding: Rounding, axis: i32) -> bool
    ensures { result ≡ not_pooling_ok rounding axis }
{
    is_default_rounding(rounding) & is_default_axis_attribute(axis)
}

#[tactic(auto, unfolding(crate::specs::Checks::unused_ok))]
fn unused_ok(op: Op, l: Layer) -> bool
    ensures { result ≡ unused_ok op l }
{
    if is_pool(op) {
        pooling_ok(l.axes, l.axis, l.g, l.o, l.i)
    } else {
        not_pooling_ok(l.rounding, l.axis)
    }
}

fn version_ok(version: u32, op: Op, rounding: Rounding) -> bool
    ensures { result ≡ version_ok version op rounding }
{
    version_in(version) & !lacks_op(version, op) & !lacks_rounding(version, rounding)
}

#[tactic(auto, unfolding(crate::specs::Checks::attributes_ok))]
fn attributes_ok(op: Op, l: Layer) -> bool
    ensures { result ≡ attributes_ok op l }
{
    same_op(op, l.op)
        & version_ok(l.version, l.op, l.rounding)
        & mode_ok(op, l.auto_pad)
        & axes_ok(op, l.auto_pad, l.axes, l.z, l.y, l.x)
        & unused_ok(op, l)
}

// ---- numbers 3 and 4

#[tactic(auto, using(counts::proofs::Capped::volume_left, counts::proofs::Capped::capped_left))]
fn input_count(l: Layer) -> usize
    ensures { result ≡ capped (input_count l) }
{
    let channels = times(l.n as usize, l.c as usize);
    volume(
        channels,
        l.z.input as usize,
        l.y.input as usize,
        l.x.input as usize,
    )
}

// So many kernels of one channel.
fn kernel_volume(l: Layer, channels: usize) -> usize
    ensures { result ≡ capped (channels * l.z.kernel * l.y.kernel * l.x.kernel) }
{
    volume(
        channels,
        l.z.kernel as usize,
        l.y.kernel as usize,
        l.x.kernel as usize,
    )
}

fn tap_count(l: Layer) -> usize
    ensures { result ≡ capped (tap_count l) }
{
    kernel_volume(l, l.i as usize)
}

#[tactic(auto, using(counts::proofs::Capped::volume_left, counts::proofs::Capped::capped_left))]
fn kernel_count(l: Layer) -> usize
    ensures { result ≡ capped (kernel_count l) }
{
    let channels = times(times(l.g as usize, l.o as usize), l.i as usize);
    kernel_volume(l, channels)
}

// The product of two sizes of any value.
fn product(a: u32, b: u32) -> usize
    ensures { result ≡ a * b }
{
    a as usize * b as usize
}

fn groups_ok(op: Op, c: u32, g: u32, i: u32) -> bool
    ensures { result ≡ groups_ok op c g i }
{
    is_pool(op) | (c as usize == product(g, i))
}

#[tactic(auto, using(counts::proofs::Capped::leb_capped), unfolding(crate::specs::Checks::counts_ok))]
fn counts_ok(op: Op, l: Layer) -> bool
    ensures { result ≡ counts_ok op l }
{
    let taps = tap_count(l);
    let input = input_count(l);
    let kernel = kernel_count(l);
    (is_pool(op) | taps_ok(taps)) & elements_ok(input) & elements_ok(kernel)
}

// ---- numbers 5 to 7

fn output_channels(op: Op, c: u32, g: u32, o: u32) -> usize
    ensures { result ≡ output_channels op c g o }
{
    match op {
        Op::Convolution | Op::Transposed => product(g, o),
        Op::MaxPool => c as usize,
    }
}

// Number 7, one axis at a time: a window is empty exactly if it is on some axis.
#[tactic(auto, using(crate::proofs::Empty::some_empty_split))]
fn windows_ok(op: Op, s: Shape) -> bool
    requires { SpanLimits s.z × SpanLimits s.y × SpanLimits s.x }
    ensures { result ≡ not (is_pool op && some_empty s) }
{
    if !is_pool(op) {
        return true;
    }
    !(some_missed(s.z) | some_missed(s.y) | some_missed(s.x))
}

#[tactic(auto, using(counts::proofs::Capped::capped_is))]
fn shape_of(l: Layer, z: Span, y: Span, x: Span, channels: usize, outputs: usize) -> Shape
    requires counts { (tap_count l ≤ 16777216) × (input_count l ≤ 16777216) × (kernel_count l ≤ 16777216) }
    requires modulus { modulus_of l ≤ 16777216 }
    ensures { result ≡ shape_with l z y x channels outputs }
{
    let taps = tap_count(l);
    let inputs = input_count(l);
    let weights = kernel_count(l);
    let modulus = modulus_of(l);
    Shape {
        n: l.n as usize,
        c: l.c as usize,
        g: l.g as usize,
        o: l.o as usize,
        i: l.i as usize,
        channels,
        z,
        y,
        x,
        taps,
        inputs,
        weights,
        outputs,
        modulus,
    }
}

// Checks 5 to 7.
#[tactic(auto, using(crate::proofs::Fits::unfit_z, crate::proofs::Fits::unfit_y, crate::proofs::Fits::unfit_x, crate::proofs::Fits::fitted))]
fn judge_sizes(op: Op, l: Layer) -> Result<Shape, Refusal>
    requires { Passed op l }
    ensures { result ≡ judged op l }
{
    let m = l.auto_pad;
    let rounding = l.rounding;
    let z = size_axis(op, m, rounding, l.z).ok_or(Refusal::Size)?;
    let y = size_axis(op, m, rounding, l.y).ok_or(Refusal::Size)?;
    let x = size_axis(op, m, rounding, l.x).ok_or(Refusal::Size)?;
    judge_spans(op, l, z, y, x)
}

// Checks 6 and 7.
fn judge_spans(op: Op, l: Layer, z: Span, y: Span, x: Span) -> Result<Shape, Refusal>
    requires { Fitted op l z y x }
    ensures { result ≡ judged op l }
{
    let channels = output_channels(op, l.c, l.g, l.o);
    let planes = times(l.n as usize, channels);
    let outputs = volume(planes, z.out as usize, y.out as usize, x.out as usize);
    if !elements_ok(outputs) {
        return Err(Refusal::OutputCount);
    }
    let s = shape_of(l, z, y, x, channels, outputs);
    if !windows_ok(op, s) {
        return Err(Refusal::EmptyWindow);
    }
    Ok(s)
}

// Checks 1 to 7, lowest first, by the operator that is called.
#[tactic(auto, unfolding(crate::specs::Judge::judged))]
pub fn judge(op: Op, layer: Layer) -> Result<Shape, Refusal>
    ensures { result ≡ judged op layer }
{
    if !dimensions_ok(op, layer) {
        return Err(Refusal::Dimension);
    }
    if !attributes_ok(op, layer) {
        return Err(Refusal::Attribute);
    }
    if !groups_ok(op, layer.c, layer.g, layer.i) {
        return Err(Refusal::Groups);
    }
    if !counts_ok(op, layer) {
        return Err(Refusal::ElementCount);
    }
    judge_sizes(op, layer)
}

// ---- the axes of a plane as rows and columns

#[tactic(auto, unfolding(crate::specs::Volumes::input_rows))]
pub fn input_rows(s: Shape) -> usize
    ensures { result ≡ input_rows s }
{
    product(s.z.input, s.y.input)
}

#[tactic(auto, unfolding(crate::specs::Volumes::kernel_rows))]
pub fn kernel_rows(s: Shape) -> usize
    ensures { result ≡ kernel_rows s }
{
    product(s.z.kernel, s.y.kernel)
}

#[tactic(auto, unfolding(crate::specs::Volumes::out_rows))]
pub fn out_rows(s: Shape) -> usize
    ensures { result ≡ out_rows s }
{
    product(s.z.out, s.y.out)
}

// Two axes as one: where a tap lies that lies at `outer` on one axis and at `inner` on the next, of so many positions.
#[tactic(auto, unfolding(taps::specs::Joins::both, taps::specs::Joins::Below))]
fn both(size: u32, outer: Option<usize>, inner: Option<usize>) -> Option<usize>
    requires { Below (2 ^ 32) outer × Below (2 ^ 32) inner }
    ensures { result ≡ both size outer inner }
{
    Some(outer? * size as usize + inner?)
}

// The position on the outer and on the inner of two axes of a number along both.
#[derive(Clone, Copy)]
struct Parts {
    outer: u32,
    inner: u32,
}

// A number taken apart, the inner axis having so many positions: without a division where it lies in the first of the outer axis.
fn taken_apart(n: u32, size: u32) -> Parts
    ensures { (result.outer ≡ n / size) × (result.inner ≡ n % size) }
{
    if (n < size) | (size == 0) {
        return Parts { outer: 0, inner: n };
    }
    Parts {
        outer: n / size,
        inner: n % size,
    }
}

// Two axes as one: where a tap of both lies.
fn folded_tap<D: Direction>(z: Span, y: Span, p: u32, k: u32) -> Option<usize>
    ensures { result ≡ on_depths D.tap z y p k }
{
    let row = taken_apart(p, y.out);
    let tap = taken_apart(k, y.kernel);
    let outer = D::tap(z, row.outer, tap.outer);
    let inner = D::tap(y, row.inner, tap.inner);
    both(y.input, outer, inner)
}

// The row of the input at which kernel row k of output row p lies, in either direction. A row of the first depth, which is all that one or two axes have, is
// found without a division.
pub fn row_tap<D: Direction>(s: Shape, p: u32, k: u32) -> Option<usize>
    ensures { result ≡ on_rows D.tap s p k }
{
    let first = (p < s.y.out) & (k < s.y.kernel) & (s.z.begin == 0) & (0 < s.z.input);
    if first {
        return D::tap(s.y, p, k);
    }
    folded_tap::<D>(s.z, s.y, p, k)
}
