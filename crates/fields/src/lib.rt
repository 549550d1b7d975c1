// Which number of a sheet's lists is which field of the layer record: the layer of the lists, and the lists of a layer.
#![tactic(auto)]

ghost use Rattle.std.specs.Prelude.{◌≡◌};
ghost use Rattle.fields.specs.Layers.{kernel_numbers, kernel_of, per_axis, with_sizes, with_pads, sized_layer, padded_layer, axis_list, input_list, kernel_list};

use layer::{AutoPad, Axis, Layer, Op, Rounding, uses_y, uses_z};
use text::{Items, more_item, one_item};

// The kernel's sizes: first, second and third are the numbers that stand last in its list, one for each axis.
#[derive(Clone, Copy)]
struct Kernel {
    pub g: u32,
    pub o: u32,
    pub i: u32,
    pub first: u32,
    pub second: u32,
    pub third: u32,
}

// One number for each axis.
#[derive(Clone, Copy)]
pub struct PerAxis {
    pub z: u32,
    pub y: u32,
    pub x: u32,
}

// ---- the layer of lists

pub fn kernel_numbers(op: Op, axes: u32) -> usize
    ensures { result ≡ kernel_numbers op axes }
{
    match op {
        Op::Convolution | Op::Transposed => axes as usize + 3,
        Op::MaxPool => axes as usize,
    }
}

fn kernel_of(op: Op, items: Items) -> Kernel
    ensures { result ≡ kernel_of op items }
{
    let convolution = Kernel {
        g: items.a,
        o: items.b,
        i: items.c,
        first: items.d,
        second: items.e,
        third: items.f,
    };
    match op {
        Op::Convolution => convolution,
        Op::Transposed => Kernel {
            o: items.c,
            i: items.b,
            ..convolution
        },
        Op::MaxPool => Kernel {
            g: Layer::SIZE,
            o: Layer::SIZE,
            i: Layer::SIZE,
            first: items.a,
            second: items.b,
            third: items.c,
        },
    }
}

// The numbers of a list as the axes have them: an axis that is not used has its default. The list's numbers belong to no axis before, so no struct names them.
fn per_axis(axes: u32, unused: u32, first: u32, second: u32, third: u32) -> PerAxis
    ensures { result ≡ per_axis axes unused first second third }
{
    if uses_z(axes) {
        PerAxis {
            z: first,
            y: second,
            x: third,
        }
    } else if uses_y(axes) {
        PerAxis {
            z: unused,
            y: first,
            x: second,
        }
    } else {
        PerAxis {
            z: unused,
            y: unused,
            x: first,
        }
    }
}

fn with_sizes(base: Axis, input: u32, kernel: u32, stride: u32, dilation: u32) -> Axis
    ensures { result ≡ with_sizes base input kernel stride dilation }
{
    Axis {
        input,
        kernel,
        stride,
        dilation,
        ..base
    }
}

fn with_pads(base: Axis, begin: u32, end: u32, padding: u32) -> Axis
    ensures { result ≡ with_pads base begin end padding }
{
    Axis {
        pad_begin: begin,
        pad_end: end,
        output_padding: padding,
        ..base
    }
}

// The layer of a version and of the lines from op to dilations: what they do not say is as the constructor has it.
#[tactic(auto, unfolding(crate::specs::Layers::sized_layer))]
pub fn sized_layer(
    version: u32,
    op: Op,
    axes: u32,
    input: Items,
    kernel: Items,
    strides: Items,
    dilations: Items,
) -> Layer
    ensures { result ≡ sized_layer version op axes input kernel strides dilations }
{
    let base = Layer::new(op, axes);
    let k = kernel_of(op, kernel);
    let size_on = per_axis(axes, Axis::SIZE, input.c, input.d, input.e);
    let kernel_on = per_axis(axes, Axis::SIZE, k.first, k.second, k.third);
    let stride_on = per_axis(axes, Axis::STRIDE, strides.a, strides.b, strides.c);
    let dilation_on = per_axis(axes, Axis::DILATION, dilations.a, dilations.b, dilations.c);
    Layer {
        version,
        n: input.a,
        c: input.b,
        g: k.g,
        o: k.o,
        i: k.i,
        z: with_sizes(base.z, size_on.z, kernel_on.z, stride_on.z, dilation_on.z),
        y: with_sizes(base.y, size_on.y, kernel_on.y, stride_on.y, dilation_on.y),
        x: with_sizes(base.x, size_on.x, kernel_on.x, stride_on.x, dilation_on.x),
        ..base
    }
}

// The same layer with what the lines from auto_pad on say.
#[tactic(auto, unfolding(crate::specs::Layers::padded_layer))]
pub fn padded_layer(
    l: Layer,
    mode: AutoPad,
    begin: Items,
    end: Items,
    padding: Items,
    rounding: Rounding,
    axis: i32,
) -> Layer
    ensures { result ≡ padded_layer l mode begin end padding rounding axis }
{
    let begin_on = per_axis(l.axes, Axis::PAD, begin.a, begin.b, begin.c);
    let end_on = per_axis(l.axes, Axis::PAD, end.a, end.b, end.c);
    let padding_on = per_axis(
        l.axes,
        Axis::OUTPUT_PADDING,
        padding.a,
        padding.b,
        padding.c,
    );
    Layer {
        z: with_pads(l.z, begin_on.z, end_on.z, padding_on.z),
        y: with_pads(l.y, begin_on.y, end_on.y, padding_on.y),
        x: with_pads(l.x, begin_on.x, end_on.x, padding_on.x),
        auto_pad: mode,
        rounding,
        axis,
        ..l
    }
}

// ---- the lists of a layer

pub fn axis_list(axes: u32, on: PerAxis) -> Items
    ensures { result ≡ axis_list axes on.z on.y on.x }
{
    if uses_z(axes) {
        more_item(on.z, more_item(on.y, one_item(on.x)))
    } else if uses_y(axes) {
        more_item(on.y, one_item(on.x))
    } else {
        one_item(on.x)
    }
}

pub fn input_list(axes: u32, n: u32, c: u32, on: PerAxis) -> Items
    ensures { result ≡ input_list axes n c on.z on.y on.x }
{
    more_item(n, more_item(c, axis_list(axes, on)))
}

pub fn kernel_list(l: &Layer) -> Items
    ensures { let a = l.now in result ≡ kernel_list a.op a.axes a.g a.o a.i a.z.kernel a.y.kernel a.x.kernel }
{
    let on = PerAxis {
        z: l.z.kernel,
        y: l.y.kernel,
        x: l.x.kernel,
    };
    let last = axis_list(l.axes, on);
    match l.op {
        Op::Convolution => more_item(l.g, more_item(l.o, more_item(l.i, last))),
        Op::Transposed => more_item(l.g, more_item(l.i, more_item(l.o, last))),
        Op::MaxPool => last,
    }
}
