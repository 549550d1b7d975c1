// The first line that cannot show a layer: the writer's refusals. The number of a line is counted from `first`, that of the line `op=`.
#![tactic(auto)]

ghost use Rattle.std.specs.Prelude.{◌≡◌};
ghost use Rattle.std.specs.Fn.{FnReturnsAt};
ghost use Rattle.faults.specs.Faults.{bad_version, op_line, bad_axes, bad_axis, hides, hides_sizes, is_default_padding, unused_padding, unused_rounding, unused_axis, refuse_if, axis_faults, pad_faults, line_faults, first_fault, fault_of};

use layer::{
    Axis, Layer, Op, Rounding, SheetError, SheetRefusal, axes_in, is_default_axis_attribute,
    is_default_rounding, is_pool, is_transposed, lacks_op, lacks_rounding, uses_y, uses_z,
    version_in,
};

fn bad_version(version: u32) -> bool
    ensures { result ≡ bad_version version }
{
    !version_in(version)
}

// The number of the line `op=`: a version line stands before it, but for the default version.
fn op_line(version: u32) -> u8
    ensures { result ≡ op_line version }
{
    if version == Layer::VERSION { 1 } else { 2 }
}

fn bad_axes(axes: u32) -> bool
    ensures { result ≡ bad_axes axes }
{
    !axes_in(axes)
}

fn bad_axis(axis: i32) -> bool
    ensures { result ≡ bad_axis axis }
{
    !(-9..=9).contains(&axis)
}

// Whether an axis that is not used has this field at another value than its default.
fn hides<F: Fn(&Axis) -> u32>(l: &Layer, field: F, default: u32) -> bool
    requires { F.IsAlwaysCallable field }
    ensures { (z : _) × (y : _) × FnReturnsAt F.Fn field l.now.z z × FnReturnsAt F.Fn field l.now.y y × (result ≡ hides l.now.axes z y default) }
{
    let z = field(&l.z);
    let y = field(&l.y);
    (!uses_z(l.axes) & (z != default)) | (!uses_y(l.axes) & (y != default))
}

fn hides_sizes(l: &Layer) -> bool
    ensures { result ≡ hides_sizes l.now.op l.now.g l.now.o l.now.i }
{
    is_pool(l.op) && !(l.g == Layer::SIZE && l.o == Layer::SIZE && l.i == Layer::SIZE)
}

fn is_default_padding(axis: &Axis) -> bool
    ensures { result ≡ is_default_padding axis.now.output_padding }
{
    axis.output_padding == Axis::OUTPUT_PADDING
}

fn unused_padding(l: &Layer) -> bool
    ensures { result ≡ unused_padding l.now.op l.now.z.output_padding l.now.y.output_padding l.now.x.output_padding }
{
    !is_transposed(l.op)
        && !(is_default_padding(&l.z) && is_default_padding(&l.y) && is_default_padding(&l.x))
}

fn unused_rounding(op: Op, rounding: Rounding) -> bool
    ensures { result ≡ unused_rounding op rounding }
{
    !is_pool(op) && !is_default_rounding(rounding)
}

fn unused_axis(op: Op, axis: i32) -> bool
    ensures { result ≡ unused_axis op axis }
{
    !is_pool(op) && !is_default_axis_attribute(axis)
}

fn refuse_if(test: bool, error: SheetError, line: u32) -> Result<(), SheetRefusal>
    ensures { result ≡ refuse_if test error line }
{
    if test {
        return Err(SheetRefusal { error, line });
    }
    Ok(())
}

// The axis.
#[tactic(auto, unfolding(crate::specs::Faults::first_fault))]
fn axis_fault(first: u8, l: &Layer) -> Result<(), SheetRefusal>
    ensures { result ≡ first_fault (axis_faults first l.now.op l.now.axis) }
{
    let line = u32::from(first);
    refuse_if(bad_axis(l.axis), SheetError::Number, line + 11)?;
    refuse_if(unused_axis(l.op, l.axis), SheetError::Unused, line + 11)
}

// The first bad line from pads_begin on.
#[tactic(auto, unfolding(crate::specs::Faults::first_fault))]
fn pad_fault(first: u8, l: &Layer) -> Result<(), SheetRefusal>
    ensures { result ≡ first_fault (pad_faults first l.now) }
{
    let line = u32::from(first);
    refuse_if(
        hides(l, |a| a.pad_begin, Axis::PAD),
        SheetError::Unused,
        line + 7,
    )?;
    refuse_if(
        hides(l, |a| a.pad_end, Axis::PAD),
        SheetError::Unused,
        line + 8,
    )?;
    refuse_if(
        hides(l, |a| a.output_padding, Axis::OUTPUT_PADDING),
        SheetError::Unused,
        line + 9,
    )?;
    refuse_if(unused_padding(l), SheetError::Unused, line + 9)?;
    refuse_if(
        lacks_rounding(l.version, l.rounding),
        SheetError::Word,
        line + 10,
    )?;
    refuse_if(
        unused_rounding(l.op, l.rounding),
        SheetError::Unused,
        line + 10,
    )?;
    axis_fault(first, l)
}

// The first bad line from op on.
#[tactic(auto, unfolding(crate::specs::Faults::first_fault))]
fn line_fault(first: u8, l: &Layer) -> Result<(), SheetRefusal>
    ensures { result ≡ first_fault (line_faults first l.now) }
{
    let line = u32::from(first);
    refuse_if(lacks_op(l.version, l.op), SheetError::Unused, line)?;
    refuse_if(bad_axes(l.axes), SheetError::Number, line + 1)?;
    refuse_if(
        hides(l, |a| a.input, Axis::SIZE),
        SheetError::Unused,
        line + 2,
    )?;
    refuse_if(
        hides(l, |a| a.kernel, Axis::SIZE),
        SheetError::Unused,
        line + 3,
    )?;
    refuse_if(hides_sizes(l), SheetError::Unused, line + 3)?;
    refuse_if(
        hides(l, |a| a.stride, Axis::STRIDE),
        SheetError::Unused,
        line + 4,
    )?;
    refuse_if(
        hides(l, |a| a.dilation, Axis::DILATION),
        SheetError::Unused,
        line + 5,
    )?;
    pad_fault(first, l)
}

// The first bad line.
#[tactic(auto, unfolding(crate::specs::Faults::first_fault, crate::specs::Faults::fault_of))]
pub fn fault_of(l: Layer) -> Result<(), SheetRefusal>
    ensures { result ≡ fault_of l }
{
    refuse_if(bad_version(l.version), SheetError::Number, 1)?;
    line_fault(op_line(l.version), &l)
}
