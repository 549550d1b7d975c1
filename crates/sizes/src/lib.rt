// Sizes along one axis.
#![tactic(auto)]

ghost use Rattle.std.specs.Prelude.{◌^◌, ◌+◌, ◌-◌, ◌*◌, ◌/◌, ◌≤◌, ◌<◌, min, ◌≡◌, true};
ghost use Rattle.sizes.specs.Size.{ceil_div, dilated_kernel, padded, less_last, explicit_out, same_out, same_total, pads_of, window_out, transposed_out, out_of, window_fits, axis_fits, rounding_of};
ghost use Rattle.sizes.specs.Sizing.{axis_dimensions_ok, pads_ok, axis_attributes_ok, mode_ok, span_of, sizing};
ghost use Rattle.sizes.specs.Bounds.{AxisLimits, SpanLimits};

use layer::{
    AutoPad, Axis, Op, Rounding, is_explicit, is_same, is_transposed, kernel_ok, output_padding_ok,
    pad_ok, size_ok, step_ok,
};

// One axis of an accepted layer: its sizes and steps, the padding at its beginning, and the output size. Steps of 16 bits and all else of 32 keep every sum and
// product of an axis below 2^64, so that no function here asks anything of its caller.
#[derive(Clone, Copy)]
pub struct Span {
    pub input: u32,
    pub kernel: u32,
    pub stride: u16,
    pub dilation: u16,
    pub begin: u32,
    pub out: u32,
}

// The padding on both sides of an axis.
#[derive(Clone, Copy)]
pub struct Pads {
    pub begin: usize,
    pub end: usize,
}

// ---- whole numbers

// ceil(a/b); 0 where b is 0. A divisor of 1, and one of at least a, need no division.
pub fn ceil_div(a: usize, b: usize) -> usize
    ensures { result ≡ ceil_div a b }
{
    if b == 1 {
        return a;
    }
    if b == 0 {
        return 0;
    }
    if a <= b {
        return a.min(1);
    }
    a.div_ceil(b)
}

// ---- the size rule, for any axis within its limits

// An axis that passes numbers 1 and 2, under the mode of its layer.
#[derive(Clone, Copy)]
struct Limited {
    mode: AutoPad,
    axis: Axis,
    ghost limits: { AxisLimits axis },
}

impl Limited {
    #[tactic(auto, unfolding(crate::specs::Size::dilated_kernel))]
    fn dilated_kernel(self) -> usize
        ensures { result ≡ dilated_kernel self.axis }
    {
        (self.axis.kernel as usize - 1) * self.axis.dilation as usize + 1
    }

    #[tactic(auto, unfolding(crate::specs::Size::same_out))]
    fn same_out(self) -> usize
        ensures { result ≡ same_out self.axis }
    {
        ceil_div(self.axis.input as usize, self.axis.stride as usize)
    }

    fn same_total(self) -> usize
        ensures { result ≡ same_total self.axis }
    {
        let steps = (self.same_out() - 1) * self.axis.stride as usize;
        (steps + self.dilated_kernel()).saturating_sub(self.axis.input as usize)
    }

    // The padding on both sides: as the layer has it, in halves of the total, or none.
    fn pads(self) -> Pads
        ensures { result ≡ pads_of self.mode self.axis }
    {
        match self.mode {
            AutoPad::Explicit => Pads {
                begin: self.axis.pad_begin as usize,
                end: self.axis.pad_end as usize,
            },
            AutoPad::SameUpper => {
                let total = self.same_total();
                Pads {
                    begin: total / 2,
                    end: total - total / 2,
                }
            }
            AutoPad::SameLower => {
                let total = self.same_total();
                Pads {
                    begin: total - total / 2,
                    end: total / 2,
                }
            }
            AutoPad::Valid => Pads { begin: 0, end: 0 },
        }
    }

    fn padded_size(self) -> usize
        ensures value { result ≡ padded (pads_of self.mode self.axis) self.axis }
        ensures small { result < 2 ^ 40 }
    {
        let Pads { begin, end } = self.pads();
        self.axis.input as usize + begin + end
    }

    // Number 5 of convolution and pooling, for every mode: the kernel does not fit the padded axis.
    fn window_fits(self) -> bool
        ensures { result ≡ window_fits self.mode self.axis }
    {
        self.dilated_kernel() <= self.padded_size()
    }

    fn transposed_out(self) -> usize
        ensures { result ≡ transposed_out self.mode self.axis }
    {
        let Pads { begin, end } = self.pads();
        let steps = (self.axis.input as usize - 1) * self.axis.stride as usize;
        let whole = steps + self.dilated_kernel() + self.axis.output_padding as usize;
        whole.saturating_sub(begin + end)
    }

    fn fits(self, op: Op) -> bool
        ensures { result ≡ axis_fits op self.mode self.axis }
    {
        match op {
            Op::Convolution | Op::MaxPool => self.window_fits(),
            Op::Transposed => 1 <= self.transposed_out(),
        }
    }

    // The rounding of a size: with a same mode it changes nothing, and floor gives the size.
    #[tactic(auto, unfolding(crate::specs::Size::rounding_of))]
    fn rounding_of(self, rounding: Rounding) -> Rounding
        ensures { result ≡ rounding_of self.mode rounding }
    {
        match self.mode {
            AutoPad::Explicit | AutoPad::Valid => rounding,
            AutoPad::SameUpper | AutoPad::SameLower => Rounding::Floor,
        }
    }

    // A size, less one where its last window would start at or past the input's end.
    fn less_last(self, out: usize) -> usize
        requires { (1 ≤ out) × (out ≤ 2 ^ 40) }
        ensures { result ≡ less_last (pads_of self.mode self.axis) self.axis out }
    {
        let Pads { begin, .. } = self.pads();
        if self.axis.input as usize + begin <= (out - 1) * self.axis.stride as usize {
            return out - 1;
        }
        out
    }

    // The size by a rounding, where the pads of the mode leave room for the kernel.
    fn explicit_out(self, rounding: Rounding) -> usize
        requires { window_fits self.mode self.axis ≡ true }
        ensures { result ≡ explicit_out rounding (pads_of self.mode self.axis) self.axis }
    {
        let room = self.padded_size() - self.dilated_kernel();
        let stride = self.axis.stride as usize;
        let ceil = ceil_div(room, stride) + 1;
        match rounding {
            Rounding::Floor => room / stride + 1,
            Rounding::Ceil => ceil,
            Rounding::CeilTorch => self.less_last(ceil),
        }
    }

    // The output size of convolution and pooling, for every mode: the explicit size with the pads of the mode.
    fn window_out(self, rounding: Rounding) -> usize
        requires { window_fits self.mode self.axis ≡ true }
        ensures { result ≡ window_out self.mode rounding self.axis }
    {
        self.explicit_out(self.rounding_of(rounding))
    }

    fn out(self, op: Op, rounding: Rounding) -> usize
        requires { axis_fits op self.mode self.axis ≡ true }
        ensures { result ≡ out_of op self.mode rounding self.axis }
    {
        match op {
            Op::Convolution => self.window_out(Rounding::Floor),
            Op::Transposed => self.transposed_out(),
            Op::MaxPool => self.window_out(rounding),
        }
    }

    fn span(self, op: Op, rounding: Rounding) -> Span
        requires fits { axis_fits op self.mode self.axis ≡ true }
        requires limits { SpanLimits (span_of op self.mode rounding self.axis) }
        ensures { result ≡ span_of op self.mode rounding self.axis }
    {
        let Pads { begin, .. } = self.pads();
        Span {
            input: self.axis.input,
            kernel: self.axis.kernel,
            stride: self.axis.stride as u16,
            dilation: self.axis.dilation as u16,
            begin: begin as u32,
            out: self.out(op, rounding) as u32,
        }
    }
}

// ---- the size rule, for any axis

// Number 1 on one axis.
#[tactic(auto, unfolding(crate::specs::Sizing::axis_dimensions_ok))]
pub fn axis_dimensions_ok(a: Axis) -> bool
    ensures { result ≡ axis_dimensions_ok a }
{
    size_ok(a.input) & kernel_ok(a.kernel)
}

// Number 2 on one axis.
#[tactic(auto, unfolding(crate::specs::Sizing::axis_attributes_ok))]
pub fn axis_attributes_ok(op: Op, m: AutoPad, a: Axis) -> bool
    ensures { result ≡ axis_attributes_ok op m a }
{
    step_ok(a.stride)
        & step_ok(a.dilation)
        & pads_ok(m, a.pad_begin, a.pad_end)
        & output_padding_ok(a.output_padding)
        & (is_transposed(op) | (a.output_padding == Axis::OUTPUT_PADDING))
}

// Pads are not checked where they are ignored.
fn pads_ok(m: AutoPad, begin: u32, end: u32) -> bool
    ensures { result ≡ pads_ok m begin end }
{
    !is_explicit(m) | (pad_ok(begin) & pad_ok(end))
}

// Number 2: a transposed layer has no same mode.
pub fn mode_ok(op: Op, m: AutoPad) -> bool
    ensures { result ≡ mode_ok op m }
{
    !(is_transposed(op) & is_same(m))
}

// The size rule: the span of an axis on which none of the numbers 1, 2 and 5 holds.
pub fn size_axis(op: Op, auto_pad: AutoPad, rounding: Rounding, axis: Axis) -> Option<Span>
    ensures { result ≡ sizing op auto_pad rounding axis }
{
    if !(axis_dimensions_ok(axis) & axis_attributes_ok(op, auto_pad, axis)) {
        return None;
    }
    let limited = Limited {
        mode: auto_pad,
        axis,
    };
    if !limited.fits(op) {
        return None;
    }
    Some(limited.span(op, rounding))
}
