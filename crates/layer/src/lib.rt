// The layer record: what a layer sheet says of one layer, with its limits and defaults, and why a call or a sheet is refused.
#![tactic(auto)]

ghost use Rattle.std.specs.Prelude.{◌≡◌};
ghost use Rattle.layer.specs.Kinds.{is_pool, is_transposed, same_op, is_explicit, is_same, is_ceil_torch};
ghost use Rattle.layer.specs.Axes.{axes_in, uses_y, uses_z};
ghost use Rattle.layer.specs.Versions.{version_in, lacks_op, lacks_rounding};
ghost use Rattle.layer.specs.Limits.{within, images_ok, channels_ok, size_ok, kernel_ok, step_ok, pad_ok, output_padding_ok, taps_ok, elements_ok, axis_ok};
ghost use Rattle.layer.specs.Defaults.{default_axis, default_layer, is_default_rounding, is_default_axis_attribute};
ghost use Rattle.layer.specs.Refusals.{refusal_number, refusal_tells, sheet_number};

#[derive(Clone, Copy, PartialEq, Eq)]
pub enum Op {
    Convolution,
    Transposed,
    MaxPool,
}

#[derive(Clone, Copy, PartialEq, Eq)]
pub enum AutoPad {
    Explicit,
    SameUpper,
    SameLower,
    Valid,
}

#[derive(Clone, Copy, PartialEq, Eq)]
pub enum Rounding {
    Floor,
    Ceil,
    CeilTorch,
}

// What a layer says of one spatial axis.
#[derive(Clone, Copy)]
pub struct Axis {
    pub input: u32,
    pub kernel: u32,
    pub stride: u32,
    pub dilation: u32,
    pub pad_begin: u32,
    pub pad_end: u32,
    pub output_padding: u32,
}

// A layer. Its numbers are no enums and no narrower types: a record may hold any of them, and checks 1 to 7 refuse what document 01 does not know.
// The version is that of its operator: 8, or 14 for MaxPool-14. The input is [n, c, z, y, x], the kernel [g, o, i, kz, ky, kx] or, transposed,
// [g, i, o, kz, ky, kx]. With two axes z is not used, with one neither z nor y.
#[derive(Clone, Copy)]
pub struct Layer {
    pub version: u32,
    pub op: Op,
    pub axes: u32,
    pub n: u32,
    pub c: u32,
    pub g: u32,
    pub o: u32,
    pub i: u32,
    pub z: Axis,
    pub y: Axis,
    pub x: Axis,
    pub auto_pad: AutoPad,
    pub rounding: Rounding,
    pub axis: i32,
}

// Why checks 1 to 9 refuse a call, in the order of document 01's table. A bad element is told with its tensor (0 input, 1 kernel), the place of the first one there
// and how many there are.
#[derive(Clone, Copy, PartialEq, Eq)]
pub enum Refusal {
    Dimension,
    Attribute,
    Groups,
    ElementCount,
    Size,
    OutputCount,
    EmptyWindow,
    SliceLength,
    BadElement {
        tensor: u32,
        place: usize,
        bad: usize,
    },
}

// Why a sheet is not read or not written, in the order of document 01's numbers 20 to 24.
#[derive(Clone, Copy, PartialEq, Eq)]
pub enum SheetError {
    Key,
    Number,
    Word,
    Unused,
    Room,
}

// The refusal of a sheet: what is wrong, and the number of the line; 0 where no line is to blame.
#[derive(Clone, Copy, PartialEq, Eq)]
pub struct SheetRefusal {
    pub error: SheetError,
    pub line: u32,
}

impl Axis {
    pub const SIZE: u32 = 1;

    pub const STRIDE: u32 = 1;

    pub const DILATION: u32 = 1;

    pub const PAD: u32 = 0;

    pub const OUTPUT_PADDING: u32 = 0;

    // Every field at its default: an axis that is not used.
    pub fn new() -> Self
        ensures { result ≡ default_axis }
    {
        Axis {
            input: Axis::SIZE,
            kernel: Axis::SIZE,
            stride: Axis::STRIDE,
            dilation: Axis::DILATION,
            pad_begin: Axis::PAD,
            pad_end: Axis::PAD,
            output_padding: Axis::OUTPUT_PADDING,
        }
    }
}

impl Layer {
    pub const VERSION: u32 = 8;

    pub const SIZE: u32 = 1;

    pub const AUTO_PAD: AutoPad = AutoPad::Explicit;

    pub const ROUNDING: Rounding = Rounding::Floor;

    pub const AXIS: i32 = 0;

    // Every field but the operator and the number of axes at its default.
    pub fn new(op: Op, axes: u32) -> Self
        ensures { result ≡ default_layer op axes }
    {
        Layer {
            version: Layer::VERSION,
            op: op,
            axes: axes,
            n: Layer::SIZE,
            c: Layer::SIZE,
            g: Layer::SIZE,
            o: Layer::SIZE,
            i: Layer::SIZE,
            z: Axis::new(),
            y: Axis::new(),
            x: Axis::new(),
            auto_pad: Layer::AUTO_PAD,
            rounding: Layer::ROUNDING,
            axis: Layer::AXIS,
        }
    }
}

impl Refusal {
    // Its number in document 01's table.
    pub fn number(self) -> u32
        ensures { result ≡ refusal_number self }
    {
        match self {
            Refusal::Dimension => 1,
            Refusal::Attribute => 2,
            Refusal::Groups => 3,
            Refusal::ElementCount => 4,
            Refusal::Size => 5,
            Refusal::OutputCount => 6,
            Refusal::EmptyWindow => 7,
            Refusal::SliceLength => 8,
            Refusal::BadElement { .. } => 9,
        }
    }

    // What it tells beside its number: the tensor, the place of its first bad element and how many there are; what a number does not use is 0.
    pub fn tells(self) -> (u32, usize, usize)
        ensures { result ≡ refusal_tells self }
    {
        match self {
            Refusal::BadElement { tensor, place, bad } => (tensor, place, bad),
            _ => (0, 0, 0),
        }
    }
}

impl SheetError {
    // Its number in document 01.
    pub fn number(self) -> u32
        ensures { result ≡ sheet_number self }
    {
        match self {
            SheetError::Key => 20,
            SheetError::Number => 21,
            SheetError::Word => 22,
            SheetError::Unused => 23,
            SheetError::Room => 24,
        }
    }
}

// ---- kinds

pub fn is_pool(op: Op) -> bool
    ensures { result ≡ is_pool op }
{
    op == Op::MaxPool
}

pub fn is_transposed(op: Op) -> bool
    ensures { result ≡ is_transposed op }
{
    op == Op::Transposed
}

// Whether two operators are of one kind.
pub fn same_op(a: Op, b: Op) -> bool
    ensures { result ≡ same_op a b }
{
    a == b
}

pub fn is_explicit(m: AutoPad) -> bool
    ensures { result ≡ is_explicit m }
{
    m == AutoPad::Explicit
}

// The same modes: same_upper and same_lower.
pub fn is_same(m: AutoPad) -> bool
    ensures { result ≡ is_same m }
{
    matches!(m, AutoPad::SameUpper | AutoPad::SameLower)
}

pub fn is_ceil_torch(r: Rounding) -> bool
    ensures { result ≡ is_ceil_torch r }
{
    r == Rounding::CeilTorch
}

// ---- versions

pub fn version_in(version: u32) -> bool
    ensures { result ≡ version_in version }
{
    matches!(version, 8 | 14)
}

// Version 14 is of max pooling alone.
pub fn lacks_op(version: u32, op: Op) -> bool
    ensures { result ≡ lacks_op version op }
{
    (version == 14) & !is_pool(op)
}

pub fn lacks_rounding(version: u32, rounding: Rounding) -> bool
    ensures { result ≡ lacks_rounding version rounding }
{
    (version == 8) & is_ceil_torch(rounding)
}

// ---- axes

// Whether a layer can have so many spatial axes.
pub fn axes_in(axes: u32) -> bool
    ensures { result ≡ axes_in axes }
{
    inside(1, 3, axes)
}

pub fn uses_y(axes: u32) -> bool
    ensures { result ≡ uses_y axes }
{
    2 <= axes
}

pub fn uses_z(axes: u32) -> bool
    ensures { result ≡ uses_z axes }
{
    3 <= axes
}

// ---- limits: each is a sentence of document 01 with a definition and a name of its own; `inside` is what they share

fn inside(lo: u32, hi: u32, v: u32) -> bool
    ensures { result ≡ within lo hi v }
{
    (lo..=hi).contains(&v)
}

pub fn images_ok(n: u32) -> bool
    ensures { result ≡ images_ok n }
{
    inside(1, 16, n)
}

pub fn channels_ok(c: u32) -> bool
    ensures { result ≡ channels_ok c }
{
    inside(1, 1024, c)
}

pub fn size_ok(size: u32) -> bool
    ensures { result ≡ size_ok size }
{
    inside(1, 4096, size)
}

pub fn kernel_ok(k: u32) -> bool
    ensures { result ≡ kernel_ok k }
{
    inside(1, 64, k)
}

// Strides and dilations.
pub fn step_ok(s: u32) -> bool
    ensures { result ≡ step_ok s }
{
    inside(1, 16, s)
}

pub fn pad_ok(p: u32) -> bool
    ensures { result ≡ pad_ok p }
{
    p <= 1024
}

pub fn output_padding_ok(p: u32) -> bool
    ensures { result ≡ output_padding_ok p }
{
    p <= 15
}

pub fn taps_ok(k: usize) -> bool
    ensures { result ≡ taps_ok k }
{
    k <= 4096
}

pub fn elements_ok(n: usize) -> bool
    ensures { result ≡ elements_ok n }
{
    n <= 16777216
}

// Pooling's axis: from -R to R - 1, R being the number of spatial axes plus 2.
pub fn axis_ok(axes: u32, axis: i32) -> bool
    ensures { result ≡ axis_ok axes axis }
{
    let rank = i64::from(axes) + 2;
    let at = i64::from(axis);
    (-rank..rank).contains(&at)
}

// ---- defaults: pooling's rounding and axis are at theirs where no pooling uses them

pub fn is_default_rounding(rounding: Rounding) -> bool
    ensures { result ≡ is_default_rounding rounding }
{
    rounding == Layer::ROUNDING
}

pub fn is_default_axis_attribute(axis: i32) -> bool
    ensures { result ≡ is_default_axis_attribute axis }
{
    axis == Layer::AXIS
}
