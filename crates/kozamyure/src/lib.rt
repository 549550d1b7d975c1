// The C boundary, declared in include/kozamyure.h: every function takes the text of a sheet and lent tensors, and asks nothing of its caller.
// The numbers in its structs and the parameters one by one are those of the C interface.
#![tactic(auto)]

ghost use Rattle.std.specs.Prelude.{◌≡◌, length, take};
ghost use Rattle.layer.specs.declared.Op.TheVariants.{Convolution, Transposed};
ghost use Rattle.shape.specs.Judge.{judged};
ghost use Rattle.tensor.specs.Peak.{peak_of};
ghost use Rattle.tensor.specs.Plane.{part_of};
ghost use Rattle.sums.specs.declared.Profile.TheVariants.{Running, Halved};
ghost use Rattle.places.specs.Places.{place_of as convolutionPlaces};
ghost use Rattle.transposed.specs.Transposed.{place_of as transposedPlaces};
ghost use Rattle.sheet.specs.Sheet.{read_sheet};
ghost use Rattle.report.specs.Output.{output_of};
ghost use Rattle.kozamyure.specs.Boundary.{unread, answered, call_answer, call_contents, pool_answer, pool_values, pool_indices, no_shape, sizes_shape, shape_answer, no_lengths, kernel_length, lengths_in, lengths_answer, plane_part, peak_found, written_back, rewrite_answer, rewrite_buffer, version};

use convolution::convolution;
use layer::{Layer, Op, Refusal, SheetRefusal};
use pooling::max_pool;
use report::output_sizes;
use shape::judge;
use sheet::{read_sheet, write_sheet};
use sums::Profile;
use tensor::{Dimensions, Part, Peak, PlaneIndex, find_peak, plane_part};
use transposed::transposed;

// An operator's answer: the line for numbers 20 to 23; for 9 the tensor, the place of its first bad element and the number of its bad elements.
#[repr(C)]
#[derive(Clone, Copy)]
pub struct CallAnswer {
    pub number: u32,
    pub line: u32,
    pub tensor: u32,
    pub place: usize,
    pub bad: usize,
}

// The sizes of an output, 1 along an axis that is not used; zeros but for number and line where the sheet or the layer is refused.
#[repr(C)]
#[derive(Clone, Copy)]
pub struct ShapeAnswer {
    pub number: u32,
    pub line: u32,
    pub axes: u32,
    pub n: u32,
    pub c: u32,
    pub z: u32,
    pub y: u32,
    pub x: u32,
}

// The element counts of an operator's tensors; zeros but for number and line where the sheet or the layer is refused.
#[repr(C)]
#[derive(Clone, Copy)]
pub struct LengthsAnswer {
    pub number: u32,
    pub line: u32,
    pub input: usize,
    pub kernel: usize,
    pub output: usize,
}

// The part of a tensor that is a plane; zeros where it is refused.
#[repr(C)]
#[derive(Clone, Copy)]
pub struct PlanePart {
    pub start: usize,
    pub length: usize,
}

// The peak of a plane; zeros but for number, place and bad where the plane is refused.
#[repr(C)]
#[derive(Clone, Copy)]
pub struct PeakFound {
    pub number: u32,
    pub place: usize,
    pub bad: usize,
    pub value: f32,
    pub row: usize,
    pub column: usize,
}

// A sheet written back: its length, or the number and the line of a refusal.
#[repr(C)]
#[derive(Clone, Copy)]
pub struct SheetWritten {
    pub number: u32,
    pub line: u32,
    pub length: usize,
}

// The answer of a call that is done.
const DONE: CallAnswer = CallAnswer {
    number: 0,
    line: 0,
    tensor: 0,
    place: 0,
    bad: 0,
};

impl From<SheetRefusal> for CallAnswer {
    ghost from_gives = { λ refusal r. r ≡ unread refusal };

    fn from(refusal: SheetRefusal) -> CallAnswer {
        CallAnswer {
            number: refusal.error.number(),
            line: refusal.line,
            tensor: 0,
            place: 0,
            bad: 0,
        }
    }
}

impl From<Result<(), Refusal>> for CallAnswer {
    ghost from_gives = { λ answer r. r ≡ answered answer };

    fn from(answer: Result<(), Refusal>) -> CallAnswer {
        match answer {
            Ok(()) => DONE,
            Err(refusal) => {
                let (tensor, place, bad) = refusal.tells();
                CallAnswer {
                    number: refusal.number(),
                    line: 0,
                    tensor,
                    place,
                    bad,
                }
            }
        }
    }
}

impl From<Part> for PlanePart {
    ghost from_gives = { λ part r. r ≡ plane_part part };

    fn from(part: Part) -> PlanePart {
        PlanePart {
            start: part.start,
            length: part.length,
        }
    }
}

impl From<Result<Peak, Refusal>> for PeakFound {
    ghost from_gives = { λ found r. r ≡ peak_found found };

    fn from(found: Result<Peak, Refusal>) -> PeakFound {
        match found {
            Ok(peak) => PeakFound {
                number: 0,
                place: 0,
                bad: 0,
                value: peak.value,
                row: peak.row,
                column: peak.column,
            },
            Err(refusal) => {
                let (_, place, bad) = refusal.tells();
                PeakFound {
                    number: refusal.number(),
                    place,
                    bad,
                    value: 0.0,
                    row: 0,
                    column: 0,
                }
            }
        }
    }
}

impl From<Result<usize, SheetRefusal>> for SheetWritten {
    ghost from_gives = { λ written r. r ≡ written_back written };

    fn from(written: Result<usize, SheetRefusal>) -> SheetWritten {
        match written {
            Ok(length) => SheetWritten {
                number: 0,
                line: 0,
                length,
            },
            Err(refusal) => SheetWritten {
                number: refusal.error.number(),
                line: refusal.line,
                length: 0,
            },
        }
    }
}

// Convolution by either profile.
#[tactic(auto, unfolding(crate::specs::Boundary::call_answer, crate::specs::Boundary::call_contents))]
fn convolve(
    profile: Profile,
    sheet: &[u8],
    input: &[f32],
    kernel: &[f32],
    output: &mut [f32],
) -> CallAnswer
    ensures answer { result ≡ call_answer Convolution (read_sheet sheet.now) input.now kernel.now (length output.old) }
    ensures contents { output.new ≡ call_contents Convolution profile convolutionPlaces (read_sheet sheet.now) input.now kernel.now output.old }
{
    match read_sheet(sheet) {
        Ok(layer) => CallAnswer::from(convolution(profile, layer, input, kernel, output)),
        Err(refusal) => CallAnswer::from(refusal),
    }
}

#[unsafe(no_mangle)]
pub extern "C" fn koza_convolution(
    sheet: &[u8],
    input: &[f32],
    kernel: &[f32],
    output: &mut [f32],
) -> CallAnswer
    ensures answer { result ≡ call_answer Convolution (read_sheet sheet.now) input.now kernel.now (length output.old) }
    ensures contents { output.new ≡ call_contents Convolution Running convolutionPlaces (read_sheet sheet.now) input.now kernel.now output.old }
{
    convolve(Profile::Running, sheet, input, kernel, output)
}

#[unsafe(no_mangle)]
pub extern "C" fn koza_convolution_halved(
    sheet: &[u8],
    input: &[f32],
    kernel: &[f32],
    output: &mut [f32],
) -> CallAnswer
    ensures answer { result ≡ call_answer Convolution (read_sheet sheet.now) input.now kernel.now (length output.old) }
    ensures contents { output.new ≡ call_contents Convolution Halved convolutionPlaces (read_sheet sheet.now) input.now kernel.now output.old }
{
    convolve(Profile::Halved, sheet, input, kernel, output)
}

#[unsafe(no_mangle)]
#[tactic(auto, unfolding(crate::specs::Boundary::call_answer, crate::specs::Boundary::call_contents))]
pub extern "C" fn koza_transposed(
    sheet: &[u8],
    input: &[f32],
    kernel: &[f32],
    output: &mut [f32],
) -> CallAnswer
    ensures answer { result ≡ call_answer Transposed (read_sheet sheet.now) input.now kernel.now (length output.old) }
    ensures contents { output.new ≡ call_contents Transposed Running transposedPlaces (read_sheet sheet.now) input.now kernel.now output.old }
{
    match read_sheet(sheet) {
        Ok(layer) => CallAnswer::from(transposed(layer, input, kernel, output)),
        Err(refusal) => CallAnswer::from(refusal),
    }
}

#[unsafe(no_mangle)]
#[tactic(auto, unfolding(crate::specs::Boundary::pool_answer, crate::specs::Boundary::pool_values, crate::specs::Boundary::pool_indices))]
pub extern "C" fn koza_maxpool(
    sheet: &[u8],
    input: &[f32],
    values: &mut [f32],
    indices: &mut [i64],
) -> CallAnswer
    ensures answer { result ≡ pool_answer (read_sheet sheet.now) input.now values.old indices.old }
    ensures values { values.new ≡ pool_values (read_sheet sheet.now) input.now values.old indices.old }
    ensures indices { indices.new ≡ pool_indices (read_sheet sheet.now) input.now values.old indices.old }
{
    match read_sheet(sheet) {
        Ok(layer) => CallAnswer::from(max_pool(layer, input, values, indices)),
        Err(refusal) => CallAnswer::from(refusal),
    }
}

// No From here and for lengths: a sheet's refusal and a layer's come alike, as a number and a line.
fn no_shape(number: u32, line: u32) -> ShapeAnswer
    ensures { result ≡ no_shape number line }
{
    ShapeAnswer {
        number,
        line,
        axes: 0,
        n: 0,
        c: 0,
        z: 0,
        y: 0,
        x: 0,
    }
}

fn layer_shape(layer: Layer) -> ShapeAnswer
    ensures { result ≡ sizes_shape layer.axes (output_of layer) }
{
    match output_sizes(layer) {
        Err(refusal) => no_shape(refusal.number(), 0),
        Ok(o) => ShapeAnswer {
            number: 0,
            line: 0,
            axes: layer.axes,
            n: o.n,
            c: o.c,
            z: o.z,
            y: o.y,
            x: o.x,
        },
    }
}

#[unsafe(no_mangle)]
#[tactic(auto, unfolding(crate::specs::Boundary::shape_answer))]
pub extern "C" fn koza_shape(sheet: &[u8]) -> ShapeAnswer
    ensures { result ≡ shape_answer (read_sheet sheet.now) }
{
    match read_sheet(sheet) {
        Ok(layer) => layer_shape(layer),
        Err(refusal) => no_shape(refusal.error.number(), refusal.line),
    }
}

fn no_lengths(number: u32, line: u32) -> LengthsAnswer
    ensures { result ≡ no_lengths number line }
{
    LengthsAnswer {
        number,
        line,
        input: 0,
        kernel: 0,
        output: 0,
    }
}

// Pooling takes no kernel.
fn kernel_length(op: Op, weights: usize) -> usize
    ensures { result ≡ kernel_length op weights }
{
    match op {
        Op::Convolution | Op::Transposed => weights,
        Op::MaxPool => 0,
    }
}

fn layer_lengths(layer: Layer) -> LengthsAnswer
    ensures { result ≡ lengths_in layer.op (judged layer.op layer) }
{
    let op = layer.op;
    match judge(op, layer) {
        Err(refusal) => no_lengths(refusal.number(), 0),
        Ok(s) => LengthsAnswer {
            number: 0,
            line: 0,
            input: s.inputs,
            kernel: kernel_length(op, s.weights),
            output: s.outputs,
        },
    }
}

#[unsafe(no_mangle)]
#[tactic(auto, unfolding(crate::specs::Boundary::lengths_answer))]
pub extern "C" fn koza_lengths(sheet: &[u8]) -> LengthsAnswer
    ensures { result ≡ lengths_answer (read_sheet sheet.now) }
{
    match read_sheet(sheet) {
        Ok(layer) => layer_lengths(layer),
        Err(refusal) => no_lengths(refusal.error.number(), refusal.line),
    }
}

#[unsafe(no_mangle)]
pub extern "C" fn koza_plane(
    tensor: &[f32],
    n: u32,
    c: u32,
    z: u32,
    y: u32,
    x: u32,
    image: u32,
    channel: u32,
    depth: u32,
) -> PlanePart
    ensures { result ≡ plane_part (part_of (length tensor.now) n c z y x image channel depth) }
{
    let sizes = Dimensions { n, c, z, y, x };
    let at = PlaneIndex {
        image,
        channel,
        depth,
    };
    PlanePart::from(plane_part(tensor.len(), sizes, at))
}

#[unsafe(no_mangle)]
pub extern "C" fn koza_peak(plane: &[f32], width: usize) -> PeakFound
    ensures { result ≡ peak_found (peak_of plane.now width) }
{
    PeakFound::from(find_peak(plane, width))
}

// Where the number is 0, the buffer begins with the sheet's own bytes.
#[unsafe(no_mangle)]
pub extern "C" fn koza_rewrite(sheet: &[u8], buffer: &mut [u8]) -> SheetWritten
    ensures answer { result ≡ rewrite_answer (read_sheet sheet.now) (length buffer.old) }
    ensures contents { buffer.new ≡ rewrite_buffer (read_sheet sheet.now) buffer.old }
    ensures back { result.number ≡ 0 → (result.length ≡ length sheet.now) × (take result.length buffer.new ≡ sheet.now) }
{
    match read_sheet(sheet) {
        Ok(layer) => SheetWritten::from(write_sheet(layer, buffer)),
        Err(refusal) => SheetWritten::from(Err(refusal)),
    }
}

// The version of the library: 10,000 · major + 100 · minor + patch.
#[unsafe(no_mangle)]
pub extern "C" fn koza_version() -> u32
    ensures { result ≡ version }
{
    20200
}
