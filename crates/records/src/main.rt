// Runs what no layer sheet can say, and the plane picker. Cases are read from standard input; a line is printed for each.
// A case of a record has 15 lines: its name, the 12 lines of a layer sheet, the field of the layer that is then changed, as `z.input=2`, and how many bytes are
// lent to the writer; 16 if the sheet has a version line. All three operators are called with the layer, convolution by both profiles, over an input (2), a kernel
// (3) and outputs of one element, and the layer is written as a sheet.
// A case of a plane has six: its name, the tensor's sizes, its length, the image, the channel and the depth. The tensor's elements are their own places.
// The outputs and the buffer hold marks before the calls: `kept` says that they still do.
#![tactic(auto)]

ghost use Rattle.std.specs.Prelude.{◌≤◌};

use cases::outputs::{is_kept, whole_number};
use cases::{after_line, after_sheet, value_of};
use convolution::convolution;
use layer::{Axis, Layer, Refusal, Rounding, SheetRefusal};
use pooling::max_pool;
use sheet::{read_sheet, write_sheet};
use std::fmt::Display;
use std::{fmt, io};
use sums::Profile;
use tensor::{Dimensions, PlaneIndex, pick_plane};
use text::{Items, part_of, read_number, read_numbers};
use transposed::transposed;

// What stands in outputs and in the buffer before a call; no case expects one of them.
const MARK: f32 = 7.0;

const INDEX_MARK: i64 = -7;

const BYTE_MARK: u8 = 35;

// The one element of the input and of the kernel that the operators are called with.
const INPUT: f32 = 2.0;

const KERNEL: f32 = 3.0;

// ---- printing

// A whole number from 0 to 999. No case expects another value; -0 is told apart from 0.
#[derive(Clone, Copy)]
struct Value(f32);

impl Display for Value {
    fn fmt<W: fmt::Write>(&self, f: &mut fmt::Formatter<W>) -> fmt::Result {
        let value = self.0;
        let sign = if 1.0 / value < 0.0 { "-" } else { "" };
        match whole_number(value) {
            Some(n) if n < 1000 => write!(f, "{sign}{n}"),
            _ => write!(f, "{sign}?"),
        }
    }
}

// The only index that a tensor of one element has is 0.
#[derive(Clone, Copy)]
struct Index(i64);

impl Display for Index {
    fn fmt<W: fmt::Write>(&self, f: &mut fmt::Formatter<W>) -> fmt::Result {
        write!(f, "{}", if self.0 == 0 { "0" } else { "?" })
    }
}

fn kept_word(kept: bool) -> &'static str {
    if kept { "kept" } else { "changed" }
}

// ---- the operators

// The number of an answer; 0 where nothing is refused.
fn number_of(answer: Result<(), Refusal>) -> u32 {
    answer.err().map_or(0, |refusal| refusal.number())
}

// An operator with one output: the answer, and the one element, or that it is as it was.
fn run_sum<F: Fn(&mut [f32]) -> Result<(), Refusal>>(
    rt: &impl Print,
    name: &str,
    call: F,
) -> io::Result<()>
    requires { F.IsAlwaysCallable call }
{
    let mut output = [MARK];
    let number = number_of(call(&mut output));
    print!(rt; " {name}={number} ")?;
    if output[0] == MARK {
        return print!(rt; "kept");
    }
    print!(rt; "{}", Value(output[0]))
}

// A value with its index.
fn print_best(rt: &impl Print, value: f32, index: i64) -> io::Result<()> {
    match (value == MARK, index == INDEX_MARK) {
        (true, true) => print!(rt; "kept"),
        (false, false) => print!(rt; "{}@{}", Value(value), Index(index)),
        _ => print!(rt; "mixed"),
    }
}

// Apart from `run_sum`: its two outputs differ in type, and are printed as a pair.
fn run_max_pool(rt: &impl Print, layer: Layer) -> io::Result<()> {
    let mut values = [MARK];
    let mut indices = [INDEX_MARK];
    let answer = max_pool(layer, &[INPUT], &mut values, &mut indices);
    print!(rt; " maxpool={} ", number_of(answer))?;
    print_best(rt, values[0], indices[0])
}

// ---- the writer

// A sheet on one line: its line ends are printed as bars.
fn print_sheet(rt: &impl Print, sheet: &[u8]) -> io::Result<()> {
    for line in sheet.split_inclusive(|b| *b == b'\n') {
        match line.strip_suffix(b"\n") {
            Some(text) => {
                rt.write_all(text)?;
                print!(rt; "|")?;
            }
            None => rt.write_all(line)?,
        }
    }
    Ok(())
}

fn print_written(
    rt: &impl Print,
    written: Result<usize, SheetRefusal>,
    buffer: &[u8; 512],
) -> io::Result<()> {
    let length = match written {
        Ok(length) => length,
        Err(SheetRefusal { error, line }) => {
            let kept = kept_word(is_kept(buffer, &BYTE_MARK));
            return print!(rt; " write={} line={line} length=0 {kept}", error.number());
        }
    };
    print!(rt; " write=0 line=0 length={length} ")?;
    print_sheet(rt, part_of(buffer, 0, length))?;
    let rest = part_of(buffer, length, buffer.len());
    print!(rt; " rest={}", kept_word(is_kept(rest, &BYTE_MARK)))
}

// The buffer goes on behind the bytes that are lent.
fn run_write(rt: &impl Print, layer: Layer, room: usize) -> io::Result<()>
    requires { room ≤ 480 }
{
    let mut buffer = [BYTE_MARK; 512];
    let written = write_sheet(layer, &mut buffer[..room]);
    print_written(rt, written, &buffer)
}

// ---- reading the cases

// The number that a text spells; else the other number.
fn number_or(t: &[u8], other: u32) -> u32 {
    read_number(t).unwrap_or(other)
}

// The length in the line at a place, up to so many.
fn length_at(s: &[u8], at: usize, key: &[u8], most: usize) -> usize
    ensures { result ≤ most }
{
    let length = number_or(value_of(s, at, key), 0) as usize;
    length.min(most)
}

// ---- the changed field: each field is the change's value where the change has its key, and else as it was

// What comes after the key; empty where the text has another key.
fn after_key<'a>(t: &'a [u8], key: &[u8]) -> &'a [u8] {
    t.strip_prefix(key).unwrap_or(&[])
}

fn changed_field(field: u32, change: &[u8], key: &[u8]) -> u32 {
    number_or(after_key(change, key), field)
}

// The fields of one axis. The change comes without the axis's letter, and is empty if it is not of this axis.
fn changed_fields(a: Axis, change: &[u8]) -> Axis {
    Axis {
        input: changed_field(a.input, change, b"input="),
        kernel: changed_field(a.kernel, change, b"kernel="),
        stride: changed_field(a.stride, change, b"stride="),
        dilation: changed_field(a.dilation, change, b"dilation="),
        pad_begin: changed_field(a.pad_begin, change, b"pad_begin="),
        pad_end: changed_field(a.pad_end, change, b"pad_end="),
        output_padding: changed_field(a.output_padding, change, b"output_padding="),
    }
}

fn changed_rounding(rounding: Rounding, value: &[u8]) -> Rounding {
    match value {
        b"ceil" => Rounding::Ceil,
        b"floor" => Rounding::Floor,
        b"ceil_torch" => Rounding::CeilTorch,
        _ => rounding,
    }
}

// A number up to 100.
fn small(t: &[u8]) -> u8 {
    number_or(t, 100).min(100) as u8
}

fn changed_axis(axis: i32, value: &[u8]) -> i32 {
    if value.is_empty() {
        return axis;
    }
    match value.strip_prefix(b"-") {
        Some(digits) => -i32::from(small(digits)),
        None => i32::from(small(value)),
    }
}

fn changed(l: Layer, change: &[u8]) -> Layer {
    Layer {
        version: changed_field(l.version, change, b"version="),
        axes: changed_field(l.axes, change, b"axes="),
        g: changed_field(l.g, change, b"g="),
        o: changed_field(l.o, change, b"o="),
        i: changed_field(l.i, change, b"i="),
        z: changed_fields(l.z, after_key(change, b"z.")),
        y: changed_fields(l.y, after_key(change, b"y.")),
        x: changed_fields(l.x, after_key(change, b"x.")),
        rounding: changed_rounding(l.rounding, after_key(change, b"rounding=")),
        axis: changed_axis(l.axis, after_key(change, b"axis=")),
        ..l
    }
}

// ---- the cases

fn run_layer(rt: &impl Print, layer: Layer, room: usize) -> io::Result<()>
    requires { room ≤ 480 }
{
    run_sum(rt, "convolution", |output| {
        convolution(Profile::Running, layer, &[INPUT], &[KERNEL], output)
    })?;
    run_sum(rt, "halved", |output| {
        convolution(Profile::Halved, layer, &[INPUT], &[KERNEL], output)
    })?;
    run_sum(
        rt,
        "transposed",
        |output| transposed(layer, &[INPUT], &[KERNEL], output),
    )?;
    run_max_pool(rt, layer)?;
    run_write(rt, layer, room)
}

// The record's case at a place; where the next case starts.
fn run_record(rt: &impl Print, s: &[u8], at: usize) -> io::Result<usize> {
    let sheet = after_line(s, at);
    let change = after_sheet(s, sheet);
    let room = after_line(s, change);
    match read_sheet(part_of(s, sheet, change)) {
        Ok(layer) => run_layer(
            rt,
            changed(layer, value_of(s, change, b"")),
            length_at(s, room, b"room=", 480),
        )?,
        Err(_) => print!(rt; " no sheet")?,
    }
    println!(rt)?;
    Ok(after_line(s, room))
}

// A tensor whose elements are their own places.
fn places() -> [f32; 64] {
    let mut tensor = [0.0f32; 64];
    let mut value = 0.0f32;
    for element in tensor.iter_mut() {
        *element = value;
        value += 1.0;
    }
    tensor
}

fn print_plane(rt: &impl Print, plane: &[f32]) -> io::Result<()> {
    print!(rt; " plane=")?;
    let mut separator = "";
    for x in plane {
        print!(rt; "{separator}{}", Value(*x))?;
        separator = ",";
    }
    Ok(())
}

fn pick(
    rt: &impl Print,
    sizes: Items,
    length: usize,
    image: u32,
    channel: u32,
    depth: u32,
) -> io::Result<()>
    requires { length ≤ 64 }
{
    let tensor = places();
    let dimensions = Dimensions {
        n: sizes.a,
        c: sizes.b,
        z: sizes.c,
        y: sizes.d,
        x: sizes.e,
    };
    let at = PlaneIndex {
        image,
        channel,
        depth,
    };
    let plane = pick_plane(&tensor[..length], dimensions, at);
    print_plane(rt, plane)
}

// The plane's case at a place; where the next case starts.
fn run_plane(rt: &impl Print, s: &[u8], at: usize) -> io::Result<usize> {
    let sizes = after_line(s, at);
    let length = after_line(s, sizes);
    let image = after_line(s, length);
    let channel = after_line(s, image);
    let depth = after_line(s, channel);
    match read_numbers(value_of(s, sizes, b"sizes="), 5) {
        Some(items) => pick(
            rt,
            items,
            length_at(s, length, b"length=", 64),
            number_or(value_of(s, image, b"image="), 0),
            number_or(value_of(s, channel, b"channel="), 0),
            number_or(value_of(s, depth, b"depth="), 0),
        )?,
        None => print!(rt; " no sizes")?,
    }
    println!(rt)?;
    Ok(after_line(s, depth))
}

// The key of the first line tells the kind of the case: the name under the other key is empty.
fn run_case(rt: &impl Print, s: &[u8], at: usize) -> io::Result<usize> {
    let plane = value_of(s, at, b"plane=");
    let record = value_of(s, at, b"record=");
    rt.write_all(plane)?;
    rt.write_all(record)?;
    print!(rt; ":")?;
    if plane.is_empty() {
        return run_record(rt, s, at);
    }
    run_plane(rt, s, at)
}

// At most 1,000 cases. `vectors` has the same few lines over its own.
fn run_all(rt: &impl Print, s: &[u8]) -> io::Result<()> {
    let mut at = 0;
    for _ in 0..1000 {
        if s.len() <= at {
            break;
        }
        at = run_case(rt, s, at)?;
    }
    Ok(())
}

fn main(rt: HostRuntime) -> io::Result<()> {
    let mut space = [0u8; 65536];
    let n = stdin::read_full(&mut rt.reader(), &mut space)?;
    run_all(&rt, &space[..n])
}
