// Where a tap of an axis lies, and which taps lie inside the input. A tap is document 01's term for one place of the kernel: along an axis, or along several axes
// taken as one, it lies at a position of the input, or outside the input, which is None.
#![tactic(auto)]

ghost use Rattle.std.specs.Prelude.{◌≡◌, ◌+◌, ◌-◌, ◌*◌, ◌<◌};
ghost use Rattle.taps.specs.Taps.{tap_position, tap_inside, position_of, turned, some_missed, Exactly, SameTaps, Alike, AllBefore, steps_to};
ghost use Rattle.taps.specs.Joins.{position_in, position_by, forward, backward};

use sizes::{Span, ceil_div};

// `Forward` and `Backward` stand in a module of their own: beside `forward` and `backward` their names would differ in case alone, which the check refuses.
pub mod direction;

// The taps of one output position that lie inside the input: `count` of them, from `first` on.
#[derive(Clone, Copy)]
pub struct Taps {
    pub first: usize,
    pub count: usize,
}

// Output positions that follow one another, up to `end`, and have the same taps inside the input.
#[derive(Clone, Copy)]
pub struct Run {
    pub taps: Taps,
    pub end: usize,
}

// ---- where a tap lies

// A position of an axis of this size, if it lies inside.
fn position(at: usize, size: u32) -> Option<usize>
    ensures { result ≡ position_in size at }
{
    (at < size as usize).then_some(at)
}

// The position of tap k of output position p, counted from the start of the padding.
fn tap_position(s: Span, p: u32, k: u32) -> usize
    ensures { result ≡ tap_position s.stride s.dilation p k }
{
    p as usize * s.stride as usize + k as usize * s.dilation as usize
}

// The input position at which tap k of output position p lies.
#[tactic(auto, unfolding(crate::specs::Joins::forward, crate::specs::Taps::inside))]
pub fn forward(s: Span, p: u32, k: u32) -> Option<usize>
    ensures { result ≡ forward s p k }
{
    let at = tap_position(s, p, k).checked_sub(s.begin as usize)?;
    position(at, s.input)
}

// The position that so many strides come to, if they come to one. A stride of 1 needs no division.
#[tactic(auto, using(crate::proofs::Joins::multiple, crate::proofs::Joins::no_multiple))]
fn position_by(distance: usize, stride: usize, size: u32) -> Option<usize>
    ensures { result ≡ position_by size stride distance }
{
    if stride == 1 {
        return position(distance, size);
    }
    if stride == 0 {
        if distance == 0 {
            return position(0, size);
        }
        return None;
    }
    if distance % stride != 0 {
        return None;
    }
    position(distance / stride, size)
}

// The input position that tap k reaches from output position q.
#[tactic(auto, unfolding(crate::specs::Joins::backward, crate::specs::Joins::reach_of))]
pub fn backward(s: Span, q: u32, k: u32) -> Option<usize>
    ensures { result ≡ backward s q k }
{
    let from = q as usize + s.begin as usize;
    let distance = from.checked_sub(k as usize * s.dilation as usize)?;
    position_by(distance, s.stride as usize, s.input)
}

// ---- taps inside the input

// The fewest steps that cover a distance; more than any kernel has taps where no number of steps does.
fn steps_to(distance: usize, step: usize) -> usize
    ensures { result ≡ steps_to distance step }
{
    if step == 0 {
        if distance == 0 { 0 } else { 4294967295 }
    } else {
        ceil_div(distance, step)
    }
}

// The taps of output position p that lie inside the input.
pub fn taps_inside(s: Span, p: u32) -> Taps
    ensures { Exactly s.kernel (tap_inside s p) result.first result.count }
{
    let start = p as usize * s.stride as usize;
    let begin = s.begin as usize;
    let dilation = s.dilation as usize;
    let first = steps_to(begin.saturating_sub(start), dilation);
    let until = steps_to((s.input as usize + begin).saturating_sub(start), dilation);
    let end = (s.kernel as usize).min(until);
    let count = end.saturating_sub(first);
    Taps { first, count }
}

// An axis with its taps for its output positions and the other way round: tap k of position p lies where tap p of position k does.
pub fn turned(s: Span) -> Span
    ensures { result ≡ turned s }
{
    Span {
        input: s.input,
        kernel: s.out,
        stride: s.dilation,
        dilation: s.stride,
        begin: s.begin,
        out: s.kernel,
    }
}

// The output positions whose tap k lies inside the input: `count` of them, from `first` on.
pub fn outputs_inside(s: Span, k: u32) -> Taps
    ensures { Exactly s.out (λ p. tap_inside s p k) result.first result.count }
{
    taps_inside(turned(s), k)
}

// The input position of tap k of output position p, where that tap lies inside the input.
pub fn position_of(s: Span, p: u32, k: u32) -> usize
    ensures { result ≡ position_of s p k }
{
    tap_position(s, p, k).saturating_sub(s.begin as usize)
}

// The distance from the first tap of a position to its last.
fn reach(s: Span) -> usize
    ensures { result ≡ (s.kernel - 1) * s.dilation }
{
    (s.kernel as usize).saturating_sub(1) * s.dilation as usize
}

// The end of the positions from p on whose last tap lies before `limit`, as that of p does.
fn end_before(s: Span, p: u32, limit: usize) -> usize
    requires { p * s.stride + (s.kernel - 1) * s.dilation < limit }
    ensures { AllBefore s p limit result }
{
    let next = p as usize + 1;
    let end = ceil_div(limit.saturating_sub(reach(s)), s.stride as usize);
    next.max(end)
}

// The end of the positions from p on that have the same taps inside the input, as far as this is told at once: where every tap of p lies before the input,
// inside it or behind it.
#[tactic(auto, using(crate::proofs::Exact::same_one))]
fn same_until(s: Span, p: u32) -> usize
    ensures { SameTaps s p result }
{
    let start = p as usize * s.stride as usize;
    let last = start + reach(s);
    let begin = s.begin as usize;
    let end = begin + s.input as usize;
    if end <= start {
        return 4294967296;
    }
    if last < begin {
        return end_before(s, p, begin);
    }
    if start < begin {
        return p as usize + 1;
    }
    if end <= last {
        return p as usize + 1;
    }
    end_before(s, p, end)
}

// The taps of output position p that lie inside the input, and the end of the positions from p on that have the same.
pub fn run_from(s: Span, p: u32) -> Run
    ensures { Alike s p result.end result.taps.first result.taps.count }
{
    let taps = taps_inside(s, p);
    let end = same_until(s, p);
    Run { taps, end }
}

// Whether some output position of an axis has no tap inside the input.
pub fn some_missed(s: Span) -> bool
    ensures { result ≡ some_missed s }
{
    for p in 0..s.out {
        if taps_inside(s, p).count == 0 {
            return true;
        }
    }
    false
}
