// Which way a tap is read.
#![tactic(auto)]

ghost use Rattle.std.specs.Prelude.{◌≡◌, ℕ, Option};
ghost use Rattle.sizes.specs.declared.Span.{Span};
ghost use Rattle.taps.specs.Joins.{forward, backward};
ghost use Rattle.taps.specs.Directions.{TapLaws, forward_laws, backward_laws};

use crate::{backward, forward};
use sizes::Span;

pub trait Direction {
    ghost tap: { Span → ℕ → ℕ → Option ℕ };

    // The input position at which tap k of output position p lies.
    fn tap(s: Span, p: u32, k: u32) -> Option<usize>
        ensures { result ≡ tap s p k };

    // What each `impl` must prove.
    ghost laws: { TapLaws tap };
}

// From an output position: convolution and pooling.
#[derive(Clone, Copy)]
pub struct Forward;

impl Direction for Forward {
    ghost tap = { forward };

    ghost laws = { forward_laws };

    fn tap(s: Span, p: u32, k: u32) -> Option<usize> {
        forward(s, p, k)
    }
}

// As transposed convolution does.
#[derive(Clone, Copy)]
pub struct Backward;

impl Direction for Backward {
    ghost tap = { backward };

    ghost laws = { backward_laws };

    fn tap(s: Span, p: u32, k: u32) -> Option<usize> {
        backward(s, p, k)
    }
}
