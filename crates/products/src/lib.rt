// The products that a convolution reports (C-19): how many pairs of an output and a tap have the tap inside the input. The pairs of a plane are those along each
// axis multiplied, and every output plane has as many with each of its channels, so nothing is counted while the sums are formed.
#![tactic(auto)]

ghost use Rattle.std.specs.Prelude.{◌≡◌};
ghost use Rattle.layer.specs.declared.Op.TheVariants.{Convolution};
ghost use Rattle.shape.specs.Facts.{Grouped};
ghost use Rattle.call.specs.Checks.{sum_verdict};
ghost use Rattle.products.specs.Products.{products};
ghost use Rattle.products.specs.Axes.{pairs_inside, counted_in};

use call::check_sum;
use layer::{Layer, Op, Refusal};
use shape::Shape;
use sizes::Span;
use taps::{taps_inside, turned};

// The pairs of an output position and a tap of it that lies inside the input: position by position.
#[tactic(auto, using(crate::proofs::Sums::sum_none), unfolding(crate::specs::Axes::pairs_inside))]
fn pairs_by_position(s: Span) -> usize
    ensures { result ≡ pairs_inside s }
{
    let mut pairs = 0;
    for p in 0..s.out {
        let inside = taps_inside(s, p);
        pairs += inside.count;
    }
    pairs
}

// The same: position by position or, where there are fewer taps than positions, tap by tap.
#[tactic(auto, using(crate::proofs::Products::axis_turned))]
fn pairs_inside(s: Span) -> usize
    ensures { result ≡ pairs_inside s }
{
    if s.out <= s.kernel {
        return pairs_by_position(s);
    }
    pairs_by_position(turned(s))
}

// The products of a convolution over an accepted shape.
#[tactic(auto, using(crate::proofs::Products::by_axes, crate::proofs::Products::bounds))]
fn products_over(s: Shape) -> usize
    requires { Grouped s }
    ensures { result ≡ products s }
{
    let rows = pairs_inside(s.z) * pairs_inside(s.y);
    let positions = rows * pairs_inside(s.x);
    let planes = s.n * s.channels * s.i;
    planes * positions
}

// Checks 1 to 9 of a convolution, lowest first: the shape of a call that passes them and the products that it forms, or the refusal.
#[tactic(auto, unfolding(crate::specs::Axes::counted_in))]
pub fn check_convolution(
    layer: Layer,
    input: &[f32],
    kernel: &[f32],
    output: usize,
) -> Result<(Shape, usize), Refusal>
    ensures { result ≡ counted_in (sum_verdict Convolution layer input.now kernel.now output) }
{
    let s = check_sum(Op::Convolution, layer, input, kernel, output)?;
    Ok((s, products_over(s)))
}
