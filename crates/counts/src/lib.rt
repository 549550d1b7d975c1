// Arithmetic for any numbers: element counts, which are products held at one past the largest count; division; and what the index of a pooled element is
// counted modulo.
#![tactic(auto)]

ghost use Rattle.std.specs.Prelude.{◌*◌, ◌/◌, ◌%◌, ◌≡◌, drop};
ghost use Rattle.counts.specs.Counts.{capped};
ghost use Rattle.counts.specs.Index.{dimensions_before, product, modulus};

use layer::{Layer, uses_y, uses_z};

// The largest count that is told apart from larger ones: one past the limit of 16,777,216.
pub const CAP: usize = 16777217;

#[tactic(auto, unfolding(crate::specs::Counts::capped))]
fn cap(n: usize) -> usize
    ensures { result ≡ capped n }
{
    n.min(CAP)
}

// A product of any two numbers, held at the cap.
pub fn times(a: usize, b: usize) -> usize
    ensures { result ≡ capped (a * b) }
{
    cap(cap(a) * cap(b))
}

// An element count a·z·y·x, held at the cap.
pub fn volume(a: usize, z: usize, y: usize, x: usize) -> usize
    ensures { result ≡ capped (a * z * y * x) }
{
    times(times(times(a, z), y), x)
}

// ---- division by any number, without a division where the number is below its divisor

// a / b, and 0 where b is 0.
pub fn quotient(a: usize, b: usize) -> usize
    ensures { result ≡ a / b }
{
    if a < b {
        return 0;
    }
    a.checked_div(b).unwrap_or(0)
}

// a % b, and a where b is 0.
pub fn remainder(a: usize, b: usize) -> usize
    ensures { result ≡ a % b }
{
    if a < b {
        return a;
    }
    a.checked_rem(b).unwrap_or(a)
}

// ---- the index of a pooled element

// The number of dimensions before `axis`, of r in all. The axis is the one signed number.
fn dimensions_before(r: usize, axis: i32) -> usize
    ensures { result ≡ dimensions_before r axis }
{
    let distance = axis.unsigned_abs() as usize;
    if axis < 0 {
        r.saturating_sub(distance)
    } else {
        distance
    }
}

// The product of some dimensions without the first k, held at the cap.
fn product_from(dimensions: &[u32], k: usize) -> usize
    ensures { result ≡ capped (product (drop k dimensions.now)) }
{
    dimensions
        .iter()
        .copied()
        .skip(k)
        .fold(1, |product, d| times(product, d as usize))
}

// What the places of a layer's input are counted modulo, held at the cap.
#[tactic(auto, unfolding(crate::specs::Index::modulus))]
pub fn modulus_of(l: Layer) -> usize
    ensures { result ≡ capped (modulus l.axes l.axis l.n l.c l.z.input l.y.input l.x.input) }
{
    let before = dimensions_before(l.axes as usize + 2, l.axis);
    if uses_z(l.axes) {
        return product_from(&[l.n, l.c, l.z.input, l.y.input, l.x.input], before);
    }
    if uses_y(l.axes) {
        return product_from(&[l.n, l.c, l.y.input, l.x.input], before);
    }
    product_from(&[l.n, l.c, l.x.input], before)
}
