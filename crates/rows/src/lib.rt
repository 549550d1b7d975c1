// Running sums that stand side by side in a lent slice: more taps for each of them, each sum keeping its own order. Every public function takes any slices
// and runs over as many as they hold.
#![tactic(auto)]

ghost use Rattle.std.specs.Prelude.{◌≡◌, ℕ, ◌+◌, ◌-◌, ◌*◌, ◌≤◌, ◌<◌, min, length};
ghost use Rattle.sizes.specs.Size.{ceil_div};
ghost use Rattle.tensor.specs.Table.{read, plus_zero, tabulate};
ghost use Rattle.sums.specs.Taps.{pair, add_tap, sum_from};
ghost use Rattle.rows.specs.Rows.{Summed, across, held, spread};

use sizes::ceil_div;
use sums::add_product;

// ---- convolution: a row of values under a kernel row

// A row of values under a kernel row: tap k of the sum at x has the value at x * stride + k * dilation, and weight k. That the values hold all of them is asked
// where sums are lent, and no part of the row, since it says how many sums there are.
#[derive(Clone, Copy)]
struct Under<'a> {
    values: &'a [f32],
    weights: &'a [f32],
    stride: usize,
    dilation: usize,
}

impl<'a> Under<'a> {
    // How many of this many sums have all of their taps among the values.
    fn held(&self, sums: usize) -> usize
        ensures { result ≡ held sums (length self.now.values.now) (length self.now.weights.now) self.now.stride self.now.dilation }
    {
        let last = self
            .weights
            .len()
            .saturating_sub(1)
            .saturating_mul(self.dilation);
        sums.min(ceil_div(self.values.len().saturating_sub(last), self.stride))
    }

    // All taps of the sum at x.
    fn sum_at(&self, sum: f32, x: usize) -> f32
        requires { (k : ℕ) → k < length self.now.weights.now → x * self.now.stride + k * self.now.dilation < length self.now.values.now }
        ensures { result ≡ sum_from sum (across self.now.values.now self.now.weights.now self.now.stride self.now.dilation x) (length self.now.weights.now) }
    {
        let mut total = sum;
        for (k, weight) in self.weights.iter().enumerate() {
            let value = self.values[x * self.stride + k * self.dilation];
            total = add_product(total, value, *weight);
        }
        total
    }

    // All taps of each sum, one sum after another.
    fn add_each(&self, sums: &mut [f32])
        requires { (x k : ℕ) → x < length sums.old → k < length self.now.weights.now → x * self.now.stride + k * self.now.dilation < length self.now.values.now }
        ensures { Summed (across self.now.values.now self.now.weights.now self.now.stride self.now.dilation) (length self.now.weights.now) (length sums.old) sums.old sums.new }
    {
        for (x, sum) in sums.iter_mut().enumerate() {
            *sum = self.sum_at(*sum, x);
        }
    }

    // N taps of each sum, from tap k on. Their weights are copied, so that the compiler sees that no sum overlaps them.
    fn add_some<const N: usize>(&self, sums: &mut [f32], k: usize)
        requires taps { k + N ≤ length self.now.weights.now }
        requires first { k * self.now.dilation ≤ length self.now.values.now }
        requires held { (x j : ℕ) → x < length sums.old → j < length self.now.weights.now → x * self.now.stride + j * self.now.dilation < length self.now.values.now }
        ensures { Summed (λ x j. across self.now.values.now self.now.weights.now self.now.stride self.now.dilation x (k + j)) N (length sums.old) sums.old sums.new }
    {
        let mut weights = [0.0; N];
        weights.copy_from_slice(&self.weights[k..k + N]);
        let part = Under {
            values: &self.values[k * self.dilation..],
            weights: &weights,
            ..*self
        };
        part.add_each(sums);
    }

    // The same, three taps at a time where as many are left, else one: each time the sums are read and written once. A `for` has one step, so that it would
    // take two loops, one after the other, and the place where the first ends.
    fn add_all(&self, sums: &mut [f32])
        requires some { 1 ≤ length sums.old }
        requires held { (x k : ℕ) → x < length sums.old → k < length self.now.weights.now → x * self.now.stride + k * self.now.dilation < length self.now.values.now }
        ensures { Summed (across self.now.values.now self.now.weights.now self.now.stride self.now.dilation) (length self.now.weights.now) (length sums.old) sums.old sums.new }
    {
        let mut k = 0;
        while k < self.weights.len() {
            if 3 <= self.weights.len() - k {
                self.add_some::<3>(sums, k);
                k += 3;
            } else {
                self.add_some::<1>(sums, k);
                k += 1;
            }
        }
    }

    // All taps of as many sums as have them among the values. A few sums are taken one after another. Put in place of each call, so that it is compiled with the
    // steps that the call is given.
    #[inline(always)]
    fn add(&self, sums: &mut [f32])
        ensures { Summed (across self.now.values.now self.now.weights.now self.now.stride self.now.dilation) (length self.now.weights.now) (held (length sums.old) (length self.now.values.now) (length self.now.weights.now) self.now.stride self.now.dilation) sums.old sums.new }
    {
        let n = self.held(sums.len());
        let held = &mut sums[..n];
        if n < 5 {
            self.add_each(held);
            return;
        }
        self.add_all(held);
    }
}

// The sum at x takes tap after tap the values at x * stride, x * stride + dilation, .., each with its weight, where the values hold them all. The stride 1, and
// with it the dilation 1, is handed on as a number, so that its loops are compiled by themselves.
pub fn add_taps(sums: &mut [f32], values: &[f32], weights: &[f32], stride: usize, dilation: usize)
    ensures { Summed (across values.now weights.now stride dilation) (length weights.now) (held (length sums.old) (length values.now) (length weights.now) stride dilation) sums.old sums.new }
{
    let row = Under {
        values,
        weights,
        stride,
        dilation,
    };
    match (stride, dilation) {
        (1, 1) => Under {
            stride: 1,
            dilation: 1,
            ..row
        }
        .add(sums),
        (1, _) => Under { stride: 1, ..row }.add(sums),
        _ => row.add(sums),
    }
}

// Each sum takes the value beside it, with one weight, as far as both slices go.
pub fn add_beside(sums: &mut [f32], values: &[f32], weight: f32)
    ensures { Summed (λ x k. pair (read values.now x) weight) 1 (min (length sums.old) (length values.now)) sums.old sums.new }
{
    let n = sums.len().min(values.len());
    let row = Under {
        values,
        weights: &[weight],
        stride: 1,
        dilation: 1,
    };
    row.add_each(&mut sums[..n]);
}

// ---- the start of a row

// Each sum becomes +0 with one tap outside the input, which is +0 again for every finite weight. A loop that stores 0.0 itself would be compiled to a call of
// memset, and the library calls nothing.
pub fn start(sums: &mut [f32], weight: f32)
    ensures { sums.new ≡ tabulate (λ x. add_tap plus_zero (pair plus_zero weight)) (length sums.old) }
{
    for sum in sums.iter_mut() {
        *sum = add_product(0.0, 0.0, weight);
    }
}

// ---- transposed convolution

// The sums at 0, stride, 2 * stride, .. take the values one after another, with one weight.
fn add_values(sums: &mut [f32], values: &[f32], stride: usize, weight: f32)
    requires by_index { (m : ℕ) → m < length values.now → m * stride < length sums.old }
    requires stride_1 { 1 ≤ stride }
    ensures { Summed (spread values.now weight stride) 1 (length sums.old) sums.old sums.new }
{
    for (m, value) in values.iter().enumerate() {
        let x = m * stride;
        sums[x] = add_product(sums[x], *value, weight);
    }
}

// The same, as far as both slices go; a stride of 0 reaches no sum. The stride 1 is handed on as a number, so that its loop is compiled by itself.
pub fn add_spread(sums: &mut [f32], values: &[f32], stride: usize, weight: f32)
    ensures { Summed (spread values.now weight stride) 1 (length sums.old) sums.old sums.new }
{
    if stride == 0 {
        return;
    }
    let n = values.len().min(ceil_div(sums.len(), stride));
    match stride {
        1 => add_values(sums, &values[..n], 1, weight),
        _ => add_values(sums, &values[..n], stride, weight),
    }
}
