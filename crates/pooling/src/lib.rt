// Max pooling with indices over lent f32 tensors.
#![tactic(auto)]

ghost use Rattle.std.specs.Prelude.{◌+◌, ◌*◌, ◌≤◌, ◌<◌, ◌^◌, ◌≡◌, length};
ghost use Rattle.taps.specs.Joins.{forward};
ghost use Rattle.shape.specs.Facts.{Pooled};
ghost use Rattle.shape.specs.Volumes.{input_rows, on_rows};
ghost use Rattle.tensor.specs.Table.{tabulate};
ghost use Rattle.pooling.specs.Call.{value_of, index_of, pooled_value, pooled_index, max_pool_answer, max_pool_values, max_pool_indices};
ghost use Rattle.pooling.specs.Steps.{after_tap, after_taps, column_step, row_step, plane_window};

use call::check_pool;
use layer::{Layer, Refusal};
use shape::{Shape, input_rows, kernel_rows, out_rows, row_tap};
use sizes::Span;
use taps::direction::Forward;
use taps::forward;
use tensor::{Window, better};

// The lent input of a call, with the shape that it fits.
#[derive(Clone, Copy)]
struct Pooling<'a> {
    shape: Shape,
    input: &'a [f32],
    ghost pooled: { Pooled shape },
    ghost input_len: { length input.now ≡ shape.inputs },
}

// ---- the window scan

// The window after tap k of output column q, in a row that begins at place `start` of the input.
fn with_tap(row: &[f32], start: usize, x: Span, q: u32, k: u32, w: Window) -> Window
    requires { (length row.now ≡ x.input) × (start + x.input < 2 ^ 62) }
    ensures { result ≡ after_tap (column_step row.now start) (forward x q k) w }
{
    let t = forward(x, q, k);
    match t {
        None => w,
        Some(c) => better(w, row[c], start + c),
    }
}

// The window after every tap of a row.
#[tactic(auto, unfolding(crate::specs::Steps::after_taps))]
fn scan_row(row: &[f32], start: usize, x: Span, q: u32, w: Window) -> Window
    requires { (length row.now ≡ x.input) × (start + x.input < 2 ^ 62) }
    ensures { result ≡ after_taps (forward x q) (column_step row.now start) x.kernel w }
{
    let mut best = w;
    for k in 0..x.kernel {
        best = with_tap(row, start, x, q, k, best);
    }
    best
}

impl Pooling<'_> {
    // The window after the taps of kernel row k, in the plane whose row 0 is number `first` of all rows of the input.
    fn with_row(&self, first: usize, p: u32, q: u32, k: u32, w: Window) -> Window
        requires { (first + input_rows self.now.shape) * self.now.shape.x.input ≤ self.now.shape.inputs }
        ensures { result ≡ after_tap (row_step self.now.input.now first self.now.shape.x q) (on_rows forward self.now.shape p k) w }
    {
        let t = row_tap::<Forward>(self.shape, p, k);
        match t {
            None => w,
            Some(r) => {
                let x = self.shape.x;
                let width = x.input as usize;
                let from = (first + r) * width;
                let to = from + width;
                scan_row(&self.input[from..to], from, x, q, w)
            }
        }
    }

    // The window of a plane at output row p and column q.
    #[tactic(auto, unfolding(crate::specs::Steps::after_taps))]
    fn scan_window(&self, first: usize, p: u32, q: u32) -> Window
        requires { (first + input_rows self.now.shape) * self.now.shape.x.input ≤ self.now.shape.inputs }
        ensures { result ≡ plane_window self.now.input.now first self.now.shape p q Window.Empty }
    {
        let mut best = Window::Empty;
        for k in 0..kernel_rows(self.shape) {
            best = self.with_row(first, p, q, k as u32, best);
        }
        best
    }

    // Writes the value and the index of each output of one row, of number `line` among all rows. Both go by number: the contract of `zip` does not tell what they
    // hold after it, and an iterator over the values has no other place that a wrong store could name (must-fail/first_window_written).
    fn fill_line(&self, line: usize, values: &mut [f32], indices: &mut [i64])
        requires line_in { line * self.now.shape.x.out + self.now.shape.x.out ≤ self.now.shape.outputs }
        requires values_len { (length values.old ≡ self.now.shape.x.out) × (length indices.old ≡ self.now.shape.x.out) }
        ensures values_after { values.new ≡ tabulate (λ q. pooled_value self.now.input.now self.now.shape (line * self.now.shape.x.out + q)) self.now.shape.x.out }
        ensures indices_after { indices.new ≡ tabulate (λ q. pooled_index self.now.input.now self.now.shape (line * self.now.shape.x.out + q)) self.now.shape.x.out }
    {
        let rows = out_rows(self.shape);
        let first = line / rows * input_rows(self.shape);
        let p = (line % rows) as u32;
        for q in 0..values.len() {
            let w = self.scan_window(first, p, q as u32);
            values[q] = value_of(w);
            indices[q] = index_of(self.shape.modulus, w);
        }
    }

    // Writes the value and the index of every output, row by row. No `chunks_mut`: a proof knows no element of the slices after it.
    fn fill(&self, values: &mut [f32], indices: &mut [i64])
        requires values_len { (length values.old ≡ self.now.shape.outputs) × (length indices.old ≡ self.now.shape.outputs) }
        ensures values_after { values.new ≡ tabulate (pooled_value self.now.input.now self.now.shape) self.now.shape.outputs }
        ensures indices_after { indices.new ≡ tabulate (pooled_index self.now.input.now self.now.shape) self.now.shape.outputs }
    {
        let width = self.shape.x.out as usize;
        for line in 0..values.len() / width {
            let from = line * width;
            let to = from + width;
            self.fill_line(line, &mut values[from..to], &mut indices[from..to]);
        }
    }
}

// ---- value and index

// A window's value; no window of an accepted call is empty.
fn value_of(w: Window) -> f32
    ensures { result ≡ value_of w }
{
    match w {
        Window::Empty => 0.0,
        Window::Best(v, _) => v,
    }
}

// A window's index.
fn index_of(modulus: usize, w: Window) -> i64
    requires { (1 ≤ modulus) × (modulus ≤ 16777216) }
    ensures { result ≡ index_of modulus w }
{
    let Window::Best(_, p) = w else {
        return 0;
    };
    (p % modulus) as i64
}

// ---- the call

// Max pooling: checks 1 to 9, and only then every output. No call is asked to be valid: each is answered.
pub fn max_pool(
    layer: Layer,
    input: &[f32],
    values: &mut [f32],
    indices: &mut [i64],
) -> Result<(), Refusal>
    ensures answer { result ≡ max_pool_answer layer input.now values.old indices.old }
    ensures values { values.new ≡ max_pool_values layer input.now values.old indices.old }
    ensures indices { indices.new ≡ max_pool_indices layer input.now values.old indices.old }
{
    let shape = check_pool(layer, input, values.len(), indices.len())?;
    let pooling = Pooling { shape, input };
    pooling.fill(values, indices);
    Ok(())
}
