// The f32 sums of taps. What is proved of every such sum stands in proofs/: no overflow (Finite), demand 3 (Demand).
#![tactic(auto)]

ghost use Rattle.std.specs.Prelude.{◌≡◌};
ghost use Rattle.sums.specs.Taps.{add_tap, pair};

// How the taps of an output are summed: one after another in document 01's order, or a run of them by its two halves. Each may give other bits.
#[derive(Clone, Copy)]
pub enum Profile {
    Running,
    Halved,
}

// One tap more: the product rounds once and the sum rounds once.
#[tactic(auto, unfolding(crate::specs::Taps::add_tap))]
pub fn add_product(sum: f32, value: f32, weight: f32) -> f32
    ensures { result ≡ add_tap sum (pair value weight) }
{
    sum + value * weight
}
