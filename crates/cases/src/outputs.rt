// What a test case says of an output: the whole number that a value is, and whether it is as it was before a call.

ghost use Rattle.std.specs.Prelude.{◌≡◌};
ghost use Rattle.cases.specs.Outputs.{whole_number, is_kept};

use std::num::truncating_f32_to_u64;

// 2^41
const LIMIT: f32 = 2199023255552.0;

// The whole number below 2^41 that a value is.
pub fn whole_number(value: f32) -> Option<u64>
    ensures { result ≡ whole_number value }
{
    let is_whole = (0.0 <= value) & (value < LIMIT) & (value.fract() == 0.0);
    if is_whole {
        Some(truncating_f32_to_u64(value))
    } else {
        None
    }
}

// Whether each element is still the mark that was put there.
pub fn is_kept<T: PartialEq>(list: &[T], mark: &T) -> bool
    ensures { result ≡ is_kept T.eq mark.now list.now }
{
    list.iter().all(|x| x == mark)
}
