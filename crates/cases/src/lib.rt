// The lines of test cases, as the programs `vectors` and `records` read them: the value of a line, and where a later line starts.
#![tactic(auto)]

ghost use Rattle.std.specs.Prelude.{◌≡◌};
ghost use Rattle.cases.specs.Lines.{value_of, after_line, after_version, after_sheet};

pub mod outputs;

use text::{part_of, read_line};

// The value of the line at a place, after its key; empty where there is no such line.
#[tactic(auto, unfolding(crate::specs::Lines::value_of))]
pub fn value_of<'a>(s: &'a [u8], at: usize, key: &[u8]) -> &'a [u8]
    ensures { result.now ≡ value_of key.now s.now at }
{
    match read_line(s, at, key) {
        Some(line) => part_of(s, line.start, line.end),
        None => &s[..0],
    }
}

// Where the next line starts.
#[tactic(auto, unfolding(crate::specs::Lines::after_line))]
pub fn after_line(s: &[u8], at: usize) -> usize
    ensures { result ≡ after_line s.now at }
{
    read_line(s, at, b"").map_or(s.len(), |line| line.next)
}

// Where the op line of the sheet at a place starts: after its version line, if it has one.
#[tactic(auto, unfolding(crate::specs::Lines::after_version))]
fn after_version(s: &[u8], at: usize) -> usize
    ensures { result ≡ after_version s.now at }
{
    read_line(s, at, b"version=").map_or(at, |line| line.next)
}

// Where the line starts that comes after the lines of a sheet, 12 and a version line if it has one.
pub fn after_sheet(s: &[u8], at: usize) -> usize
    ensures { result ≡ after_sheet s.now at }
{
    let mut next = after_version(s, at);
    for _ in 0u32..12 {
        next = after_line(s, next);
    }
    next
}
