// Bytes as text: words, numbers, lists of numbers and lines with a key, read from lent bytes. Text and place stay two parameters, as in the definitions, and the next
// place is part of the answer: a struct that moves on would need clauses on where it stands, after a refusal too.
#![tactic(auto)]

ghost use Rattle.std.specs.Prelude.{◌≤◌, ◌≡◌};
ghost use Rattle.text.specs.Texts.{place, starts_with, same, part};
ghost use Rattle.text.specs.Numbers.{number, in_range, digits};
ghost use Rattle.text.specs.Lists.{one_item, more_item, spelled, numbers};
ghost use Rattle.text.specs.Lines.{line, value_at};

// Up to six numbers; those that are not used are 0. They are no array: each is read by a name, which is always there, and not by an index, which needs a proof.
#[derive(Clone, Copy)]
pub struct Items {
    pub a: u32,
    pub b: u32,
    pub c: u32,
    pub d: u32,
    pub e: u32,
    pub f: u32,
}

// A line with its key: where its value starts and ends, and where the next line starts.
#[derive(Clone, Copy)]
pub struct Line {
    pub start: usize,
    pub end: usize,
    pub next: usize,
}

// ---- values of numbers

// One number.
pub fn one_item(x: u32) -> Items
    ensures { result ≡ one_item x }
{
    Items {
        a: x,
        b: 0,
        c: 0,
        d: 0,
        e: 0,
        f: 0,
    }
}

// A number in front of others.
pub fn more_item(x: u32, items: Items) -> Items
    ensures { result ≡ more_item x items }
{
    Items {
        a: x,
        b: items.a,
        c: items.b,
        d: items.c,
        e: items.d,
        f: items.e,
    }
}

// ---- texts

// The first place of a byte, or the length.
pub fn find(t: &[u8], b: u8) -> usize
    ensures { result ≡ place b t.now }
{
    t.iter().position(|x| *x == b).unwrap_or(t.len())
}

// Whether the text starts with w.
#[tactic(auto, using(crate::proofs::TextLaws::starts_is))]
pub fn starts(t: &[u8], w: &[u8]) -> bool
    ensures { result ≡ starts_with w.now t.now }
{
    t.starts_with(w)
}

// Whether the text is w. `==` needs `same_is` alone; with the rest its lengths and its front may be compared apart, so that no form refuses must-fail/longer_word.
#[tactic(auto, using(crate::proofs::TextLaws::same_is, crate::proofs::TextLaws::starts_is), unfolding(crate::specs::Texts::same))]
pub fn is_text(t: &[u8], w: &[u8]) -> bool
    ensures { result ≡ same w.now t.now }
{
    t == w
}

// The bytes from a up to e, as far as the text goes.
pub fn part_of(s: &[u8], a: usize, e: usize) -> &[u8]
    ensures { result.now ≡ part s.now a e }
{
    s.get(a..e.min(s.len())).unwrap_or(&[])
}

// ---- reading

// The value of a text of digits, up to the largest number.
fn read_digits(t: &[u8]) -> Option<u32>
    ensures { result ≡ in_range (digits 0 t.now) }
{
    let mut value: u32 = 0;
    for b in t {
        if !b.is_ascii_digit() {
            return None;
        }
        value = value.checked_mul(10)?.checked_add(u32::from(b - b'0'))?;
    }
    Some(value)
}

// The number that a whole text spells.
pub fn read_number(t: &[u8]) -> Option<u32>
    ensures { result ≡ number t.now }
{
    let (first, rest) = t.split_first()?;
    if *first == b'0' && !rest.is_empty() {
        return None;
    }
    read_digits(t)
}

// The list of so many numbers that a whole text spells: the first, then the others.
fn spelled_numbers(t: &[u8], count: usize) -> Option<Items>
    requires { count ≤ 6 }
    ensures { result ≡ spelled count t.now }
{
    if count == 0 {
        return None;
    }
    if count == 1 {
        return Some(one_item(read_number(t)?));
    }
    let comma = find(t, b',');
    if t.len() <= comma {
        return None;
    }
    let x = read_number(&t[..comma])?;
    let items = spelled_numbers(&t[comma + 1..], count - 1)?;
    Some(more_item(x, items))
}

// The list of so many numbers, up to six, that a whole text spells.
#[tactic(auto, unfolding(crate::specs::Lists::numbers))]
pub fn read_numbers(t: &[u8], count: usize) -> Option<Items>
    ensures { result ≡ numbers count t.now }
{
    if 6 < count {
        return None;
    }
    spelled_numbers(t, count)
}

// The value that starts at a place: up to the line's end.
fn value_at(s: &[u8], start: usize) -> Option<Line>
    ensures { result ≡ value_at s.now start }
{
    let end = start + find(s.get(start..)?, b'\n');
    if end < s.len() {
        return Some(Line {
            start,
            end,
            next: end + 1,
        });
    }
    None
}

// The line at a place, where it has the key and an end.
pub fn read_line(s: &[u8], at: usize, key: &[u8]) -> Option<Line>
    ensures { result ≡ line key.now s.now at }
{
    if starts(s.get(at..)?, key) {
        return value_at(s, at + key.len());
    }
    None
}
