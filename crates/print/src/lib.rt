// Bytes put into a lent buffer: texts, numbers and lists of numbers. Each function puts its bytes from a place on, as far as the buffer goes, and
// tells the next place. Buffer and place stay two parameters: in a struct that holds the lent buffer, each contract needs a clause more, that it is the same buffer.
#![tactic(auto)]

ghost use Rattle.std.specs.Prelude.{◌≤◌, [], ◌∷◌, ◌≡◌};
ghost use Rattle.text.specs.Numbers.{decimal};
ghost use Rattle.text.specs.Lists.{shown, show_numbers};
ghost use Rattle.print.specs.Put.{Put};

use text::Items;

pub fn put_byte(buf: &mut [u8], at: usize, b: u8) -> usize
    ensures { Put buf.old at (b ∷ []) result buf.new }
{
    if at < buf.len() {
        buf[at] = b;
    }
    at.saturating_add(1)
}

pub fn put_text(buf: &mut [u8], at: usize, src: &[u8]) -> usize
    ensures { Put buf.old at src.now result buf.new }
{
    let mut next = at;
    for b in src {
        next = put_byte(buf, next, *b);
    }
    next
}

// A number in decimal.
pub fn put_number(buf: &mut [u8], at: usize, n: u32) -> usize
    ensures { Put buf.old at (decimal n) result buf.new }
{
    if n < 10 {
        return put_byte(buf, at, b'0' + n as u8);
    }
    let next = put_number(buf, at, n / 10);
    put_byte(buf, next, b'0' + (n % 10) as u8)
}

// So many of the numbers, with a comma between two: the first, then the others.
fn put_shown(buf: &mut [u8], at: usize, count: usize, items: Items) -> usize
    requires { count ≤ 6 }
    ensures { Put buf.old at (shown count items) result buf.new }
{
    if count == 0 {
        return at;
    }
    let next = put_number(buf, at, items.a);
    if count == 1 {
        return next;
    }
    let comma = put_byte(buf, next, b',');
    put_shown(
        buf,
        comma,
        count - 1,
        Items {
            a: items.b,
            b: items.c,
            c: items.d,
            d: items.e,
            e: items.f,
            f: 0,
        },
    )
}

// So many of the numbers, up to six, with a comma between two.
#[tactic(auto, unfolding(text::specs::Lists::show_numbers))]
pub fn put_numbers(buf: &mut [u8], at: usize, count: usize, items: Items) -> usize
    ensures { Put buf.old at (show_numbers count items) result buf.new }
{
    put_shown(buf, at, count.min(6), items)
}
