// The values of a sheet's lines as numbers, read from lent bytes and put into a lent buffer: words, the number of axes, lists and the axis.
#![tactic(auto)]

ghost use Rattle.std.specs.Prelude.{◌≤◌, ◌≡◌};
ghost use Rattle.text.specs.Lists.{last_number};
ghost use Rattle.text.specs.Numbers.{number};
ghost use Rattle.print.specs.Put.{Put};
ghost use Rattle.values.specs.Words.{later_words, word_at, word_place};
ghost use Rattle.values.specs.Values.{words, word_count, axes_number, signed, digit_from, axis_number, show_axis, field_value, show_field, unread, is_default_value};
ghost use Rattle.values.specs.Kinds.{op_of, op_items, auto_pad_of, auto_pad_items, rounding_of, rounding_items, axis_of, axis_items};

use layer::{AutoPad, Op, Rounding, SheetError, axes_in};
use print::{put_byte, put_number, put_numbers, put_text};
use text::{Items, find, is_text, one_item, part_of, read_number, read_numbers};

// A line's field is a value and no type of a trait: the forms of `lines` and `fields` (`Form`, `field_value`) hold it in their definitions, for the reader and the writer.
// What a line's value is: a word of a table (of roundings, those that a version knows), the number of axes, a list of so many numbers, or an axis.
#[derive(Clone, Copy)]
pub enum Field {
    VersionWord,
    OpWord,
    AxesNumber,
    NumberList(usize),
    AutoPadWord,
    RoundingWord(u32),
    AxisDigit,
}

// A digit, and 1 after a minus: numbers, for a value is `Items` whatever its line, and the definitions of the axis name them.
fn signed(digit: u32, minus: u32) -> Items
    ensures { result ≡ signed digit minus }
{
    Items {
        a: digit,
        b: minus,
        c: 0,
        d: 0,
        e: 0,
        f: 0,
    }
}

// ---- words: a table is one text with commas, as the definitions `words` and `word_at` have it

// The table of the words after the first.
fn later_words(table: &[u8]) -> &[u8]
    ensures { result.now ≡ later_words table.now }
{
    part_of(table, find(table, b',') + 1, table.len())
}

// The word at a place of a table; none past its end.
fn word_at(table: &[u8], place: u32) -> &[u8]
    ensures { result.now ≡ word_at place table.now }
{
    let mut rest = table;
    for _ in 0..place {
        if rest.is_empty() {
            return rest;
        }
        rest = later_words(rest);
    }
    part_of(rest, 0, find(rest, b','))
}

// The place of a word in a table of so many words.
fn word_place(t: &[u8], table: &[u8], count: u32) -> Option<u32>
    ensures { result ≡ word_place count table.now t.now }
{
    for place in 0..count {
        if is_text(t, word_at(table, place)) {
            return Some(place);
        }
    }
    None
}

// The table of a field's words; a field of numbers has none.
fn words(field: Field) -> &'static [u8]
    ensures { result.now ≡ words field }
{
    match field {
        Field::VersionWord => b"14",
        Field::OpWord => b"convolution,transposed,maxpool",
        Field::AutoPadWord => b"explicit,same_upper,same_lower,valid",
        Field::RoundingWord(_) => b"floor,ceil,ceil_torch",
        Field::AxesNumber | Field::NumberList(_) | Field::AxisDigit => b"",
    }
}

// How many of them are read.
fn word_count(field: Field) -> u32
    ensures { result ≡ word_count field }
{
    match field {
        Field::VersionWord => 1,
        Field::OpWord => 3,
        Field::AutoPadWord => 4,
        Field::RoundingWord(8) => 2,
        Field::RoundingWord(_) => 3,
        Field::AxesNumber | Field::NumberList(_) | Field::AxisDigit => 0,
    }
}

// The place of a word in the table of its field.
#[tactic(auto, unfolding(text::specs::Lists::last_number))]
fn read_word(t: &[u8], field: Field) -> Option<Items>
    ensures { result ≡ last_number (word_place (word_count field) (words field) t.now) }
{
    let place = word_place(t, words(field), word_count(field))?;
    Some(one_item(place))
}

// The word at a place in the table of its field.
fn put_word(buf: &mut [u8], at: usize, field: Field, place: u32) -> usize
    ensures { Put buf.old at (word_at place (words field)) result buf.new }
{
    put_text(buf, at, word_at(words(field), place))
}

// ---- reading

#[tactic(auto, unfolding(crate::specs::Values::axes_number, text::specs::Lists::last_number))]
fn axes_number(t: &[u8]) -> Option<Items>
    ensures { result ≡ last_number (axes_number (number t.now)) }
{
    let n = read_number(t)?;
    if axes_in(n) {
        return Some(one_item(n));
    }
    None
}

// A digit from low on.
fn axis_digit(low: u8, minus: u32, b: u8) -> Option<Items>
    requires { 48 ≤ low }
    ensures { result ≡ digit_from low minus b }
{
    if !(low..=b'9').contains(&b) {
        return None;
    }
    Some(signed(u32::from(b - b'0'), minus))
}

fn axis_number(t: &[u8]) -> Option<Items>
    ensures { result ≡ axis_number t.now }
{
    match t {
        [b] => axis_digit(b'0', 0, *b),
        [b'-', b] => axis_digit(b'1', 1, *b),
        _ => None,
    }
}

// What a text spells as a value of a field.
#[tactic(auto, unfolding(crate::specs::Values::field_value))]
pub fn value_of(t: &[u8], field: Field) -> Option<Items>
    ensures { result ≡ field_value field t.now }
{
    match field {
        Field::VersionWord | Field::OpWord | Field::AutoPadWord | Field::RoundingWord(_) =>
            read_word(t, field),
        Field::AxesNumber => axes_number(t),
        Field::NumberList(count) => read_numbers(t, count),
        Field::AxisDigit => axis_number(t),
    }
}

// What a value that breaks its rules is refused with.
pub fn unread_error(field: Field) -> SheetError
    ensures { result ≡ unread field }
{
    match field {
        Field::OpWord | Field::AutoPadWord | Field::RoundingWord(_) => SheetError::Word,
        Field::VersionWord | Field::AxesNumber | Field::NumberList(_) | Field::AxisDigit =>
            SheetError::Number,
    }
}

pub fn is_default_value(items: Items) -> bool
    ensures { result ≡ is_default_value items }
{
    items.a == 0 && items.b == 0 && items.c == 0
}

// ---- writing

fn put_axis(buf: &mut [u8], at: usize, items: Items) -> usize
    ensures { Put buf.old at (show_axis items) result buf.new }
{
    if items.b == 0 {
        return put_number(buf, at, items.a);
    }
    let digit = put_byte(buf, at, b'-');
    put_number(buf, digit, items.a)
}

// The text of a value, from a place on.
#[tactic(auto, unfolding(crate::specs::Values::show_field))]
pub fn put_value(buf: &mut [u8], at: usize, field: Field, items: Items) -> usize
    ensures { Put buf.old at (show_field field items) result buf.new }
{
    match field {
        Field::VersionWord | Field::OpWord | Field::AutoPadWord | Field::RoundingWord(_) =>
            put_word(buf, at, field, items.a),
        Field::AxesNumber => put_number(buf, at, items.a),
        Field::NumberList(count) => put_numbers(buf, at, count, items),
        Field::AxisDigit => put_axis(buf, at, items),
    }
}

// ---- values that are no numbers in the layer record. They are functions and no impls of From: an impl stands with its trait or
// its type, and `layer` and `text` know no tables of words.

pub fn op_of(items: Items) -> Op
    ensures { result ≡ op_of items }
{
    match items.a {
        0 => Op::Convolution,
        1 => Op::Transposed,
        _ => Op::MaxPool,
    }
}

pub fn op_items(op: Op) -> Items
    ensures { result ≡ op_items op }
{
    match op {
        Op::Convolution => one_item(0),
        Op::Transposed => one_item(1),
        Op::MaxPool => one_item(2),
    }
}

pub fn auto_pad_of(items: Items) -> AutoPad
    ensures { result ≡ auto_pad_of items }
{
    match items.a {
        0 => AutoPad::Explicit,
        1 => AutoPad::SameUpper,
        2 => AutoPad::SameLower,
        _ => AutoPad::Valid,
    }
}

pub fn auto_pad_items(mode: AutoPad) -> Items
    ensures { result ≡ auto_pad_items mode }
{
    match mode {
        AutoPad::Explicit => one_item(0),
        AutoPad::SameUpper => one_item(1),
        AutoPad::SameLower => one_item(2),
        AutoPad::Valid => one_item(3),
    }
}

pub fn rounding_of(items: Items) -> Rounding
    ensures { result ≡ rounding_of items }
{
    match items.a {
        0 => Rounding::Floor,
        1 => Rounding::Ceil,
        _ => Rounding::CeilTorch,
    }
}

pub fn rounding_items(rounding: Rounding) -> Items
    ensures { result ≡ rounding_items rounding }
{
    match rounding {
        Rounding::Floor => one_item(0),
        Rounding::Ceil => one_item(1),
        Rounding::CeilTorch => one_item(2),
    }
}

pub fn axis_of(items: Items) -> i32
    ensures { result ≡ axis_of items }
{
    if 9 < items.a {
        return 0;
    }
    let digit = items.a as i32;
    if items.b == 0 { digit } else { -digit }
}

pub fn axis_items(axis: i32) -> Items
    ensures { result ≡ axis_items axis }
{
    signed(axis.unsigned_abs(), u32::from(axis < 0))
}
