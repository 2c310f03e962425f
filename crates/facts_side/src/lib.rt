// A side that is shown in full, as text: price=P cond=L days=Y prev=Q vol=V. Prices are by value; `-` is none.
#![tactic(auto)]

ghost use Rattle.std.specs.Prelude.{◌≡◌, ◌≤◌, length};
ghost use Rattle.text.specs.Put.{Written};
ghost use Rattle.rules.specs.Shown.{shown_letters};
ghost use Rattle.facts_side.specs.Sides.{sequence_letters, settlement_letters, other_letters, letters_text, or_none, set_and_days, conditions_with, conditions_text, priced_text, full_text};

use rules::Letters;

// ---- conditions

// The letters as they are shown: N as M, C as K.
#[tactic(auto, unfolding(rules::specs::Shown::shown_letters))]
pub fn shown_letters(x: Letters) -> Letters
    ensures { result ≡ shown_letters x }
{
    Letters {
        n: false,
        m: x.n || x.m,
        c: false,
        k: x.c || x.k,
        ..x
    }
}

fn write_sequence(rest: &mut [u8], x: Letters) -> usize
    requires { length (sequence_letters x) ≤ length rest.old }
    ensures { Written (sequence_letters x) rest.old rest.new result }
{
    let a = text::write_optional(rest, x.o, b"O");
    let b = a + text::write_optional(&mut rest[a..], x.s, b"S");
    b + text::write_optional(&mut rest[b..], x.l, b"L")
}

fn write_settlement(rest: &mut [u8], x: Letters) -> usize
    requires { length (settlement_letters x) ≤ length rest.old }
    ensures { Written (settlement_letters x) rest.old rest.new result }
{
    let a = text::write_optional(rest, x.m, b"M");
    let b = a + text::write_optional(&mut rest[a..], x.k, b"K");
    b + text::write_optional(&mut rest[b..], x.r, b"R")
}

fn write_other(rest: &mut [u8], x: Letters) -> usize
    requires { length (other_letters x) ≤ length rest.old }
    ensures { Written (other_letters x) rest.old rest.new result }
{
    let a = text::write_optional(rest, x.b, b"B");
    let b = a + text::write_optional(&mut rest[a..], x.t, b"T");
    let c = b + text::write_optional(&mut rest[b..], x.j, b"J");
    c + text::write_optional(&mut rest[c..], x.g, b"G")
}

fn write_letters(rest: &mut [u8], x: Letters) -> usize
    requires { length (letters_text x) ≤ length rest.old }
    ensures { Written (letters_text x) rest.old rest.new result }
{
    let a = write_sequence(rest, x);
    let b = a + write_settlement(&mut rest[a..], x);
    b + write_other(&mut rest[b..], x)
}

fn write_set(rest: &mut [u8], x: Letters) -> usize
    requires { length (or_none (letters_text x)) ≤ length rest.old }
    ensures { Written (or_none (letters_text x)) rest.old rest.new result }
{
    let n = write_letters(rest, x);
    if n == 0 {
        text::write_bytes(rest, b"-")
    } else {
        n
    }
}

fn write_set_and_days(rest: &mut [u8], x: Letters, days: u64) -> usize
    requires { length (set_and_days x days) ≤ length rest.old }
    ensures { Written (set_and_days x days) rest.old rest.new result }
{
    let i = text::write_bytes(rest, b"cond=");
    let j = i + write_set(&mut rest[i..], x);
    let k = j + text::write_bytes(&mut rest[j..], b" days=");
    k + facts_value::write_number(&mut rest[k..], days)
}

// Kept: letters, days and previous last apart, as the callers have them.
pub fn write_conditions(rest: &mut [u8], letters: Letters, days: u64, previous: u64) -> usize
    requires { length (conditions_text (conditions_with letters days previous)) ≤ length rest.old }
    ensures { Written (conditions_text (conditions_with letters days previous)) rest.old rest.new result }
{
    let i = write_set_and_days(rest, letters, days);
    let j = i + text::write_bytes(&mut rest[i..], b" prev=");
    j + facts_value::write_value_or_none(&mut rest[j..], previous)
}

// ---- a side in full

pub fn write_priced(
    rest: &mut [u8],
    price: u64,
    letters: Letters,
    days: u64,
    previous: u64,
) -> usize
    requires { length (priced_text price (conditions_with letters days previous)) ≤ length rest.old }
    ensures { Written (priced_text price (conditions_with letters days previous)) rest.old rest.new result }
{
    let i = text::write_bytes(rest, b"price=");
    let j = i + facts_value::write_value(&mut rest[i..], price);
    let k = j + text::write_bytes(&mut rest[j..], b" ");
    k + write_conditions(&mut rest[k..], letters, days, previous)
}

pub fn write_full(
    rest: &mut [u8],
    price: u64,
    letters: Letters,
    days: u64,
    previous: u64,
    volume: u64,
) -> usize
    requires { length (full_text price (conditions_with letters days previous) volume) ≤ length rest.old }
    ensures { Written (full_text price (conditions_with letters days previous) volume) rest.old rest.new result }
{
    let i = write_priced(rest, price, letters, days, previous);
    let j = i + text::write_bytes(&mut rest[i..], b" vol=");
    j + text::write_decimal(&mut rest[j..], volume)
}
