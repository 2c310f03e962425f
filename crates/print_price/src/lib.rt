// Prices as texts, in full and short, and by value (document 01, "Price and conditions"): the length of each text and its
// writer, which is lent the rest of the tape.
#![tactic(auto)]

ghost use Rattle.std.specs.Prelude.{◌≡◌, ◌+◌, ◌≤◌, ◌<◌, ◌^◌, ◌++◌, length};
ghost use Rattle.text.specs.Bytes.{bytes};
ghost use Rattle.text.specs.Pick.{pick};
ghost use Rattle.text.specs.Put.{Written};
ghost use Rattle.text.specs.Decimal.{places};
ghost use Rattle.rules.specs.Price.{whole_part, fraction, units, whole_text, fraction_text, dollars_text, price_text, form_by};
ghost use Rattle.print_price.specs.Sound.{Sound};

use rules::{Price, PriceForm};

// Ten to the power k.
// Kept: a table, since each trade asks for it; `pow` is a loop.
pub fn power(k: u64) -> u64
    requires { k ≤ 8 }
    ensures { (result ≡ 10 ^ k) × (1 ≤ result) }
{
    match k {
        0 => 1,
        1 => 10,
        2 => 100,
        3 => 1000,
        4 => 10000,
        5 => 100000,
        6 => 1000000,
        7 => 10000000,
        _ => 100000000,
    }
}

#[tactic(auto, unfolding(rules::specs::Price::whole_part))]
pub fn whole_part(p: Price) -> u64
    requires { p.d ≤ 8 }
    ensures { result ≡ whole_part p }
{
    p.n / power(p.d)
}

#[tactic(auto, unfolding(rules::specs::Price::fraction))]
fn fraction_of(p: Price) -> u64
    requires { p.d ≤ 8 }
    ensures { result ≡ fraction p }
{
    p.n % power(p.d)
}

// The price in units of ten to the power -8 dollars.
pub fn in_units(p: Price) -> u64
    requires { Sound p }
    ensures { (result ≡ units p) × (result < 10 ^ 14) }
{
    p.n * power(8 - p.d)
}

// Whole part without leading zeros, nothing if 0.
#[tactic(auto, unfolding(rules::specs::Price::whole_text, text::specs::Pick::pick))]
pub fn whole_length(w: u64) -> usize
    ensures { (result ≡ length (whole_text w)) × (result ≤ 20) }
{
    if w == 0 {
        0 // no digit
    } else {
        text::decimal_length(w)
    }
}

#[tactic(auto, using(text::proofs::Writing::written_nothing), unfolding(rules::specs::Price::whole_text, text::specs::Pick::pick))]
pub fn write_whole(rest: &mut [u8], w: u64) -> usize
    requires { length (whole_text w) ≤ length rest.old }
    ensures { Written (whole_text w) rest.old rest.new result }
{
    if w == 0 {
        0 // nothing written
    } else {
        text::write_decimal(rest, w)
    }
}

// Figure dot and d digits, unless the fraction is zero.
#[tactic(auto, using(crate::proofs::Texts::dotted_length), unfolding(rules::specs::Price::fraction_text, text::specs::Pick::pick))]
fn fraction_length(d: u64, f: u64) -> usize
    requires { d ≤ 8 }
    ensures { (result ≡ length (fraction_text d f)) × (result ≤ 9) }
{
    if f == 0 { 0 } else { 1 + d as usize }
}

// A figure dot and k digits of f.
fn write_dotted(rest: &mut [u8], k: usize, f: u64) -> usize
    requires { k + 1 ≤ length rest.old }
    ensures { Written (bytes "," ++ places k f) rest.old rest.new result }
{
    let at = text::write_bytes(rest, b",");
    at + text::write_places(&mut rest[at..], f, k)
}

#[tactic(auto, using(text::proofs::Writing::written_nothing, text::proofs::Decimal::length_places), unfolding(rules::specs::Price::fraction_text, text::specs::Pick::pick))]
fn write_fraction(rest: &mut [u8], d: u64, f: u64) -> usize
    requires { length (fraction_text d f) ≤ length rest.old }
    ensures { Written (fraction_text d f) rest.old rest.new result }
{
    if f == 0 {
        0
    } else {
        write_dotted(rest, d as usize, f)
    }
}

// In full, or otherwise short.
#[tactic(auto, unfolding(rules::specs::Price::form_by, text::specs::Pick::pick))]
pub fn form_of(full: bool) -> PriceForm
    ensures { result ≡ form_by full }
{
    if full {
        PriceForm::Full
    } else {
        PriceForm::Short
    }
}

// The whole part in its form.
#[tactic(auto, unfolding(rules::specs::Price::dollars_text, rules::specs::Price::short_whole))]
fn dollars_length(form: PriceForm, w: u64) -> usize
    ensures { (result ≡ length (dollars_text form w)) × (result ≤ 20) }
{
    match form {
        PriceForm::Full => whole_length(w),
        PriceForm::Short => 1,
    }
}

#[tactic(auto, unfolding(rules::specs::Price::dollars_text, rules::specs::Price::short_whole, text::specs::Decimal::places))]
fn write_dollars(rest: &mut [u8], form: PriceForm, w: u64) -> usize
    requires { length (dollars_text form w) ≤ length rest.old }
    ensures { Written (dollars_text form w) rest.old rest.new result }
{
    match form {
        PriceForm::Full => write_whole(rest, w),
        PriceForm::Short => text::write_places(rest, w, 1),
    }
}

pub fn price_length(form: PriceForm, p: Price) -> usize
    requires { p.d ≤ 8 }
    ensures { (result ≡ length (price_text form p)) × (result ≤ 29) }
{
    dollars_length(form, whole_part(p)) + fraction_length(p.d, fraction_of(p))
}

pub fn write_price(rest: &mut [u8], form: PriceForm, p: Price) -> usize
    requires { (p.d ≤ 8) × (length (price_text form p) ≤ length rest.old) }
    ensures { Written (price_text form p) rest.old rest.new result }
{
    let whole = whole_part(p);
    let fraction = fraction_of(p);
    let at = write_dollars(rest, form, whole);
    at + write_fraction(&mut rest[at..], p.d, fraction)
}
