// Volume and price of a side, written to the rest of the tape from the side's own columns. Each sets a fixed number of bytes
// there, and puts back those that stood behind its text.
#![tactic(auto)]

ghost use Rattle.std.specs.Prelude.{◌≡◌, ◌++◌, ◌+◌, ◌-◌, ◌/◌, ◌%◌, ◌≤◌, ◌<◌, eqb, ltb, length, take, drop};
ghost use Rattle.text.specs.Bytes.{bytes};
ghost use Rattle.text.specs.Pick.{pick, opt};
ghost use Rattle.text.specs.Put.{Written};
ghost use Rattle.text.specs.Decimal.{decimal};
ghost use Rattle.rules.specs.Volume.{volume_text};
ghost use Rattle.rules.specs.Price.{dollars_text, units, price_text};
ghost use Rattle.print_amounts.specs.Columns.{VolumeColumns, PriceColumns};

use rules::{Price, PriceForm};

// ---- digits

// 1 where a number is over a limit.
#[tactic(auto, unfolding(text::specs::Pick::pick))]
fn over(limit: u64, w: u64) -> usize
    ensures { (result ≡ pick (ltb limit w) 1 0) × (result ≤ 1) }
{
    if limit < w { 1 } else { 0 }
}

// How many digits a number up to 999,999 has.
fn digits_size(w: u64) -> usize
    requires { w < 1000000 }
    ensures { (result ≡ length (decimal w)) × (1 ≤ result) × (result ≤ 6) }
{
    1 + over(9, w) + over(99, w) + over(999, w) + over(9999, w) + over(99999, w)
}

// ---- the volume

// k columns of digits, then a mark: all is read before the first byte is written.
fn write_marked(
    rest: &mut [u8],
    part: &[u8],
    marks: &[u8],
    k: usize,
    from: usize,
    mark: usize,
    size: usize,
) -> usize
    requires { (from ≤ 9) × (length part.now ≡ 46) × (mark ≤ 8) × (length marks.now ≡ 12) × (k ≤ 4) × (size ≤ 4) × (24 ≤ length rest.old) }
    ensures { Written (take k (drop from part.now) ++ take size (drop mark marks.now)) rest.old rest.new result }
{
    let m = k + size;
    let kept: [u8; 8] = text::taken(rest, m);
    let digits: [u8; 4] = text::taken(part, from);
    let last: [u8; 4] = text::taken(marks, mark);
    text::write_bytes(rest, &digits);
    text::write_bytes(&mut rest[k..], &last);
    text::write_bytes(&mut rest[m..], &kept);
    m
}

// From 1 to 9,999: its digits are the side's own columns, and end in column 9.
fn write_short(rest: &mut [u8], part: &[u8], network: u64, unit: u64, v: u64) -> usize
    requires { (1 ≤ unit) × (v < 10000) × VolumeColumns part.now v × (24 ≤ length rest.old) }
    ensures { Written (volume_text network unit v) rest.old rest.new result }
{
    let f = print_volume::form_of(network, unit, v);
    if print_volume::is_unsaid(f.mark, v) {
        return 0;
    }
    let k = digits_size(v) - f.cut;
    let from = 9 - f.cut - k;
    write_marked(rest, part, &print_volume::MARKS, k, from, f.mark, f.size)
}

// Where it is shown. `part` is the side's columns, the volume in the first 9.
pub fn write_volume(
    rest: &mut [u8],
    part: &[u8],
    shows: bool,
    network: u64,
    unit: u64,
    v: u64,
) -> usize
    requires { (1 ≤ unit) × VolumeColumns part.now v × (length (opt shows (volume_text network unit v)) ≤ length rest.old) }
    ensures { Written (opt shows (volume_text network unit v)) rest.old rest.new result }
{
    if !shows {
        return 0;
    }
    if v < 10000 && 24 <= rest.len() {
        write_short(rest, part, network, unit, v)
    } else {
        print_volume::write_volume(rest, network, unit, v)
    }
}

// ---- the price

// The columns of the dollars that are printed.
fn dollars_size(form: PriceForm, w: u64) -> usize
    requires { (1 ≤ w) × (w < 1000000) }
    ensures { (result ≡ length (dollars_text form w)) × (1 ≤ result) × (result ≤ 6) }
{
    match form {
        PriceForm::Full => digits_size(w),
        PriceForm::Short => 1,
    }
}

// The bytes of the price: of the dollars alone where the fraction is zero.
#[tactic(auto, unfolding(text::specs::Pick::pick))]
fn text_size(value: u64, k: usize, d: usize) -> usize
    requires { (k ≤ 6) × (d ≤ 8) }
    ensures { (result ≡ pick (eqb (value % 100000000) 0) k (k + 1 + d)) × (result ≤ k + 1 + d) }
{
    if value % 100000000 == 0 { k } else { k + 1 + d }
}

// The first m of: k columns of dollars, figure dot, d columns of the fraction. n ends in column 14.
fn write_columns(rest: &mut [u8], columns: &[u8], k: usize, d: usize, m: usize) -> usize
    requires { (k ≤ 6) × (length columns.now ≡ 37) × (d ≤ 8) × (m ≤ k + 1 + d) × (40 ≤ length rest.old) }
    ensures { Written (take m (take k (drop (14 - d - k) columns.now) ++ bytes "," ++ take d (drop (14 - d) columns.now))) rest.old rest.new result }
{
    let point = 14 - d;
    let from = point - k;
    let kept: [u8; 16] = text::taken(rest, m);
    let dollars: [u8; 8] = text::taken(columns, from);
    let part: [u8; 8] = text::taken(columns, point);
    text::write_bytes(rest, &dollars);
    rest[k] = b',';
    text::write_bytes(&mut rest[k + 1..], &part);
    text::write_bytes(&mut rest[m..], &kept);
    m
}

// A price with a whole part: its digits are the side's own columns.
fn write_dollars(
    rest: &mut [u8],
    columns: &[u8],
    form: PriceForm,
    price: Price,
    value: u64,
    whole: u64,
) -> usize
    requires { PriceColumns columns.now price × (value ≡ units price) × (whole ≡ value / 100000000) × (1 ≤ whole) × (40 ≤ length rest.old) }
    ensures { Written (price_text form price) rest.old rest.new result }
{
    let k = dollars_size(form, whole);
    let d = price.d as usize;
    write_columns(rest, columns, k, d, text_size(value, k, d))
}

// `columns` are the side's from n on.
pub fn write_price(rest: &mut [u8], columns: &[u8], form: PriceForm, price: Price) -> usize
    requires { PriceColumns columns.now price × (length (price_text form price) ≤ length rest.old) }
    ensures { Written (price_text form price) rest.old rest.new result }
{
    let value = print_price::in_units(price);
    let whole = value / 100000000;
    if 0 < whole && 40 <= rest.len() {
        write_dollars(rest, columns, form, price, value, whole)
    } else {
        print_price::write_price(rest, form, price)
    }
}
