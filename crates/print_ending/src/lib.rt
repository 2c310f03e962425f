// The conditions at the end of a side as a text (document 01, "Price and conditions"): SELLER and its days, RULE127, the
// previous last; its length and its writer, which is lent the rest of the tape.
#![tactic(auto)]

ghost use Rattle.std.specs.Prelude.{◌≡◌, ◌≤◌, length};
ghost use Rattle.text.specs.Pick.{opt};
ghost use Rattle.text.specs.Put.{Written};
ghost use Rattle.rules.specs.Conditions.{seller_text, previous_text, at_end};

use rules::{Price, PriceForm, Side};

// SELLER and days, if there is R.
fn seller_length(r: bool, days: u64) -> usize
    ensures { (result ≡ length (opt r (seller_text days))) × (result ≤ 26) }
{
    if r { 6 + text::decimal_length(days) } else { 0 }
}

fn write_days(rest: &mut [u8], days: u64) -> usize
    requires { length (seller_text days) ≤ length rest.old }
    ensures { Written (seller_text days) rest.old rest.new result }
{
    let at = text::write_bytes(rest, b"SELLER");
    at + text::write_decimal(&mut rest[at..], days)
}

fn write_seller(rest: &mut [u8], r: bool, days: u64) -> usize
    requires { length (opt r (seller_text days)) ≤ length rest.old }
    ensures { Written (opt r (seller_text days)) rest.old rest.new result }
{
    if r { write_days(rest, days) } else { 0 }
}

// The previous last in full between its pairs, if there is G.
fn previous_length(g: bool, p: Price) -> usize
    requires { p.d ≤ 8 }
    ensures { (result ≡ length (opt g (previous_text p))) × (result ≤ 42) }
{
    if g {
        11 + print_price::price_length(PriceForm::Full, p) + 2
    } else {
        0
    }
}

fn write_last(rest: &mut [u8], p: Price) -> usize
    requires { (p.d ≤ 8) × (length (previous_text p) ≤ length rest.old) }
    ensures { Written (previous_text p) rest.old rest.new result }
{
    let at = text::write_bytes(rest, b">>PREV.LAST");
    let at2 = at + print_price::write_price(&mut rest[at..], PriceForm::Full, p);
    at2 + text::write_bytes(&mut rest[at2..], b">>")
}

fn write_previous(rest: &mut [u8], g: bool, p: Price) -> usize
    requires { (p.d ≤ 8) × (length (opt g (previous_text p)) ≤ length rest.old) }
    ensures { Written (opt g (previous_text p)) rest.old rest.new result }
{
    if g { write_last(rest, p) } else { 0 }
}

// What stands at the end.
pub fn at_end_length(x: Side) -> usize
    requires { x.previous.d ≤ 8 }
    ensures { (result ≡ length (at_end x)) × (result ≤ 75) }
{
    seller_length(x.letters.r, x.days)
        + text::optional_length(x.letters.j, b"RULE127")
        + previous_length(x.letters.g, x.previous)
}

pub fn write_at_end(rest: &mut [u8], x: Side) -> usize
    requires { (x.previous.d ≤ 8) × (length (at_end x) ≤ length rest.old) }
    ensures { Written (at_end x) rest.old rest.new result }
{
    let at = write_seller(rest, x.letters.r, x.days);
    let at2 = at + text::write_optional(&mut rest[at..], x.letters.j, b"RULE127");
    at2 + write_previous(&mut rest[at2..], x.letters.g, x.previous)
}
