// The numbers of a day line's fields: read, and asked whether they are within their values (document 01, Day lines).
#![tactic(auto)]

ghost use Rattle.std.specs.Prelude.{◌≡◌, ◌≤◌, length, drop, leb};
ghost use Rattle.rules.specs.Columns.{justified, digits_from, number_in, is_number, number_or_blank, value_of, passes, between, is_leap, days_in, is_date};
ghost use Rattle.rules.specs.Line.{is_price, previous_ranged, is_security_number, is_unit};

use rules::{Number, PLACES};

// ---- numbers

// Digits to the field's end.
#[tactic(auto, using(crate::proofs::Numbers::digit_steps), unfolding(text::specs::Reading::is_digit))]
fn digits(field: &[u8]) -> Number
    requires { length field.now ≤ 19 }
    ensures { result ≡ digits_from 0 field.now }
{
    let mut acc = 0u64;
    for &c in field {
        if !c.is_ascii_digit() {
            return Number::Bad;
        }
        acc = acc * 10 + u64::from(c - b'0');
    }
    Number::Is(acc)
}

// The field from its first byte that is no blank.
fn justified(field: &[u8]) -> &[u8]
    ensures text { result.now ≡ justified field.now }
    ensures within { length result.now ≤ length field.now }
{
    let blanks = field.iter().position(|&c| c != b' ').unwrap_or(field.len());
    &field[blanks..]
}

// The number in a field: right-justified, blank-padded, no leading zero except `0` alone.
#[tactic(auto, using(crate::proofs::Numbers::fields))]
pub fn read_number(field: &[u8]) -> Number
    requires { length field.now ≤ 19 }
    ensures { result ≡ number_in field.now }
{
    match justified(field) {
        [] => Number::Blank,
        [b'0'] => Number::Is(0),
        [b'0', ..] => Number::Bad,
        number => digits(number),
    }
}

// A number stands there, in its form.
#[tactic(auto, unfolding(rules::specs::Columns::is_number))]
pub fn is_number(x: Number) -> bool
    ensures { result ≡ is_number x }
{
    matches!(x, Number::Is(_))
}

// A number that may be left blank is in its form.
#[tactic(auto, unfolding(rules::specs::Columns::number_or_blank))]
pub fn is_number_or_blank(x: Number) -> bool
    ensures { result ≡ number_or_blank x }
{
    matches!(x, Number::Blank | Number::Is(_))
}

// 0 where there is none.
#[tactic(auto, unfolding(rules::specs::Columns::value_of))]
pub fn value_of(x: Number) -> u64
    ensures { result ≡ value_of x }
{
    match x {
        Number::Is(n) => n,
        _ => 0,
    }
}

// A given number is 1 or more.
#[tactic(auto, unfolding(rules::specs::Columns::passes))]
pub fn is_from_one(x: Number) -> bool
    ensures { result ≡ passes (leb 1) x }
{
    match x {
        Number::Is(n) => 1 <= n,
        _ => true,
    }
}

// A given number is 8 or less. Kept: one function over a test, for this and the one above, is no plainer.
#[tactic(auto, unfolding(rules::specs::Columns::passes))]
fn is_to_eight(x: Number) -> bool
    ensures { result ≡ passes (λ n. leb n 8) x }
{
    match x {
        Number::Is(n) => n <= 8,
        _ => true,
    }
}

#[tactic(auto, unfolding(rules::specs::Columns::between))]
pub fn is_between(low: u64, high: u64, n: u64) -> bool
    ensures { result ≡ between low high n }
{
    (low..=high).contains(&n)
}

// ---- prices

// n from 1 to below ten to the power 6 + d, d from 0 to 8.
#[tactic(auto, using(crate::proofs::Numbers::price_fits, crate::proofs::Numbers::million_of), unfolding(rules::specs::Line::is_price))]
pub fn is_price(n: u64, d: u64) -> bool
    ensures { result ≡ is_price n d }
{
    1 <= n && d <= 8 && n < 1000000 * print_price::power(d)
}

// The values of a previous last: n has no upper value while its d is blank.
#[tactic(auto, unfolding(rules::specs::Line::previous_ranged))]
pub fn is_previous_ranged(n: Number, d: Number) -> bool
    ensures { result ≡ previous_ranged n d }
{
    match (n, d) {
        (Number::Is(n), Number::Is(d)) => is_price(n, d),
        (Number::Is(n), _) => 1 <= n,
        _ => is_to_eight(d),
    }
}

// ---- securities and dates

#[tactic(auto, unfolding(rules::specs::Line::is_security_number))]
pub fn is_security_number(n: u64) -> bool
    ensures { result ≡ is_security_number n }
{
    is_between(1, PLACES as u64, n)
}

#[tactic(auto, unfolding(rules::specs::Line::is_unit, text::specs::Pick::among))]
pub fn is_unit(n: u64) -> bool
    ensures { result ≡ is_unit n }
{
    matches!(n, 1 | 10 | 25 | 50 | 100)
}

#[tactic(auto, unfolding(rules::specs::Columns::is_leap))]
fn is_leap(y: u64) -> bool
    ensures { result ≡ is_leap y }
{
    y % 4 == 0 && (y % 100 != 0 || y % 400 == 0)
}

#[tactic(auto, unfolding(rules::specs::Columns::days_in, text::specs::Pick::pick))]
fn days_in(y: u64, m: u64) -> u64
    ensures { result ≡ days_in y m }
{
    match m {
        2 if is_leap(y) => 29,
        2 => 28,
        4 | 6 | 9 | 11 => 30,
        _ => 31,
    }
}

// yyyymmdd, Gregorian, from 10000101.
#[tactic(auto, unfolding(rules::specs::Columns::is_date))]
pub fn is_date(n: u64) -> bool
    ensures { result ≡ is_date n }
{
    let m = n / 100 % 100;
    10000101 <= n && is_between(1, 12, m) && is_between(1, days_in(n / 10000, m), n % 100)
}
