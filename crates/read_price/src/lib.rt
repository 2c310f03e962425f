// Prices and volumes at the front of a tape, as a normal print shows them (document 01, "Volume", "Price and conditions",
// "Reader"). Each function looks at no more bytes than the longest text that it can find.
#![tactic(auto)]

ghost use Rattle.std.specs.Prelude.{◌≡◌, ◌*◌, ◌^◌, ◌≤◌, ◌<◌};
ghost use Rattle.read_price.specs.Digits.{digits_at};
ghost use Rattle.read_price.specs.Price.{fraction_at, priced_by, price_at};

use rules::Price;

// Digits, or figures with their dots: how many bytes, and their value.
#[derive(Clone, Copy)]
pub struct Digits {
    pub count: usize,
    pub value: u64,
}

// A price and the number of its bytes.
#[derive(Clone, Copy)]
pub struct PriceRead {
    pub price: Price,
    pub used: usize,
}

// ---- digits and prices

// At most `most` digits.
pub fn digits_at(s: &[u8], most: usize) -> Digits
    requires { most ≤ 12 }
    ensures { result ≡ digits_at most s.now }
{
    let mut value: u64 = 0;
    for i in 0..most {
        if s.len() <= i || !s[i].is_ascii_digit() {
            return Digits { count: i, value };
        }
        value = 10 * value + u64::from(s[i] - b'0');
    }
    Digits { count: most, value }
}

// The digits behind a figure dot, at most eight.
#[tactic(auto, unfolding(crate::specs::Price::fraction_at, text::specs::Pick::pick))]
fn fraction_at(s: &[u8]) -> Digits
    ensures { result ≡ fraction_at s.now }
{
    match s {
        [b',', rest @ ..] => digits_at(rest, 8),
        _ => Digits { count: 0, value: 0 },
    }
}

// The price that a whole part and a fraction say.
#[tactic(auto, unfolding(crate::specs::Price::priced_by, text::specs::Pick::pick))]
fn priced(whole: Digits, fraction: Digits) -> Option<PriceRead>
    requires { (whole.value < 1000000) × (whole.count ≤ 6) × (fraction.value < 100000000) × (fraction.count ≤ 8) }
    ensures { result ≡ priced_by whole fraction }
{
    if fraction.value == 0 {
        if whole.count == 0 {
            return None;
        }
        return Some(PriceRead {
            price: Price {
                n: whole.value,
                d: 0,
            },
            used: whole.count,
        });
    }
    let d = fraction.count as u64;
    let n = whole.value * print_price::power(d) + fraction.value;
    Some(PriceRead {
        price: Price { n, d },
        used: whole.count + (1 + fraction.count),
    })
}

// A full price.
#[tactic(auto, unfolding(crate::specs::Price::price_at, crate::specs::Digits::zero_first, text::specs::Pick::pick))]
pub fn price_at(s: &[u8]) -> Option<PriceRead>
    ensures { result ≡ price_at s.now }
{
    if matches!(s, [b'0', ..]) {
        return None;
    }
    let whole = digits_at(s, 6);
    priced(whole, fraction_at(&s[whole.count..]))
}
