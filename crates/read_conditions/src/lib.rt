// The conditions after a price and at the end of a print, taken one after the other from a part of a tape (document 01,
// "Price and conditions", "Reader"). Each step takes its text if it stands there and a line may have it.
#![tactic(auto)]

ghost use Rattle.std.specs.Prelude.{◌≡◌, ◌+◌, ◌≤◌, ◌<◌, ◌&&◌, ltb, length, drop};
ghost use Rattle.std.specs.Bool.{OnTrue};
ghost use Rattle.text.specs.Pick.{pick};
ghost use Rattle.text.specs.Reading.{starts};
ghost use Rattle.read_conditions.specs.Tail.{side_with, further, cash_at, average_at, stopped_at, seller_days, seller_at, rule_at, previous_in, previous_at, tail_at};

use read_price::{Digits, PriceRead};
use rules::{Letters, Side};

// What is taken so far of a part: its side (m for next day, k for cash), the bytes, the number of letters, and whether
// network A and network B still explain the print.
#[derive(Clone, Copy)]
pub struct Taken {
    pub side: Side,
    pub used: usize,
    pub count: u64,
    pub a: bool,
    pub b: bool,
}

// ---- a letter taken

// In n bytes, with the side as it is then.
#[tactic(auto, unfolding(crate::specs::Tail::further))]
fn further(s: &[u8], st: Taken, side: Side, n: usize) -> Taken
    requires { (st.used + n ≤ length s.now) × (st.count < 4) }
    ensures { (result ≡ further st side n st.a st.b) × (result.used ≤ length s.now) }
{
    Taken {
        side,
        used: st.used + n,
        count: st.count + 1,
        ..st
    }
}

// The text p stands at i.
pub fn stands(s: &[u8], i: usize, p: &[u8]) -> bool
    requires { i ≤ length s.now }
    ensures is { result ≡ starts p.now (drop i s.now) }
    ensures within { OnTrue result (i + length p.now ≤ length s.now) }
{
    text::begins(p, &s[i..])
}

// A letter that is its text p alone, where a line may have it: `letters` are with it, and b is whether network B explains it.
#[tactic(auto, unfolding(crate::specs::Tail::further, crate::specs::Tail::side_with, text::specs::Pick::pick))]
fn letter_at(s: &[u8], st: Taken, may: bool, p: &[u8], letters: Letters, b: bool) -> Taken
    requires { st.used ≤ length s.now }
    ensures { (result ≡ pick (ltb st.count 4 && (may && starts p.now (drop st.used s.now))) (further st (side_with st.side letters st.side.days st.side.previous) (length p.now) st.a b) st) × (result.used ≤ length s.now) }
{
    if 4 <= st.count || !may || !stands(s, st.used, p) {
        return st;
    }
    let taken = further(s, st, Side { letters, ..st.side }, p.len());
    Taken { b, ..taken }
}

// ---- after the price

// `,c`: not with next day.
#[tactic(auto, unfolding(crate::specs::Tail::cash_at, crate::specs::Tail::takes_cash, crate::specs::Tail::plus_cash))]
fn cash_at(s: &[u8], st: Taken) -> Taken
    requires { st.used ≤ length s.now }
    ensures { (result ≡ cash_at s.now st) × (result.used ≤ length s.now) }
{
    let x = st.side.letters;
    letter_at(s, st, !x.m, b",c", Letters { k: true, ..x }, st.b)
}

// `,b`.
#[tactic(auto, unfolding(crate::specs::Tail::average_at, crate::specs::Tail::takes_average, crate::specs::Tail::plus_average))]
fn average_at(s: &[u8], st: Taken) -> Taken
    requires { st.used ≤ length s.now }
    ensures { (result ≡ average_at s.now st) × (result.used ≤ length s.now) }
{
    let x = st.side.letters;
    letter_at(s, st, true, b",b", Letters { b: true, ..x }, st.b)
}

// `t`.
#[tactic(auto, unfolding(crate::specs::Tail::stopped_at, crate::specs::Tail::takes_stopped, crate::specs::Tail::plus_stopped))]
fn stopped_at(s: &[u8], st: Taken) -> Taken
    requires { st.used ≤ length s.now }
    ensures { (result ≡ stopped_at s.now st) × (result.used ≤ length s.now) }
{
    let x = st.side.letters;
    letter_at(s, st, true, b"t", Letters { t: true, ..x }, st.b)
}

// ---- at the end

// The days behind SELLER; no digits where it does not stand.
fn seller_days(s: &[u8], at: usize) -> Digits
    requires { at ≤ length s.now }
    ensures { result ≡ seller_days (drop at s.now) }
{
    if !stands(s, at, b"SELLER") || stands(s, at + 6, b"0") {
        return Digits { count: 0, value: 0 };
    }
    read_price::digits_at(&s[at + 6..], 3)
}

// SELLER and days: not with next day or cash.
#[tactic(auto, unfolding(crate::specs::Tail::seller_at, crate::specs::Tail::seller_by, crate::specs::Tail::plus_seller, crate::specs::Tail::side_with, crate::specs::Tail::further, text::specs::Pick::pick))]
fn seller_at(s: &[u8], st: Taken) -> Taken
    requires { st.used ≤ length s.now }
    ensures { (result ≡ seller_at s.now st) × (result.used ≤ length s.now) }
{
    let x = st.side;
    if 4 <= st.count || x.letters.m || x.letters.k {
        return st;
    }
    let days = seller_days(s, st.used);
    if days.count == 0 {
        return st;
    }
    let letters = Letters {
        r: true,
        ..x.letters
    };
    let side = Side {
        letters,
        days: days.value,
        ..x
    };
    further(s, st, side, 6 + days.count)
}

// RULE127: network A only.
#[tactic(auto, unfolding(crate::specs::Tail::rule_at, crate::specs::Tail::takes_rule, crate::specs::Tail::plus_rule))]
fn rule_at(s: &[u8], st: Taken) -> Taken
    requires { st.used ≤ length s.now }
    ensures { (result ≡ rule_at s.now st) × (result.used ≤ length s.now) }
{
    let x = st.side.letters;
    letter_at(s, st, st.a, b"RULE127", Letters { j: true, ..x }, false)
}

// The previous last between its texts: the end pair stands behind the price.
fn previous_in(s: &[u8], at: usize) -> Option<PriceRead>
    requires { at ≤ length s.now }
    ensures { result ≡ previous_in (drop at s.now) }
{
    if !stands(s, at, b">>PREV.LAST") {
        return None;
    }
    let i = at + 11;
    let p = read_price::price_at(&s[i..])?;
    if stands(s, i + p.used, b">>") {
        Some(p)
    } else {
        None
    }
}

// `>>PREV.LAST`, a price and `>>`: network B only.
#[tactic(auto, unfolding(crate::specs::Tail::previous_at, crate::specs::Tail::previous_by, crate::specs::Tail::plus_previous, crate::specs::Tail::side_with, crate::specs::Tail::further, text::specs::Pick::pick))]
fn previous_at(s: &[u8], st: Taken) -> Taken
    requires { st.used ≤ length s.now }
    ensures { (result ≡ previous_at s.now st) × (result.used ≤ length s.now) }
{
    if 4 <= st.count || !st.b {
        return st;
    }
    let Some(p) = previous_in(s, st.used) else {
        return st;
    };
    let x = st.side;
    let letters = Letters {
        g: true,
        ..x.letters
    };
    let side = Side {
        letters,
        previous: p.price,
        ..x
    };
    let taken = further(s, st, side, 13 + p.used);
    Taken { a: false, ..taken }
}

// ---- all of them, in their order

#[tactic(auto, unfolding(crate::specs::Tail::tail_at, crate::specs::Tail::after_price_at, crate::specs::Tail::at_end_at))]
pub fn tail_at(s: &[u8], st: Taken) -> Taken
    requires { st.used ≤ length s.now }
    ensures { (result ≡ tail_at s.now st) × (result.used ≤ length s.now) }
{
    let after_price = stopped_at(s, average_at(s, cash_at(s, st)));
    previous_at(s, rule_at(s, seller_at(s, after_price)))
}
