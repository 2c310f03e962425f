// What the decisions of the modes compare (document 01, "Trades by mode"): first-day issues, the level, a new high or low, a
// price unlike the last printed one or far from it, tens and zeros.
#![tactic(auto)]

ghost use Rattle.std.specs.Prelude.{◌≡◌, not, eqb};
ghost use Rattle.rules.specs.Trade.{six, at_level, first_qualifying, new_high, new_low, new_range, tens, ends_in_zero, dollars, unlike_printed, far_from_printed, is_normal};
ghost use Rattle.print_price.specs.Sound.{Sound};
ghost use Rattle.decide_levels.specs.Parts.{new_at, last_unlike, last_far};

use rules::{Counts, Letters, Mode, Printed, Range, Security, Settings, Side};

// ---- a security

// A first-day issue, its primary market, fewer than six such trades before.
#[tactic(auto, unfolding(rules::specs::Trade::six))]
pub fn six(s: Security, market: u64) -> bool
    ensures { result ≡ six s market }
{
    s.issue.first == 1 && market == s.issue.market && s.counts.primaries < 6
}

// At or over the delete level.
#[tactic(auto, unfolding(rules::specs::Trade::at_level))]
pub fn at_level(st: Settings, volume: u64) -> bool
    ensures { result ≡ at_level st volume }
{
    st.level <= volume
}

// The first trade qualifying for last.
#[tactic(auto, unfolding(rules::specs::Trade::first_qualifying))]
pub fn first_qualifying(c: Counts, x: Letters) -> bool
    ensures { result ≡ first_qualifying c x }
{
    decide_letters::for_last(x) && c.qualified == 0
}

// Above the high, or the first.
#[tactic(auto, unfolding(rules::specs::Trade::new_high))]
pub fn new_high(held: Range, value: u64) -> bool
    ensures { result ≡ new_high held value }
{
    held.high == 0 || held.high < value
}

// Below the low, or the first.
#[tactic(auto, unfolding(rules::specs::Trade::new_low))]
pub fn new_low(held: Range, value: u64) -> bool
    ensures { result ≡ new_low held value }
{
    held.low == 0 || value < held.low
}

// ---- by a price's value

#[tactic(auto, unfolding(crate::specs::Parts::new_at))]
pub fn new_at(held: Range, value: u64) -> bool
    ensures { result ≡ new_at held value }
{
    new_high(held, value) || new_low(held, value)
}

// A new high or low by a trade that qualifies for them.
#[tactic(auto, unfolding(rules::specs::Trade::new_range, crate::specs::Parts::new_at))]
pub fn new_range(held: Range, x: Side) -> bool
    requires { Sound x.price }
    ensures { result ≡ new_range held x }
{
    decide_letters::for_range(x.letters) && new_at(held, print_price::in_units(x.price))
}

// A price unlike the last printed, or none printed.
#[tactic(auto, unfolding(rules::specs::Trade::unlike_printed))]
pub fn unlike_printed(p: Printed, value: u64) -> bool
    ensures { result ≡ unlike_printed p value }
{
    p.price == 0 || value != p.price
}

// 0.05 dollars in the units of a price.
const FIVE_CENTS: u64 = 5000000;

// More than level × 0.05 dollars from the last printed, above it or below.
#[tactic(auto, unfolding(rules::specs::Trade::far_from_printed, rules::specs::Trade::distance))]
pub fn far_from_printed(st: Settings, p: Printed, value: u64) -> bool
    ensures { result ≡ far_from_printed st p value }
{
    p.price != 0 && st.minimum.saturating_mul(FIVE_CENTS) < value.abs_diff(p.price)
}

// Qualifying for last with a price unlike the last printed.
#[tactic(auto, unfolding(crate::specs::Parts::last_unlike))]
pub fn last_unlike(p: Printed, x: Side) -> bool
    requires { Sound x.price }
    ensures { result ≡ last_unlike p x }
{
    decide_letters::for_last(x.letters) && unlike_printed(p, print_price::in_units(x.price))
}

// Qualifying for last and far from the last printed.
#[tactic(auto, unfolding(crate::specs::Parts::last_far))]
pub fn last_far(st: Settings, p: Printed, x: Side) -> bool
    requires { Sound x.price }
    ensures { result ≡ last_far st p x }
{
    decide_letters::for_last(x.letters) && far_from_printed(st, p, print_price::in_units(x.price))
}

// ---- full price and volume, outside normal

#[tactic(auto, unfolding(rules::specs::Trade::tens, rules::specs::Trade::dollars))]
pub fn other_tens(whole: u64, printed: u64) -> bool
    ensures { result ≡ not (eqb (tens whole) (tens (dollars printed))) }
{
    whole / 10 != printed / 100000000 / 10
}

#[tactic(auto, unfolding(rules::specs::Trade::ends_in_zero))]
pub fn ends_in_zero(whole: u64) -> bool
    ensures { result ≡ ends_in_zero whole }
{
    whole % 10 == 0
}

#[tactic(auto, unfolding(rules::specs::Trade::is_normal))]
pub fn is_normal(m: Mode) -> bool
    ensures { result ≡ is_normal m }
{
    matches!(m, Mode::Normal)
}
