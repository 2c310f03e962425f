// Which trades print and how, and what an accepted trade leaves of its security (document 01, "Trades by mode"). The rules are
// decided over what they ask of a trade, each worked out once by the caller: its volume, its price in units (`value`), its whole
// part, whether it qualifies for range (`ranges`) and for last (`lasts`), whether it has J or G (`rule`). Settings and securities
// may hold any numbers.
#![tactic(auto)]

ghost use Rattle.std.specs.Prelude.{◌≡◌, ◌<◌};
ghost use Rattle.text.specs.Pick.{pick};
ghost use Rattle.rules.specs.Price.{form_by};
ghost use Rattle.rules.specs.Trade.{full_at, prints_trade, range_after, counted};
ghost use Rattle.print_price.specs.Sound.{Sound};
ghost use Rattle.decide_trade.specs.Value.{first_by, anyhow_by, rpo_by, mpv_by, prints_by, full_by, shows_by, range_by, printed_by, counts_by, after_by};

use rules::{Counts, Issue, Mode, PriceForm, Printed, Range, Security, Settings, Side};

// ---- what prints

// Kept: a trade's values stay parameters, as call_plan and call_trade pass them and the definitions of specs/Value take them.

// The first trade qualifying for last.
#[tactic(auto, unfolding(crate::specs::Value::first_by))]
fn is_first(c: Counts, lasts: bool) -> bool
    ensures { result ≡ first_by c lasts }
{
    lasts && c.qualified == 0
}

#[tactic(auto, unfolding(crate::specs::Value::anyhow_by))]
fn prints_anyhow(st: Settings, s: Security, market: u64, volume: u64, rule: bool) -> bool
    ensures { result ≡ anyhow_by st s market volume rule }
{
    decide_levels::six(s, market) // six
        || decide_levels::at_level(st, volume) // at the level
        || s.issue.unit == 1 // unit 1
        || rule // J or G
}

#[tactic(auto, unfolding(crate::specs::Value::rpo_by))]
fn prints_rpo(
    st: Settings,
    s: Security,
    market: u64,
    volume: u64,
    value: u64,
    ranges: bool,
    lasts: bool,
    rule: bool,
) -> bool
    ensures { result ≡ rpo_by st s market volume value ranges lasts rule }
{
    (ranges && decide_levels::new_at(s.range, value)) // a new high or low
        || (lasts && decide_levels::unlike_printed(s.printed, value)) // unlike the last printed
        || prints_anyhow(st, s, market, volume, rule)
}

#[tactic(auto, unfolding(crate::specs::Value::mpv_by))]
fn prints_mpv(
    st: Settings,
    s: Security,
    market: u64,
    volume: u64,
    value: u64,
    lasts: bool,
    rule: bool,
) -> bool
    ensures { result ≡ mpv_by st s market volume value lasts rule }
{
    (lasts && decide_levels::far_from_printed(st, s.printed, value)) // far from the last printed
        || is_first(s.counts, lasts) // the first that qualifies
        || prints_anyhow(st, s, market, volume, rule)
}

// A trade prints.
#[tactic(auto, unfolding(crate::specs::Value::prints_by, crate::specs::Value::by_mode))]
pub fn prints_by(
    st: Settings,
    s: Security,
    market: u64,
    volume: u64,
    value: u64,
    ranges: bool,
    lasts: bool,
    rule: bool,
) -> bool
    ensures { result ≡ prints_by st s market volume value ranges lasts rule }
{
    match st.mode {
        Mode::Normal | Mode::Dvd => true,
        Mode::Rpo => prints_rpo(st, s, market, volume, value, ranges, lasts, rule),
        Mode::Mpv => prints_mpv(st, s, market, volume, value, lasts, rule),
    }
}

// The same of a side.
#[tactic(auto, using(crate::proofs::Value::side_prints))]
pub fn prints_trade(st: Settings, s: Security, market: u64, x: Side) -> bool
    requires { Sound x.price }
    ensures { result ≡ prints_trade st s market x }
{
    prints_by(
        st,
        s,
        market,
        x.volume,
        print_price::in_units(x.price),
        decide_letters::for_range(x.letters),
        decide_letters::for_last(x.letters),
        decide_letters::has_rule(x.letters),
    )
}

// ---- in full or short, with its volume or not

// None printed yet that day, tens or higher differ from the last printed price, whole part ends in 0, unit 1, 1,000 or
// over, six.
#[tactic(auto, unfolding(rules::specs::Trade::full_at))]
fn full_at(s: Security, market: u64, whole: u64) -> bool
    ensures { result ≡ full_at s market whole }
{
    s.printed.price == 0
        || decide_levels::other_tens(whole, s.printed.price)
        || decide_levels::ends_in_zero(whole)
        || s.issue.unit == 1
        || 1000 <= whole
        || decide_levels::six(s, market)
}

// The price is printed in full.
#[tactic(auto, unfolding(crate::specs::Value::full_by))]
fn full_by(st: Settings, s: Security, market: u64, whole: u64) -> bool
    ensures { result ≡ full_by st s market whole }
{
    decide_levels::is_normal(st.mode) || full_at(s, market, whole)
}

// In full or short.
pub fn form_by(st: Settings, s: Security, market: u64, whole: u64) -> PriceForm
    ensures { result ≡ form_by (full_by st s market whole) }
{
    print_price::form_of(full_by(st, s, market, whole))
}

// The volume is shown: at the level, first trade qualifying for last, six, J or G.
#[tactic(auto, unfolding(crate::specs::Value::shows_by))]
pub fn shows_by(
    st: Settings,
    s: Security,
    market: u64,
    volume: u64,
    lasts: bool,
    rule: bool,
) -> bool
    ensures { result ≡ shows_by st s market volume lasts rule }
{
    decide_levels::is_normal(st.mode)
        || decide_levels::at_level(st, volume) // shown: at the level
        || is_first(s.counts, lasts) // shown: the first that qualifies
        || decide_levels::six(s, market) // shown: six
        || rule // shown: J or G
}

// ---- what an accepted line leaves of its security, part by part

// High, low and last follow every accepted trade, and each correcting trade.
#[tactic(auto, unfolding(crate::specs::Value::range_by, text::specs::Pick::pick))]
fn range_by(held: Range, value: u64, ranges: bool, lasts: bool) -> Range
    ensures { result ≡ range_by held value ranges lasts }
{
    Range {
        high: if ranges && decide_levels::new_high(held, value) {
            value
        } else {
            held.high
        },
        low: if ranges && decide_levels::new_low(held, value) {
            value
        } else {
            held.low
        },
        last: if lasts { value } else { held.last },
    }
}

// The same of a side.
#[tactic(auto, unfolding(rules::specs::Trade::range_after, crate::specs::Value::range_by))]
pub fn range_after(held: Range, x: Side) -> Range
    requires { Sound x.price }
    ensures { result ≡ range_after held x }
{
    range_by(
        held,
        print_price::in_units(x.price),
        decide_letters::for_range(x.letters),
        decide_letters::for_last(x.letters),
    )
}

// The last printed price, of trades only.
#[tactic(auto, unfolding(crate::specs::Value::printed_by, text::specs::Pick::pick))]
fn printed_by(p: Printed, value: u64, prints: bool) -> Printed
    ensures { result ≡ printed_by p value prints }
{
    Printed {
        price: if prints { value } else { p.price },
    }
}

// A count that stops where it no longer matters.
#[tactic(auto, unfolding(rules::specs::Trade::counted, text::specs::Pick::pick))]
fn counted(test: bool, most: u64, count: u64) -> u64
    requires { most < 1000 }
    ensures { result ≡ counted test most count }
{
    if test && count < most {
        count + 1
    } else {
        count
    }
}

// T lines only, printed or not.
#[tactic(auto, unfolding(crate::specs::Value::counts_by))]
fn counts_by(i: Issue, c: Counts, market: u64, lasts: bool) -> Counts
    ensures { result ≡ counts_by i c market lasts }
{
    Counts {
        trades: counted(true, 5, c.trades),
        qualified: counted(lasts, 1, c.qualified),
        primaries: counted(market == i.market, 6, c.primaries),
    }
}

// After an accepted trade.
#[tactic(auto, unfolding(crate::specs::Value::after_by))]
pub fn after_by(
    s: Security,
    market: u64,
    value: u64,
    prints: bool,
    ranges: bool,
    lasts: bool,
) -> Security
    ensures { result ≡ after_by s market value prints ranges lasts }
{
    Security {
        printed: printed_by(s.printed, value, prints),
        range: range_by(s.range, value, ranges, lasts),
        counts: counts_by(s.issue, s.counts, market, lasts),
        ..s
    }
}
