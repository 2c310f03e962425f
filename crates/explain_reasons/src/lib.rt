// Why an accepted trade, correction, cancel or error prints, why its price is in full and why its volume is shown. A reason is
// one test of document 01, true in the modes that ask it. Settings and securities may hold any numbers.
#![tactic(auto)]

ghost use Rattle.std.specs.Prelude.{◌≡◌, ◌&&◌};
ghost use Rattle.rules.specs.Price.{units};
ghost use Rattle.rules.specs.Qualifying.{for_range};
ghost use Rattle.rules.specs.Trade.{new_high, new_low};
ghost use Rattle.print_price.specs.Sound.{Sound};
ghost use Rattle.explain_reasons.specs.Reasons.{always, tens_left, rpo_trade, mpv_trade, trade_prints, dvd_correction, later_correction, correction_prints, full_by, trade_full_by, correction_full_by, cancel_full_by, trade_shows_by, correction_shows_by, cancel_shows_by};

use rules::{Mode, Printed, Range, Security, Settings, Side};

// Why a line prints: every line of its kind does in the mode; a new high or low that it qualifies for; its price is unlike the
// last printed; it is far from the last printed; it is the first that qualifies for last; six; at the level; unit 1; J or G.
// Of a correction these are the correcting trade's, and: prices differ and the correcting volume is at the level; R and prices
// differ; its price is unlike the consolidated last; the original's volume is at the level; the original has J or G.
#[derive(Clone, Copy)]
pub struct PrintReasons {
    pub every: bool,
    pub high: bool,
    pub low: bool,
    pub price: bool,
    pub distance: bool,
    pub first: bool,
    pub six: bool,
    pub level: bool,
    pub unit: bool,
    pub rule: bool,
    pub differ: bool,
    pub seller: bool,
    pub last: bool,
    pub original_level: bool,
    pub original_rule: bool,
}

// None of them.
const NO_PRINT_REASONS: PrintReasons = PrintReasons {
    every: false,
    high: false,
    low: false,
    price: false,
    distance: false,
    first: false,
    six: false,
    level: false,
    unit: false,
    rule: false,
    differ: false,
    seller: false,
    last: false,
    original_level: false,
    original_rule: false,
};

// Why a price is in full: the mode is normal; none is printed yet; tens or higher differ; it ends in 0; unit 1; 1,000 or over;
// six. Of a cancel, an error and the correcting trade: it ends in 0 or is 1,000 or over; of the original the same.
#[derive(Clone, Copy)]
pub struct FullReasons {
    pub normal: bool,
    pub none: bool,
    pub tens: bool,
    pub zero: bool,
    pub unit: bool,
    pub thousand: bool,
    pub six: bool,
    pub whole: bool,
    pub original: bool,
}

// None of them.
const NO_FULL_REASONS: FullReasons = FullReasons {
    normal: false,
    none: false,
    tens: false,
    zero: false,
    unit: false,
    thousand: false,
    six: false,
    whole: false,
    original: false,
};

// Why a volume is shown: the mode is normal; at the level; the first that qualifies for last; six; J or G.
#[derive(Clone, Copy)]
pub struct VolumeReasons {
    pub normal: bool,
    pub level: bool,
    pub first: bool,
    pub six: bool,
    pub rule: bool,
}

// None of them.
const NO_VOLUME_REASONS: VolumeReasons = VolumeReasons {
    normal: false,
    level: false,
    first: false,
    six: false,
    rule: false,
};

// ---- why it prints

// Every line of the kind prints.
#[tactic(auto, unfolding(crate::specs::Reasons::always))]
pub fn always() -> PrintReasons
    ensures { result ≡ always }
{
    PrintReasons {
        every: true,
        ..NO_PRINT_REASONS
    }
}

// A new high and a new low, by a trade that qualifies for them.
fn makes_range(held: Range, x: Side) -> (bool, bool)
    requires { Sound x.price }
    ensures { (result.0 ≡ (for_range x.letters && new_high held (units x.price))) × (result.1 ≡ (for_range x.letters && new_low held (units x.price))) }
{
    let ranges = decide_letters::for_range(x.letters);
    let value = print_price::in_units(x.price);
    (
        ranges && decide_levels::new_high(held, value),
        ranges && decide_levels::new_low(held, value),
    )
}

#[tactic(auto, unfolding(crate::specs::Reasons::rpo_trade, decide_levels::specs::Parts::last_unlike))]
fn rpo_trade(st: Settings, s: Security, market: u64, x: Side) -> PrintReasons
    requires { Sound x.price }
    ensures { result ≡ rpo_trade st s market x }
{
    let (high, low) = makes_range(s.range, x);
    PrintReasons {
        high,
        low,
        price: decide_levels::last_unlike(s.printed, x),
        six: decide_levels::six(s, market),
        level: decide_levels::at_level(st, x.volume),
        unit: s.issue.unit == 1,
        rule: decide_letters::has_rule(x.letters),
        ..NO_PRINT_REASONS
    }
}

#[tactic(auto, unfolding(crate::specs::Reasons::mpv_trade, decide_levels::specs::Parts::last_far))]
fn mpv_trade(st: Settings, s: Security, market: u64, x: Side) -> PrintReasons
    requires { Sound x.price }
    ensures { result ≡ mpv_trade st s market x }
{
    PrintReasons {
        distance: decide_levels::last_far(st, s.printed, x),
        first: decide_levels::first_qualifying(s.counts, x.letters),
        six: decide_levels::six(s, market),
        level: decide_levels::at_level(st, x.volume),
        unit: s.issue.unit == 1,
        rule: decide_letters::has_rule(x.letters),
        ..NO_PRINT_REASONS
    }
}

// Why a trade prints.
#[tactic(auto, unfolding(crate::specs::Reasons::trade_prints, crate::specs::Reasons::in_mode))]
pub fn trade_prints(st: Settings, s: Security, market: u64, x: Side) -> PrintReasons
    requires { Sound x.price }
    ensures { result ≡ trade_prints st s market x }
{
    match st.mode {
        Mode::Normal | Mode::Dvd => always(),
        Mode::Rpo => rpo_trade(st, s, market, x),
        Mode::Mpv => mpv_trade(st, s, market, x),
    }
}

#[tactic(auto, unfolding(crate::specs::Reasons::dvd_correction))]
fn dvd_correction(st: Settings, s: Security, x: Side, y: Side) -> PrintReasons
    requires { Sound x.price × Sound y.price }
    ensures { result ≡ dvd_correction st s x y }
{
    PrintReasons {
        unit: s.issue.unit == 1,
        rule: decide_letters::has_rule(y.letters),
        differ: decide_correction::differs_at_level(st, x, y),
        ..NO_PRINT_REASONS
    }
}

// In RPO and in MPV, `asked` being the original's J or G where the mode asks for it.
#[tactic(auto, unfolding(crate::specs::Reasons::later_correction))]
fn later_correction(st: Settings, s: Security, x: Side, y: Side, asked: bool) -> PrintReasons
    requires { Sound x.price × Sound y.price }
    ensures { result ≡ later_correction st s x y asked }
{
    let (high, low) = makes_range(s.range, y);
    PrintReasons {
        high,
        low,
        level: decide_levels::at_level(st, y.volume),
        unit: s.issue.unit == 1,
        rule: decide_letters::has_rule(y.letters),
        seller: decide_correction::seller_differs(x, y),
        last: decide_correction::moves_last(s.range, y),
        original_level: decide_levels::at_level(st, x.volume),
        original_rule: asked,
        ..NO_PRINT_REASONS
    }
}

// Why a correction prints.
#[tactic(auto, unfolding(crate::specs::Reasons::correction_prints, crate::specs::Reasons::in_mode))]
pub fn correction_prints(st: Settings, s: Security, x: Side, y: Side) -> PrintReasons
    requires { Sound x.price × Sound y.price }
    ensures { result ≡ correction_prints st s x y }
{
    match st.mode {
        Mode::Normal => always(),
        Mode::Dvd => dvd_correction(st, s, x, y),
        Mode::Rpo => later_correction(st, s, x, y, false),
        Mode::Mpv => later_correction(st, s, x, y, decide_letters::has_rule(x.letters)),
    }
}

// ---- why a price is in full

const IN_NORMAL: FullReasons = FullReasons {
    normal: true,
    ..NO_FULL_REASONS
};

// Tens or higher differ from the last printed price, where one is printed.
#[tactic(auto, unfolding(crate::specs::Reasons::tens_left))]
fn tens_left(p: Printed, whole: u64) -> bool
    ensures { result ≡ tens_left p whole }
{
    p.price != 0 && decide_levels::other_tens(whole, p.price)
}

#[tactic(auto, unfolding(crate::specs::Reasons::full_by))]
fn full_by(s: Security, market: u64, whole: u64) -> FullReasons
    ensures { result ≡ full_by s market whole }
{
    FullReasons {
        none: s.printed.price == 0,
        tens: tens_left(s.printed, whole),
        zero: decide_levels::ends_in_zero(whole),
        unit: s.issue.unit == 1,
        thousand: 1000 <= whole,
        six: decide_levels::six(s, market),
        ..NO_FULL_REASONS
    }
}

// Why the price of a trade is in full.
#[tactic(auto, unfolding(crate::specs::Reasons::trade_full_by, crate::specs::Reasons::in_normal, text::specs::Pick::pick))]
pub fn trade_full_by(st: Settings, s: Security, market: u64, x: Side) -> FullReasons
    requires { Sound x.price }
    ensures { result ≡ trade_full_by st s market x }
{
    if decide_levels::is_normal(st.mode) {
        IN_NORMAL
    } else {
        full_by(s, market, print_price::whole_part(x.price))
    }
}

// Why the prices of a correction are in full.
#[tactic(auto, unfolding(crate::specs::Reasons::correction_full_by, crate::specs::Reasons::in_normal, text::specs::Pick::pick))]
pub fn correction_full_by(st: Settings, s: Security, x: Side, y: Side) -> FullReasons
    requires { Sound x.price × Sound y.price }
    ensures { result ≡ correction_full_by st s x y }
{
    if decide_levels::is_normal(st.mode) {
        return IN_NORMAL;
    }
    FullReasons {
        tens: decide_correction::full_by_tens(st, x, y),
        unit: s.issue.unit == 1,
        whole: decide_correction::whole_in_full(y),
        original: decide_correction::whole_in_full(x),
        ..NO_FULL_REASONS
    }
}

// Why the price of a cancel or an error is in full.
#[tactic(auto, unfolding(crate::specs::Reasons::cancel_full_by, crate::specs::Reasons::in_normal, text::specs::Pick::pick))]
pub fn cancel_full_by(st: Settings, s: Security, x: Side) -> FullReasons
    requires { Sound x.price }
    ensures { result ≡ cancel_full_by st s x }
{
    if decide_levels::is_normal(st.mode) {
        return IN_NORMAL;
    }
    FullReasons {
        unit: s.issue.unit == 1,
        whole: decide_correction::whole_in_full(x),
        ..NO_FULL_REASONS
    }
}

// ---- why a volume is shown

const SHOWN_IN_NORMAL: VolumeReasons = VolumeReasons {
    normal: true,
    ..NO_VOLUME_REASONS
};

// Why the volume of a trade is shown.
#[tactic(auto, unfolding(crate::specs::Reasons::trade_shows_by, crate::specs::Reasons::shown_in_normal, text::specs::Pick::pick))]
pub fn trade_shows_by(st: Settings, s: Security, market: u64, x: Side) -> VolumeReasons
    ensures { result ≡ trade_shows_by st s market x }
{
    if decide_levels::is_normal(st.mode) {
        return SHOWN_IN_NORMAL;
    }
    VolumeReasons {
        level: decide_levels::at_level(st, x.volume),
        first: decide_levels::first_qualifying(s.counts, x.letters),
        six: decide_levels::six(s, market),
        rule: decide_letters::has_rule(x.letters),
        ..NO_VOLUME_REASONS
    }
}

// Why the volumes of a correction are shown.
#[tactic(auto, unfolding(crate::specs::Reasons::correction_shows_by, crate::specs::Reasons::shown_in_normal, text::specs::Pick::pick))]
pub fn correction_shows_by(st: Settings, x: Side, y: Side) -> VolumeReasons
    ensures { result ≡ correction_shows_by st x y }
{
    if decide_levels::is_normal(st.mode) {
        return SHOWN_IN_NORMAL;
    }
    VolumeReasons {
        level: decide_levels::at_level(st, y.volume),
        rule: decide_correction::either_rule(x, y),
        ..NO_VOLUME_REASONS
    }
}

// Why the volume of a cancel or an error is shown.
#[tactic(auto, unfolding(crate::specs::Reasons::cancel_shows_by, crate::specs::Reasons::shown_in_normal, text::specs::Pick::pick))]
pub fn cancel_shows_by(st: Settings, x: Side) -> VolumeReasons
    ensures { result ≡ cancel_shows_by st x }
{
    if decide_levels::is_normal(st.mode) {
        return SHOWN_IN_NORMAL;
    }
    VolumeReasons {
        level: decide_levels::at_level(st, x.volume),
        rule: decide_letters::has_rule(x.letters),
        ..NO_VOLUME_REASONS
    }
}
