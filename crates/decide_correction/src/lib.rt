// Which corrections print and how, how cancels and errors print, and what a correction leaves of its security (document 01,
// Corrections and cancels). Settings and securities may hold any numbers.
#![tactic(auto)]

ghost use Rattle.std.specs.Prelude.{◌≡◌, ◌&&◌, ◌||◌, not, eqb};
ghost use Rattle.rules.specs.Price.{whole_part, units};
ghost use Rattle.rules.specs.Conditions.{has_rule};
ghost use Rattle.rules.specs.Qualifying.{for_last};
ghost use Rattle.rules.specs.Trade.{at_level, tens};
ghost use Rattle.rules.specs.Correction.{prices_differ, prints_in_dvd, unlike_last, prints_in_both, prints_correction, is_mpv, whole_in_full, full_prices, shows_volumes, correction_full, correction_form, correction_shows, cancel_full, cancel_form, cancel_shows, after_correction};
ghost use Rattle.print_price.specs.Sound.{Sound};

use rules::{Mode, PriceForm, Range, Security, Settings, Side};

// ---- what prints

// The prices differ by value.
#[tactic(auto, unfolding(rules::specs::Correction::prices_differ))]
fn prices_differ(x: Side, y: Side) -> bool
    requires { Sound x.price × Sound y.price }
    ensures { result ≡ prices_differ x y }
{
    print_price::in_units(x.price) != print_price::in_units(y.price)
}

// Prices differ and the correcting volume is at the level.
pub fn differs_at_level(st: Settings, x: Side, y: Side) -> bool
    requires { Sound x.price × Sound y.price }
    ensures { result ≡ (prices_differ x y && at_level st y.volume) }
{
    prices_differ(x, y) && decide_levels::at_level(st, y.volume)
}

// In DVD.
#[tactic(auto, unfolding(rules::specs::Correction::prints_in_dvd))]
fn prints_in_dvd(st: Settings, s: Security, x: Side, y: Side) -> bool
    requires { Sound x.price × Sound y.price }
    ensures { result ≡ prints_in_dvd st s x y }
{
    differs_at_level(st, x, y) // prices differ at the level
        || decide_letters::has_rule(y.letters) // DVD: correcting J or G
        || s.issue.unit == 1 // DVD: unit 1
}

// R on either side and prices differ.
pub fn seller_differs(x: Side, y: Side) -> bool
    requires { Sound x.price × Sound y.price }
    ensures { result ≡ ((x.letters.r || y.letters.r) && prices_differ x y) }
{
    (x.letters.r || y.letters.r) && prices_differ(x, y)
}

// A price unlike the consolidated last, or none yet.
#[tactic(auto, unfolding(rules::specs::Correction::unlike_last))]
fn unlike_last(held: Range, value: u64) -> bool
    ensures { result ≡ unlike_last held value }
{
    held.last == 0 || value != held.last
}

// Qualifying for last with such a price.
pub fn moves_last(held: Range, y: Side) -> bool
    requires { Sound y.price }
    ensures { result ≡ (for_last y.letters && unlike_last held (units y.price)) }
{
    decide_letters::for_last(y.letters) && unlike_last(held, print_price::in_units(y.price))
}

// In RPO and in MPV.
#[tactic(auto, unfolding(rules::specs::Correction::prints_in_both))]
fn prints_in_both(st: Settings, s: Security, x: Side, y: Side) -> bool
    requires { Sound x.price × Sound y.price }
    ensures { result ≡ prints_in_both st s x y }
{
    s.issue.unit == 1 // unit 1
        || decide_levels::at_level(st, x.volume) // the original volume
        || decide_levels::at_level(st, y.volume) // the correcting volume
        || seller_differs(x, y) // R, and prices differ
        || decide_levels::new_range(s.range, y)
        || moves_last(s.range, y)
}

// J or G on either side.
pub fn either_rule(x: Side, y: Side) -> bool
    ensures { result ≡ (has_rule x.letters || has_rule y.letters) }
{
    decide_letters::has_rule(x.letters) || decide_letters::has_rule(y.letters)
}

// A correction prints: in RPO correcting J or G prints it too, in MPV that of either side.
#[tactic(auto, unfolding(rules::specs::Correction::prints_correction))]
pub fn prints_correction(st: Settings, s: Security, x: Side, y: Side) -> bool
    requires { Sound x.price × Sound y.price }
    ensures { result ≡ prints_correction st s x y }
{
    match st.mode {
        Mode::Normal => true,
        Mode::Dvd => prints_in_dvd(st, s, x, y),
        Mode::Rpo => decide_letters::has_rule(y.letters) || prints_in_both(st, s, x, y),
        Mode::Mpv => either_rule(x, y) || prints_in_both(st, s, x, y),
    }
}

// ---- full prices and volumes

#[tactic(auto, unfolding(rules::specs::Correction::is_mpv))]
pub fn is_mpv(m: Mode) -> bool
    ensures { result ≡ is_mpv m }
{
    matches!(m, Mode::Mpv)
}

// A whole part that ends in 0, or 1,000 or over.
#[tactic(auto, unfolding(rules::specs::Correction::whole_in_full))]
pub fn whole_in_full(x: Side) -> bool
    requires { Sound x.price }
    ensures { result ≡ whole_in_full x }
{
    let whole = print_price::whole_part(x.price);
    decide_levels::ends_in_zero(whole) || 1000 <= whole
}

// Tens or higher differ, not in MPV.
#[tactic(auto, unfolding(rules::specs::Trade::tens))]
pub fn full_by_tens(st: Settings, x: Side, y: Side) -> bool
    requires { Sound x.price × Sound y.price }
    ensures { result ≡ (not (is_mpv st.mode) && not (eqb (tens (whole_part x.price)) (tens (whole_part y.price)))) }
{
    !is_mpv(st.mode)
        && print_price::whole_part(x.price) / 10 != print_price::whole_part(y.price) / 10
}

#[tactic(auto, unfolding(rules::specs::Correction::full_prices))]
fn full_prices(st: Settings, s: Security, x: Side, y: Side) -> bool
    requires { Sound x.price × Sound y.price }
    ensures { result ≡ full_prices st s x y }
{
    s.issue.unit == 1 || whole_in_full(x) || whole_in_full(y) || full_by_tens(st, x, y)
}

// The correcting volume at the level, or J or G on either side.
#[tactic(auto, unfolding(rules::specs::Correction::shows_volumes))]
fn shows_volumes(st: Settings, x: Side, y: Side) -> bool
    ensures { result ≡ shows_volumes st x y }
{
    decide_levels::at_level(st, y.volume) || either_rule(x, y)
}

// Both prices of a correction are printed in full.
#[tactic(auto, unfolding(rules::specs::Correction::correction_full))]
fn correction_full(st: Settings, s: Security, x: Side, y: Side) -> bool
    requires { Sound x.price × Sound y.price }
    ensures { result ≡ correction_full st s x y }
{
    decide_levels::is_normal(st.mode) || full_prices(st, s, x, y)
}

// In full or short.
#[tactic(auto, unfolding(rules::specs::Correction::correction_form))]
pub fn correction_form(st: Settings, s: Security, x: Side, y: Side) -> PriceForm
    requires { Sound x.price × Sound y.price }
    ensures { result ≡ correction_form st s x y }
{
    print_price::form_of(correction_full(st, s, x, y))
}

// Both volumes of a correction are shown.
#[tactic(auto, unfolding(rules::specs::Correction::correction_shows))]
pub fn correction_shows(st: Settings, x: Side, y: Side) -> bool
    ensures { result ≡ correction_shows st x y }
{
    decide_levels::is_normal(st.mode) || shows_volumes(st, x, y)
}

// The price of a cancel or error is printed in full.
#[tactic(auto, unfolding(rules::specs::Correction::cancel_full))]
fn cancel_full(st: Settings, s: Security, x: Side) -> bool
    requires { Sound x.price }
    ensures { result ≡ cancel_full st s x }
{
    decide_levels::is_normal(st.mode) || s.issue.unit == 1 || whole_in_full(x)
}

// In full or short.
#[tactic(auto, unfolding(rules::specs::Correction::cancel_form))]
pub fn cancel_form(st: Settings, s: Security, x: Side) -> PriceForm
    requires { Sound x.price }
    ensures { result ≡ cancel_form st s x }
{
    print_price::form_of(cancel_full(st, s, x))
}

// The volume of a cancel or error is shown.
#[tactic(auto, unfolding(rules::specs::Correction::cancel_shows))]
pub fn cancel_shows(st: Settings, x: Side) -> bool
    ensures { result ≡ cancel_shows st x }
{
    decide_levels::is_normal(st.mode)
        || decide_levels::at_level(st, x.volume)
        || decide_letters::has_rule(x.letters)
}

// ---- after a correction

// The correcting trade moves high, low and last.
#[tactic(auto, unfolding(rules::specs::Correction::after_correction))]
pub fn after_correction(s: Security, y: Side) -> Security
    requires { Sound y.price }
    ensures { result ≡ after_correction s y }
{
    Security {
        range: decide_trade::range_after(s.range, y),
        ..s
    }
}
