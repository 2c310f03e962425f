// A T line read by itself: all that can be said of it without the day's state.
#![tactic(auto)]

ghost use Rattle.std.specs.Prelude.{◌≡◌, true, ◌&&◌, length, get_or, eqb, Some, IfSome};
ghost use Rattle.rules.specs.Sizes.{width};
ghost use Rattle.rules.specs.Conditions.{letters_formed};
ghost use Rattle.line_trade.specs.TradeLine.{good_fields, trade_line};
ghost use Rattle.line_trade.specs.Quick.{Placed, volume_worth, n_worth, QuickValues};

use line_kinds::TradeRead;
use rules::{Letters, WIDTH};

// A T line that nothing but the day's state can stop: its security and market, then its side: volume, price n over ten to the
// power d, letters, days, previous last m over ten to the power e.
// Kept: the side's numbers one by one, since a `Side` in the record is slower.
#[derive(Clone, Copy)]
pub struct TradeLine {
    pub security: u64,
    pub market: u64,
    pub volume: u64,
    pub n: u64,
    pub d: u64,
    pub letters: Letters,
    pub days: u64,
    pub m: u64,
    pub e: u64,
}

// ---- all columns at once

// Most volumes have six digits at most: where column 9 is a blank, so are those before it.
fn volume_in(line: &[u8]) -> u64
    requires { (length line.now ≡ width) × Placed line.now }
    ensures { result ≡ volume_worth line.now }
{
    if line[8] == b' ' {
        line_columns::worth(&line[9..15])
    } else {
        line_columns::worth(&line[6..15])
    }
}

// Most n have eight digits at most.
fn n_in(line: &[u8]) -> u64
    requires { (length line.now ≡ width) × Placed line.now }
    ensures { result ≡ n_worth line.now }
{
    if line[20] == b' ' {
        line_columns::worth(&line[21..29])
    } else {
        line_columns::worth(&line[15..29])
    }
}

// Security, market, volume and price by what their columns are worth, each within its values.
fn read_values(line: &[u8], letters: Letters) -> Option<TradeLine>
    requires { (length line.now ≡ width) × Placed line.now }
    ensures { IfSome result (QuickValues line.now letters) }
{
    let c = line[29];
    if c < b'0' || b'8' < c {
        return None;
    }
    let market = line[5];
    if !line_fields::is_market(market) {
        return None;
    }
    let security = line_columns::worth(&line[1..5]);
    if !line_numbers::is_security_number(security) {
        return None;
    }
    let volume = volume_in(line);
    if volume < 1 {
        return None;
    }
    let n = n_in(line);
    let d = u64::from(c) - 48;
    if !line_numbers::is_price(n, d) {
        return None;
    }
    Some(TradeLine {
        security,
        market: u64::from(market),
        volume,
        n,
        d,
        letters,
        days: 0,
        m: 0,
        e: 0,
    })
}

// Security in columns 2 to 5, volume in 7 to 15, n in 16 to 29, each where it belongs; blanks from 35 on. Of the other columns
// up to 33 the tables ask nothing that such a line does not have.
fn is_placed(line: &[u8]) -> bool
    requires { length line.now ≡ width }
    ensures { result ≡ true → Placed line.now }
{
    let front = b" ~~~~ ~~~~~~~~ ~~~~~~~~~~~~~~   ";
    let most = b"9999~999999999999999999999999~~~";
    line_columns::is_formed(front, most, &line[0..33])
        && line_fields::is_blank_part(&line[36..WIDTH])
        && line_fields::is_blank_part(&line[34..36])
}

// One letter at most, in its form.
fn is_short(field: &[u8]) -> bool
    requires { length field.now ≡ 4 }
    ensures { result ≡ (eqb (get_or field.now 1 0) 32 && letters_formed field.now) }
{
    field[1] == b' ' && line_letters::letters_formed(field)
}

// One letter at most. Days and previous last are blank here: R and G, which ask for them, are left to `read_fields`.
fn read_quick(line: &[u8]) -> Option<TradeLine>
    requires { (length line.now ≡ width) × (get_or line.now 0 0 ≡ 84) }
    ensures { IfSome result (λ t. trade_line line.now ≡ Some t) }
{
    if !is_placed(line) || !is_short(&line[30..34]) {
        return None;
    }
    let letters = line_letters::first_letter(&line[30..34]);
    if letters.r || letters.g {
        return None;
    }
    read_values(line, letters)
}

// ---- any T line

// Its fields in their form, within their values, lawful and matched.
#[tactic(auto, unfolding(crate::specs::TradeLine::good_fields))]
fn is_good(read: TradeRead) -> bool
    ensures { result ≡ good_fields read }
{
    read.formed && read.ranged && read.trade.lawful && read.trade.matched
}

// Field by field.
#[tactic(auto, unfolding(crate::specs::TradeLine::trade_line, crate::specs::TradeLine::is_good, crate::specs::TradeLine::good_fields, crate::specs::TradeLine::line_in, line_kinds::specs::Fields::trade_read, rules::specs::Line::is_shaped, text::specs::Pick::pick))]
fn read_fields(line: &[u8]) -> Option<TradeLine>
    requires { (length line.now ≡ width) × (get_or line.now 0 0 ≡ 84) }
    ensures { result ≡ trade_line line.now }
{
    if !line_fields::is_printable_text(line) {
        return None;
    }
    let read = line_kinds::read_trade(line);
    if !is_good(read) {
        return None;
    }
    let trade = read.trade;
    let side = trade.side;
    Some(TradeLine {
        security: trade.security,
        market: trade.market,
        volume: side.volume,
        n: side.price.n,
        d: side.price.d,
        letters: side.letters,
        days: side.days,
        m: side.previous.n,
        e: side.previous.d,
    })
}

// Any bytes of any length. What the quick reading leaves is read field by field.
#[tactic(auto, using(crate::proofs::Lines::quick_good), unfolding(crate::specs::TradeLine::trade_line, crate::specs::TradeLine::is_good, rules::specs::Line::is_shaped, text::specs::Pick::pick))]
pub fn read_trade_line(line: &[u8]) -> Option<TradeLine>
    ensures { result ≡ trade_line line.now }
{
    if line.len() != WIDTH || line[0] != b'T' {
        return None;
    }
    let quick = read_quick(line);
    if quick.is_some() {
        return quick;
    }
    read_fields(line)
}
