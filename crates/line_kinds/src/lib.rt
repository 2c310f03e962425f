// A day line, read from its columns (document 01, Day lines): each field in its form, each number within its values,
// and the line as a value. What needs the day's state is not asked here.
#![tactic(auto)]

ghost use Rattle.std.specs.Prelude.{◌≡◌, length};
ghost use Rattle.rules.specs.Sizes.{width};
ghost use Rattle.rules.specs.Columns.{column};
ghost use Rattle.rules.specs.Line.{of_kind};
ghost use Rattle.line_kinds.specs.Fields.{trade_formed_by, trade_ranged_by, trade_read, said_by, corrected_read, reading_of};

use rules::{
    Correction, FIRST_SIDE, Line, Number, Parsed, Refusal, SECOND_SIDE, SIDES_END, Trade, WIDTH,
};

// The fields that T, X and E have in common.
#[derive(Clone, Copy)]
pub struct TradeRead {
    pub formed: bool,
    pub ranged: bool,
    pub trade: Trade,
}

impl TradeRead {
    // As a line of one of the three kinds.
    fn said(self, line: Line) -> Parsed
        ensures { result ≡ said_by self line }
    {
        Parsed {
            formed: self.formed,
            ranged: self.ranged,
            line,
        }
    }
}

// ---- T, X, E and C

// `side` and `rest`: the side, and what follows it, are in their form.
#[tactic(auto, unfolding(crate::specs::Fields::trade_formed_by))]
fn trade_formed(security: Number, market: u8, side: bool, rest: bool) -> bool
    ensures { result ≡ trade_formed_by security market side rest }
{
    line_numbers::is_number(security) && line_fields::is_market(market) && side && rest
}

#[tactic(auto, unfolding(crate::specs::Fields::trade_ranged_by))]
fn trade_ranged(security: u64, sides: bool) -> bool
    ensures { result ≡ trade_ranged_by security sides }
{
    line_numbers::is_security_number(security) && sides
}

// The fields of a T, X or E line.
#[tactic(auto, unfolding(crate::specs::Fields::trade_formed_by, crate::specs::Fields::trade_ranged_by, crate::specs::Fields::trade_read, rules::specs::Line::trade_formed, rules::specs::Line::trade_ranged, rules::specs::Line::trade_of, line_side::specs::Side::side_read))]
pub fn read_trade(line: &[u8]) -> TradeRead
    requires { length line.now ≡ width }
    ensures { result ≡ trade_read line.now }
{
    let number = line_numbers::read_number(&line[1..5]);
    let market = line[5];
    let read = line_side::read_side(&line[FIRST_SIDE..SECOND_SIDE]);
    let blank = line_fields::is_blank_rest(&line[SECOND_SIDE..WIDTH]);
    let security = line_numbers::value_of(number);
    TradeRead {
        formed: trade_formed(number, market, read.formed, blank),
        ranged: trade_ranged(security, read.ranged),
        trade: Trade {
            security,
            market: u64::from(market),
            side: read.side,
            lawful: read.lawful,
            matched: read.matched,
        },
    }
}

// A C line: each side is handed to the reader as a part that starts in the line's middle.
#[tactic(auto, unfolding(crate::specs::Fields::trade_formed_by, crate::specs::Fields::trade_ranged_by, rules::specs::Line::correction_formed, rules::specs::Line::correction_ranged, rules::specs::Line::correction_of, line_side::specs::Side::side_read))]
fn read_correction(line: &[u8]) -> Parsed
    requires { length line.now ≡ width }
    ensures { result ≡ corrected_read line.now }
{
    let number = line_numbers::read_number(&line[1..5]);
    let market = line[5];
    let first = line_side::read_side(&line[FIRST_SIDE..SECOND_SIDE]);
    let second = line_side::read_side(&line[SECOND_SIDE..SIDES_END]);
    let blank = line_fields::is_blank_part(&line[SIDES_END..WIDTH]);
    let security = line_numbers::value_of(number);
    Parsed {
        formed: trade_formed(number, market, first.formed, second.formed && blank),
        ranged: trade_ranged(security, first.ranged && second.ranged),
        line: Line::Corrected(Correction {
            security,
            market: u64::from(market),
            original: first.side,
            correcting: second.side,
            lawful: first.lawful && second.lawful,
            matched: first.matched && second.matched,
        }),
    }
}

// ---- any line

// A line of a known kind.
#[tactic(auto, unfolding(rules::specs::Line::of_kind, text::specs::Pick::pick, crate::specs::Fields::trade_read))]
pub fn read_kind(line: &[u8]) -> Parsed
    requires { length line.now ≡ width }
    ensures { result ≡ of_kind (column 1 line.now) line.now }
{
    match line[0] {
        b'D' => line_setup::read_date(line),
        b'S' => line_setup::read_listing(line),
        b'M' => line_setup::read_mode(line),
        b'V' => line_setup::read_level(line),
        b'P' => line_setup::read_step(line),
        b'T' => {
            let read = read_trade(line);
            read.said(Line::Traded(read.trade))
        }
        b'X' => {
            let read = read_trade(line);
            read.said(Line::Cancelled(read.trade))
        }
        b'E' => {
            let read = read_trade(line);
            read.said(Line::Erred(read.trade))
        }
        _ => read_correction(line),
    }
}

// Refusals 1, 2, 4 and 5 in their order, or the line.
#[tactic(auto, unfolding(crate::specs::Fields::reading_of, rules::specs::Line::is_shaped, rules::specs::Line::is_formed, rules::specs::Line::is_ranged, rules::specs::Line::line_of, text::specs::Pick::pick))]
pub fn read_line(line: &[u8]) -> Result<Line, Refusal>
    ensures { result ≡ reading_of line.now }
{
    if line.len() != WIDTH || !line_fields::is_printable_text(line) {
        return Err(Refusal::Shape);
    }
    if !line_fields::is_kind(line[0]) {
        return Err(Refusal::Kind);
    }
    let parsed = read_kind(line);
    if !parsed.formed {
        return Err(Refusal::Form);
    }
    if !parsed.ranged {
        return Err(Refusal::Value);
    }
    Ok(parsed.line)
}
