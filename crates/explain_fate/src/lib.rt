// What becomes of a line and why: refused, accepted, announced, left off, or printed with the reasons. Nothing is required:
// any line, any room, any contents of the lent tables.
#![tactic(auto)]

ghost use Rattle.std.specs.Prelude.{◌≡◌, ◌-◌, ◌≤◌};
ghost use Rattle.rules.specs.Sizes.{security_places};
ghost use Rattle.call_table.specs.Rows.{row, day_of};
ghost use Rattle.line_owed.specs.Owed.{OwedTrade, OwedCorrection, OwedLine};
ghost use Rattle.claim_calls.specs.Held.{stop_of};
ghost use Rattle.explain_fate.specs.Explained.{security_of, kind_in, trade_fate, cancel_fate, correction_fate, step_fate, fate_at, Explained};
ghost use Rattle.explain_fate.specs.Read.{read_security, read_fate, fate_if, SoundReading};

use call_plan::Plan;
use call_table::{Names, Table};
use explain_reasons::{FullReasons, PrintReasons, VolumeReasons};
use rules::{Correction, Line, Mode, Refusal, Security, Settings, Trade};

// Why a line prints, why its price is in full, why its volume is shown.
#[derive(Clone, Copy)]
pub struct Reasons {
    pub prints: PrintReasons,
    pub full: FullReasons,
    pub shows: VolumeReasons,
}

// What becomes of a line: refused; accepted, with nothing to print; an announcement; a trade or a correction that the mode
// leaves off; a print, with its reasons.
#[derive(Clone, Copy)]
pub enum Fate {
    Refused(Refusal),
    Accepted,
    Announced,
    LeftOff,
    Printed(Reasons),
}

// A line's kind, `-` where it is refused 1 or 2; its security, 0 where it has none or is not in its form and within its
// values; what becomes of it.
#[derive(Clone, Copy)]
pub struct Explanation {
    pub kind: u8,
    pub security: u64,
    pub fate: Fate,
}

// ---- an accepted line, by settings and its security

#[tactic(auto, unfolding(crate::specs::Explained::trade_fate, text::specs::Pick::pick))]
fn trade_fate(st: Settings, s: Security, t: Trade) -> Fate
    requires { OwedTrade t }
    ensures { result ≡ trade_fate st s t }
{
    let x = t.side;
    if !decide_trade::prints_trade(st, s, t.market, x) {
        return Fate::LeftOff;
    }
    Fate::Printed(Reasons {
        prints: explain_reasons::trade_prints(st, s, t.market, x),
        full: explain_reasons::trade_full_by(st, s, t.market, x),
        shows: explain_reasons::trade_shows_by(st, s, t.market, x),
    })
}

// A cancel or an error: they always print.
#[tactic(auto, unfolding(crate::specs::Explained::cancel_fate))]
fn cancel_fate(st: Settings, s: Security, t: Trade) -> Fate
    requires { OwedTrade t }
    ensures { result ≡ cancel_fate st s t }
{
    let x = t.side;
    Fate::Printed(Reasons {
        prints: explain_reasons::always(),
        full: explain_reasons::cancel_full_by(st, s, x),
        shows: explain_reasons::cancel_shows_by(st, x),
    })
}

#[tactic(auto, unfolding(crate::specs::Explained::correction_fate, text::specs::Pick::pick))]
fn correction_fate(st: Settings, s: Security, c: Correction) -> Fate
    requires { OwedCorrection c }
    ensures { result ≡ correction_fate st s c }
{
    let x = c.original;
    let y = c.correcting;
    if !decide_correction::prints_correction(st, s, x, y) {
        return Fate::LeftOff;
    }
    Fate::Printed(Reasons {
        prints: explain_reasons::correction_prints(st, s, x, y),
        full: explain_reasons::correction_full_by(st, s, x, y),
        shows: explain_reasons::correction_shows_by(st, x, y),
    })
}

// P prints in MPV alone.
#[tactic(auto, unfolding(crate::specs::Explained::step_fate, text::specs::Pick::pick))]
fn step_fate(m: Mode) -> Fate
    ensures { result ≡ step_fate m }
{
    if decide_correction::is_mpv(m) {
        Fate::Announced
    } else {
        Fate::Accepted
    }
}

#[tactic(auto, unfolding(crate::specs::Explained::fate_at, line_owed::specs::Owed::OwedLine))]
fn fate_at(st: Settings, s: Security, l: Line) -> Fate
    requires { OwedLine l }
    ensures { result ≡ fate_at st s l }
{
    match l {
        Line::Dated(_) | Line::Listed(_) => Fate::Accepted,
        Line::Moded(_) | Line::Leveled(_) => Fate::Announced,
        Line::Stepped(_) => step_fate(st.mode),
        Line::Traded(t) => trade_fate(st, s, t),
        Line::Cancelled(t) | Line::Erred(t) => cancel_fate(st, s, t),
        Line::Corrected(c) => correction_fate(st, s, c),
    }
}

// ---- a line as it is read

#[tactic(auto, unfolding(crate::specs::Explained::security_of))]
fn security_of(l: Line) -> u64
    ensures { result ≡ security_of l }
{
    match l {
        Line::Dated(_) | Line::Moded(_) | Line::Leveled(_) | Line::Stepped(_) => 0,
        Line::Listed(x) => x.number,
        Line::Traded(t) | Line::Cancelled(t) | Line::Erred(t) => t.security,
        Line::Corrected(c) => c.security,
    }
}

// The first place where the line has no security.
fn place_of(number: u64) -> usize
    requires { number ≤ security_places }
    ensures { result ≡ number - 1 }
{
    number.saturating_sub(1) as usize
}

fn line_fate(st: Settings, table: &Table, l: Line) -> Fate
    requires { OwedLine l }
    ensures { result ≡ fate_at st (row table.now (security_of l - 1)) l }
{
    let place = place_of(security_of(l));
    let s = call_table::load(table, place);
    fate_at(st, s, l)
}

#[tactic(auto, unfolding(crate::specs::Read::read_fate, crate::specs::Read::SoundReading))]
fn read_fate(st: Settings, table: &Table, reading: Result<Line, Refusal>) -> Fate
    requires { SoundReading reading }
    ensures { result ≡ read_fate st table.now reading }
{
    match reading {
        Ok(l) => line_fate(st, table, l),
        Err(r) => Fate::Refused(r),
    }
}

#[tactic(auto, unfolding(crate::specs::Read::read_security))]
fn read_security(reading: Result<Line, Refusal>) -> u64
    ensures { result ≡ read_security reading }
{
    match reading {
        Ok(l) => security_of(l),
        Err(_) => 0,
    }
}

#[tactic(auto, unfolding(crate::specs::Explained::kind_in, text::specs::Pick::pick))]
fn kind_of(line: &[u8]) -> u8
    ensures { result ≡ kind_in line.now }
{
    if !call_plan::is_shaped(line) {
        return b'-';
    }
    let kind = line[0];
    if line_fields::is_kind(kind) {
        kind
    } else {
        b'-'
    }
}

// What the plan stops is refused; the rest is as the line is read.
#[tactic(auto, unfolding(claim_calls::specs::Held::stop_of, crate::specs::Read::fate_if))]
fn fate_of(p: Plan, taken: Fate) -> Fate
    ensures { result ≡ fate_if (stop_of p) taken }
{
    match p {
        Plan::Stop(r) => Fate::Refused(r),
        _ => taken,
    }
}

// ---- the entry point

// What becomes of a line in a call that is lent a tape of `room` bytes, by the state that it finds.
pub fn explain_line(
    st: Settings,
    table: &Table,
    names: &Names,
    line: &[u8],
    room: usize,
) -> Explanation
    ensures { Explained (day_of st table.now names.now) (record { line = line.now; room = room }) result }
{
    // as slices the tables tell their sizes
    let _rows = &table[..];
    let _places = &names[..];
    let p = engine::ask_line(st, table, names, line, room);
    let reading = line_kinds::read_line(line);
    Explanation {
        kind: kind_of(line),
        security: read_security(reading),
        fate: fate_of(p, read_fate(st, table, reading)),
    }
}
