// What a line asks for: the refusal of 1 to 12 that stops it, by number, or what it prints and stores. Securities and names
// stand in lent tables; a line is any bytes of any length.
#![tactic(auto)]

ghost use Rattle.std.specs.Prelude.{◌≡◌, ◌-◌, ◌≤◌, ◌<◌, ◌&&◌, not, eqb, length};
ghost use Rattle.rules.specs.Sizes.{width, name_width, security_places};
ghost use Rattle.rules.specs.Line.{is_shaped, is_kind};
ghost use Rattle.rules.specs.Names.{same_name};
ghost use Rattle.rules.specs.Day.{is_entered, taken_name, entered};
ghost use Rattle.call_table.specs.Rows.{row, name_of, rows_from, names_from};
ghost use Rattle.call_plan.specs.Plan.{date_plan, listing_plan, print_plan, unless_stopped, is_lawful, are_lawful, trade_plan, cancel_of, cancel_plan, correction_of, correction_plan, line_plan, read_plan, plan_of};
ghost use Rattle.line_owed.specs.Owed.{OwedListing, OwedTrade, OwedCorrection, OwedLine};

use call_table::{Names, Table};
use rules::{
    Correction, Counts, Issue, Line, Listing, Mode, PLACES, PriceForm, Printed, Range, Refusal,
    Security, Settings, Side, Trade, WIDTH,
};

// What an accepted trade prints, and the security after it.
#[derive(Clone, Copy)]
pub struct TradePlan {
    pub place: usize,
    pub side: Side,
    pub network: u64,
    pub unit: u64,
    pub temporary: bool,
    pub prints: bool,
    pub form: PriceForm,
    pub shows: bool,
    pub after: Security,
}

// What an accepted cancel or error prints.
#[derive(Clone, Copy)]
pub struct CancelPlan {
    pub error: bool,
    pub place: usize,
    pub side: Side,
    pub network: u64,
    pub unit: u64,
    pub form: PriceForm,
    pub shows: bool,
}

// What an accepted correction prints, and the security after it.
#[derive(Clone, Copy)]
pub struct CorrectionPlan {
    pub place: usize,
    pub original: Side,
    pub correcting: Side,
    pub network: u64,
    pub unit: u64,
    pub prints: bool,
    pub form: PriceForm,
    pub shows: bool,
    pub after: Security,
}

// What a line asks for, or the refusal that stops it.
// Kept: `Stop` is one of the cases and no Err, since what it prints and leaves is asked of every plan alike.
#[derive(Clone, Copy)]
pub enum Plan {
    Stop(Refusal),
    Open(u64),
    Enter(usize, Security),
    Change(Mode),
    Level(u64),
    Step(u64),
    Print(TradePlan),
    Cancel(CancelPlan),
    Correct(CorrectionPlan),
}

// ---- the plan

#[tactic(auto, unfolding(rules::specs::Line::is_shaped))]
pub fn is_shaped(line: &[u8]) -> bool
    ensures { result ≡ is_shaped line.now }
{
    line.len() == WIDTH && line_fields::is_printable_text(line)
}

// Not a D, and no D accepted yet.
fn is_undated(st: Settings, kind: u8) -> bool
    ensures { result ≡ (not (eqb kind 68) && eqb st.date 0) }
{
    kind != b'D' && st.date == 0
}

#[tactic(auto, unfolding(crate::specs::Plan::date_plan, text::specs::Pick::pick))]
fn date_plan(st: Settings, n: u64) -> Plan
    ensures { result ≡ date_plan st n }
{
    if n <= st.date {
        Plan::Stop(Refusal::DateOrder)
    } else {
        Plan::Open(n)
    }
}

// The name at place i is that of an entered security, and the same as the given one.
fn is_taken_at(table: &Table, names: &Names, i: usize, name: &[u8]) -> bool
    requires { (i < security_places) × (length name.now ≡ name_width) }
    ensures { result ≡ (is_entered (row table.now i) && same_name name.now (name_of names.now i)) }
{
    decide_letters::is_entered(call_table::load(table, i))
        && name_text::same_name(name, call_table::name_at(names, i))
}

fn is_name_taken(table: &Table, names: &Names, name: &[u8]) -> bool
    requires { length name.now ≡ name_width }
    ensures { result ≡ taken_name name.now (rows_from security_places 0 table.now) (names_from security_places 0 names.now) }
{
    for i in 0..PLACES {
        if is_taken_at(table, names, i, name) {
            return true;
        }
    }
    false
}

// A security before its first trade.
#[tactic(auto, unfolding(rules::specs::Day::entered))]
fn entered_as(l: Listing) -> Security
    ensures { result ≡ entered l }
{
    Security {
        issue: Issue {
            unit: l.unit,
            network: l.network,
            market: l.market,
            first: l.first,
        },
        printed: Printed { price: 0 },
        range: Range {
            high: 0,
            low: 0,
            last: 0,
        },
        counts: Counts {
            trades: 0,
            qualified: 0,
            primaries: 0,
        },
    }
}

#[tactic(auto, unfolding(crate::specs::Plan::listing_plan, text::specs::Pick::pick))]
fn listing_plan(table: &Table, names: &Names, name: &[u8], l: Listing) -> Plan
    requires { OwedListing l × (length name.now ≡ name_width) }
    ensures { result ≡ listing_plan table.now names.now name.now l }
{
    let place = (l.number - 1) as usize;
    let s = call_table::load(table, place);
    if decide_letters::is_entered(s) {
        return Plan::Stop(Refusal::InUse);
    }
    if !l.lawful {
        return Plan::Stop(Refusal::Name);
    }
    if is_name_taken(table, names, name) {
        return Plan::Stop(Refusal::SameName);
    }
    Plan::Enter(place, entered_as(l))
}

fn print_plan(st: Settings, s: Security, t: Trade) -> TradePlan
    requires { OwedTrade t }
    ensures { result ≡ print_plan st s t }
{
    let x = t.side;
    let value = print_price::in_units(x.price);
    let whole = print_price::whole_part(x.price);
    let ranges = decide_letters::for_range(x.letters);
    let lasts = decide_letters::for_last(x.letters);
    let rule = decide_letters::has_rule(x.letters);
    let prints = decide_trade::prints_by(st, s, t.market, x.volume, value, ranges, lasts, rule);
    TradePlan {
        place: (t.security - 1) as usize,
        side: x,
        network: s.issue.network,
        unit: s.issue.unit,
        temporary: decide_letters::shows_temporary(s),
        prints,
        form: decide_trade::form_by(st, s, t.market, whole),
        shows: decide_trade::shows_by(st, s, t.market, x.volume, lasts, rule),
        after: decide_trade::after_by(s, t.market, value, prints, ranges, lasts),
    }
}

fn is_lawful(s: Security, t: Trade) -> bool
    ensures { result ≡ is_lawful s t }
{
    t.lawful && decide_letters::on_network(s.issue.network, t.side.letters)
}

// T, X, E, C: refusals 6, 10 and 11, then what the line asks for.
#[tactic(auto, unfolding(crate::specs::Plan::unless_stopped, text::specs::Pick::pick))]
fn unless_stopped(s: Security, lawful: bool, matched: bool, p: Plan) -> Plan
    ensures { result ≡ unless_stopped s lawful matched p }
{
    if !decide_letters::is_entered(s) {
        return Plan::Stop(Refusal::NotEntered);
    }
    if !lawful {
        return Plan::Stop(Refusal::Conditions);
    }
    if !matched {
        return Plan::Stop(Refusal::Unmatched);
    }
    p
}

#[tactic(auto, unfolding(crate::specs::Plan::trade_plan))]
fn trade_plan(st: Settings, s: Security, t: Trade) -> Plan
    requires { OwedTrade t }
    ensures { result ≡ trade_plan st s t }
{
    unless_stopped(
        s,
        is_lawful(s, t),
        t.matched,
        Plan::Print(print_plan(st, s, t)),
    )
}

fn trade_at(st: Settings, table: &Table, t: Trade) -> Plan
    requires { OwedTrade t }
    ensures { result ≡ trade_plan st (row table.now (t.security - 1)) t }
{
    let s = call_table::load(table, (t.security - 1) as usize);
    trade_plan(st, s, t)
}

#[tactic(auto, unfolding(crate::specs::Plan::cancel_of))]
fn cancel_of(error: bool, st: Settings, s: Security, t: Trade) -> CancelPlan
    requires { OwedTrade t }
    ensures { result ≡ cancel_of error st s t }
{
    CancelPlan {
        error,
        place: (t.security - 1) as usize,
        side: t.side,
        network: s.issue.network,
        unit: s.issue.unit,
        form: decide_correction::cancel_form(st, s, t.side),
        shows: decide_correction::cancel_shows(st, t.side),
    }
}

#[tactic(auto, unfolding(crate::specs::Plan::cancel_plan))]
fn cancel_plan(error: bool, st: Settings, s: Security, t: Trade) -> Plan
    requires { OwedTrade t }
    ensures { result ≡ cancel_plan error st s t }
{
    unless_stopped(
        s,
        is_lawful(s, t),
        t.matched,
        Plan::Cancel(cancel_of(error, st, s, t)),
    )
}

fn cancel_at(error: bool, st: Settings, table: &Table, t: Trade) -> Plan
    requires { OwedTrade t }
    ensures { result ≡ cancel_plan error st (row table.now (t.security - 1)) t }
{
    let s = call_table::load(table, (t.security - 1) as usize);
    cancel_plan(error, st, s, t)
}

#[tactic(auto, unfolding(crate::specs::Plan::correction_of))]
fn correction_of(st: Settings, s: Security, c: Correction) -> CorrectionPlan
    requires { OwedCorrection c }
    ensures { result ≡ correction_of st s c }
{
    let x = c.original;
    let y = c.correcting;
    CorrectionPlan {
        place: (c.security - 1) as usize,
        original: x,
        correcting: y,
        network: s.issue.network,
        unit: s.issue.unit,
        prints: decide_correction::prints_correction(st, s, x, y),
        form: decide_correction::correction_form(st, s, x, y),
        shows: decide_correction::correction_shows(st, x, y),
        after: decide_correction::after_correction(s, y),
    }
}

// Letters lawful by themselves, and on the security's network, on both sides.
fn are_lawful(s: Security, c: Correction) -> bool
    ensures { result ≡ are_lawful s c }
{
    c.lawful
        && decide_letters::on_network(s.issue.network, c.original.letters)
        && decide_letters::on_network(s.issue.network, c.correcting.letters)
}

#[tactic(auto, unfolding(crate::specs::Plan::correction_plan))]
fn correction_plan(st: Settings, s: Security, c: Correction) -> Plan
    requires { OwedCorrection c }
    ensures { result ≡ correction_plan st s c }
{
    unless_stopped(
        s,
        are_lawful(s, c),
        c.matched,
        Plan::Correct(correction_of(st, s, c)),
    )
}

fn correction_at(st: Settings, table: &Table, c: Correction) -> Plan
    requires { OwedCorrection c }
    ensures { result ≡ correction_plan st (row table.now (c.security - 1)) c }
{
    let s = call_table::load(table, (c.security - 1) as usize);
    correction_plan(st, s, c)
}

#[tactic(auto, unfolding(crate::specs::Plan::line_plan, line_owed::specs::Owed::OwedLine))]
fn line_plan(st: Settings, table: &Table, names: &Names, name: &[u8], l: Line) -> Plan
    requires { OwedLine l × (length name.now ≡ name_width) }
    ensures { result ≡ line_plan st table.now names.now name.now l }
{
    match l {
        Line::Dated(n) => date_plan(st, n),
        Line::Listed(x) => listing_plan(table, names, name, x),
        Line::Moded(m) => Plan::Change(m),
        Line::Leveled(n) => Plan::Level(n),
        Line::Stepped(n) => Plan::Step(n),
        Line::Traded(t) => trade_at(st, table, t),
        Line::Cancelled(t) => cancel_at(false, st, table, t),
        Line::Erred(t) => cancel_at(true, st, table, t),
        Line::Corrected(c) => correction_at(st, table, c),
    }
}

// A line of a known kind, by its fields: refusals 4 and 5, then its own.
#[tactic(auto, unfolding(crate::specs::Plan::read_plan, rules::specs::Line::is_formed, rules::specs::Line::is_ranged, rules::specs::Line::line_of, text::specs::Pick::pick))]
fn read_plan(st: Settings, table: &Table, names: &Names, line: &[u8]) -> Plan
    requires { length line.now ≡ width }
    ensures { result ≡ read_plan st table.now names.now line.now }
{
    let parsed = line_kinds::read_kind(line);
    if !parsed.formed {
        return Plan::Stop(Refusal::Form);
    }
    if !parsed.ranged {
        return Plan::Stop(Refusal::Value);
    }
    line_plan(st, table, names, &line[5..24], parsed.line)
}

// What a line asks for.
#[tactic(auto, unfolding(crate::specs::Plan::plan_of, text::specs::Pick::pick))]
pub fn plan_line(st: Settings, table: &Table, names: &Names, line: &[u8]) -> Plan
    ensures { result ≡ plan_of st table.now names.now line.now }
{
    if !is_shaped(line) {
        return Plan::Stop(Refusal::Shape);
    }
    let kind = line[0];
    if !line_fields::is_kind(kind) {
        return Plan::Stop(Refusal::Kind);
    }
    if is_undated(st, kind) {
        return Plan::Stop(Refusal::NoDate);
    }
    read_plan(st, table, names, line)
}
