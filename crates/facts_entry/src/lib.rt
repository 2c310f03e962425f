// The entry that a line adds to the shown facts, as a value (document 01, "Shown facts and the whole day"): what is shown of an
// accepted line that prints. Nothing is required: any line, any room, any contents of the lent tables.
#![tactic(auto)]

ghost use Rattle.std.specs.Prelude.{◌≡◌, ◌&&◌, ℕ, ◌≤◌, ◌<◌};
ghost use Rattle.rules.specs.Sizes.{security_places};
ghost use Rattle.rules.specs.Names.{has_temporary};
ghost use Rattle.rules.specs.Announcement.{step_text};
ghost use Rattle.rules.specs.Day.{tape_of};
ghost use Rattle.rules.specs.Shown.{conditions_of, part_of, announced_if, shown_by};
ghost use Rattle.print_price.specs.Sound.{Sound};
ghost use Rattle.call_table.specs.Rows.{name_of, day_of};
ghost use Rattle.call_plan.specs.declared.Plan.TheVariants.{Print, Cancel, Correct};
ghost use Rattle.call_print.specs.Print.{print_of};
ghost use Rattle.facts_side.specs.Sound.{SoundSide};
ghost use Rattle.facts_entry.specs.Entry.{conditions_in, part_in, volume_in, fact_in, shows_shares, volume_of, plan_fact, SoundTrade, SoundCancel, SoundCorrection, SoundFact, entry_of};

use call_plan::{CancelPlan, CorrectionPlan, Plan, TradePlan};
use call_table::{Names, Table};
use rules::{Letters, Mode, Settings, Side};

// The conditions of a side as they are shown: N as M, C as K; days and previous last 0 for none. Prices are in units of ten
// to the power -8 dollars.
#[derive(Clone, Copy)]
pub struct Conditions {
    pub letters: Letters,
    pub days: u64,
    pub previous: u64,
}

// A side of a C, X or E: in normal its price, conditions and volume, otherwise its conditions.
#[derive(Clone, Copy)]
pub enum Part {
    Full(u64, Conditions, u64),
    Bare(Conditions),
}

// A trade: its security's number, the temporary suffix shown or not, its price; its volume, if it is shown.
#[derive(Clone, Copy)]
pub struct TradeEntry {
    pub security: u64,
    pub temporary: bool,
    pub price: u64,
    pub conditions: Conditions,
    pub volume: Option<u64>,
}

// What a line adds: nothing; an announcement, whose text is the print; a trade; a cancel, an error, a correction, with the
// security's number.
#[derive(Clone, Copy)]
pub enum Entry {
    Silent,
    Announced,
    Traded(TradeEntry),
    Cancelled(u64, Part),
    Erred(u64, Part),
    Corrected(u64, Part, Part),
}

// ---- a side

#[tactic(auto, unfolding(crate::specs::Entry::conditions_in, rules::specs::Shown::conditions_of))]
fn conditions_of(x: Side) -> Conditions
    requires { Sound x.previous }
    ensures { conditions_in result ≡ conditions_of x }
{
    Conditions {
        letters: facts_side::shown_letters(x.letters),
        days: x.days,
        previous: print_price::in_units(x.previous),
    }
}

#[tactic(auto, unfolding(crate::specs::Entry::part_in, rules::specs::Shown::part_of, text::specs::Pick::pick))]
fn part_of(normal: bool, x: Side) -> Part
    requires { SoundSide x }
    ensures { part_in result ≡ part_of normal x }
{
    let c = conditions_of(x);
    if normal {
        Part::Full(print_price::in_units(x.price), c, x.volume)
    } else {
        Part::Bare(c)
    }
}

// ---- a trade

// In normal always; otherwise where it puts characters on the tape.
#[tactic(auto, using(crate::proofs::Arms::some_bytes), unfolding(crate::specs::Entry::shows_shares))]
fn shows_shares(st: Settings, t: TradePlan) -> bool
    requires { 1 ≤ t.unit }
    ensures { result ≡ shows_shares st t }
{
    decide_levels::is_normal(st.mode)
        || t.shows && print_volume::volume_length(t.network, t.unit, t.side.volume) != 0
}

#[tactic(auto, unfolding(crate::specs::Entry::volume_in, crate::specs::Entry::volume_of, text::specs::Pick::pick))]
fn volume_of(st: Settings, t: TradePlan) -> Option<u64>
    requires { 1 ≤ t.unit }
    ensures { volume_in result ≡ volume_of st t }
{
    if shows_shares(st, t) {
        Some(t.side.volume)
    } else {
        None
    }
}

// A blank temporary suffix is never shown.
fn shows_suffix(names: &Names, t: TradePlan) -> bool
    requires { t.place < security_places }
    ensures { result ≡ (t.temporary && has_temporary (name_of names.now t.place)) }
{
    t.temporary && name_text::has_temporary(call_table::name_at(names, t.place))
}

// ---- the entry of a plan

#[tactic(auto, unfolding(crate::specs::Entry::fact_in, crate::specs::Entry::plan_fact, text::specs::Pick::pick))]
fn trade_entry(st: Settings, names: &Names, t: TradePlan) -> Entry
    requires { SoundTrade t }
    ensures { fact_in (print_of st names.now (Print t)) result ≡ plan_fact st names.now (Print t) }
{
    if !t.prints {
        return Entry::Silent;
    }
    Entry::Traded(TradeEntry {
        security: (t.place + 1) as u64,
        temporary: shows_suffix(names, t),
        price: print_price::in_units(t.side.price),
        conditions: conditions_of(t.side),
        volume: volume_of(st, t),
    })
}

#[tactic(auto, unfolding(crate::specs::Entry::fact_in, crate::specs::Entry::plan_fact, text::specs::Pick::pick))]
fn cancel_entry(st: Settings, names: &Names, t: CancelPlan) -> Entry
    requires { SoundCancel t }
    ensures { fact_in (print_of st names.now (Cancel t)) result ≡ plan_fact st names.now (Cancel t) }
{
    let security = (t.place + 1) as u64;
    let part = part_of(decide_levels::is_normal(st.mode), t.side);
    if t.error {
        Entry::Erred(security, part)
    } else {
        Entry::Cancelled(security, part)
    }
}

#[tactic(auto, unfolding(crate::specs::Entry::fact_in, crate::specs::Entry::plan_fact, text::specs::Pick::pick))]
fn correction_entry(st: Settings, names: &Names, c: CorrectionPlan) -> Entry
    requires { SoundCorrection c }
    ensures { fact_in (print_of st names.now (Correct c)) result ≡ plan_fact st names.now (Correct c) }
{
    if !c.prints {
        return Entry::Silent;
    }
    let normal = decide_levels::is_normal(st.mode);
    let security = (c.place + 1) as u64;
    Entry::Corrected(
        security,
        part_of(normal, c.original),
        part_of(normal, c.correcting),
    )
}

// P prints in MPV alone.
#[tactic(auto, unfolding(crate::specs::Entry::fact_in, rules::specs::Shown::announced_if, rules::specs::Announcement::step_text, rules::specs::Announcement::minimum_text))]
fn step_entry(m: Mode) -> Entry
    ensures { (n : ℕ) → fact_in (step_text m n) result ≡ announced_if (step_text m n) }
{
    match m {
        Mode::Mpv => Entry::Announced,
        _ => Entry::Silent,
    }
}

#[tactic(auto, using(crate::proofs::Arms::announcements), unfolding(crate::specs::Entry::fact_in, crate::specs::Entry::plan_fact, crate::specs::Entry::SoundFact, call_print::specs::Print::print_of, call_print::specs::Print::text_of))]
fn plan_entry(st: Settings, names: &Names, p: Plan) -> Entry
    requires { SoundFact p }
    ensures { fact_in (print_of st names.now p) result ≡ plan_fact st names.now p }
{
    match p {
        Plan::Stop(_) | Plan::Open(_) | Plan::Enter(_, _) => Entry::Silent,
        Plan::Change(_) | Plan::Level(_) => Entry::Announced,
        Plan::Step(_) => step_entry(st.mode),
        Plan::Print(t) => trade_entry(st, names, t),
        Plan::Cancel(t) => cancel_entry(st, names, t),
        Plan::Correct(c) => correction_entry(st, names, c),
    }
}

// ---- the entry point

// The entry of what the rules show of a call that is lent a tape of `room` bytes, by the state that it finds; an announcement's
// text is the call's print.
pub fn entry_of(st: Settings, table: &Table, names: &Names, line: &[u8], room: usize) -> Entry
    ensures { (result ≡ entry_of (shown_by (day_of st table.now names.now) (record { line = line.now; room = room }))) × (fact_in (tape_of (day_of st table.now names.now) (record { line = line.now; room = room })) result ≡ shown_by (day_of st table.now names.now) (record { line = line.now; room = room })) }
{
    // as slices the tables tell their sizes
    let _rows = &table[..];
    let _places = &names[..];
    let p = engine::ask_line(st, table, names, line, room);
    plan_entry(st, names, p)
}
