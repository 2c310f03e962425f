// The engine: one call takes one line. Any bytes of any length are a line; the state is settings by value and two lent tables
// of fixed size, every value of which has a meaning; the tape is lent, of any length. Nothing is required. The promise is
// `Taken`: the outcome, the settings, every byte of both tables and every byte of the tape.
#![tactic(auto)]

ghost use Rattle.std.specs.Prelude.{◌≡◌};
ghost use Rattle.rules.specs.Refusal.{number_of};
ghost use Rattle.rules.specs.Day.{opened};
ghost use Rattle.engine.specs.Calls.{GoodCall};
ghost use Rattle.engine.specs.Taken.{outcome_of, Asked, Taken, TradeTaken, answer_of, count_of};

use call_plan::Plan;
use call_table::{Names, Table};
use line_trade::TradeLine;
use rules::{FIRST_SIDE, Refusal, SECOND_SIDE, Settings};

// Accepted, with the length of its print, 0 where nothing prints; or refused.
pub type Outcome = Result<usize, Refusal>;

#[derive(Clone, Copy)]
pub struct Answer {
    pub outcome: Outcome,
    pub settings: Settings,
}

#[tactic(auto, unfolding(crate::specs::Taken::outcome_of))]
fn outcome_of(p: Plan, n: usize) -> Outcome
    ensures { result ≡ outcome_of p n }
{
    match p {
        Plan::Stop(r) => Err(r),
        _ => Ok(n),
    }
}

// ---- an answer in document 01's numbers

// A refusal's number in document 01.
pub fn number_of(r: Refusal) -> u64
    ensures { result ≡ number_of r }
{
    u64::from(r)
}

// 0 where the line is accepted, else the number of its refusal.
#[tactic(auto, unfolding(crate::specs::Taken::answer_of))]
pub fn answer_of(o: Outcome) -> u64
    ensures { result ≡ answer_of o }
{
    match o {
        Ok(_) => 0,
        Err(r) => number_of(r),
    }
}

// The length of its print, 0 where nothing prints.
#[tactic(auto, unfolding(crate::specs::Taken::count_of))]
pub fn count_of(o: Outcome) -> usize
    ensures { result ≡ count_of o }
{
    match o {
        Ok(n) => n,
        Err(_) => 0,
    }
}

// ---- the entry points

// The settings of a fresh state: no D accepted yet. The lent tables may hold anything until a D line clears them.
pub fn fresh() -> Settings
    ensures { result ≡ opened 0 }
{
    call_state::opened_on(0)
}

// What a call asks for that is lent a tape of `room` bytes: its plan, or the refusal that stops it, 13 too.
pub fn ask_line(st: Settings, table: &Table, names: &Names, line: &[u8], room: usize) -> Plan
    ensures { Asked st table.now names.now line.now room result }
{
    let p = call_plan::plan_line(st, table, names, line);
    call_print::fitted(st, names, line, p, room)
}

// ---- trades

// A T line that nothing but the day's state can stop, after a D: its security may not be entered (6).
fn take_good(
    st: Settings,
    table: &mut Table,
    names: &Names,
    line: &[u8],
    t: TradeLine,
    tape: &mut [u8],
) -> Option<usize>
    requires { GoodCall st line.now t }
    ensures { TradeTaken st table.old names.now line.now tape.old table.new tape.new result }
{
    let place = (t.security - 1) as usize;
    let s = call_table::load(table, place);
    if !decide_letters::is_entered(s) {
        return None;
    }
    call_trade::carry_out(
        st,
        table,
        names,
        place,
        s,
        t,
        &line[FIRST_SIDE..SECOND_SIDE],
        tape,
    )
}

// A trade: a T line that the call accepts, and the length of its print. With any other line nothing is done, and the answer is None.
pub fn take_trade(
    st: Settings,
    table: &mut Table,
    names: &Names,
    line: &[u8],
    tape: &mut [u8],
) -> Option<usize>
    ensures { TradeTaken st table.old names.now line.now tape.old table.new tape.new result }
{
    if st.date == 0 {
        return None;
    }
    match line_trade::read_trade_line(line) {
        Some(t) => take_good(st, table, names, line, t, tape),
        None => None,
    }
}

// Any line, by its plan. Whoever calls it hands trades to `take_trade` first.
pub fn take_by_plan(
    st: Settings,
    table: &mut Table,
    names: &mut Names,
    line: &[u8],
    tape: &mut [u8],
) -> Answer
    ensures { Taken st table.old names.old line.now tape.old table.new names.new tape.new result }
{
    let asked = call_plan::plan_line(st, table, names, line);
    let p = call_print::fitted(st, names, line, asked, tape.len());
    let k = call_print::write_text(tape, st, names, line, p);
    call_state::update_table(table, line, p);
    call_state::update_names(names, line, p);
    Answer {
        outcome: outcome_of(p, k),
        settings: call_state::settings_after(st, p),
    }
}

// One call. Most lines are trades; what is none, or is refused, goes by its plan.
pub fn take_line(
    st: Settings,
    table: &mut Table,
    names: &mut Names,
    line: &[u8],
    tape: &mut [u8],
) -> Answer
    ensures { Taken st table.old names.old line.now tape.old table.new names.new tape.new result }
{
    match take_trade(st, table, names, line, tape) {
        Some(length) => Answer {
            outcome: Ok(length),
            settings: st,
        },
        None => take_by_plan(st, table, names, line, tape),
    }
}
