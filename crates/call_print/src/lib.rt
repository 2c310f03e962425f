// The print of a plan (document 01, "Tape characters", "Lines not taken"): its length, whether it fits the lent tape (13), and
// its writer, which is lent the rest of the tape. Names stand in a lent table.
#![tactic(auto)]

ghost use Rattle.std.specs.Prelude.{◌≡◌, ◌≤◌, false, length};
ghost use Rattle.text.specs.Put.{Written};
ghost use Rattle.rules.specs.Names.{name_text};
ghost use Rattle.call_table.specs.Rows.{name_of};
ghost use Rattle.call_print.specs.Print.{SoundPrint, SoundCancel, SoundCorrect, SoundPlan, printed_name, print_text, cancelled, corrected, fitted_of, print_of};

use call_plan::{CancelPlan, CorrectionPlan, Plan, TradePlan};
use call_table::Names;
use print_side::Look;
use rules::{FIRST_SIDE, LONGEST_PRINT, Refusal, SECOND_SIDE, SIDES_END, Settings};

// ---- how the sides of a plan are shown

fn trade_look(t: TradePlan) -> Look
    ensures { (result.network ≡ t.network) × (result.unit ≡ t.unit) × (result.form ≡ t.form) × (result.shows ≡ t.shows) }
{
    Look {
        network: t.network,
        unit: t.unit,
        form: t.form,
        shows: t.shows,
    }
}

fn cancel_look(t: CancelPlan) -> Look
    ensures { (result.network ≡ t.network) × (result.unit ≡ t.unit) × (result.form ≡ t.form) × (result.shows ≡ t.shows) }
{
    Look {
        network: t.network,
        unit: t.unit,
        form: t.form,
        shows: t.shows,
    }
}

fn correction_look(c: CorrectionPlan) -> Look
    ensures { (result.network ≡ c.network) × (result.unit ≡ c.unit) × (result.form ≡ c.form) × (result.shows ≡ c.shows) }
{
    Look {
        network: c.network,
        unit: c.unit,
        form: c.form,
        shows: c.shows,
    }
}

// ---- the print: its length, whether it fits, its writer

#[tactic(auto, unfolding(crate::specs::Print::print_text, text::specs::Pick::opt))]
fn print_length(names: &Names, line: &[u8], t: TradePlan) -> usize
    requires { SoundPrint line.now t }
    ensures { result ≡ length (print_text (name_text t.temporary (name_of names.now t.place)) t) }
{
    if t.prints {
        let name = call_table::name_at(names, t.place);
        print_side::side_length(name, t.temporary, trade_look(t), t.side)
    } else {
        0
    }
}

#[tactic(auto, unfolding(crate::specs::Print::cancelled))]
fn cancel_length(names: &Names, line: &[u8], t: CancelPlan) -> usize
    requires { SoundCancel line.now t }
    ensures { result ≡ length (cancelled (name_text false (name_of names.now t.place)) t) }
{
    let name = call_table::name_at(names, t.place);
    print_amendment::cancel_length(t.error, name, cancel_look(t), t.side)
}

#[tactic(auto, unfolding(crate::specs::Print::corrected, text::specs::Pick::opt))]
fn correction_length(names: &Names, line: &[u8], c: CorrectionPlan) -> usize
    requires { SoundCorrect line.now c }
    ensures { result ≡ length (corrected (name_text false (name_of names.now c.place)) c) }
{
    if c.prints {
        let name = call_table::name_at(names, c.place);
        print_amendment::correction_length(name, correction_look(c), c.original, c.correcting)
    } else {
        0
    }
}

#[tactic(auto, unfolding(crate::specs::Print::print_of, crate::specs::Print::text_of, crate::specs::Print::printed_name, crate::specs::Print::SoundPlan))]
fn text_length(st: Settings, names: &Names, line: &[u8], p: Plan) -> usize
    requires { SoundPlan line.now p }
    ensures { result ≡ length (print_of st names.now p) }
{
    match p {
        Plan::Stop(_) | Plan::Open(_) | Plan::Enter(_, _) => 0,
        Plan::Change(m) => print_announcement::mode_length(m, st.minimum),
        Plan::Level(n) => print_announcement::level_length(n),
        Plan::Step(n) => print_announcement::step_length(st.mode, n),
        Plan::Print(t) => print_length(names, line, t),
        Plan::Cancel(t) => cancel_length(names, line, t),
        Plan::Correct(c) => correction_length(names, line, c),
    }
}

// 13: the lent tape is shorter than the print.
pub fn fitted(st: Settings, names: &Names, line: &[u8], p: Plan, room: usize) -> Plan
    requires { SoundPlan line.now p }
    ensures { result ≡ fitted_of st (printed_name names.now p) p room }
{
    if LONGEST_PRINT <= room {
        return p; // no print is longer
    }
    if room < text_length(st, names, line, p) {
        return Plan::Stop(Refusal::Room);
    }
    p
}

#[tactic(auto, using(text::proofs::Writing::written_nothing), unfolding(crate::specs::Print::print_text, text::specs::Pick::opt))]
fn write_print(rest: &mut [u8], names: &Names, line: &[u8], t: TradePlan) -> usize
    requires { SoundPrint line.now t × (length (print_text (name_text t.temporary (name_of names.now t.place)) t) ≤ length rest.old) }
    ensures { Written (print_text (name_text t.temporary (name_of names.now t.place)) t) rest.old rest.new result }
{
    if t.prints {
        let name = call_table::name_at(names, t.place);
        print_side::write_side(
            rest,
            name,
            t.temporary,
            trade_look(t),
            t.side,
            &line[FIRST_SIDE..SECOND_SIDE],
        )
    } else {
        0
    }
}

#[tactic(auto, unfolding(crate::specs::Print::cancelled))]
fn write_cancel(rest: &mut [u8], names: &Names, line: &[u8], t: CancelPlan) -> usize
    requires { SoundCancel line.now t × (length (cancelled (name_text false (name_of names.now t.place)) t) ≤ length rest.old) }
    ensures { Written (cancelled (name_text false (name_of names.now t.place)) t) rest.old rest.new result }
{
    let name = call_table::name_at(names, t.place);
    print_amendment::write_cancel(
        rest,
        t.error,
        name,
        cancel_look(t),
        t.side,
        &line[FIRST_SIDE..SECOND_SIDE],
    )
}

#[tactic(auto, using(text::proofs::Writing::written_nothing), unfolding(crate::specs::Print::corrected, text::specs::Pick::opt))]
fn write_correction(rest: &mut [u8], names: &Names, line: &[u8], c: CorrectionPlan) -> usize
    requires { SoundCorrect line.now c × (length (corrected (name_text false (name_of names.now c.place)) c) ≤ length rest.old) }
    ensures { Written (corrected (name_text false (name_of names.now c.place)) c) rest.old rest.new result }
{
    if c.prints {
        let name = call_table::name_at(names, c.place);
        print_amendment::write_correction(
            rest,
            name,
            correction_look(c),
            c.original,
            c.correcting,
            &line[FIRST_SIDE..SECOND_SIDE],
            &line[SECOND_SIDE..SIDES_END],
        )
    } else {
        0
    }
}

#[tactic(auto, using(text::proofs::Writing::written_nothing), unfolding(crate::specs::Print::print_of, crate::specs::Print::text_of, crate::specs::Print::printed_name, crate::specs::Print::SoundPlan))]
pub fn write_text(rest: &mut [u8], st: Settings, names: &Names, line: &[u8], p: Plan) -> usize
    requires { SoundPlan line.now p × (length (print_of st names.now p) ≤ length rest.old) }
    ensures { Written (print_of st names.now p) rest.old rest.new result }
{
    match p {
        Plan::Stop(_) | Plan::Open(_) | Plan::Enter(_, _) => 0,
        Plan::Change(m) => print_announcement::write_mode(rest, m, st.minimum),
        Plan::Level(n) => print_announcement::write_level(rest, n),
        Plan::Step(n) => print_announcement::write_step(rest, st.mode, n),
        Plan::Print(t) => write_print(rest, names, line, t),
        Plan::Cancel(t) => write_cancel(rest, names, line, t),
        Plan::Correct(c) => write_correction(rest, names, line, c),
    }
}
