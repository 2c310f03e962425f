// The shown facts as text: a line for each entry, parts with their names, single blanks between them, a line feed at the end.
//
//     A TEXT                                             announcement
//     T sec=I tmp=B price=P cond=L days=Y prev=Q vol=V   trade
//     C sec=I orig(SIDE) corr(SIDE)                      correction
//     X sec=I side(SIDE)        E sec=I side(SIDE)       cancel, error
//
// SIDE in normal is price=P cond=L days=Y prev=Q vol=V, otherwise cond=L days=Y prev=Q. Prices are by value; `-` is none.
#![tactic(auto)]

ghost use Rattle.std.specs.Prelude.{◌≤◌, length};
ghost use Rattle.text.specs.Put.{Written};
ghost use Rattle.facts_entry.specs.Entry.{conditions_in, part_in, volume_in, fact_in};
ghost use Rattle.facts_side.specs.Sides.{part_text, volume_text};
ghost use Rattle.facts_line.specs.Lines.{flag_text, trade_head, trade_tail, trade_text, sided_text, amended_text, correction_text, announced_text, line_of};

use facts_entry::{Conditions, Entry, Part, TradeEntry};

// ---- a side

fn write_part(rest: &mut [u8], x: Part) -> usize
    requires { length (part_text (part_in x)) ≤ length rest.old }
    ensures { Written (part_text (part_in x)) rest.old rest.new result }
{
    match x {
        Part::Full(price, c, volume) => {
            facts_side::write_full(rest, price, c.letters, c.days, c.previous, volume)
        }
        Part::Bare(c) => facts_side::write_conditions(rest, c.letters, c.days, c.previous),
    }
}

// ---- a line

fn write_volume(rest: &mut [u8], v: Option<u64>) -> usize
    requires { length (volume_text (volume_in v)) ≤ length rest.old }
    ensures { Written (volume_text (volume_in v)) rest.old rest.new result }
{
    match v {
        Some(n) => text::write_decimal(rest, n),
        None => text::write_bytes(rest, b"-"),
    }
}

#[tactic(auto, unfolding(crate::specs::Lines::flag_text, text::specs::Pick::pick))]
fn write_flag(rest: &mut [u8], b: bool) -> usize
    requires { length (flag_text b) ≤ length rest.old }
    ensures { Written (flag_text b) rest.old rest.new result }
{
    if b {
        text::write_bytes(rest, b"1")
    } else {
        text::write_bytes(rest, b"0")
    }
}

fn write_trade_head(rest: &mut [u8], security: u64, temporary: bool) -> usize
    requires { length (trade_head security temporary) ≤ length rest.old }
    ensures { Written (trade_head security temporary) rest.old rest.new result }
{
    let i = text::write_bytes(rest, b"T sec=");
    let j = i + text::write_decimal(&mut rest[i..], security);
    let k = j + text::write_bytes(&mut rest[j..], b" tmp=");
    k + write_flag(&mut rest[k..], temporary)
}

fn write_trade_tail(rest: &mut [u8], price: u64, c: Conditions, v: Option<u64>) -> usize
    requires { length (trade_tail price (conditions_in c) (volume_in v)) ≤ length rest.old }
    ensures { Written (trade_tail price (conditions_in c) (volume_in v)) rest.old rest.new result }
{
    let i = text::write_bytes(rest, b" ");
    let j = i + facts_side::write_priced(&mut rest[i..], price, c.letters, c.days, c.previous);
    let k = j + text::write_bytes(&mut rest[j..], b" vol=");
    k + write_volume(&mut rest[k..], v)
}

fn write_trade(rest: &mut [u8], t: TradeEntry) -> usize
    requires { length (trade_text t.security t.temporary t.price (conditions_in t.conditions) (volume_in t.volume)) ≤ length rest.old }
    ensures { Written (trade_text t.security t.temporary t.price (conditions_in t.conditions) (volume_in t.volume)) rest.old rest.new result }
{
    let i = write_trade_head(rest, t.security, t.temporary);
    let j = i + write_trade_tail(&mut rest[i..], t.price, t.conditions, t.volume);
    j + text::write_bytes(&mut rest[j..], b"\n")
}

// A security and a side, behind the line's opening and the side's label.
fn write_sided(rest: &mut [u8], opening: &[u8], security: u64, label: &[u8], x: Part) -> usize
    requires { length (sided_text opening.now security label.now (part_in x)) ≤ length rest.old }
    ensures { Written (sided_text opening.now security label.now (part_in x)) rest.old rest.new result }
{
    let i = text::write_bytes(rest, opening);
    let j = i + text::write_decimal(&mut rest[i..], security);
    let k = j + text::write_bytes(&mut rest[j..], label);
    k + write_part(&mut rest[k..], x)
}

// A cancel or an error.
fn write_amended(rest: &mut [u8], opening: &[u8], security: u64, x: Part) -> usize
    requires { length (amended_text opening.now security (part_in x)) ≤ length rest.old }
    ensures { Written (amended_text opening.now security (part_in x)) rest.old rest.new result }
{
    let i = write_sided(rest, opening, security, b" side(", x);
    i + text::write_bytes(&mut rest[i..], b")\n")
}

fn write_correction(rest: &mut [u8], security: u64, x: Part, y: Part) -> usize
    requires { length (correction_text security (part_in x) (part_in y)) ≤ length rest.old }
    ensures { Written (correction_text security (part_in x) (part_in y)) rest.old rest.new result }
{
    let i = write_sided(rest, b"C sec=", security, b" orig(", x);
    let j = i + text::write_bytes(&mut rest[i..], b") corr(");
    let k = j + write_part(&mut rest[j..], y);
    k + text::write_bytes(&mut rest[k..], b")\n")
}

fn write_announced(rest: &mut [u8], print: &[u8]) -> usize
    requires { length (announced_text print.now) ≤ length rest.old }
    ensures { Written (announced_text print.now) rest.old rest.new result }
{
    let i = text::write_bytes(rest, b"A ");
    let j = i + text::write_bytes(&mut rest[i..], print);
    j + text::write_bytes(&mut rest[j..], b"\n")
}

// The line of an entry, nothing where nothing is shown; an announcement's text is the print.
pub fn write_entry(rest: &mut [u8], print: &[u8], e: Entry) -> usize
    requires { length (line_of (fact_in print.now e)) ≤ length rest.old }
    ensures { Written (line_of (fact_in print.now e)) rest.old rest.new result }
{
    match e {
        Entry::Silent => 0,
        Entry::Announced => write_announced(rest, print),
        Entry::Traded(t) => write_trade(rest, t),
        Entry::Cancelled(i, x) => write_amended(rest, b"X sec=", i, x),
        Entry::Erred(i, x) => write_amended(rest, b"E sec=", i, x),
        Entry::Corrected(i, x, y) => write_correction(rest, i, x, y),
    }
}
