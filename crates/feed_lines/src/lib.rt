// Lines: a block of input is split at its line feeds, each line is handed to the engine as a part of the block, prints are
// gathered in one lent block and refusals in another (document 01, "Shown facts and the whole day").
#![tactic(auto)]

ghost use Rattle.std.specs.Prelude.{◌≡◌, [], ◌∷◌, ◌+◌, ◌-◌, ◌≤◌, length, take, drop};
ghost use Rattle.text.specs.Put.{Written};
ghost use Rattle.feed_lines.specs.Refusals.{refusal_line};
ghost use Rattle.feed_gather.specs.Gather.{last_line, room_left, started, lines_taken, block_taken, Stands, Steps};
ghost use Rattle.feed_lines.specs.Feed.{told, day_program, ends_line, Runs};

use call_table::{Names, Table};
use engine::Outcome;
use feed_gather::Fed;
use rules::{LONGEST_PRINT, Settings, WIDTH};

// ---- refusals

fn write_refusal(rest: &mut [u8], number: u64, refusal: u64) -> usize
    requires { length (refusal_line number refusal) ≤ length rest.old }
    ensures { Written (refusal_line number refusal) rest.old rest.new result }
{
    let a = text_right::write_right(rest, 10, number);
    let b = a + text_right::write_right(&mut rest[a..], 3, refusal);
    b + text::write_bytes(&mut rest[b..], b"\n")
}

fn write_told(rest: &mut [u8], number: u64, o: Outcome) -> usize
    requires { length (told number o) ≤ length rest.old }
    ensures { Written (told number o) rest.old rest.new result }
{
    match o {
        Ok(_) => 0,
        Err(r) => write_refusal(rest, number, u64::from(r)),
    }
}

// ---- one line

// A refusal's line.
const TOLD: usize = 14;

// Room for any print (crate claim_daytape: none is longer than LONGEST_PRINT bytes) and a refusal, and a line number that is not past the last.
fn room_left(f: Fed, tape: usize, refusals: usize) -> bool
    requires { (f.out ≤ tape) × (f.err ≤ refusals) }
    ensures { result ≡ room_left day_program tape refusals f.out f.err f.number }
{
    feed_gather::room_left(f, tape, refusals, LONGEST_PRINT, TOLD)
}

// The line from where the reading stands up to `end`, one that `feed_trades` left.
fn feed_line(
    f: Fed,
    table: &mut Table,
    names: &mut Names,
    block: &[u8],
    end: usize,
    tape: &mut [u8],
    refusals: &mut [u8],
) -> Fed
    requires { (f.at ≤ end) × (end ≤ length block.now) × (f.out ≤ length tape.old) × (14 ≤ length refusals.old - f.err) × (f.number ≤ last_line) }
    ensures { Steps day_program (take (end - f.at) (drop f.at block.now)) table.old names.old tape.old refusals.old f table.new names.new tape.new refusals.new result × (result.at ≡ end + 1) × (result.out ≤ length tape.new) × (result.err ≤ length refusals.new) }
{
    let a = engine::take_by_plan(
        f.settings,
        table,
        names,
        &block[f.at..end],
        &mut tape[f.out..],
    );
    let on_tape = f.out + engine::count_of(a.outcome);
    let in_refusals = f.err + write_told(&mut refusals[f.err..], f.number, a.outcome);
    Fed {
        settings: a.settings,
        number: f.number + 1,
        at: end + 1,
        out: on_tape,
        err: in_refusals,
    }
}

// A line ends at a place: a last line where the block ends, any other at a line feed.
#[tactic(auto, unfolding(crate::specs::Feed::ends_line, text::specs::Pick::pick))]
fn ends_line(block: &[u8], at: usize, last: bool) -> bool
    ensures { result ≡ ends_line last block.now at }
{
    if last {
        at == block.len()
    } else {
        feed_blocks::ends_at(block, at)
    }
}

// Trades from where the reading stands on, as many as follow one another; where `last` is true the block is one line that no
// line feed ends. The line feed behind a line's width is not searched for: a trade has none in it. All trades are taken here.
fn feed_trades(
    f: Fed,
    table: &mut Table,
    names: &Names,
    block: &[u8],
    last: bool,
    tape: &mut [u8],
    refusals: &[u8],
) -> Fed
    requires { (f.at ≤ length block.now) × (f.out ≤ length tape.old) × (f.err ≤ length refusals.now) }
    ensures { Runs last block.now names.now refusals.now table.old tape.old f table.new tape.new result }
{
    let st = f.settings;
    let mut r = f;
    while room_left(r, tape.len(), refusals.len()) {
        let end = r.at + WIDTH;
        if !ends_line(block, end, last) {
            return r;
        }
        let taken = engine::take_trade(st, table, names, &block[r.at..end], &mut tape[r.out..]);
        let Some(length) = taken else {
            return r;
        };
        r.number += 1;
        r.at = end + 1;
        r.out += length;
    }
    r
}

// ---- a block

// Each line of the block that a line feed ends, as long as LONGEST_PRINT bytes are left of the lent tape, 14 of the lent refusals,
// and the line's number is at most 9,999,999,999: trades as long as they follow one another, then the line that is none.
pub fn feed(
    settings: Settings,
    number: u64,
    table: &mut Table,
    names: &mut Names,
    block: &[u8],
    tape: &mut [u8],
    refusals: &mut [u8],
) -> Fed
    ensures { Stands tape.old refusals.old (block_taken day_program (length tape.old) (length refusals.old) block.now (started settings table.old names.old number)) table.new names.new tape.new refusals.new result }
{
    let mut f = Fed {
        settings,
        number,
        at: 0,
        out: 0,
        err: 0,
    };
    while f.at < block.len() {
        f = feed_trades(f, table, names, block, false, tape, refusals);
        let end = feed_blocks::line_end(block, f.at);
        if block.len() <= end {
            return f;
        }
        if !room_left(f, tape.len(), refusals.len()) {
            return f;
        }
        f = feed_line(f, table, names, block, end, tape, refusals);
    }
    f
}

// One line that no line feed ends: a trade, whose end is then read, or any other.
pub fn feed_last(
    settings: Settings,
    number: u64,
    table: &mut Table,
    names: &mut Names,
    line: &[u8],
    tape: &mut [u8],
    refusals: &mut [u8],
) -> Fed
    ensures { Stands tape.old refusals.old (lines_taken day_program (length tape.old) (length refusals.old) (line.now ∷ []) (started settings table.old names.old number)) table.new names.new tape.new refusals.new result }
{
    let start = Fed {
        settings,
        number,
        at: 0,
        out: 0,
        err: 0,
    };
    let f = feed_trades(start, table, names, line, true, tape, refusals);
    let end = line.len();
    if end < f.at {
        return f;
    }
    if !room_left(f, tape.len(), refusals.len()) {
        return f;
    }
    feed_line(f, table, names, line, end, tape, refusals)
}
