// A program over a tape (document 01, "Reader"), whatever it tells of a print: it reads, steps and writes, and no more. What decides
// is `read_step`.
#![tactic(auto)]

ghost use Rattle.std.specs.Prelude.{◌≤◌, length, IsTrue, take};
ghost use Rattle.std.specs.Io.KnownBytes.{Appends};
ghost use Rattle.feed_input.specs.Place.{Within};
ghost use Rattle.read_run.specs.Run.{Takes, Ran};

use feed_trouble::TROUBLE_ROOM;
use read_step::{Standing, Stepped};
use read_tape::TellPrint;
use std::io::{Read, Write};

// A read or a write failed: one line says so, with the front of the program's name.
fn say_trouble<E: Write>(errors: &mut E, name: &[u8], reading: bool, at: u64) {
    let mut line = [0u8; TROUBLE_ROOM];
    let name = &name[..name.len().min(16)];
    let n = feed_trouble::write_trouble(&mut line, name, reading, b"place ", at);
    let _ = errors.write_all(&line[..n]);
}

// One turn: a read, where one is asked for, and a step.
fn turn<T: TellPrint, R: Read>(
    input: &mut R,
    s: Standing,
    block: &mut [u8],
    lines: &mut [u8],
) -> Stepped
    requires { Within s.place (length block.old) }
    ensures { Takes T.line T.MOST s block.old lines.old block.new lines.new (R.remaining input.old) (R.remaining input.new) result }
{
    let answer = feed_refill::read_input(input, s.place, block);
    read_step::step_telling::<T>(s, answer, block, lines)
}

// Writes the lines of a turn, and answers whether all of them were taken.
fn write_lines<W: Write>(out: &mut W, lines: &[u8], n: usize) -> bool
    requires { n ≤ length lines.now }
    ensures { IsTrue result → Appends (W.contents out.old) (W.contents out.new) (take n lines.now) }
{
    out.write_all(&lines[..n]).is_ok()
}

// Turns until a step is the last, or a write fails. It is silent, unless a read or a write failed. It answers whether the last step
// was made, and all that was told was taken.
#[tactic(auto, using(read_step::proofs::Programs::opened_within))]
pub fn run<T: TellPrint, R: Read, W: Write, E: Write>(
    input: &mut R,
    out: &mut W,
    errors: &mut E,
    name: &[u8],
    block: &mut [u8],
    lines: &mut [u8],
) -> bool
    ensures { IsTrue result → T.MOST ≤ length lines.old → Ran T.line T.MOST (length block.old) (R.remaining input.old) (R.remaining input.new) (W.contents out.old) (W.contents out.new) }
{
    let mut s = read_step::started();
    for _ in 0..u64::MAX {
        let r = turn::<T, R>(input, s, block, lines);
        if !write_lines(out, lines, r.count) {
            say_trouble(errors, name, false, s.at);
            break;
        }
        s = r.standing;
        if r.over {
            if s.place.failed {
                say_trouble(errors, name, true, s.at);
            }
            return true;
        }
    }
    false
}
