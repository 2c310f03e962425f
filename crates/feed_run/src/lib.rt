// A program that takes a day file, run: it reads, steps and writes, whatever it tells of a line (feed_gather, `Gather`). What a
// step does, feed_step says.
#![tactic(auto)]

ghost use Rattle.std.specs.Prelude.{◌≤◌, length, IsTrue, take};
ghost use Rattle.std.specs.Io.KnownBytes.{Appends};
ghost use Rattle.feed_input.specs.Place.{Within};
ghost use Rattle.feed_run.specs.Run.{Takes, Ran};

use call_table::{NAMES_SIZE, Names, TABLE_SIZE, Table};
use feed_gather::Gather;
use feed_step::{Standing, Stepped};
use feed_trouble::TROUBLE_ROOM;
use std::io::{Read, Write};

// One turn: a read, where one is asked for, and a step.
fn turn<G: Gather, R: Read>(
    input: &mut R,
    s: Standing,
    table: &mut Table,
    names: &mut Names,
    block: &mut [u8],
    out: &mut [u8],
    err: &mut [u8],
) -> Stepped
    requires { Within s.place (length block.old) }
    ensures { Takes G.program s table.old names.old block.old out.old err.old table.new names.new block.new out.new err.new (R.remaining input.old) (R.remaining input.new) result }
{
    let answer = feed_refill::read_input(input, s.place, block);
    feed_step::step::<G>(s, answer, table, names, block, out, err)
}

// A read or a write failed, after so many lines of the input: one line says so, with the front of the program's name.
fn say_trouble<E: Write>(errors: &mut E, name: &[u8], reading: bool, after: u64) {
    let mut line = [0u8; TROUBLE_ROOM];
    let name = &name[..name.len().min(16)];
    let n = feed_trouble::write_trouble(&mut line, name, reading, b"line ", after);
    let _ = errors.write_all(&line[..n]);
}

// Writes what a turn told, and answers whether standard output took all of it. What standard error takes is no matter.
fn write_out<W: Write, E: Write>(
    output: &mut W,
    errors: &mut E,
    name: &[u8],
    out: &[u8],
    err: &[u8],
    r: Stepped,
    after: u64,
) -> bool
    requires { (r.out ≤ length out.now) × (r.err ≤ length err.now) }
    ensures { IsTrue result → Appends (W.contents output.old) (W.contents output.new) (take r.out out.now) }
{
    if output.write_all(&out[..r.out]).is_err() {
        say_trouble(errors, name, false, after);
        return false;
    }
    let _ = errors.write_all(&err[..r.err]);
    true
}

// Turns until a step is the last, or a write fails: from a fresh state, in the lent block, with so much lent room for what is
// told. `name` is the program's. It answers whether the last step was made, and standard output took all that was told.
pub fn run<G: Gather, R: Read, W: Write, E: Write>(
    input: &mut R,
    output: &mut W,
    errors: &mut E,
    name: &[u8],
    block: &mut [u8],
    out: &mut [u8],
    err: &mut [u8],
) -> bool
    ensures { IsTrue result → G.program.out_most ≤ length out.old → G.program.err_most ≤ length err.old → Ran G.program (length block.old) (R.remaining input.old) (R.remaining input.new) (W.contents output.old) (W.contents output.new) }
{
    let mut table = [0u64; TABLE_SIZE];
    let mut names = [0u8; NAMES_SIZE];
    let mut s = feed_step::started();
    for _ in 0..u64::MAX {
        let r = turn::<G, R>(input, s, &mut table, &mut names, block, out, err);
        let after = feed_step::lines_taken(s);
        if !write_out(output, errors, name, out, err, r, after) {
            break;
        }
        s = r.standing;
        if r.over {
            if s.place.failed {
                say_trouble(errors, name, true, feed_step::lines_taken(s));
            }
            return true;
        }
    }
    false
}
