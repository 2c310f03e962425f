// The stored days: the engine runs over each day file of data/, and what it writes is held to the stored answers, the file
// stdout: for each day its tape, a line feed, and its refused lines; behind them, for days 01 to 16, the lines of its shown
// facts. A day file is shorter than 65,536 bytes.
#![tactic(auto)]

ghost use Rattle.std.specs.Prelude.{◌≡◌, ◌≤◌, ◌<◌, length, [], IsTrue, ◌++◌, ◌∷◌, take};
ghost use Rattle.std.specs.Io.KnownBytes.{Appends};
ghost use Rattle.rules.specs.Day.{opened};
ghost use Rattle.feed_gather.specs.Gather.{started, block_taken, Stands};
ghost use Rattle.feed_lines.specs.Feed.{day_program};
ghost use Rattle.facts_block.specs.Shows.{facts_program};
ghost use Rattle.vectors.specs.Names.{day_name};

use call_table::{NAMES_SIZE, Names, TABLE_SIZE, Table};
use feed_gather::Fed;
use std::io::Write;
use std::rt::Files;

// The name of day n.
fn day_name(n: u8) -> [u8; 6]
    requires { n < 100 }
    ensures { result ≡ day_name n }
{
    [b'0' + n / 10, b'0' + n % 10, b'.', b'd', b'a', b'y']
}

// A last line that no line feed ends is a line too: it gets one. The answer is the day's length.
fn closed(block: &mut [u8; 65536], n: usize) -> usize
    requires { n ≤ 65536 }
    ensures { result ≤ 65536 }
{
    if n == 0 || n == 65536 || block[n - 1] == b'\n' {
        return n;
    }
    block[n] = b'\n';
    n + 1
}

// The day's lines go to the engine from a fresh state; the first has number 1.
fn take_day(
    table: &mut Table,
    names: &mut Names,
    day: &[u8],
    tape: &mut [u8],
    refusals: &mut [u8],
) -> Fed
    ensures { Stands tape.old refusals.old (block_taken day_program (length tape.old) (length refusals.old) day.now (started (opened 0) table.old names.old 1)) table.new names.new tape.new refusals.new result }
{
    feed_lines::feed(engine::fresh(), 1, table, names, day, tape, refusals)
}

// Writes what was gathered, and answers whether all of it was taken.
fn write_out<W: Write>(out: &mut W, tape: &[u8], n: usize, refusals: &[u8], k: usize) -> bool
    requires { (n ≤ length tape.now) × (k ≤ length refusals.now) }
    ensures { IsTrue result → Appends (W.contents out.old) (W.contents out.new) (take n tape.now ++ 10 ∷ take k refusals.now) }
{
    out.write_all(&tape[..n]).is_ok()
        && out.write_all(b"\n").is_ok()
        && out.write_all(&refusals[..k]).is_ok()
}

// The lines of the day's shown facts, from a fresh state.
fn take_facts(table: &mut Table, names: &mut Names, day: &[u8], facts: &mut [u8]) -> Fed
    ensures { Stands facts.old [] (block_taken facts_program (length facts.old) 0 day.now (started (opened 0) table.old names.old 1)) table.new names.new facts.new [] result }
{
    facts_block::show_lines(engine::fresh(), 1, table, names, day, facts)
}

// Reads a day file into the block and answers its length, 0 where it cannot be opened.
fn read_day<F: Files>(files: &F, path: &[u8], block: &mut [u8; 65536]) -> usize
    ensures { result ≤ 65536 }
{
    let n = feed_refill::read_file(files, path, block);
    closed(block, n)
}

// Reads a day file and shows its day; answers false where it cannot be opened or what comes out cannot be written.
fn run_file<F: Files, W: Write>(
    files: &F,
    out: &mut W,
    path: &[u8],
    table: &mut Table,
    names: &mut Names,
    block: &mut [u8; 65536],
    tape: &mut [u8; 65536],
    refusals: &mut [u8; 65536],
) -> bool {
    let n = read_day(files, path, block);
    if n == 0 {
        return false;
    }
    let f = take_day(table, names, &block[..n], tape, refusals);
    write_out(out, tape, f.out, refusals, f.err)
}

// The same of its shown facts.
fn run_facts<F: Files, W: Write>(
    files: &F,
    out: &mut W,
    path: &[u8],
    table: &mut Table,
    names: &mut Names,
    block: &mut [u8; 65536],
    facts: &mut [u8; 65536],
) -> bool {
    let n = read_day(files, path, block);
    if n == 0 {
        return false;
    }
    let f = take_facts(table, names, &block[..n], facts);
    out.write_all(&facts[..f.out]).is_ok()
}

// Days 01 to 16, up to the first that fails.
fn run_numbered<F: Files, W: Write>(
    files: &F,
    out: &mut W,
    table: &mut Table,
    names: &mut Names,
    block: &mut [u8; 65536],
    tape: &mut [u8; 65536],
    refusals: &mut [u8; 65536],
) -> bool {
    for n in 1..=16u8 {
        let name = day_name(n);
        if !run_file(files, out, &name, table, names, block, tape, refusals) {
            return false;
        }
        if !run_facts(files, out, &name, table, names, block, tape) {
            return false;
        }
    }
    true
}

fn main(rt: HostRuntime) {
    let mut out = rt.stdout();
    let mut table = [0u64; TABLE_SIZE];
    let mut names = [0u8; NAMES_SIZE];
    let mut block = [0u8; 65536];
    let mut tape = [0u8; 65536];
    let mut refusals = [0u8; 65536];
    if !run_numbered(
        &rt,
        &mut out,
        &mut table,
        &mut names,
        &mut block,
        &mut tape,
        &mut refusals,
    ) {
        return;
    }
    for path in [b"trades.day" as &[u8], b"corrections.day"] {
        run_file(
            &rt,
            &mut out,
            path,
            &mut table,
            &mut names,
            &mut block,
            &mut tape,
            &mut refusals,
        );
    }
}
