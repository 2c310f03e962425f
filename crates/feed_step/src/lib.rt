// One step of a program that takes a day file, whatever it tells of a line: the answer of a read taken in, the lines that are then
// held taken, and where the program stands behind them. No input or output here; a program reads, steps and writes.
//
//     way_of      the way of a step: what is to be made of the bytes that are held
//     carry_out   the lines that the way says, taken by the program (feed_gather, `Gather`)
//     settle      where the program stands behind it
#![tactic(auto)]

ghost use Rattle.std.specs.Prelude.{◌≡◌, ◌+◌, ◌-◌, ◌≤◌, length};
ghost use Rattle.feed_gather.specs.Gather.{started, Stands};
ghost use Rattle.feed_step.specs.Step.{opening, long_way, lines_way, way_of, from_by, taken_by, used_by, passing_by, reads_by, is_over, Settles, Steps};

use call_table::{Names, Table};
use feed_gather::{Fed, Gather, LAST_LINE};
use feed_input::{Place, ReadFailed};
use rules::Settings;

// Where a program stands: its place in the input, the settings, the number of the next line, and whether the line that is being
// read is longer than the block: then its bytes are passed over, up to its end.
#[derive(Clone, Copy)]
pub struct Standing {
    pub place: Place,
    pub settings: Settings,
    pub number: u64,
    pub passing: bool,
}

// After a step: how many bytes are to be written to standard output and to standard error, and whether it was the last.
#[derive(Clone, Copy)]
pub struct Stepped {
    pub standing: Standing,
    pub out: usize,
    pub err: usize,
    pub over: bool,
}

// What a step does with the bytes that are held: each line that a line feed ends; one line, from a place on, so many bytes
// being used; so many bytes passed over, and a read comes next; nothing, it is the last.
#[derive(Clone, Copy)]
pub enum Way {
    Lines,
    Line(usize, usize),
    Pass(usize),
    Stop,
}

// Before the first read.
#[tactic(auto, unfolding(crate::specs::Step::opening))]
pub fn started() -> Standing
    ensures { result ≡ opening }
{
    Standing {
        place: feed_input::opened(),
        settings: engine::fresh(),
        number: 1,
        passing: false,
    }
}

// Of a line that is longer than the block nothing counts but that it is one line, refused 1: at its end an empty one stands
// for it.
#[tactic(auto, unfolding(crate::specs::Step::long_way, text::specs::Pick::pick))]
fn way_long(ended: bool, end: usize, n: usize) -> Way
    ensures { result ≡ long_way ended end n }
{
    if end < n {
        Way::Line(n, end + 1)
    } else if ended {
        Way::Line(n, n)
    } else {
        Way::Pass(n)
    }
}

// Lines that a line feed ends; the last line, which may lack it; the front of a line that is longer than the block.
#[tactic(auto, unfolding(crate::specs::Step::lines_way, text::specs::Pick::pick))]
fn way_lines(ended: bool, end: usize, n: usize, size: usize) -> Way
    ensures { result ≡ lines_way ended end n size }
{
    if end < n {
        Way::Lines
    } else if ended && n == 0 {
        Way::Stop
    } else if ended {
        Way::Line(0, n)
    } else if size <= n {
        Way::Pass(n) // the front of a longer line
    } else {
        Way::Pass(0)
    }
}

#[tactic(auto, unfolding(crate::specs::Step::way_of, text::specs::Pick::pick))]
pub fn way_of(passing: bool, p: Place, number: u64, held: &[u8], size: usize) -> Way
    ensures { result ≡ way_of passing p number size held.now }
{
    if p.failed || LAST_LINE < number {
        return Way::Stop;
    }
    let end = feed_blocks::line_end(held, 0);
    if passing {
        way_long(p.ended, end, held.len())
    } else {
        way_lines(p.ended, end, held.len(), size)
    }
}

// The lines that a way takes of the bytes that are held.
fn carry_out<G: Gather>(
    way: Way,
    settings: Settings,
    number: u64,
    table: &mut Table,
    names: &mut Names,
    held: &[u8],
    out: &mut [u8],
    err: &mut [u8],
) -> Fed
    requires { from_by way ≤ length held.now }
    ensures { Stands out.old err.old (taken_by G.program (length out.old) (length err.old) way held.now (started settings table.old names.old number)) table.new names.new out.new err.new result }
{
    match way {
        Way::Lines => G::lines(settings, number, table, names, held, out, err),
        Way::Line(from, _) => G::last(settings, number, table, names, &held[from..], out, err),
        Way::Pass(_) | Way::Stop => feed_gather::nothing_read(settings, number),
    }
}

// How many of the held bytes are used, where the lines that were taken used `lines`.
#[tactic(auto, unfolding(crate::specs::Step::used_by))]
fn used_by(way: Way, lines: usize) -> usize
    ensures { result ≡ used_by way lines }
{
    match way {
        Way::Lines => lines,
        Way::Line(_, used) | Way::Pass(used) => used,
        Way::Stop => 0,
    }
}

#[tactic(auto, unfolding(crate::specs::Step::passing_by, text::specs::Pick::pick))]
fn passing_by(way: Way, passing: bool) -> bool
    ensures { result ≡ passing_by way passing }
{
    match way {
        Way::Lines | Way::Line(_, _) => false,
        Way::Pass(used) => 0 < used || passing,
        Way::Stop => passing,
    }
}

#[tactic(auto, unfolding(crate::specs::Step::reads_by))]
fn reads_by(way: Way) -> bool
    ensures { result ≡ reads_by way }
{
    matches!(way, Way::Pass(_))
}

#[tactic(auto, unfolding(crate::specs::Step::is_over))]
fn is_over(way: Way) -> bool
    ensures { result ≡ is_over way }
{
    matches!(way, Way::Stop)
}

// Behind the lines that the way asked for: `f` is what was taken and told.
pub fn settle(passing: bool, p: Place, way: Way, f: Fed, block: &mut [u8]) -> Stepped
    requires { (p.at + used_by way f.at ≤ p.have) × (p.have ≤ length block.old) }
    ensures { Settles passing p way f block.old block.new result }
{
    let used = used_by(way, f.at);
    Stepped {
        standing: Standing {
            place: feed_input::go_on(p, used, reads_by(way), block),
            settings: f.settings,
            number: f.number,
            passing: passing_by(way, passing),
        },
        out: f.out,
        err: f.err,
        over: is_over(way),
    }
}

// One step: the answer of a read, where one was asked for; then the lines that the block holds, as many as there is room for, or
// one that is the last, or longer than the block. What is to be written stands in the lent memory.
pub fn step<G: Gather>(
    s: Standing,
    answer: Result<usize, ReadFailed>,
    table: &mut Table,
    names: &mut Names,
    block: &mut [u8],
    out: &mut [u8],
    err: &mut [u8],
) -> Stepped
    ensures { Steps G.program s answer table.old names.old block.old out.old err.old table.new names.new block.new out.new err.new result }
{
    let p = feed_input::take_in(s.place, answer, block.len());
    let held = &block[p.at..p.have];
    let way = way_of(s.passing, p, s.number, held, block.len());
    let f = carry_out::<G>(way, s.settings, s.number, table, names, held, out, err);
    settle(s.passing, p, way, f, block)
}

// How many lines were taken so far.
pub fn lines_taken(s: Standing) -> u64
    ensures { result ≡ s.number - 1 }
{
    s.number.saturating_sub(1)
}
