// Where a program over a tape stands (document 01, "Reader"), and one step of it. No input or output here: a program reads where
// its place asks for it, steps, and writes the lines that were handed out.
//
//     step_telling  one step, whatever is told of a print
//     step          of the reader's program: place and length of each print
#![tactic(auto)]

ghost use Rattle.std.specs.Prelude.{◌≡◌, true, ◌+◌, ◌≤◌, length};
ghost use Rattle.read_tape.specs.Tape.{place_line};
ghost use Rattle.read_step.specs.Step.{opened, is_over, Further, Steps};

use feed_input::{Place, ReadFailed};
use read_tape::{PlaceLines, Reading, TellPrint};

// `at` is the place on the tape of the first byte that is held.
#[derive(Clone, Copy)]
pub struct Standing {
    pub place: Place,
    pub at: u64,
}

// After a step: how many bytes of the lines are to be written, and whether it was the last.
#[derive(Clone, Copy)]
pub struct Stepped {
    pub standing: Standing,
    pub count: usize,
    pub over: bool,
}

pub fn started() -> Standing
    ensures { result ≡ opened }
{
    Standing {
        place: feed_input::opened(),
        at: 0,
    }
}

// The reading goes on no more, or the input is at its end and nothing was read.
#[tactic(auto, unfolding(crate::specs::Step::is_over, text::specs::Pick::pick))]
fn is_over(r: Reading, ended: bool) -> bool
    ensures { result ≡ is_over r.going r.at ended }
{
    !r.going || r.at == 0 && ended
}

// Behind the reading of what is held, whose first byte stands at a place on the tape: over, or where the next step begins. Where
// no print was read, a read comes next.
#[tactic(auto, unfolding(crate::specs::Step::is_over, crate::specs::Step::standing_on, crate::specs::Step::block_over, text::specs::Pick::pick), using(crate::proofs::Ways::not_over))]
pub fn go_further(p: Place, at: u64, r: Reading, block: &mut [u8]) -> Stepped
    requires { (p.at + r.at ≤ p.have) × (p.have ≤ length block.old) × (r.going ≡ true → at + r.at ≤ 9999999999) }
    ensures { Further p at r block.old block.new result }
{
    let last = Stepped {
        standing: Standing { place: p, at },
        count: r.written,
        over: true,
    };
    if is_over(r, p.ended) {
        return last;
    }
    let place = feed_input::go_on(p, r.at, r.at == 0, block);
    let next = at + r.at as u64;
    Stepped {
        standing: Standing { place, at: next },
        over: false,
        ..last
    }
}

// The answer of a read, where one was asked for; then the prints of what is held, as many as may be told and as there is room for.
// A failed read ends it: nothing more is told.
#[tactic(auto, using(crate::proofs::Ways::step_failed, crate::proofs::Ways::part_from, crate::proofs::Ways::part_end))]
pub fn step_telling<T: TellPrint>(
    s: Standing,
    answer: Result<usize, ReadFailed>,
    block: &mut [u8],
    lines: &mut [u8],
) -> Stepped
    ensures { Steps T.line T.MOST s answer block.old lines.old block.new lines.new result }
{
    let p = feed_input::take_in(s.place, answer, block.len());
    if p.failed {
        return Stepped {
            standing: Standing { place: p, at: s.at },
            count: 0,
            over: true,
        };
    }
    let r = read_tape::tell_prints::<T>(&block[p.at..p.have], s.at, p.ended, lines);
    go_further(p, s.at, r, block)
}

pub fn step(
    s: Standing,
    answer: Result<usize, ReadFailed>,
    block: &mut [u8],
    lines: &mut [u8],
) -> Stepped
    ensures { Steps place_line 21 s answer block.old lines.old block.new lines.new result }
{
    step_telling::<PlaceLines>(s, answer, block, lines)
}
