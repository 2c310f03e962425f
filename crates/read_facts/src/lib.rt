// A tape to the lines of its facts (document 01, "Reader"): place, length, undivided name and facts of each print, as read_told
// writes them; a block of the tape, and a step of the program that reads it in blocks.
#![tactic(auto)]

ghost use Rattle.std.specs.Prelude.{length};
ghost use Rattle.read_tape.specs.Block.{block_read, Stands};
ghost use Rattle.read_told.specs.Lines.{print_line};
ghost use Rattle.read_step.specs.Step.{Steps};
ghost use Rattle.read_facts.specs.Facts.{longest_line};

use feed_input::ReadFailed;
use read_step::{Standing, Stepped};
use read_tape::{Reading, TellPrint, Told};

// The facts of a print are told of it.
pub struct FactLines;

impl TellPrint for FactLines {
    const MOST: usize = 605;

    ghost MOST = { longest_line };

    ghost line = { print_line };

    #[tactic(auto, using(crate::proofs::Facts::line_room))]
    fn tell(block: &[u8], at: usize, place: u64, rest: &mut [u8]) -> Told {
        let answer = reader::read_at(block, at);
        let print = reader::length_of(answer);
        Told {
            print,
            line: read_told::write_print(rest, block, at, place, answer, print),
        }
    }
}

// Each print of the block, as `read_tape::read_block` reads them.
pub fn tell_block(block: &[u8], place: u64, ended: bool, lines: &mut [u8]) -> Reading
    ensures { Stands lines.old (block_read print_line longest_line (length lines.old) block.now place ended) lines.new result }
{
    read_tape::tell_prints::<FactLines>(block, place, ended, lines)
}

// As `read_step::step`.
pub fn step(
    s: Standing,
    answer: Result<usize, ReadFailed>,
    block: &mut [u8],
    lines: &mut [u8],
) -> Stepped
    ensures { Steps print_line longest_line s answer block.old lines.old block.new lines.new result }
{
    read_step::step_telling::<FactLines>(s, answer, block, lines)
}
