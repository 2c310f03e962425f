// A step of the day program: the answer of a read taken in, the lines that are then held taken, and where the program stands behind
// them.
#![tactic(auto)]

ghost use Rattle.feed_step.specs.Step.{Steps};
ghost use Rattle.feed_lines.specs.Feed.{day_program};

use call_table::{Names, Table};
use feed_gather::{Fed, Gather};
use feed_input::ReadFailed;
use feed_step::{Standing, Stepped};
use rules::Settings;

// The day program: prints on standard output, refusals on standard error.
pub struct Day;

impl Gather for Day {
    ghost program = { day_program };

    fn lines(
        settings: Settings,
        number: u64,
        table: &mut Table,
        names: &mut Names,
        block: &[u8],
        tape: &mut [u8],
        refusals: &mut [u8],
    ) -> Fed {
        feed_lines::feed(settings, number, table, names, block, tape, refusals)
    }

    fn last(
        settings: Settings,
        number: u64,
        table: &mut Table,
        names: &mut Names,
        line: &[u8],
        tape: &mut [u8],
        refusals: &mut [u8],
    ) -> Fed {
        feed_lines::feed_last(settings, number, table, names, line, tape, refusals)
    }
}

// One step: the answer of a read, where one was asked for; then the lines that the block holds, as many as there is room for, or
// one that is the last, or longer than the block. What is to be written stands on the lent tape and in the lent refusals.
pub fn step(
    s: Standing,
    answer: Result<usize, ReadFailed>,
    table: &mut Table,
    names: &mut Names,
    block: &mut [u8],
    tape: &mut [u8],
    refusals: &mut [u8],
) -> Stepped
    ensures { Steps day_program s answer table.old names.old block.old tape.old refusals.old table.new names.new block.new tape.new refusals.new result }
{
    feed_step::step::<Day>(s, answer, table, names, block, tape, refusals)
}
