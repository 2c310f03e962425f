// A step of `factlines`: the answer of a read taken in, the lines that are then held taken, and where the program stands behind
// them.
#![tactic(auto)]

ghost use Rattle.std.specs.Prelude.{[]};
ghost use Rattle.feed_step.specs.Step.{Steps};
ghost use Rattle.facts_block.specs.Shows.{facts_program};

use call_table::{Names, Table};
use facts_block::Facts;
use feed_input::ReadFailed;
use feed_step::{Standing, Stepped};

// One step: the answer of a read, where one was asked for; then the lines that the block holds, as many as there is room for, or
// one that is the last, or longer than the block. What is to be written stands in the lent facts.
pub fn step(
    s: Standing,
    answer: Result<usize, ReadFailed>,
    table: &mut Table,
    names: &mut Names,
    block: &mut [u8],
    facts: &mut [u8],
) -> Stepped
    ensures { Steps facts_program s answer table.old names.old block.old facts.old [] table.new names.new block.new facts.new [] result }
{
    feed_step::step::<Facts>(s, answer, table, names, block, facts, &mut [])
}
