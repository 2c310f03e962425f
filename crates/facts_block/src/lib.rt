// A block of day lines to the lines of its shown facts: each line goes to the engine as a part of the block, and the line of
// its entry is gathered in a lent block (feed_gather, `Tell`).
#![tactic(auto)]

ghost use Rattle.std.specs.Prelude.{[], ◌∷◌, length};
ghost use Rattle.feed_gather.specs.Gather.{started, lines_taken, block_taken, Stands};
ghost use Rattle.facts_block.specs.Shows.{facts_program, fact_room, told_facts};

use call_table::{Names, Table};
use feed_gather::{Fed, Tell, Told};
use rules::{LONGEST_PRINT, Settings};

// Any line of shown facts has room in it.
pub const FACT_ROOM: usize = 186 + LONGEST_PRINT;

// What `factlines` tells of a line: its shown facts, without its number.
pub struct Facts;

impl Tell for Facts {
    const ROOM: usize = FACT_ROOM;

    ghost ROOM = { fact_room };

    ghost text = { told_facts };

    fn take(
        settings: Settings,
        _number: u64,
        table: &mut Table,
        names: &mut Names,
        line: &[u8],
        rest: &mut [u8],
    ) -> Told {
        // as slices the tables tell their sizes
        let _rows = &table[..];
        let _places = &names[..];
        let mut tape = [0u8; LONGEST_PRINT];
        let e = facts_entry::entry_of(settings, table, names, line, LONGEST_PRINT);
        let a = engine::take_line(settings, table, names, line, &mut tape);
        let n = engine::count_of(a.outcome);
        Told {
            settings: a.settings,
            count: facts_line::write_entry(rest, &tape[..n], e),
        }
    }
}

// Each line of the block that a line feed ends, as long as any line of shown facts has room in the lent facts, and the line's
// number is not past the last.
pub fn show_lines(
    settings: Settings,
    number: u64,
    table: &mut Table,
    names: &mut Names,
    block: &[u8],
    facts: &mut [u8],
) -> Fed
    ensures { Stands facts.old [] (block_taken facts_program (length facts.old) 0 block.now (started settings table.old names.old number)) table.new names.new facts.new [] result }
{
    feed_gather::take_lines::<Facts>(settings, number, table, names, block, facts, &[])
}

// One line that no line feed ends.
pub fn show_last(
    settings: Settings,
    number: u64,
    table: &mut Table,
    names: &mut Names,
    line: &[u8],
    facts: &mut [u8],
) -> Fed
    ensures { Stands facts.old [] (lines_taken facts_program (length facts.old) 0 (line.now ∷ []) (started settings table.old names.old number)) table.new names.new facts.new [] result }
{
    feed_gather::take_last::<Facts>(settings, number, table, names, line, facts, &[])
}
