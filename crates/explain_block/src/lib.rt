// A block of day lines to the lines of their explanations: each line is explained, goes to the engine as a part of the block,
// and its explanation is gathered in a lent block (feed_gather, `Tell`).
#![tactic(auto)]

ghost use Rattle.std.specs.Prelude.{[], ◌∷◌, length};
ghost use Rattle.feed_gather.specs.Gather.{started, lines_taken, block_taken, Stands};
ghost use Rattle.explain_block.specs.Explains.{explain_program, explanation_room, told_explained};

use call_table::{Names, Table};
use feed_gather::{Fed, Tell, Told};
use rules::{LONGEST_PRINT, Settings};

// Any explanation has room in it.
pub const EXPLANATION_ROOM: usize = 238;

// What `explain` tells of a line: its explanation.
pub struct Explanations;

impl Tell for Explanations {
    const ROOM: usize = EXPLANATION_ROOM;

    ghost ROOM = { explanation_room };

    ghost text = { told_explained };

    fn take(
        settings: Settings,
        number: u64,
        table: &mut Table,
        names: &mut Names,
        line: &[u8],
        rest: &mut [u8],
    ) -> Told {
        // as slices the tables tell their sizes
        let _rows = &table[..];
        let _places = &names[..];
        let mut tape = [0u8; LONGEST_PRINT];
        let e = explain_fate::explain_line(settings, table, names, line, LONGEST_PRINT);
        let a = engine::take_line(settings, table, names, line, &mut tape);
        Told {
            settings: a.settings,
            count: explain_text::write_explanation(rest, number, e),
        }
    }
}

// Each line of the block that a line feed ends, as long as any explanation has room in the lent text, and the line's number is
// not past the last.
pub fn explain_lines(
    settings: Settings,
    number: u64,
    table: &mut Table,
    names: &mut Names,
    block: &[u8],
    text: &mut [u8],
) -> Fed
    ensures { Stands text.old [] (block_taken explain_program (length text.old) 0 block.now (started settings table.old names.old number)) table.new names.new text.new [] result }
{
    feed_gather::take_lines::<Explanations>(settings, number, table, names, block, text, &[])
}

// One line that no line feed ends.
pub fn explain_last(
    settings: Settings,
    number: u64,
    table: &mut Table,
    names: &mut Names,
    line: &[u8],
    text: &mut [u8],
) -> Fed
    ensures { Stands text.old [] (lines_taken explain_program (length text.old) 0 (line.now ∷ []) (started settings table.old names.old number)) table.new names.new text.new [] result }
{
    feed_gather::take_last::<Explanations>(settings, number, table, names, line, text, &[])
}
