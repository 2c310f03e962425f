// What the programs that take a day file gather of its lines (document 01, "Shown facts and the whole day"): the day program
// its tape and refusals, `factlines` its facts, `explain` its explanations. The definitions and laws of a block of lines stand
// here once, over what is told of a line (specs/Gather, `Program`), and so does the code of the programs that tell of a line on
// standard output alone.
//
//     Gather   a program: its lines, and its last line, taken and told
//     Tell     a program that tells of each line on standard output alone, by itself; it is a `Gather`
#![tactic(auto)]

ghost use Rattle.std.specs.Prelude.{◌≡◌, ℕ, [], ◌∷◌, ◌+◌, ◌-◌, ◌≤◌, leb, ◌&&◌, length, take, drop};
ghost use Rattle.feed_gather.specs.Gather.{last_line, Text, telling, Program, started, nothing_read, lines_taken, block_taken, Stands, Tells, Steps};

use call_table::{Names, Table};
use rules::Settings;

// Reading ends after this line.
pub const LAST_LINE: u64 = 9999999999;

// Where the reading of a block stands: the settings, the number of the next line, the bytes of the block that are read, the
// bytes gathered for standard output and for standard error.
#[derive(Clone, Copy)]
pub struct Fed {
    pub settings: Settings,
    pub number: u64,
    pub at: usize,
    pub out: usize,
    pub err: usize,
}

// A call's settings, and how many bytes are told of it.
#[derive(Clone, Copy)]
pub struct Told {
    pub settings: Settings,
    pub count: usize,
}

// Who takes lines, tells of each, and gathers what is told in two lent blocks.
pub trait Gather {
    ghost program: { Program };

    // Each line of the block that a line feed ends, as long as there is room for what is told of it, and its number is not past
    // the last.
    fn lines(
        settings: Settings,
        number: u64,
        table: &mut Table,
        names: &mut Names,
        block: &[u8],
        out: &mut [u8],
        err: &mut [u8],
    ) -> Fed
        ensures { Stands out.old err.old (block_taken program (length out.old) (length err.old) block.now (started settings table.old names.old number)) table.new names.new out.new err.new result };

    // One line that no line feed ends.
    fn last(
        settings: Settings,
        number: u64,
        table: &mut Table,
        names: &mut Names,
        line: &[u8],
        out: &mut [u8],
        err: &mut [u8],
    ) -> Fed
        ensures { Stands out.old err.old (lines_taken program (length out.old) (length err.old) (line.now ∷ []) (started settings table.old names.old number)) table.new names.new out.new err.new result };
}

// Who tells of each line on standard output alone; a call is lent a tape of LONGEST_PRINT bytes.
pub trait Tell {
    // What is told of any line has room in it.
    const ROOM: usize;

    ghost ROOM: { ℕ };

    ghost text: { Text };

    // One call, and what is told of it at the start of `rest`.
    fn take(
        settings: Settings,
        number: u64,
        table: &mut Table,
        names: &mut Names,
        line: &[u8],
        rest: &mut [u8],
    ) -> Told
        requires { (ROOM ≤ length rest.old) × (number ≤ last_line) }
        ensures { Tells (telling ROOM text) settings table.old names.old number line.now rest.old table.new names.new rest.new result };
}

impl<T: Tell> Gather for T {
    ghost program = { telling T.ROOM T.text };

    fn lines(
        settings: Settings,
        number: u64,
        table: &mut Table,
        names: &mut Names,
        block: &[u8],
        out: &mut [u8],
        err: &mut [u8],
    ) -> Fed {
        take_lines::<T>(settings, number, table, names, block, out, err)
    }

    fn last(
        settings: Settings,
        number: u64,
        table: &mut Table,
        names: &mut Names,
        line: &[u8],
        out: &mut [u8],
        err: &mut [u8],
    ) -> Fed {
        take_last::<T>(settings, number, table, names, line, out, err)
    }
}

// Nothing of a block is read yet.
pub fn nothing_read(settings: Settings, number: u64) -> Fed
    ensures { result ≡ nothing_read settings number }
{
    Fed {
        settings,
        number,
        at: 0,
        out: 0,
        err: 0,
    }
}

// `text` bytes are left for standard output and `told` for standard error, and the line's number is not past the last.
pub fn room_left(f: Fed, out: usize, err: usize, text: usize, told: usize) -> bool
    requires { (f.out ≤ out) × (f.err ≤ err) }
    ensures { result ≡ (leb text (out - f.out) && (leb told (err - f.err) && leb f.number last_line)) }
{
    text <= out - f.out && told <= err - f.err && f.number <= LAST_LINE
}

// The line from where the reading stands up to `end`.
fn take_line<T: Tell>(
    f: Fed,
    table: &mut Table,
    names: &mut Names,
    block: &[u8],
    end: usize,
    out: &mut [u8],
    err: &[u8],
) -> Fed
    requires { (f.at ≤ end) × (end ≤ length block.now) × (f.out ≤ length out.old) × (T.ROOM ≤ length out.old - f.out) × (f.number ≤ last_line) }
    ensures { Steps (telling T.ROOM T.text) (take (end - f.at) (drop f.at block.now)) table.old names.old out.old err.now f table.new names.new out.new err.now result × (result.at ≡ end + 1) }
{
    let line = &block[f.at..end];
    let t = T::take(f.settings, f.number, table, names, line, &mut out[f.out..]);
    Fed {
        settings: t.settings,
        number: f.number + 1,
        at: end + 1,
        out: f.out + t.count,
        ..f
    }
}

// Each line of the block that a line feed ends, as long as T::ROOM bytes are left of the lent memory and the line's number is not
// past the last. Nothing is told in `err`.
pub fn take_lines<T: Tell>(
    settings: Settings,
    number: u64,
    table: &mut Table,
    names: &mut Names,
    block: &[u8],
    out: &mut [u8],
    err: &[u8],
) -> Fed
    ensures { Stands out.old err.now (block_taken (telling T.ROOM T.text) (length out.old) (length err.now) block.now (started settings table.old names.old number)) table.new names.new out.new err.now result }
{
    let mut f = nothing_read(settings, number);
    while f.at < block.len() {
        let end = feed_blocks::line_end(block, f.at);
        if block.len() <= end {
            return f;
        }
        if !room_left(f, out.len(), err.len(), T::ROOM, 0) {
            return f;
        }
        f = take_line::<T>(f, table, names, block, end, out, err);
    }
    f
}

// One line that no line feed ends.
pub fn take_last<T: Tell>(
    settings: Settings,
    number: u64,
    table: &mut Table,
    names: &mut Names,
    line: &[u8],
    out: &mut [u8],
    err: &[u8],
) -> Fed
    ensures { Stands out.old err.now (lines_taken (telling T.ROOM T.text) (length out.old) (length err.now) (line.now ∷ []) (started settings table.old names.old number)) table.new names.new out.new err.now result }
{
    let f = nothing_read(settings, number);
    if !room_left(f, out.len(), err.len(), T::ROOM, 0) {
        return f;
    }
    take_line::<T>(f, table, names, line, line.len(), out, err)
}
