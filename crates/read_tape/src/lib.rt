// A block of a tape to lines, one a print (document 01, "Reader"), gathered in a lent block; `TellPrint` says what is told of a
// print.
//
//     tell_prints  the lines of a block's prints
//     read_block   of the reader's program: place and length of each print
#![tactic(auto)]

ghost use Rattle.std.specs.Prelude.{◌≡◌, ℕ, ◌&&◌, ◌+◌, ◌-◌, ◌≤◌, leb, length, drop};
ghost use Rattle.text.specs.Put.{Written};
ghost use Rattle.rules.specs.Sizes.{longest_print};
ghost use Rattle.reader.specs.Read.{read_at};
ghost use Rattle.reader.specs.Told.{length_of};
ghost use Rattle.read_tape.specs.Tape.{Line, line_of, place_line};
ghost use Rattle.read_tape.specs.Block.{may_read, block_read, Stands, Steps};

use rules::LONGEST_PRINT;

// Where the reading of a block stands: the bytes of the block that are read, the bytes in the lent lines, and whether it goes
// on: not after a refusal, and not above place 9,999,999,999.
#[derive(Clone, Copy)]
pub struct Reading {
    pub at: usize,
    pub written: usize,
    pub going: bool,
}

// ---- one print

// The bytes of a print, 0 at a refusal, and of its line.
#[derive(Clone, Copy)]
pub struct Told {
    pub print: usize,
    pub line: usize,
}

// What is told of a print: a line of at most so many bytes.
pub trait TellPrint {
    const MOST: usize;

    ghost MOST: { ℕ };

    ghost line: { Line };

    // The print at `at` of a block, whose place on the tape is `place`: its line to the front of the lent memory.
    fn tell(block: &[u8], at: usize, place: u64, rest: &mut [u8]) -> Told
        requires { (at ≤ length block.now) × (place ≤ 9999999999) × (MOST ≤ length rest.old) }
        ensures print { result.print ≡ length_of (read_at block.now at) }
        ensures told { Written (line place (drop at block.now)) rest.old rest.new result.line };
}

// Behind a print of n bytes at a place.
#[tactic(auto)]
pub fn goes_on(place: u64, n: u64) -> bool
    requires { (place ≤ 9999999999) × (n ≤ longest_print) }
    ensures { result ≡ leb 1 n && leb (place + n) 9999999999 }
{
    1 <= n && place + n <= 9999999999
}

// The print where the reading stands; the block begins at a place of the tape.
#[tactic(auto, using(crate::proofs::One::read_most, crate::proofs::One::read_adds))]
fn tell_print<T: TellPrint>(block: &[u8], place: u64, r: Reading, lines: &mut [u8]) -> Reading
    requires { (r.at ≤ length block.now) × (place + r.at ≤ 9999999999) × (r.written ≤ length lines.old) × (T.MOST ≤ length lines.old - r.written) }
    ensures { Steps T.line block.now place lines.old r lines.new result }
{
    let here = place + r.at as u64;
    let told = T::tell(block, r.at, here, &mut lines[r.written..]);
    Reading {
        at: r.at + told.print,
        written: r.written + told.line,
        going: goes_on(here, told.print as u64),
    }
}

// ---- a block

// Bytes are left, enough of them to tell the print, and there is room for a line of the most bytes.
#[tactic(auto, unfolding(crate::specs::Block::may_read))]
pub fn may_read(left: usize, ended: bool, room: usize, most: usize) -> bool
    ensures { result ≡ may_read most left ended room }
{
    1 <= left && most <= room && (ended || LONGEST_PRINT <= left)
}

// Each print of the block, as long as LONGEST_PRINT bytes of it are left, or any where the tape ends with it, and room for a line of
// the most bytes.
pub fn tell_prints<T: TellPrint>(block: &[u8], place: u64, ended: bool, lines: &mut [u8]) -> Reading
    ensures { Stands lines.old (block_read T.line T.MOST (length lines.old) block.now place ended) lines.new result }
{
    let mut r = Reading {
        at: 0,
        written: 0,
        going: place <= 9999999999,
    };
    while r.going && may_read(block.len() - r.at, ended, lines.len() - r.written, T::MOST) {
        r = tell_print::<T>(block, place, r, lines);
    }
    r
}

// ---- the reader's program

// Place and length, right-justified in ten columns each, and a line feed.
pub struct PlaceLines;

#[tactic(auto, unfolding(crate::specs::Tape::line_of), using(text::proofs::Writing::rooms))]
fn write_line(rest: &mut [u8], place: u64, n: u64) -> usize
    requires { length (line_of place n) ≤ length rest.old }
    ensures { Written (line_of place n) rest.old rest.new result }
{
    let a = text_right::write_right(rest, 10, place);
    let b = a + text_right::write_right(&mut rest[a..], 10, n);
    b + text::write_bytes(&mut rest[b..], b"\n")
}

impl TellPrint for PlaceLines {
    const MOST: usize = 21;

    ghost MOST = { 21 };

    ghost line = { place_line };

    #[tactic(auto, using(crate::proofs::One::line_room, crate::proofs::One::line_is))]
    fn tell(block: &[u8], at: usize, place: u64, rest: &mut [u8]) -> Told {
        let print = reader::length_of(reader::read_at(block, at));
        Told {
            print,
            line: write_line(rest, place, print as u64),
        }
    }
}

pub fn read_block(block: &[u8], place: u64, ended: bool, lines: &mut [u8]) -> Reading
    ensures { Stands lines.old (block_read place_line 21 (length lines.old) block.now place ended) lines.new result }
{
    tell_prints::<PlaceLines>(block, place, ended, lines)
}
