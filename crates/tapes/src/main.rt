// The stored tapes: the reader goes over each tape of data/ from its front, print after print, up to its end or a refusal, and
// what it tells is held to the stored answers, the file stdout: a line for each print, and for the refusal. Tapes 01 to 16 are
// the vectors'; 17 is document 01's own; 18 to 22 are prints where a longer way fails, and one that is none; 23 to 44 are what
// a greedy reading falls into, one each (docs/EXAMPLES.md lists them). A tape is shorter than 8,192 bytes.
#![tactic(auto)]

ghost use Rattle.std.specs.Prelude.{◌≡◌, ◌≤◌, ◌<◌, length, IsTrue};
ghost use Rattle.std.specs.Io.KnownBytes.{Appends};
ghost use Rattle.read_told.specs.Lines.{told_line};
ghost use Rattle.tapes.specs.Names.{tape_name};

use std::io::Write;
use std::rt::Files;

// The name of tape n.
fn tape_name(n: u8) -> [u8; 7]
    requires { n < 100 }
    ensures { result ≡ tape_name n }
{
    [b'0' + n / 10, b'0' + n % 10, b'.', b't', b'a', b'p', b'e']
}

// Writes the line of a place, and answers whether all of it was taken.
#[tactic(auto, using(crate::proofs::Laws::line_room, text::proofs::Parts::front))]
fn show_print<W: Write>(out: &mut W, tape: &[u8], place: usize, line: &mut [u8]) -> bool
    requires { (length tape.now ≤ 8192) × ((place < length tape.now) × (8704 ≤ length line.old)) }
    ensures { IsTrue result → Appends (W.contents out.old) (W.contents out.new) (told_line tape.now place) }
{
    let k = read_told::write_told(line, tape, place);
    out.write_all(&line[..k]).is_ok()
}

// The prints of a tape from its front, up to its end or a refusal.
#[tactic(auto, using(crate::proofs::Laws::next_place, crate::proofs::Laws::next_fits, crate::proofs::Laws::less_left))]
fn show_tape<W: Write>(out: &mut W, tape: &[u8], line: &mut [u8; 8704]) -> bool
    requires { length tape.now ≤ 8192 }
{
    let mut place = 0;
    while place < tape.len() {
        if !show_print(out, tape, place, line) {
            return false;
        }
        let n = reader::length_of(reader::read_at(tape, place));
        if n == 0 {
            return true;
        }
        place += n;
    }
    true
}

// Reads a tape and shows its prints; answers false where it cannot be opened or its lines cannot be written.
fn run_file<F: Files, W: Write>(
    files: &F,
    out: &mut W,
    path: &[u8],
    block: &mut [u8; 8192],
    line: &mut [u8; 8704],
) -> bool {
    let n = feed_refill::read_file(files, path, block);
    n != 0 && show_tape(out, &block[..n], line)
}

// Tapes 01 to 44, up to the first that fails.
fn main(rt: HostRuntime) {
    let mut out = rt.stdout();
    let mut block = [0u8; 8192];
    let mut line = [0u8; 8704];
    for n in 1..=44 {
        if !run_file(&rt, &mut out, &tape_name(n), &mut block, &mut line) {
            return;
        }
    }
}
