// The facts of a tape (document 01, "Reader"): a tape on standard input, place, length, undivided name and facts of each print on
// standard output. `read_run` reads and writes, `read_step` decides, `read_facts` says what is told.
#![tactic(auto)]

ghost use Rattle.std.specs.Prelude.{IsTrue};
ghost use Rattle.read_run.specs.Run.{Ran};
ghost use Rattle.read_told.specs.Lines.{print_line};
ghost use Rattle.read_facts.specs.Facts.{longest_line};

use read_facts::FactLines;
use std::env::{Env, FillError};
use std::io::{Read, Write};

// The program over any reader and writers: it answers whether it came to its end and standard output took all that was told.
fn run<R: Read, W: Write, E: Write>(input: &mut R, output: &mut W, errors: &mut E) -> bool
    ensures { IsTrue result → Ran print_line longest_line 262144 (R.remaining input.old) (R.remaining input.new) (W.contents output.old) (W.contents output.new) }
{
    read_run::run::<FactLines, _, _, _>(
        input,
        output,
        errors,
        b"tapefacts",
        &mut [0u8; 262144],
        &mut [0u8; 65536],
    )
}

fn main(rt: HostRuntime) {
    let mut errors = rt.stderr();
    if !matches!(rt.arg(1, &mut []), Err(FillError::NotPresent)) {
        let _ = errors.write_all(b"usage: tapefacts < tape > lines\n");
        return;
    }
    run(&mut rt.stdin(), &mut rt.stdout(), &mut errors);
}
