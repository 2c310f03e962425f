// The day program (document 01, "Shown facts and the whole day"): day lines on standard input, the tape on standard output,
// refused lines on standard error. What a step does, feed_step says, and what of its lines, feed_lines.
#![tactic(auto)]

ghost use Rattle.std.specs.Prelude.{IsTrue};
ghost use Rattle.feed_run.specs.Run.{Ran};
ghost use Rattle.feed_lines.specs.Feed.{day_program};

use feed_day::Day;
use std::env::{Env, FillError};
use std::io::{Read, Write};

// The program over any reader and writers: it answers whether it came to its end and standard output took all that was told.
fn run<R: Read, W: Write, E: Write>(input: &mut R, output: &mut W, errors: &mut E) -> bool
    ensures { IsTrue result → Ran day_program 262144 (R.remaining input.old) (R.remaining input.new) (W.contents output.old) (W.contents output.new) }
{
    feed_run::run::<Day, _, _, _>(
        input,
        output,
        errors,
        b"day",
        &mut [0u8; 262144],
        &mut [0u8; 65536],
        &mut [0u8; 65536],
    )
}

fn main(rt: HostRuntime) {
    let mut errors = rt.stderr();
    if !matches!(rt.arg(1, &mut []), Err(FillError::NotPresent)) {
        let _ = errors.write_all(b"usage: day < day-file > tape\n");
        return;
    }
    run(&mut rt.stdin(), &mut rt.stdout(), &mut errors);
}
