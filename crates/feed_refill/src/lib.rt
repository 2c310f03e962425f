// Standard input, read into a block behind what is held; and a file, read into a block from its front. The programs share it.
#![tactic(auto)]

ghost use Rattle.std.specs.Prelude.{◌≤◌, length, take, drop};
ghost use Rattle.std.specs.Io.KnownBytes.{Consumes};
ghost use Rattle.feed_input.specs.Place.{Within};
ghost use Rattle.feed_refill.specs.Read.{Reading, Taken};

use feed_input::{Place, ReadFailed};
use std::fs::File;
use std::io::Read;
use std::rt::Files;

// One read, where a place asks for one: how many bytes came. Where none is asked for, no call is made.
pub fn read_input<R: Read>(input: &mut R, p: Place, block: &mut [u8]) -> Result<usize, ReadFailed>
    requires { Within p (length block.old) }
    ensures reading { Reading p block.old block.new result }
    ensures taken { Taken p.asks result (R.remaining input.old) (R.remaining input.new) (drop p.have block.new) }
{
    if !p.asks {
        return Ok(0);
    }
    input.read(&mut block[p.have..]).map_err(|_| ReadFailed)
}

// Reads until the block is full, the input ends or a read fails, and answers how many bytes came.
// Kept: std's `read_exact` says nothing of the bytes that came before the end.
fn read_full<R: Read>(input: &mut R, block: &mut [u8]) -> usize
    ensures within { result ≤ length block.new }
    ensures taken { Consumes (R.remaining input.old) (R.remaining input.new) (take result block.new) }
{
    let mut done = 0;
    while done < block.len() {
        match input.read(&mut block[done..]) {
            Ok(0) | Err(_) => break,
            Ok(n) => done += n,
        }
    }
    done
}

// Reads the file of that name into the block and answers how many bytes came, 0 where it cannot be opened. What is not UTF-8 names
// no file.
// Kept: an `Option` would be no plainer, since to the callers an empty file is no file either.
pub fn read_file<F: Files>(files: &F, name: &[u8], block: &mut [u8]) -> usize
    ensures { result ≤ length block.new }
{
    let Ok(path) = str::from_utf8(name) else {
        return 0;
    };
    let Ok(mut file) = File::open(files, path) else {
        return 0;
    };
    read_full(&mut file, block)
}
