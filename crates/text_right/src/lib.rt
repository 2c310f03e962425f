// Numbers, right-justified in a width.
#![tactic(auto)]

ghost use Rattle.std.specs.Prelude.{◌≤◌, length, replicate};
ghost use Rattle.text.specs.Put.{Written};
ghost use Rattle.text_right.specs.Justified.{right};

fn write_blanks(rest: &mut [u8], k: usize) -> usize
    requires { k ≤ length rest.old }
    ensures { Written (replicate k 32) rest.old rest.new result }
{
    rest[..k].fill(b' ');
    k
}

// A number, right-justified in a width.
pub fn write_right(rest: &mut [u8], width: usize, n: u64) -> usize
    requires { length (right width n) ≤ length rest.old }
    ensures { Written (right width n) rest.old rest.new result }
{
    let digits = text::decimal_length(n);
    let at = write_blanks(rest, width.saturating_sub(digits));
    at + text::write_places(&mut rest[at..], n, digits)
}
