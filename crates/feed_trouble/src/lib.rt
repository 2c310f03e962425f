// What a program says where a read or a write fails, one line: `day: cannot read standard input after line 17`.
#![tactic(auto)]

ghost use Rattle.std.specs.Prelude.{◌≡◌, ◌≤◌, length};
ghost use Rattle.text.specs.Put.{Written};
ghost use Rattle.feed_trouble.specs.Trouble.{what_text, trouble_text};

// A line has room in it: a name of at most 16 bytes, a unit of at most 8.
pub const TROUBLE_ROOM: usize = 96;

#[tactic(auto, unfolding(crate::specs::Trouble::what_text, text::specs::Pick::pick))]
fn write_what(rest: &mut [u8], reading: bool) -> usize
    requires { length (what_text reading) ≤ length rest.old }
    ensures { Written (what_text reading) rest.old rest.new result }
{
    if reading {
        text::write_bytes(rest, b": cannot read standard input after ")
    } else {
        text::write_bytes(rest, b": cannot write standard output after ")
    }
}

// The line, with its line feed; `unit` is `line ` or `place `.
pub fn write_trouble(rest: &mut [u8], name: &[u8], reading: bool, unit: &[u8], after: u64) -> usize
    requires { length (trouble_text name.now reading unit.now after) ≤ length rest.old }
    ensures { Written (trouble_text name.now reading unit.now after) rest.old rest.new result }
{
    let i = text::write_bytes(rest, name);
    let j = i + write_what(&mut rest[i..], reading);
    let k = j + text::write_bytes(&mut rest[j..], unit);
    let l = k + text::write_decimal(&mut rest[k..], after);
    l + text::write_bytes(&mut rest[l..], b"\n")
}
