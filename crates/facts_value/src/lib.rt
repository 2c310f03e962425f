// Numbers and prices of a shown fact, as text. A price is by value: its whole part, then a point and the fraction without the
// zeros at its end, unless it is zero.
#![tactic(auto)]

ghost use Rattle.std.specs.Prelude.{◌≡◌, ◌≤◌, length};
ghost use Rattle.text.specs.Put.{Written};
ghost use Rattle.text.specs.Decimal.{places};
ghost use Rattle.facts_value.specs.Values.{number_text, trimmed, point_text, value_text, value_or_none};

// `-` is none.
pub fn write_number(rest: &mut [u8], n: u64) -> usize
    requires { length (number_text n) ≤ length rest.old }
    ensures { Written (number_text n) rest.old rest.new result }
{
    if n == 0 {
        text::write_bytes(rest, b"-")
    } else {
        text::write_decimal(rest, n)
    }
}

// A fraction of eight places without the zeros at its end.
fn write_trimmed(rest: &mut [u8], f: u64) -> usize
    requires { length (trimmed 8 f) ≤ length rest.old }
    ensures { Written (trimmed 8 f) rest.old rest.new result }
{
    let mut m = f;
    for k in (1..=8).rev() {
        if m % 10 != 0 {
            return text::write_places(rest, m, k);
        }
        m /= 10;
    }
    0
}

fn write_point(rest: &mut [u8], f: u64) -> usize
    requires { length (point_text f) ≤ length rest.old }
    ensures { Written (point_text f) rest.old rest.new result }
{
    if f == 0 {
        return 0;
    }
    let at = text::write_bytes(rest, b".");
    at + write_trimmed(&mut rest[at..], f)
}

pub fn write_value(rest: &mut [u8], u: u64) -> usize
    requires { length (value_text u) ≤ length rest.old }
    ensures { Written (value_text u) rest.old rest.new result }
{
    let at = text::write_decimal(rest, u / 100000000);
    at + write_point(&mut rest[at..], u % 100000000)
}

// `-` is none. Kept beside write_number: one function over what writes the rest is no plainer.
pub fn write_value_or_none(rest: &mut [u8], u: u64) -> usize
    requires { length (value_or_none u) ≤ length rest.old }
    ensures { Written (value_or_none u) rest.old rest.new result }
{
    if u == 0 {
        text::write_bytes(rest, b"-")
    } else {
        write_value(rest, u)
    }
}
