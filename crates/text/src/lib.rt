// Texts: bytes and numbers in base ten, written to the rest of a tape. Each writer is lent a mutable part that begins
// after the bytes already written, puts its text at the part's start and returns the text's length.
#![tactic(auto)]

ghost use Rattle.std.specs.Prelude.{◌≡◌, ◌+◌, ◌≤◌, length, take, drop};
ghost use Rattle.text.specs.Pick.{among, opt, same};
ghost use Rattle.text.specs.Put.{Written};
ghost use Rattle.text.specs.Decimal.{places, decimal};
ghost use Rattle.text.specs.Reading.{starts};

pub fn write_bytes(rest: &mut [u8], text: &[u8]) -> usize
    requires { length text.now ≤ length rest.old }
    ensures { Written text.now rest.old rest.new result }
{
    rest[..text.len()].copy_from_slice(text);
    text.len()
}

// The last k digits of n, zeros too.
pub fn write_places(rest: &mut [u8], n: u64, k: usize) -> usize
    requires { k ≤ length rest.old }
    ensures { Written (places k n) rest.old rest.new result }
{
    let mut m = n;
    for i in (0..k).rev() {
        rest[i] = (48 + m % 10) as u8;
        m /= 10;
    }
    k
}

// How many digits n has.
pub fn decimal_length(n: u64) -> usize
    ensures { (result ≡ length (decimal n)) × (result ≤ 20) }
{
    let mut k: usize = 1;
    let mut m = n;
    while 10 <= m {
        m /= 10;
        k += 1;
    }
    k
}

pub fn write_decimal(rest: &mut [u8], n: u64) -> usize
    requires { length (decimal n) ≤ length rest.old }
    ensures { Written (decimal n) rest.old rest.new result }
{
    let k = decimal_length(n);
    write_places(rest, n, k)
}

// N bytes from a place on, read by the move.
pub fn taken<const N: usize>(s: &[u8], from: usize) -> [u8; N]
    requires { from + N ≤ length s.now }
    ensures { result ≡ take N (drop from s.now) }
{
    let mut bytes = [0u8; N];
    bytes.copy_from_slice(&s[from..from + N]);
    bytes
}

// Two texts are the same.
pub fn same_text(a: &[u8], b: &[u8]) -> bool
    ensures { result ≡ same a.now b.now }
{
    a == b
}

// The byte is one of the text's.
pub fn is_among(c: u8, text: &[u8]) -> bool
    ensures { result ≡ among c text.now }
{
    text.contains(&c)
}

// The text `front` stands at the front.
pub fn begins(front: &[u8], text: &[u8]) -> bool
    ensures { result ≡ starts front.now text.now }
{
    text.starts_with(front)
}

// A text that may be left out.
pub fn optional_length(test: bool, text: &[u8]) -> usize
    ensures { (result ≡ length (opt test text.now)) × (result ≤ length text.now) }
{
    if test { text.len() } else { 0 }
}

pub fn write_optional(rest: &mut [u8], test: bool, text: &[u8]) -> usize
    requires { length (opt test text.now) ≤ length rest.old }
    ensures { Written (opt test text.now) rest.old rest.new result }
{
    if test { write_bytes(rest, text) } else { 0 }
}
