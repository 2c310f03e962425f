// The announcement at a place of a tape (document 01, "Announcements", "Reader"): the texts that the engine writes, compared
// with what stands there.
#![tactic(auto)]

ghost use Rattle.std.specs.Prelude.{◌≡◌, ◌+◌, ◌*◌, ◌≤◌, ◌<◌, ◌^◌, length};
ghost use Rattle.read_announcement.specs.Announced.{with_digit, digits_in, number_at, length_at, minimum_at, level_at, announced_in, announced_length};

use print_announcement::{DVD, MINIMUM, NORMAL, RPO};

// ---- the number that an announcement would tell

// One byte more onto a number, where it is a digit.
#[tactic(auto, unfolding(crate::specs::Announced::with_digit, text::specs::Reading::is_digit, text::specs::Pick::pick))]
fn with_digit(n: u64, c: u8) -> u64
    requires { n < 10 ^ 7 }
    ensures { (result ≡ with_digit n c) × (result ≤ 10 * n + 9) }
{
    match c {
        b'0'..=b'9' => 10 * n + (u64::from(c) - 48),
        _ => n,
    }
}

// The digits of at most seven bytes.
fn digits_in(s: &[u8]) -> u64
    requires { length s.now ≤ 7 }
    ensures { result ≡ digits_in 0 s.now }
{
    let mut n: u64 = 0;
    for &c in s {
        n = with_digit(n, c);
    }
    n
}

// Behind the 29 bytes that begin either text: at most k bytes, 0 where they are fewer.
// Kept: 0 is below every level, and so is refused with the numbers out of range; an `Option` would be one case more.
fn number_at(s: &[u8], k: usize) -> u64
    requires { k ≤ 7 }
    ensures { result ≡ number_at k s.now }
{
    let end = 29 + k;
    if s.len() < end {
        return 0;
    }
    digits_in(&s[29..end])
}

// ---- a text with a number: its length, where it stands

// Kept: `minimum_at` and `level_at` write different texts; a closure over a lent tape would be no plainer.

#[tactic(auto, unfolding(crate::specs::Announced::length_at, text::specs::Pick::pick))]
fn text_at(t: &[u8], s: &[u8]) -> Option<usize>
    ensures { result ≡ length_at t.now s.now }
{
    if text::begins(t, s) {
        Some(t.len())
    } else {
        None
    }
}

fn minimum_at(s: &[u8]) -> Option<usize>
    ensures { result ≡ minimum_at s.now }
{
    let minimum = number_at(s, 4) / 5;
    if minimum < 1 || 100 < minimum {
        return None;
    }
    let mut buffer = [0u8; 42];
    let n = print_announcement::write_minimum(&mut buffer, minimum);
    text_at(&buffer[..n], s)
}

fn level_at(s: &[u8]) -> Option<usize>
    ensures { result ≡ level_at s.now }
{
    let level = number_at(s, 7);
    if level < 5000 || 100000 < level {
        return None;
    }
    let mut buffer = [0u8; 42];
    let n = print_announcement::write_level(&mut buffer, level);
    text_at(&buffer[..n], s)
}

// ---- the announcement

#[tactic(auto, unfolding(crate::specs::Announced::announced_in, text::specs::Pick::pick))]
fn announced_in(s: &[u8]) -> Option<usize>
    ensures { result ≡ announced_in s.now }
{
    if text::begins(&NORMAL, s) {
        Some(NORMAL.len())
    } else if text::begins(&DVD, s) {
        Some(DVD.len())
    } else if text::begins(&RPO, s) {
        Some(RPO.len())
    } else if text::begins(&MINIMUM, s) {
        minimum_at(s)
    } else {
        level_at(s)
    }
}

// The length of the announcement at the front.
#[tactic(auto, unfolding(crate::specs::Announced::announced_length, text::specs::Pick::pick))]
pub fn announcement_at(s: &[u8]) -> Option<usize>
    ensures { result ≡ announced_length s.now }
{
    if text::begins(b"<<<", s) {
        announced_in(s)
    } else {
        None
    }
}
