// Announcements (document 01, "Announcements"): fixed byte strings with a figure between; the length of each and its writer.
#![tactic(auto)]

ghost use Rattle.std.specs.Prelude.{◌≡◌, ◌≤◌, ◌++◌, length};
ghost use Rattle.text.specs.Bytes.{bytes};
ghost use Rattle.text.specs.Put.{Written};
ghost use Rattle.text.specs.Decimal.{places};
ghost use Rattle.rules.specs.Price.{whole_text};
ghost use Rattle.rules.specs.Announcement.{minimum_dollars, minimum_text, mode_text, level_text, step_text};

use rules::Mode;

// The texts, shared by the writers here and by whoever compares a tape with them.
pub const NORMAL: [u8; 23] = *b"<<<TICKER.MODE.NORMAL>>";

pub const DVD: [u8; 40] = *b"<<<NOW.IN.DIGITS.&.VOLUME.DELETED.MODE>>";

pub const RPO: [u8; 38] = *b"<<<NOW.IN.REPEAT.PRICES.OMITTED.MODE>>";

pub const MINIMUM: [u8; 29] = *b"<<<MIN.PRICE.CHGS.OMITTED.NOW";

pub const MINIMUM_END: [u8; 2] = *b">>";

pub const LEVEL: [u8; 29] = *b"<<<VOLUME.DELETE.LEVEL.IS.NOW";

pub const LEVEL_END: [u8; 6] = *b"SHRS>>";

// w dollars and c cents.
fn write_cents(rest: &mut [u8], w: u64, c: u64) -> usize
    requires { length (whole_text w ++ bytes "," ++ places 2 c) ≤ length rest.old }
    ensures { Written (whole_text w ++ bytes "," ++ places 2 c) rest.old rest.new result }
{
    let at = print_price::write_whole(rest, w);
    let at2 = at + text::write_bytes(&mut rest[at..], b",");
    at2 + text::write_places(&mut rest[at2..], c, 2)
}

// level × 0.05, two decimals.
fn minimum_dollars_length(minimum: u64) -> usize
    ensures { (result ≡ length (minimum_dollars minimum)) × (result ≤ 23) }
{
    print_price::whole_length(minimum / 20) + 1 + 2
}

fn write_minimum_dollars(rest: &mut [u8], minimum: u64) -> usize
    requires { length (minimum_dollars minimum) ≤ length rest.old }
    ensures { Written (minimum_dollars minimum) rest.old rest.new result }
{
    write_cents(rest, minimum / 20, minimum % 20 * 5)
}

// The minimum price change in MPV.
pub fn minimum_length(minimum: u64) -> usize
    ensures { (result ≡ length (minimum_text minimum)) × (result ≤ 54) }
{
    29 + minimum_dollars_length(minimum) + 2
}

pub fn write_minimum(rest: &mut [u8], minimum: u64) -> usize
    requires { length (minimum_text minimum) ≤ length rest.old }
    ensures { Written (minimum_text minimum) rest.old rest.new result }
{
    let at = text::write_bytes(rest, &MINIMUM);
    let at2 = at + write_minimum_dollars(&mut rest[at..], minimum);
    at2 + text::write_bytes(&mut rest[at2..], &MINIMUM_END)
}

// M: the mode entered.
#[tactic(auto, unfolding(rules::specs::Announcement::mode_text))]
pub fn mode_length(m: Mode, minimum: u64) -> usize
    ensures { (result ≡ length (mode_text m minimum)) × (result ≤ 54) }
{
    match m {
        Mode::Normal => 23,
        Mode::Dvd => 40,
        Mode::Rpo => 38,
        Mode::Mpv => minimum_length(minimum),
    }
}

#[tactic(auto, unfolding(rules::specs::Announcement::mode_text))]
pub fn write_mode(rest: &mut [u8], m: Mode, minimum: u64) -> usize
    requires { length (mode_text m minimum) ≤ length rest.old }
    ensures { Written (mode_text m minimum) rest.old rest.new result }
{
    match m {
        Mode::Normal => text::write_bytes(rest, &NORMAL),
        Mode::Dvd => text::write_bytes(rest, &DVD),
        Mode::Rpo => text::write_bytes(rest, &RPO),
        Mode::Mpv => write_minimum(rest, minimum), // the minimum in force
    }
}

// V: the volume delete level.
pub fn level_length(level: u64) -> usize
    ensures { (result ≡ length (level_text level)) × (result ≤ 63) }
{
    29 + print_volume::full_volume_length(level) + 6
}

pub fn write_level(rest: &mut [u8], level: u64) -> usize
    requires { length (level_text level) ≤ length rest.old }
    ensures { Written (level_text level) rest.old rest.new result }
{
    let at = text::write_bytes(rest, &LEVEL);
    let at2 = at + print_volume::write_full_volume(&mut rest[at..], level);
    at2 + text::write_bytes(&mut rest[at2..], &LEVEL_END)
}

// P: the minimum while in MPV, otherwise nothing.
#[tactic(auto, unfolding(rules::specs::Announcement::step_text))]
pub fn step_length(m: Mode, minimum: u64) -> usize
    ensures { (result ≡ length (step_text m minimum)) × (result ≤ 54) }
{
    match m {
        Mode::Normal | Mode::Dvd | Mode::Rpo => 0, // no text
        Mode::Mpv => minimum_length(minimum), // the new minimum
    }
}

#[tactic(auto, using(text::proofs::Writing::written_nothing), unfolding(rules::specs::Announcement::step_text))]
pub fn write_step(rest: &mut [u8], m: Mode, minimum: u64) -> usize
    requires { length (step_text m minimum) ≤ length rest.old }
    ensures { Written (step_text m minimum) rest.old rest.new result }
{
    match m {
        Mode::Normal | Mode::Dvd | Mode::Rpo => 0, // nothing written
        Mode::Mpv => write_minimum(rest, minimum), // the new minimum
    }
}
