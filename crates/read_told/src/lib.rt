// What the reader answers at a place of a tape, as a line of text: place and length, right-justified in ten columns each, the
// undivided name and the facts. A refusal has neither.
//
//     A TEXT                                announcement
//     T price=P cond=L days=Y prev=Q vol=V  trade
//     C orig(SIDE) corr(SIDE)               correction
//     X side(SIDE)        E side(SIDE)      cancel, error
//
// A SIDE is price=P cond=L days=Y prev=Q vol=V.
#![tactic(auto)]

ghost use Rattle.std.specs.Prelude.{◌≡◌, ◌++◌, ◌+◌, ◌≤◌, length, drop};
ghost use Rattle.text.specs.Bytes.{bytes};
ghost use Rattle.text.specs.Put.{Written};
ghost use Rattle.facts_side.specs.Sides.{part_text};
ghost use Rattle.reader.specs.Read.{read_at};
ghost use Rattle.reader.specs.Told.{length_of, part_in, fact_in};
ghost use Rattle.facts_side.specs.Sound.{SoundSide};
ghost use Rattle.read_told.specs.Lines.{announcement_text, among_text, correction_text, facts_text, place_text, name_text, line_text, print_line, told_line};

use reader::Print;
use rules::{Refusal, Side};

// ---- the facts of a print

fn write_side(rest: &mut [u8], x: Side) -> usize
    requires { SoundSide x × (length (part_text (part_in x)) ≤ length rest.old) }
    ensures { Written (part_text (part_in x)) rest.old rest.new result }
{
    let price = print_price::in_units(x.price);
    let previous = print_price::in_units(x.previous);
    let letters = facts_side::shown_letters(x.letters);
    facts_side::write_full(rest, price, letters, x.days, previous, x.volume)
}

fn write_announcement(rest: &mut [u8], print: &[u8]) -> usize
    requires { length (announcement_text print.now) ≤ length rest.old }
    ensures { Written (announcement_text print.now) rest.old rest.new result }
{
    let at = text::write_bytes(rest, b"A ");
    at + text::write_bytes(&mut rest[at..], print)
}

fn write_trade(rest: &mut [u8], x: Side) -> usize
    requires { SoundSide x × (length (bytes "T " ++ part_text (part_in x)) ≤ length rest.old) }
    ensures { Written (bytes "T " ++ part_text (part_in x)) rest.old rest.new result }
{
    let at = text::write_bytes(rest, b"T ");
    at + write_side(&mut rest[at..], x)
}

// A side between two texts.
fn write_among(rest: &mut [u8], opening: &[u8], x: Side, closing: &[u8]) -> usize
    requires { SoundSide x × (length (among_text opening.now (part_in x) closing.now) ≤ length rest.old) }
    ensures { Written (among_text opening.now (part_in x) closing.now) rest.old rest.new result }
{
    let i = text::write_bytes(rest, opening);
    let j = i + write_side(&mut rest[i..], x);
    j + text::write_bytes(&mut rest[j..], closing)
}

fn write_correction(rest: &mut [u8], x: Side, y: Side) -> usize
    requires { SoundSide x × (SoundSide y × (length (correction_text (part_in x) (part_in y)) ≤ length rest.old)) }
    ensures { Written (correction_text (part_in x) (part_in y)) rest.old rest.new result }
{
    let i = write_among(rest, b"C orig(", x, b") corr(");
    let j = i + write_side(&mut rest[i..], y);
    j + text::write_bytes(&mut rest[j..], b")")
}

// Of the answer r at a place; a refusal has none.
fn write_facts(rest: &mut [u8], tape: &[u8], place: usize, r: Result<Print, Refusal>) -> usize
    requires { (r ≡ read_at tape.now place) × (length (facts_text (fact_in (drop place tape.now) r)) ≤ length rest.old) }
    ensures { Written (facts_text (fact_in (drop place tape.now) r)) rest.old rest.new result }
{
    let Ok(print) = r else {
        return text::write_bytes(rest, b"-");
    };
    match print {
        Print::Announcement(n) => write_announcement(rest, &tape[place..place + n]),
        Print::Trade(x) => write_trade(rest, x.side),
        Print::Cancel(x) => write_among(rest, b"X side(", x.side, b")"),
        Print::Error(x) => write_among(rest, b"E side(", x.side, b")"),
        Print::Correction(x) => write_correction(rest, x.original, x.correcting),
    }
}

// ---- the line

fn write_places(rest: &mut [u8], place: u64, n: usize) -> usize
    requires { length (place_text place n) ≤ length rest.old }
    ensures { Written (place_text place n) rest.old rest.new result }
{
    let at = text_right::write_right(rest, 10, place);
    at + text_right::write_right(&mut rest[at..], 10, n as u64)
}

fn write_name(rest: &mut [u8], name: &[u8]) -> usize
    requires { length (name_text name.now) ≤ length rest.old }
    ensures { Written (name_text name.now) rest.old rest.new result }
{
    let i = text::write_bytes(rest, b" name=");
    let j = i + text::write_bytes(&mut rest[i..], name);
    j + text::write_bytes(&mut rest[j..], b" ")
}

// The line of the answer r, n bytes long and with its name, which stands in the tape's part that is given, from `at` on.
fn write_line(
    rest: &mut [u8],
    part: &[u8],
    at: usize,
    place: u64,
    r: Result<Print, Refusal>,
    n: usize,
    name: &[u8],
) -> usize
    requires { (r ≡ read_at part.now at) × (length (line_text place n name.now (facts_text (fact_in (drop at part.now) r))) ≤ length rest.old) }
    ensures { Written (line_text place n name.now (facts_text (fact_in (drop at part.now) r))) rest.old rest.new result }
{
    let i = write_places(rest, place, n);
    let j = i + write_name(&mut rest[i..], name);
    let k = j + write_facts(&mut rest[j..], part, at, r);
    k + text::write_bytes(&mut rest[k..], b"\n")
}

// The line of a place on the tape, with its line feed: the answer r, n bytes long, is that at `at` in a part of it.
pub fn write_print(
    rest: &mut [u8],
    part: &[u8],
    at: usize,
    place: u64,
    r: Result<Print, Refusal>,
    n: usize,
) -> usize
    requires { (r ≡ read_at part.now at) × (n ≡ length_of r) × (length (print_line place (drop at part.now)) ≤ length rest.old) }
    ensures { Written (print_line place (drop at part.now)) rest.old rest.new result }
{
    let name = reader::name_at(part, at);
    write_line(rest, part, at, place, r, n, name)
}

// The same of a whole tape.
pub fn write_told(rest: &mut [u8], tape: &[u8], place: usize) -> usize
    requires { length (told_line tape.now place) ≤ length rest.old }
    ensures { Written (told_line tape.now place) rest.old rest.new result }
{
    let answer = reader::read_at(tape, place);
    let n = reader::length_of(answer);
    write_print(rest, tape, place, place as u64, answer, n)
}
