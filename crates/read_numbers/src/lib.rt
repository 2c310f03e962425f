// What the reader tells of a place of a tape, as fourteen numbers: the print's length, its name's place in it and its facts.
#![tactic(auto)]

ghost use Rattle.std.specs.Prelude.{◌≡◌, ◌∷◌, ◌-◌, ◌≤◌};
ghost use Rattle.text.specs.Pick.{pick};
ghost use Rattle.reader.specs.Read.{read_at};
ghost use Rattle.reader.specs.Told.{part_in};
ghost use Rattle.facts_side.specs.Sound.{SoundSide};
ghost use Rattle.read_numbers.specs.Numbers.{letters_number, no_side, part_numbers, kind_and_sides, numbers_at};

use reader::{CorrectionRead, Print, PrintRead};
use rules::{Letters, Refusal, Side};

// A side as numbers, 0 for none; prices in units of ten to the power -8 dollars, the letters as a set of bits.
#[derive(Clone, Copy)]
pub struct SideNumbers {
    pub price: u64,
    pub letters: u64,
    pub days: u64,
    pub previous: u64,
    pub volume: u64,
}

// ---- a side

#[tactic(auto, unfolding(text::specs::Pick::pick))]
fn bit(there: bool, n: u64) -> u64
    ensures { (result ≡ pick there n 0) × (result ≤ n) }
{
    if there { n } else { 0 }
}

// O the lowest bit, then S L M K R B T J G.
#[tactic(auto, unfolding(crate::specs::Numbers::letters_number))]
pub fn letters_number(x: Letters) -> u64
    ensures { result ≡ letters_number x }
{
    bit(x.o, 1)
        + bit(x.s, 2)
        + bit(x.l, 4)
        + bit(x.m, 8)
        + bit(x.k, 16)
        + bit(x.r, 32)
        + bit(x.b, 64)
        + bit(x.t, 128)
        + bit(x.j, 256)
        + bit(x.g, 512)
}

fn side_numbers(x: Side) -> SideNumbers
    requires { SoundSide x }
    ensures { result ≡ part_numbers (part_in x) }
{
    SideNumbers {
        price: print_price::in_units(x.price),
        letters: letters_number(facts_side::shown_letters(x.letters)),
        days: x.days,
        previous: print_price::in_units(x.previous),
        volume: x.volume,
    }
}

pub fn no_side() -> SideNumbers
    ensures { result ≡ no_side }
{
    SideNumbers {
        price: 0,
        letters: 0,
        days: 0,
        previous: 0,
        volume: 0,
    }
}

// ---- a print

// Length, name from and to, kind and sides.
// Kept: a kind is a number here, as the C interface gives it.
fn gathered(
    n: usize,
    from: usize,
    to: usize,
    kind: u64,
    x: SideNumbers,
    y: SideNumbers,
) -> [u64; 14]
    ensures { result ≡ n ∷ from ∷ (to - from) ∷ kind_and_sides kind x y }
{
    [
        n as u64,
        from as u64,
        to.saturating_sub(from) as u64,
        kind,
        x.price,
        x.letters,
        x.days,
        x.previous,
        x.volume,
        y.price,
        y.letters,
        y.days,
        y.previous,
        y.volume,
    ]
}

// A trade, cancel or error.
fn print_numbers(kind: u64, p: PrintRead) -> [u64; 14]
    requires { SoundSide p.side }
    ensures { result ≡ p.length ∷ p.from ∷ (p.to - p.from) ∷ kind_and_sides kind (part_numbers (part_in p.side)) no_side }
{
    gathered(
        p.length,
        p.from,
        p.to,
        kind,
        side_numbers(p.side),
        no_side(),
    )
}

fn correction_numbers(p: CorrectionRead) -> [u64; 14]
    requires { SoundSide p.original × SoundSide p.correcting }
    ensures { result ≡ p.length ∷ p.from ∷ (p.to - p.from) ∷ kind_and_sides 67 (part_numbers (part_in p.original)) (part_numbers (part_in p.correcting)) }
{
    gathered(
        p.length,
        p.from,
        p.to,
        67,
        side_numbers(p.original),
        side_numbers(p.correcting),
    )
}

// An announcement, or nothing: no name and no side.
fn plain_numbers(n: usize, kind: u64) -> [u64; 14]
    ensures { result ≡ n ∷ 0 ∷ 0 ∷ kind_and_sides kind no_side no_side }
{
    gathered(n, 0, 0, kind, no_side(), no_side())
}

// The fourteen numbers of the answer r at a place; all are 0 where there is no print.
pub fn numbers_of(tape: &[u8], place: usize, r: Result<Print, Refusal>) -> [u64; 14]
    requires { r ≡ read_at tape.now place }
    ensures { result ≡ numbers_at tape.now place }
{
    let Ok(print) = r else {
        return plain_numbers(0, 0);
    };
    match print {
        Print::Announcement(n) => plain_numbers(n, 65),
        Print::Trade(p) => print_numbers(84, p),
        Print::Cancel(p) => print_numbers(88, p),
        Print::Error(p) => print_numbers(69, p),
        Print::Correction(p) => correction_numbers(p),
    }
}
