// The entry that a line adds to the shown facts, as thirteen numbers: security, temporary suffix shown or not, kind and sides.
#![tactic(auto)]

ghost use Rattle.std.specs.Prelude.{◌≡◌, List, ◌∷◌, ℕ};
ghost use Rattle.text.specs.Pick.{pick};
ghost use Rattle.facts_entry.specs.Entry.{conditions_in, part_in, volume_in, fact_in};
ghost use Rattle.read_numbers.specs.Numbers.{side_numbers, no_side, part_numbers, volume_number, kind_and_sides};
ghost use Rattle.facts_numbers.specs.Numbers.{entry_numbers};

use facts_entry::{Conditions, Entry, Part, TradeEntry};
use read_numbers::SideNumbers;

// ---- a side

#[tactic(auto, unfolding(read_numbers::specs::Numbers::side_numbers, facts_entry::specs::Entry::conditions_in))]
fn side_numbers(price: u64, c: Conditions, volume: u64) -> SideNumbers
    ensures { result ≡ side_numbers price (conditions_in c) volume }
{
    SideNumbers {
        price,
        letters: read_numbers::letters_number(c.letters),
        days: c.days,
        previous: c.previous,
        volume,
    }
}

#[tactic(auto, unfolding(read_numbers::specs::Numbers::part_numbers, facts_entry::specs::Entry::part_in))]
fn part_numbers(x: Part) -> SideNumbers
    ensures { result ≡ part_numbers (part_in x) }
{
    match x {
        Part::Full(price, c, volume) => side_numbers(price, c, volume),
        Part::Bare(c) => side_numbers(0, c, 0),
    }
}

#[tactic(auto, using(crate::proofs::Arms::volume_is))]
fn volume_number(v: Option<u64>) -> u64
    ensures { result ≡ volume_number (volume_in v) }
{
    v.unwrap_or(0)
}

// ---- an entry

fn gathered(security: u64, temporary: u64, kind: u64, x: SideNumbers, y: SideNumbers) -> [u64; 13]
    ensures { result ≡ security ∷ temporary ∷ kind_and_sides kind x y }
{
    [
        security, temporary, kind, x.price, x.letters, x.days, x.previous, x.volume, y.price,
        y.letters, y.days, y.previous, y.volume,
    ]
}

// Nothing, or an announcement.
fn plain_numbers(kind: u64) -> [u64; 13]
    ensures { result ≡ 0 ∷ 0 ∷ kind_and_sides kind no_side no_side }
{
    gathered(0, 0, kind, read_numbers::no_side(), read_numbers::no_side())
}

#[tactic(auto, unfolding(text::specs::Pick::pick))]
fn trade_numbers(t: TradeEntry) -> [u64; 13]
    ensures { result ≡ t.security ∷ pick t.temporary 1 0 ∷ kind_and_sides 84 (side_numbers t.price (conditions_in t.conditions) (volume_number (volume_in t.volume))) no_side }
{
    let x = side_numbers(t.price, t.conditions, volume_number(t.volume));
    gathered(
        t.security,
        u64::from(t.temporary),
        84,
        x,
        read_numbers::no_side(),
    )
}

// A cancel or an error.
fn amended_numbers(kind: u64, security: u64, x: Part) -> [u64; 13]
    ensures { result ≡ security ∷ 0 ∷ kind_and_sides kind (part_numbers (part_in x)) no_side }
{
    gathered(security, 0, kind, part_numbers(x), read_numbers::no_side())
}

fn correction_numbers(security: u64, x: Part, y: Part) -> [u64; 13]
    ensures { result ≡ security ∷ 0 ∷ kind_and_sides 67 (part_numbers (part_in x)) (part_numbers (part_in y)) }
{
    gathered(security, 0, 67, part_numbers(x), part_numbers(y))
}

// The entry's numbers, whatever the text of an announcement.
#[tactic(auto, unfolding(crate::specs::Numbers::entry_numbers, facts_entry::specs::Entry::fact_in))]
pub fn numbers_of(e: Entry) -> [u64; 13]
    ensures { (text : List ℕ) → result ≡ entry_numbers (fact_in text e) }
{
    match e {
        Entry::Silent => plain_numbers(0),
        Entry::Announced => plain_numbers(65),
        Entry::Traded(t) => trade_numbers(t),
        Entry::Cancelled(i, x) => amended_numbers(88, i, x),
        Entry::Erred(i, x) => amended_numbers(69, i, x),
        Entry::Corrected(i, x, y) => correction_numbers(i, x, y),
    }
}
