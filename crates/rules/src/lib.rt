// Document 01 as definitions. The types that code and definitions share are declared here; what they mean,
// and every rule, is in specs/, one module a section, in the document's order.
#![tactic(auto)]

ghost use Rattle.std.specs.Prelude.{◌≡◌};
ghost use Rattle.rules.specs.Line.{mode_of};
ghost use Rattle.rules.specs.Refusal.{number_of};

// The columns of a day line (Day lines).
pub const WIDTH: usize = 100;

// Where the columns of a side begin in a T, X, E or C line, those of a C's correcting trade, and what follows them.
pub const FIRST_SIDE: usize = 6;

pub const SIDE_WIDTH: usize = 46;

pub const SECOND_SIDE: usize = FIRST_SIDE + SIDE_WIDTH;

pub const SIDES_END: usize = SECOND_SIDE + SIDE_WIDTH;

// How many securities a day may have, numbered from 1 (Day lines, S).
pub const PLACES: usize = 512;

// The columns of a name on an S line (Names).
pub const NAME_WIDTH: usize = 19;

// Every print has room in it (Lines not taken, 13): none is longer (crate claim_daytape).
pub const LONGEST_PRINT: usize = 400;

// What stands in a number's columns (Day lines).
#[derive(Clone, Copy)]
pub enum Number {
    Blank,
    Bad,
    Is(u64),
}

// The mode in force (Day lines, M).
#[derive(Clone, Copy)]
pub enum Mode {
    Normal,
    Dvd,
    Rpo,
    Mpv,
}

impl Mode {
    // N, D, R or P: normal, DVD, RPO, MPV.
    #[tactic(auto, unfolding(crate::specs::Line::mode_of, text::specs::Pick::pick))]
    pub fn of_letter(c: u64) -> Mode
        ensures { result ≡ mode_of c }
    {
        match c {
            68 => Mode::Dvd,
            82 => Mode::Rpo,
            80 => Mode::Mpv,
            _ => Mode::Normal,
        }
    }
}

// n over ten to the power d (Day lines).
#[derive(Clone, Copy)]
pub struct Price {
    pub n: u64,
    pub d: u64,
}

// How the whole part of a price is written (Price and conditions): in full, or short, its units digit alone.
#[derive(Clone, Copy)]
pub enum PriceForm {
    Full,
    Short,
}

// The condition letters of a side, each there or not (Price and conditions).
#[derive(Clone, Copy)]
pub struct Letters {
    pub o: bool,
    pub s: bool,
    pub l: bool,
    pub n: bool,
    pub m: bool,
    pub c: bool,
    pub k: bool,
    pub b: bool,
    pub t: bool,
    pub r: bool,
    pub j: bool,
    pub g: bool,
}

// A side with none of them.
pub const NO_LETTERS: Letters = Letters {
    o: false,
    s: false,
    l: false,
    n: false,
    m: false,
    c: false,
    k: false,
    b: false,
    t: false,
    r: false,
    j: false,
    g: false,
};

// One side of a T, X, E or C line, from its volume to its previous last. Days and previous last are 0 where blank.
#[derive(Clone, Copy)]
pub struct Side {
    pub volume: u64,
    pub price: Price,
    pub letters: Letters,
    pub days: u64,
    pub previous: Price,
}

// An S line, its name apart. `lawful` is false where refusal 8 stops it.
#[derive(Clone, Copy)]
pub struct Listing {
    pub number: u64,
    pub unit: u64,
    pub network: u64,
    pub market: u64,
    pub first: u64,
    pub lawful: bool,
}

// A T, X or E line. `lawful` is false where its letters alone call for refusal 10, `matched` where 11 stops it.
#[derive(Clone, Copy)]
pub struct Trade {
    pub security: u64,
    pub market: u64,
    pub side: Side,
    pub lawful: bool,
    pub matched: bool,
}

// A C line; `lawful` and `matched` are of both sides.
#[derive(Clone, Copy)]
pub struct Correction {
    pub security: u64,
    pub market: u64,
    pub original: Side,
    pub correcting: Side,
    pub lawful: bool,
    pub matched: bool,
}

// A line of one of the nine kinds (Day lines).
#[derive(Clone, Copy)]
pub enum Line {
    Dated(u64),
    Listed(Listing),
    Moded(Mode),
    Leveled(u64),
    Stepped(u64),
    Traded(Trade),
    Cancelled(Trade),
    Erred(Trade),
    Corrected(Correction),
}

// A line of a known kind: each field in its form (refusal 4), each number within its values (refusal 5), and the line.
#[derive(Clone, Copy)]
pub struct Parsed {
    pub formed: bool,
    pub ranged: bool,
    pub line: Line,
}

// Why a line or a tape is not taken (Lines not taken).
#[derive(Clone, Copy)]
pub enum Refusal {
    Shape,
    Kind,
    NoDate,
    Form,
    Value,
    NotEntered,
    InUse,
    Name,
    SameName,
    Conditions,
    Unmatched,
    DateOrder,
    Room,
    NoPrint,
}

// A refusal's number.
impl From<Refusal> for u64 {
    ghost from_gives = { λ r n. n ≡ number_of r };

    #[tactic(auto, unfolding(crate::specs::Refusal::number_of))]
    fn from(r: Refusal) -> u64 {
        match r {
            Refusal::Shape => 1,
            Refusal::Kind => 2,
            Refusal::NoDate => 3,
            Refusal::Form => 4,
            Refusal::Value => 5,
            Refusal::NotEntered => 6,
            Refusal::InUse => 7,
            Refusal::Name => 8,
            Refusal::SameName => 9,
            Refusal::Conditions => 10,
            Refusal::Unmatched => 11,
            Refusal::DateOrder => 12,
            Refusal::Room => 13,
            Refusal::NoPrint => 14,
        }
    }
}

// The settings of a day; the date is 0 before a D line is accepted.
#[derive(Clone, Copy)]
pub struct Settings {
    pub date: u64,
    pub mode: Mode,
    pub level: u64,
    pub minimum: u64,
}

// What the S line of a security says, its name apart. The unit is 0 where none is entered.
#[derive(Clone, Copy)]
pub struct Issue {
    pub unit: u64,
    pub network: u64,
    pub market: u64,
    pub first: u64,
}

// The last printed trade of a security's day: its price in units of ten to the power -8 dollars, 0 for none.
#[derive(Clone, Copy)]
pub struct Printed {
    pub price: u64,
}

// High, low and last of a security's day, in the same units, 0 for none.
#[derive(Clone, Copy)]
pub struct Range {
    pub high: u64,
    pub low: u64,
    pub last: u64,
}

// How many T lines of a security were accepted that day, of them qualifying for last, and on its primary market. Each count
// stops where it no longer matters: 5, 1 and 6.
#[derive(Clone, Copy)]
pub struct Counts {
    pub trades: u64,
    pub qualified: u64,
    pub primaries: u64,
}

// What a day holds of a security, its name apart, in parts: a rule moves one and passes on the others.
#[derive(Clone, Copy)]
pub struct Security {
    pub issue: Issue,
    pub printed: Printed,
    pub range: Range,
    pub counts: Counts,
}
