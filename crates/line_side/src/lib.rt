// One side of a T, X, E or C line, read from its 46 columns (document 01, Day lines): each field in its form, each number
// within its values, and the side as a value. What needs the day's state is not asked here.
#![tactic(auto)]

ghost use Rattle.std.specs.Prelude.{◌≡◌, ◌≤◌, true, length};
ghost use Rattle.rules.specs.Columns.{columns, blank, number_in};
ghost use Rattle.line_columns.specs.Columns.{stands};
ghost use Rattle.line_side.specs.Side.{amounts_stand, side_fields, letters_read, side_read};
ghost use Rattle.rules.specs.Line.{formed_by, ranged_by, side_by, matched_by};

use rules::{Letters, Number, Price, Side};

// One side of a T, X, E or C line: in its form, within its values, its value, and what refusals 10 and 11 ask of it alone.
#[derive(Clone, Copy)]
pub struct SideRead {
    pub formed: bool,
    pub ranged: bool,
    pub side: Side,
    pub lawful: bool,
    pub matched: bool,
}

// The numbers in a side's columns: volume, price n over ten to the power d, days, previous last m over ten to the power e.
#[derive(Clone, Copy)]
pub struct SideFields {
    pub volume: Number,
    pub n: Number,
    pub d: Number,
    pub days: Number,
    pub m: Number,
    pub e: Number,
}

// The condition letters in their four columns: in their form, which they are, and what refusal 10 asks of them alone.
#[derive(Clone, Copy)]
pub struct LettersRead {
    pub formed: bool,
    pub letters: Letters,
    pub lawful: bool,
}

impl SideFields {
    // Only letters, days and previous last may be blank.
    #[tactic(auto, unfolding(rules::specs::Line::formed_by))]
    fn is_formed(self, letters: bool) -> bool
        ensures { result ≡ formed_by self.volume self.n self.d letters self.days self.m self.e }
    {
        line_numbers::is_number(self.volume)
            && line_numbers::is_number(self.n)
            && line_numbers::is_number(self.d)
            && letters
            && line_numbers::is_number_or_blank(self.days)
            && line_numbers::is_number_or_blank(self.m)
            && line_numbers::is_number_or_blank(self.e)
    }

    // Volume from 1, a price, days from 1, previous last.
    #[tactic(auto, unfolding(rules::specs::Line::ranged_by))]
    fn is_ranged(self) -> bool
        ensures { result ≡ ranged_by self.volume self.n self.d self.days self.m self.e }
    {
        1 <= line_numbers::value_of(self.volume)
            && line_numbers::is_price(
                line_numbers::value_of(self.n),
                line_numbers::value_of(self.d),
            )
            && line_numbers::is_from_one(self.days)
            && line_numbers::is_previous_ranged(self.m, self.e)
    }

    // The side, 0 where a number is not given.
    #[tactic(auto, unfolding(rules::specs::Line::side_by))]
    fn side(self, letters: Letters) -> Side
        ensures { result ≡ side_by self.volume self.n self.d letters self.days self.m self.e }
    {
        Side {
            volume: line_numbers::value_of(self.volume),
            price: Price {
                n: line_numbers::value_of(self.n),
                d: line_numbers::value_of(self.d),
            },
            letters,
            days: line_numbers::value_of(self.days),
            previous: Price {
                n: line_numbers::value_of(self.m),
                d: line_numbers::value_of(self.e),
            },
        }
    }

    // Days exactly with R; previous last exactly with G, both its fields.
    #[tactic(auto, unfolding(rules::specs::Line::matched_by, rules::specs::Line::alike, text::specs::Pick::pick))]
    fn is_matched(self, letters: Letters) -> bool
        ensures { result ≡ matched_by letters self.days self.m self.e }
    {
        letters.r == line_numbers::is_number(self.days)
            && letters.g == line_numbers::is_number(self.m)
            && letters.g == line_numbers::is_number(self.e)
    }
}

// Volume and n stand in their columns, with a blank before the volume. What is not so is read field by field.
fn amounts_stand(part: &[u8]) -> bool
    requires { length part.now ≡ 46 }
    ensures { result ≡ true → amounts_stand part.now ≡ true }
{
    let front = b"~~~~~~~~ ~~~~~~~~~~~~~~     ~~ ~";
    let most = b"9999999999999999999999~~~~~~~~~~";
    part[0] == b' ' && line_columns::is_formed(front, most, &part[0..33])
}

// The number in a field. Where it is known to stand in its columns, what they are worth, unless that is 0.
#[tactic(auto, using(crate::proofs::Amounts::amount_is))]
fn read_amount(field: &[u8], known: bool) -> Number
    requires { (length field.now ≤ 14) × (known ≡ true → stands true field.now ≡ true) }
    ensures { result ≡ number_in field.now }
{
    if known {
        let n = line_columns::worth(field);
        if 1 <= n {
            return Number::Is(n);
        }
    }
    line_numbers::read_number(field)
}

// The number in a field that may be known to be blank.
#[tactic(auto, using(line_columns::proofs::Parts::blank_number))]
fn read_given(field: &[u8], none: bool) -> Number
    requires { (length field.now ≤ 14) × (none ≡ true → blank field.now ≡ true) }
    ensures { result ≡ number_in field.now }
{
    if none {
        Number::Blank
    } else {
        line_numbers::read_number(field)
    }
}

// Days and previous last are blank: sixteen columns at once, and two.
#[tactic(auto, using(crate::proofs::Amounts::end_parts))]
fn is_blank_end(part: &[u8]) -> bool
    requires { length part.now ≡ 46 }
    ensures { result ≡ blank (columns 29 46 part.now) }
{
    line_fields::is_blank_part(&part[28..44]) && line_fields::is_blank_part(&part[44..46])
}

#[tactic(auto, using(crate::proofs::Amounts::known), unfolding(crate::specs::Side::side_fields))]
fn read_fields(part: &[u8]) -> SideFields
    requires { length part.now ≡ 46 }
    ensures { result ≡ side_fields part.now }
{
    let known = amounts_stand(part);
    let none = is_blank_end(part);
    SideFields {
        volume: read_amount(&part[0..9], known),
        n: read_amount(&part[9..23], known),
        d: line_numbers::read_number(&part[23..24]),
        days: read_given(&part[28..31], none),
        m: read_given(&part[31..45], none),
        e: read_given(&part[45..46], none),
    }
}

#[tactic(auto, unfolding(crate::specs::Side::letters_read))]
fn read_letters(part: &[u8]) -> LettersRead
    requires { length part.now ≡ 4 }
    ensures { result ≡ letters_read part.now }
{
    LettersRead {
        formed: line_letters::letters_formed(part),
        letters: line_letters::letters_in(part),
        lawful: line_letters::lawful_letters(part),
    }
}

// The one reader of a side, for T, X, E and both sides of a C line.
#[tactic(auto, using(crate::proofs::Sides::side_read_is), unfolding(crate::specs::Side::side_fields, crate::specs::Side::letters_read))]
pub fn read_side(part: &[u8]) -> SideRead
    requires { length part.now ≡ 46 }
    ensures { result ≡ side_read part.now }
{
    let fields = read_fields(part);
    let read = read_letters(&part[24..28]);
    SideRead {
        formed: fields.is_formed(read.formed),
        ranged: fields.is_ranged(),
        side: fields.side(read.letters),
        lawful: read.lawful,
        matched: fields.is_matched(read.letters),
    }
}
