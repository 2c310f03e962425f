// The texts and letters of a day line's fields, each read from its own columns (document 01, Day lines).
#![tactic(auto)]

ghost use Rattle.std.specs.Prelude.{◌≡◌, ◌≤◌, ◌<◌, length, drop};
ghost use Rattle.text.specs.Pick.{all};
ghost use Rattle.text.specs.Reading.{span};
ghost use Rattle.rules.specs.Tape.{is_letter};
ghost use Rattle.rules.specs.Columns.{blank, is_root};
ghost use Rattle.rules.specs.Line.{is_printable, is_kind, is_market, is_network, is_mode};

// ---- texts

// Columns without a field are blank. Every column is looked at, so that many are compared at once.
pub fn is_blank_part(part: &[u8]) -> bool
    ensures { result ≡ blank part.now }
{
    let mut marks: u8 = 0;
    for &c in part {
        if c != b' ' {
            marks = 1;
        }
    }
    marks == 0
}

// 48 columns, sixteen at once.
#[tactic(auto, using(crate::proofs::Texts::blank_parts))]
pub fn is_blank_rest(part: &[u8]) -> bool
    requires { length part.now ≡ 48 }
    ensures { result ≡ blank part.now }
{
    is_blank_part(&part[..16]) && is_blank_part(&part[16..32]) && is_blank_part(&part[32..48])
}

#[tactic(auto, unfolding(rules::specs::Line::is_printable, rules::specs::Columns::between))]
fn is_printable(c: u8) -> bool
    ensures { result ≡ is_printable c }
{
    matches!(c, b' '..=b'~')
}

// Every byte is one of 32..126; here too each is looked at.
pub fn is_printable_text(text: &[u8]) -> bool
    ensures { result ≡ all is_printable text.now }
{
    let mut others: u8 = 0;
    for &c in text {
        if !is_printable(c) {
            others = 1;
        }
    }
    others == 0
}

#[tactic(auto, unfolding(rules::specs::Tape::is_letter))]
fn is_letter(c: u8) -> bool
    ensures { result ≡ is_letter c }
{
    c.is_ascii_uppercase()
}

// How many letters A-Z stand at the field's start.
fn letters_ahead(field: &[u8]) -> usize
    ensures { (result ≤ length field.now) × ((span is_letter field.now).rest ≡ drop result field.now) }
{
    field
        .iter()
        .position(|&c| !is_letter(c))
        .unwrap_or(field.len())
}

// A root: letters A-Z from the left, one at least, then blanks.
#[tactic(auto, using(crate::proofs::Texts::filled_by), unfolding(rules::specs::Columns::is_root))]
pub fn is_root(field: &[u8]) -> bool
    requires { 0 < length field.now }
    ensures { result ≡ is_root field.now }
{
    is_letter(field[0]) && is_blank_part(&field[letters_ahead(field)..])
}

// ---- single letters

// The nine kinds.
#[tactic(auto, unfolding(rules::specs::Line::is_kind, text::specs::Pick::among))]
pub fn is_kind(c: u8) -> bool
    ensures { result ≡ is_kind c }
{
    matches!(
        c,
        b'D' | b'S' | b'M' | b'V' | b'P' | b'T' | b'X' | b'E' | b'C'
    )
}

#[tactic(auto, unfolding(rules::specs::Line::is_market, text::specs::Pick::among))]
pub fn is_market(c: u8) -> bool
    ensures { result ≡ is_market c }
{
    matches!(
        c,
        b'A' | b'B' | b'W' | b'M' | b'C' | b'D' | b'T' | b'N' | b'P' | b'X'
    )
}

#[tactic(auto, unfolding(rules::specs::Line::is_network, text::specs::Pick::among))]
pub fn is_network(c: u8) -> bool
    ensures { result ≡ is_network c }
{
    matches!(c, b'A' | b'B')
}

#[tactic(auto, unfolding(rules::specs::Line::is_mode, text::specs::Pick::among))]
pub fn is_mode(c: u8) -> bool
    ensures { result ≡ is_mode c }
{
    matches!(c, b'N' | b'D' | b'R' | b'P')
}
