// Condition letters in a field of four columns (document 01, "Day lines", "Price and conditions"): formed, as a set, lawful together.
#![tactic(auto)]

ghost use Rattle.std.specs.Prelude.{◌≡◌, ◌∷◌, [], ◌≤◌, ◌<◌, length, get_or, drop};
ghost use Rattle.text.specs.Reading.{span};
ghost use Rattle.rules.specs.Columns.{word};
ghost use Rattle.rules.specs.Conditions.{is_condition, letters_formed, letters_in, unrepeated, none_of, at_most_one, lawful_letters};

use rules::{Letters, NO_LETTERS};

// ---- condition letters: four columns, filled from the left

#[tactic(auto, unfolding(rules::specs::Conditions::is_condition, text::specs::Pick::among))]
fn is_condition(c: u8) -> bool
    ensures { result ≡ is_condition c }
{
    matches!(
        c,
        b'O' | b'S' | b'L' | b'N' | b'M' | b'C' | b'K' | b'B' | b'T' | b'R' | b'J' | b'G'
    )
}

// How many condition letters stand at the field's start.
fn conditions_ahead(field: &[u8]) -> usize
    ensures { (result ≤ length field.now) × ((span is_condition field.now).rest ≡ drop result field.now) }
{
    field
        .iter()
        .position(|&c| !is_condition(c))
        .unwrap_or(field.len())
}

// Condition letters from the left, then blanks; most fields are blank, or hold one. Inline, since each trade comes by it.
#[tactic(auto, using(crate::proofs::Formed::formed))]
#[inline(always)]
pub fn letters_formed(field: &[u8]) -> bool
    ensures { result ≡ letters_formed field.now }
{
    match field {
        [c, b' ', b' ', b' '] => *c == b' ' || is_condition(*c),
        _ => line_fields::is_blank_part(&field[conditions_ahead(field)..]),
    }
}

// The letters before the field's first blank.
fn word(field: &[u8]) -> &[u8]
    ensures { result.now ≡ word field.now }
{
    let end = field.iter().position(|&c| c == b' ').unwrap_or(field.len());
    &field[..end]
}

// The letters of a field that holds no more than this one.
fn only_letter(x: u8) -> Letters
    requires { x ≡ 32 → ⊥ }
    ensures { result ≡ letters_in (x ∷ []) }
{
    Letters {
        o: b'O' == x,
        s: b'S' == x,
        l: b'L' == x,
        n: b'N' == x,
        m: b'M' == x,
        c: b'C' == x,
        k: b'K' == x,
        b: b'B' == x,
        t: b'T' == x,
        r: b'R' == x,
        j: b'J' == x,
        g: b'G' == x,
    }
}

// The letters of a field that holds one at most, in its first column.
#[tactic(auto, using(crate::proofs::Letters::no_letters, crate::proofs::Letters::only_letters))]
pub fn first_letter(field: &[u8]) -> Letters
    requires { (1 < length field.now) × (get_or field.now 1 0 ≡ 32) }
    ensures { result ≡ letters_in field.now }
{
    if field[0] == b' ' {
        NO_LETTERS
    } else {
        only_letter(field[0])
    }
}

// The letters that stand in a field; most fields are blank, or hold one.
#[tactic(auto, unfolding(rules::specs::Conditions::letters_in))]
pub fn letters_in(field: &[u8]) -> Letters
    requires { 1 < length field.now }
    ensures { result ≡ letters_in field.now }
{
    if field[1] == b' ' {
        return first_letter(field);
    }
    let letters = word(field);
    Letters {
        o: text::is_among(b'O', letters),
        s: text::is_among(b'S', letters),
        l: text::is_among(b'L', letters),
        n: text::is_among(b'N', letters),
        m: text::is_among(b'M', letters),
        c: text::is_among(b'C', letters),
        k: text::is_among(b'K', letters),
        b: text::is_among(b'B', letters),
        t: text::is_among(b'T', letters),
        r: text::is_among(b'R', letters),
        j: text::is_among(b'J', letters),
        g: text::is_among(b'G', letters),
    }
}

// No letter stands twice.
#[tactic(auto, using(crate::proofs::Letters::unrepeated_here, crate::proofs::Letters::unrepeated_end, text::proofs::Parts::rest_is))]
fn is_unrepeated(letters: &[u8]) -> bool
    ensures { result ≡ unrepeated letters.now }
{
    for i in 0..letters.len() {
        if text::is_among(letters[i], &letters[i + 1..]) {
            return false;
        }
    }
    true
}

// None of the letters is one of the group's.
fn has_none_of(group: &[u8], letters: &[u8]) -> bool
    ensures { result ≡ none_of group.now letters.now }
{
    !letters.iter().any(|&c| text::is_among(c, group))
}

// At most one of the letters is one of the group's.
fn has_at_most_one(group: &[u8], letters: &[u8]) -> bool
    ensures { result ≡ at_most_one group.now letters.now }
{
    match letters.iter().position(|&c| text::is_among(c, group)) {
        Some(i) => has_none_of(group, &letters[i + 1..]),
        None => true,
    }
}

// Not repeated; at most one of O S L; one of N M C K R.
#[tactic(auto, unfolding(rules::specs::Conditions::lawful_letters))]
pub fn lawful_letters(field: &[u8]) -> bool
    requires { 1 < length field.now }
    ensures { result ≡ lawful_letters field.now }
{
    if field[0] == b' ' || field[1] == b' ' {
        return true;
    }
    let letters = word(field);
    is_unrepeated(letters) && has_at_most_one(b"OSL", letters) && has_at_most_one(b"NMCKR", letters)
}
