// Words in the fields of a name: letters first, then blanks only.
#![tactic(auto)]

ghost use Rattle.std.specs.Prelude.{◌≡◌};
ghost use Rattle.rules.specs.Tape.{is_letter};
ghost use Rattle.rules.specs.Columns.{blank, left_justified};
ghost use Rattle.name_words.specs.Word.{WordOf};

// ---- fields

// The length of the text at a field's left, up to the first blank.
pub fn word_length(field: &[u8]) -> usize
    ensures { WordOf field.now result }
{
    field.iter().position(|&c| c == b' ').unwrap_or(field.len())
}

fn is_blank(field: &[u8]) -> bool
    ensures { result ≡ blank field.now }
{
    field.iter().all(|&c| c == b' ')
}

// A text from its left, then blanks only.
#[tactic(auto, using(crate::proofs::Fields::justified))]
pub fn is_left_justified(field: &[u8]) -> bool
    ensures { result ≡ left_justified field.now }
{
    is_blank(&field[word_length(field)..])
}

// ---- the preferred families, by rule

#[tactic(auto, unfolding(rules::specs::Tape::is_letter))]
pub fn is_letter(b: u8) -> bool
    ensures { result ≡ is_letter b }
{
    matches!(b, b'A'..=b'Z')
}
