// Corrections, cancels and errors as texts (document 01, "Corrections and cancels"): the length of each and its writer,
// which is lent the rest of the tape. Their sides are those of trades, each with the columns that it stands in; a name is its
// columns.
#![tactic(auto)]

ghost use Rattle.std.specs.Prelude.{◌≡◌, false, ◌+◌, ◌≤◌, length};
ghost use Rattle.text.specs.Pick.{pick, opt};
ghost use Rattle.text.specs.Put.{Written};
ghost use Rattle.rules.specs.Names.{name_text};
ghost use Rattle.rules.specs.Side.{side_text};
ghost use Rattle.line_owed.specs.Owed.{SideColumns};
ghost use Rattle.print_amendment.specs.Original.{original_text};
ghost use Rattle.rules.specs.Correction.{repeats_name, end_pair, correction_text, cancel_text, cancel_opening, error_opening};
ghost use Rattle.rules.specs.Sizes.{name_width};

use print_side::Look;
use rules::{Letters, Side};

// ---- parts

// The end pair, unless a closing G pair serves as it.
#[tactic(auto, unfolding(rules::specs::Correction::end_pair))]
fn end_pair_length(x: Side) -> usize
    ensures { (result ≡ length (end_pair x)) × (result ≤ 2) }
{
    text::optional_length(!x.letters.g, b">>")
}

#[tactic(auto, unfolding(rules::specs::Correction::end_pair))]
fn write_end_pair(rest: &mut [u8], x: Side) -> usize
    requires { length (end_pair x) ≤ length rest.old }
    ensures { Written (end_pair x) rest.old rest.new result }
{
    text::write_optional(rest, !x.letters.g, b">>")
}

// The name of the correcting trade, where the letters repeat it: blank columns are no name.
#[tactic(auto, using(crate::proofs::Amended::no_name), unfolding(text::specs::Pick::opt))]
fn correcting_name(letters: Letters, name: &[u8]) -> &[u8]
    requires { length name.now ≡ name_width }
    ensures length { length result.now ≡ name_width }
    ensures text { name_text false result.now ≡ opt (repeats_name letters) (name_text false name.now) }
{
    if decide_letters::repeats_name(letters) {
        name
    } else {
        b"                   "
    }
}

// `<<ERR.` or `<<CXL.`.
#[tactic(auto, unfolding(text::specs::Pick::pick))]
fn write_opening(rest: &mut [u8], error: bool) -> usize
    requires { length (pick error error_opening cancel_opening) ≤ length rest.old }
    ensures { Written (pick error error_opening cancel_opening) rest.old rest.new result }
{
    if error {
        text::write_bytes(rest, b"<<ERR.")
    } else {
        text::write_bytes(rest, b"<<CXL.")
    }
}

// ---- cancels and errors

#[tactic(auto, using(text::proofs::Writing::length_joined, crate::proofs::Amended::opening_length), unfolding(rules::specs::Correction::cancel_text))]
pub fn cancel_length(error: bool, name: &[u8], look: Look, x: Side) -> usize
    requires { (length name.now ≡ name_width) × (1 ≤ look.unit) × (x.price.d ≤ 8) × (x.previous.d ≤ 8) }
    ensures { result ≡ length (cancel_text (pick error error_opening cancel_opening) (name_text false name.now) look.network look.unit look.form look.shows x) }
{
    6 + print_side::side_length(name, false, look, x) + end_pair_length(x)
}

#[tactic(auto, using(text::proofs::Writing::rooms), unfolding(rules::specs::Correction::cancel_text))]
pub fn write_cancel(
    rest: &mut [u8],
    error: bool,
    name: &[u8],
    look: Look,
    x: Side,
    part: &[u8],
) -> usize
    requires { (length name.now ≡ name_width) × (1 ≤ look.unit) × SideColumns part.now x × (length (cancel_text (pick error error_opening cancel_opening) (name_text false name.now) look.network look.unit look.form look.shows x) ≤ length rest.old) }
    ensures { Written (cancel_text (pick error error_opening cancel_opening) (name_text false name.now) look.network look.unit look.form look.shows x) rest.old rest.new result }
{
    let at = write_opening(rest, error);
    let at2 = at + print_side::write_side(&mut rest[at..], name, false, look, x, part);
    at2 + write_end_pair(&mut rest[at2..], x)
}

// ---- corrections

#[tactic(auto, using(text::proofs::Writing::length_joined), unfolding(rules::specs::Correction::correction_text))]
pub fn correction_length(name: &[u8], look: Look, x: Side, y: Side) -> usize
    requires { (length name.now ≡ name_width) × (1 ≤ look.unit) × (x.price.d ≤ 8) × (x.previous.d ≤ 8) × (y.price.d ≤ 8) × (y.previous.d ≤ 8) }
    ensures { result ≡ length (correction_text (name_text false name.now) look.network look.unit look.form look.shows x y) }
{
    let again = correcting_name(y.letters, name); // for the length
    7 + print_side::side_length(name, false, look, x)
        + 4
        + print_side::side_length(again, false, look, y)
        + end_pair_length(y)
}

// The original between its opening and `WAS.`.
#[tactic(auto, using(text::proofs::Writing::rooms), unfolding(crate::specs::Original::original_text))]
fn write_original(rest: &mut [u8], name: &[u8], look: Look, x: Side, part: &[u8]) -> usize
    requires { (length name.now ≡ name_width) × (1 ≤ look.unit) × SideColumns part.now x × (length (original_text (name_text false name.now) look.network look.unit look.form look.shows x) ≤ length rest.old) }
    ensures { Written (original_text (name_text false name.now) look.network look.unit look.form look.shows x) rest.old rest.new result }
{
    let at = text::write_bytes(rest, b"<<CORR.");
    let at2 = at + print_side::write_side(&mut rest[at..], name, false, look, x, part);
    at2 + text::write_bytes(&mut rest[at2..], b"WAS.")
}

#[tactic(auto, using(text::proofs::Writing::rooms), unfolding(rules::specs::Correction::correction_text, crate::specs::Original::original_text))]
pub fn write_correction(
    rest: &mut [u8],
    name: &[u8],
    look: Look,
    x: Side,
    y: Side,
    part: &[u8],
    other: &[u8],
) -> usize
    requires { (length name.now ≡ name_width) × (1 ≤ look.unit) × SideColumns part.now x × SideColumns other.now y × (length (correction_text (name_text false name.now) look.network look.unit look.form look.shows x y) ≤ length rest.old) }
    ensures { Written (correction_text (name_text false name.now) look.network look.unit look.form look.shows x y) rest.old rest.new result }
{
    let again = correcting_name(y.letters, name); // for the text
    let at = write_original(rest, name, look, x, part);
    let at2 = at + print_side::write_side(&mut rest[at..], again, false, look, y, other);
    at2 + write_end_pair(&mut rest[at2..], y)
}
