// The name and the conditions after it at the front of a tape, as a normal print shows them (document 01, "Names",
// "Reader"): which texts are names that an S line can enter, on which network, and where the name ends.
#![tactic(auto)]

ghost use Rattle.std.specs.Prelude.{ℕ, ◌≡◌, ◌≤◌, Bool, length};
ghost use Rattle.text.specs.Reading.{heads};
ghost use Rattle.rules.specs.Tape.{is_letter, is_upper, is_raised};
ghost use Rattle.name_back.specs.Cut.{is_after};
ghost use Rattle.read_name.specs.Name.{count_of, suffix_text, with_end, plain_end, ends_lawfully, lawful_root, name_alone, name_on};
ghost use Rattle.read_name.specs.Head.{letters_after, sold_in, after_in, name_count, named_by, in_run, head_at, again_in, again_at};

use rules::{Letters, NO_LETTERS};

// A name at the front: its length, the bytes used with the conditions after it, those conditions, and on which networks an
// S line can enter it.
#[derive(Clone, Copy)]
pub struct NameRead {
    pub length: usize,
    pub used: usize,
    pub letters: Letters,
    pub a: bool,
    pub b: bool,
}

// The head of a correcting trade: the bytes used, and the conditions after the name.
#[derive(Clone, Copy)]
pub struct AgainRead {
    pub used: usize,
    pub letters: Letters,
}

// ---- bytes at the front

#[tactic(auto, unfolding(rules::specs::Tape::is_upper))]
fn is_upper(b: u8) -> bool
    ensures { result ≡ is_upper b }
{
    name_words::is_letter(b) || text::is_among(b, b"&.prw")
}

// How many bytes at the front pass, at most `most`.
fn count_of<F: Fn(u8) -> bool>(s: &[u8], most: usize, passes: F) -> usize
    requires { F.IsAlwaysCallable passes }
    ensures counted { (p : ℕ → Bool) → ((c : ℕ) (r : Bool) → F.post passes c r → r ≡ p c) → result ≡ count_of p most s.now }
    ensures within { result ≤ length s.now }
{
    for i in 0..most {
        if s.len() <= i || !passes(s[i]) {
            return i;
        }
    }
    most
}

// Of the upper row, at most 35.
fn upper_count(s: &[u8]) -> usize
    ensures { (result ≡ count_of is_upper 35 s.now) × (result ≤ length s.now) }
{
    count_of(s, 35, is_upper)
}

// Letters, at most 7.
fn letter_count(s: &[u8]) -> usize
    ensures { (result ≡ count_of is_letter 7 s.now) × (result ≤ length s.now) }
{
    count_of(s, 7, name_words::is_letter)
}

// ---- what follows a root

#[tactic(auto, unfolding(rules::specs::Tape::is_raised, text::specs::Pick::among))]
fn heads_raised(s: &[u8]) -> bool
    ensures { result ≡ heads is_raised s.now }
{
    matches!(s, [b'p' | b'r' | b'w', ..])
}

// A suffix as a name shows it, behind a letter dot unless it begins with a raised letter; or none.
#[tactic(auto, unfolding(crate::specs::Name::suffix_text, text::specs::Pick::pick))]
fn suffix_text(s: &[u8]) -> bool
    ensures { result ≡ suffix_text s.now }
{
    match s {
        [] => true,
        [b'.', suffix @ ..] => !heads_raised(suffix) && name_suffix::is_suffix(suffix),
        _ => heads_raised(s) && name_suffix::is_suffix(s),
    }
}

// The temporary suffix e behind a suffix.
#[tactic(auto, unfolding(crate::specs::Name::with_end), using(crate::proofs::Ends::ends_no))]
fn with_end(s: &[u8], e: &[u8]) -> bool
    ensures { result ≡ with_end e.now s.now }
{
    match s.strip_suffix(e) {
        Some(front) => suffix_text(front),
        None => false,
    }
}

// What follows a root, without an appendage.
#[tactic(auto, unfolding(crate::specs::Name::plain_end))]
fn plain_end(temporary: bool, s: &[u8]) -> bool
    ensures { result ≡ plain_end temporary s.now }
{
    suffix_text(s)
        || (temporary
            && (with_end(s, b".XD")
                || with_end(s, b".XDIS")
                || with_end(s, b".Xr")
                || with_end(s, b".N")
                || with_end(s, b".XI")))
}

// What follows a root, with or without the appendage e.
#[tactic(auto, unfolding(crate::specs::Name::ends_lawfully), using(crate::proofs::Ends::ends_no))]
fn ends_lawfully(temporary: bool, e: &[u8], s: &[u8]) -> bool
    ensures { result ≡ ends_lawfully temporary e.now s.now }
{
    if plain_end(temporary, s) {
        return true;
    }
    match s.strip_suffix(e) {
        Some(front) => plain_end(temporary, front),
        None => false,
    }
}

// ---- names

// A root of 1 to 6 letters, not reserved.
#[tactic(auto, unfolding(crate::specs::Name::lawful_root, rules::specs::Columns::between))]
fn lawful_root(root: &[u8]) -> bool
    ensures { result ≡ lawful_root root.now }
{
    1 <= root.len() && root.len() <= 6 && !name_suffix::is_reserved(root)
}

// A name without an appendage: that of a security on either network.
#[tactic(auto, unfolding(crate::specs::Name::name_alone))]
fn is_name_alone(temporary: bool, name: &[u8]) -> bool
    ensures { result ≡ name_alone temporary name.now }
{
    let (root, end) = name.split_at(letter_count(name));
    lawful_root(root) && plain_end(temporary, end)
}

// The name of a security on the network, 65 or 66.
// Kept: a network is its letter's number everywhere in the rules.
#[tactic(auto, unfolding(crate::specs::Name::name_on, crate::specs::Name::appendage_of, text::specs::Pick::pick))]
fn name_on(temporary: bool, network: u64, name: &[u8]) -> bool
    ensures { result ≡ name_on temporary network name.now }
{
    let (root, end) = name.split_at(letter_count(name));
    let appendage: &[u8] = if network == 65 { b".BC" } else { b".DL" };
    lawful_root(root) && ends_lawfully(temporary, appendage, end)
}

// ---- the conditions after a name

// Behind .ND or without it: .OPD, .SLD, .SLD.LAST or nothing.
#[tactic(auto, unfolding(crate::specs::Head::sold_in, crate::specs::Head::letters_after, text::specs::Pick::pick))]
fn sold_in(m: bool, s: &[u8]) -> Option<Letters>
    ensures { result ≡ sold_in m s.now }
{
    let bare = Letters { m, ..NO_LETTERS };
    if text::same_text(s, b"") {
        Some(bare)
    } else if text::same_text(s, b".OPD") {
        Some(Letters { o: true, ..bare })
    } else if text::same_text(s, b".SLD") {
        Some(Letters { s: true, ..bare })
    } else if text::same_text(s, b".SLD.LAST") {
        Some(Letters { l: true, ..bare })
    } else {
        None
    }
}

#[tactic(auto, unfolding(crate::specs::Head::after_in, text::specs::Pick::pick))]
fn after_in(s: &[u8]) -> Option<Letters>
    ensures { result ≡ after_in s.now }
{
    if text::begins(b".ND", s) {
        sold_in(true, &s[3..])
    } else {
        sold_in(false, s)
    }
}

// A condition begins here.
#[tactic(auto, unfolding(name_back::specs::Cut::is_after))]
fn is_after(s: &[u8]) -> bool
    ensures { result ≡ is_after s.now }
{
    match s {
        [b'.', word @ ..] => {
            text::begins(b"ND", word) || text::begins(b"OPD", word) || text::begins(b"SLD", word)
        }
        _ => false,
    }
}

// ---- the head

// The name goes up to the first condition.
fn name_count(run: &[u8]) -> usize
    ensures { (result ≡ name_count run.now) × (result ≤ length run.now) }
{
    for i in 0..run.len() {
        if is_after(&run[i..]) {
            return i;
        }
    }
    run.len()
}

#[tactic(auto, unfolding(crate::specs::Head::named_by, text::specs::Pick::pick), using(crate::proofs::Ends::alone_on))]
fn named_by(temporary: bool, name: &[u8], used: usize, after: Option<Letters>) -> Option<NameRead>
    ensures { result ≡ named_by temporary name.now used after }
{
    let read = NameRead {
        length: name.len(),
        used,
        letters: after?,
        a: true,
        b: true,
    };
    if is_name_alone(temporary, name) {
        return Some(read);
    }
    let a = name_on(temporary, 65, name);
    let b = name_on(temporary, 66, name);
    if a || b {
        Some(NameRead { a, b, ..read })
    } else {
        None
    }
}

#[tactic(auto, unfolding(crate::specs::Head::in_run))]
fn in_run(temporary: bool, run: &[u8]) -> Option<NameRead>
    ensures { result ≡ in_run temporary run.now }
{
    let (name, after) = run.split_at(name_count(run));
    named_by(temporary, name, run.len(), after_in(after))
}

// The head of a trade, whose temporary suffix may show, or of a side of a C, X or E line.
#[tactic(auto, unfolding(crate::specs::Head::head_at))]
pub fn head_at(s: &[u8], temporary: bool) -> Option<NameRead>
    ensures { result ≡ head_at temporary s.now }
{
    in_run(temporary, &s[..upper_count(s)])
}

// ---- the head of a correcting trade

#[tactic(auto, unfolding(crate::specs::Head::again_in, crate::specs::Head::again_by, text::specs::Pick::pick))]
fn again_in(name: &[u8], run: &[u8]) -> Option<AgainRead>
    ensures { result ≡ again_in name.now run.now }
{
    if run.is_empty() {
        let letters = after_in(run)?;
        return Some(AgainRead { used: 0, letters });
    }
    if !text::begins(name, run) {
        return None;
    }
    let letters = after_in(&run[name.len()..])?;
    Some(AgainRead {
        used: run.len(),
        letters,
    })
}

// Nothing, or the name again and its conditions.
#[tactic(auto, unfolding(crate::specs::Head::again_at))]
pub fn again_at(s: &[u8], name: &[u8]) -> Option<AgainRead>
    ensures { result ≡ again_at name.now s.now }
{
    again_in(name, &s[..upper_count(s)])
}
