// Which names of securities are lawful (document 01, "Names", refusal 8): listed suffixes, families, temporary suffixes,
// appendages. A name is the nineteen columns 6 to 24 of an S line: root 6, suffix 7, temporary suffix 4, appendage 2.
#![tactic(auto)]

ghost use Rattle.std.specs.Prelude.{◌≡◌, ℕ, Bool, List, length, map};
ghost use Rattle.std.specs.Fn.{FnReturnsAt};
ghost use Rattle.text.specs.Pick.{member};
ghost use Rattle.rules.specs.Columns.{word};
ghost use Rattle.rules.specs.Names.{is_class, is_series, is_preferred, listed_suffixes, is_suffix, is_temporary, is_appendage, is_reserved, lawful_field, lawful_name};
ghost use Rattle.rules.specs.Sizes.{name_width};

// The suffixes that are listed one by one, by their length: a text is looked for among those as long as it is.
const OF_ONE: [&[u8]; 6] = [b"A", b"B", b"U", b"r", b"w", b"p"];

const OF_TWO: [&[u8]; 17] = [
    b"Aw", b"Bw", b"CL", b"CT", b"CV", b"EC", b"PP", b"SC", b"SP", b"SD", b"TT", b"VR", b"WD",
    b"WS", b"XW", b"rw", b"pw",
];

const OF_THREE: [&[u8]; 8] = [
    b"A.N", b"B.N", b"CVR", b"F.N", b"WSw", b"pCL", b"pCV", b"pWD",
];

const OF_FOUR: [&[u8]; 8] = [
    b"A.CL", b"A.CV", b"B.CL", b"B.CV", b"W.WS", b"WS.A", b"WS.B", b"WS.N",
];

const OF_FIVE: [&[u8]; 2] = [b"CV.CL", b"PT.CL"];

const OF_SIX: [&[u8]; 1] = [b"pCV.CL"];

// What may follow the letter of a class.
const CLASS_ENDS: [&[u8]; 4] = [b"", b".CV", b".CL", b"w"];

const TEMPORARY: [&[u8]; 5] = [b"XD", b"XDIS", b"Xr", b"N", b"XI"];

const RESERVED: [&[u8]; 3] = [b"SHRS", b"RULE", b"SELLER"];

// The text is one of those listed.
fn is_listed(text: &[u8], listed: &[&[u8]]) -> bool
    ensures { result ≡ member text.now (map (λ known. known.now) listed.now) }
{
    listed.contains(&text)
}

// A letter A-Z, alone or with .CV, .CL or w.
#[tactic(auto, unfolding(rules::specs::Names::is_class))]
fn is_class(text: &[u8]) -> bool
    ensures { result ≡ is_class text.now }
{
    match text {
        [letter, end @ ..] => name_words::is_letter(*letter) && is_listed(end, &CLASS_ENDS),
        [] => false,
    }
}

// A letter A-K or M-S, alone.
#[tactic(auto, using(crate::proofs::Lawful::series_other))]
fn is_series(text: &[u8]) -> bool
    ensures { result ≡ is_series text.now }
{
    match text {
        [letter] => text::is_among(*letter, b"ABCDEFGHIJKMNOPQRS"),
        _ => false,
    }
}

// The preferred families: p and a class; pC and a series.
#[tactic(auto, using(crate::proofs::Lawful::front_room), unfolding(rules::specs::Names::is_preferred))]
fn is_preferred(text: &[u8]) -> bool
    ensures { result ≡ is_preferred text.now }
{
    text::begins(b"p", text) && is_class(&text[1..])
        || text::begins(b"pC", text) && is_series(&text[2..])
}

// One of those that are listed one by one.
fn is_single(text: &[u8]) -> bool
    ensures { result ≡ member text.now listed_suffixes }
{
    match text.len() {
        1 => is_listed(text, &OF_ONE),
        2 => is_listed(text, &OF_TWO),
        3 => is_listed(text, &OF_THREE),
        4 => is_listed(text, &OF_FOUR),
        5 => is_listed(text, &OF_FIVE),
        6 => is_listed(text, &OF_SIX),
        _ => false,
    }
}

// The families are asked first: the list is long.
#[tactic(auto, unfolding(rules::specs::Names::is_suffix))]
pub fn is_suffix(text: &[u8]) -> bool
    ensures { result ≡ is_suffix text.now }
{
    is_preferred(text) || is_single(text)
}

#[tactic(auto, unfolding(rules::specs::Names::is_temporary))]
fn is_temporary(text: &[u8]) -> bool
    ensures { result ≡ is_temporary text.now }
{
    is_listed(text, &TEMPORARY)
}

// BC on network A, DL on B.
#[tactic(auto, unfolding(rules::specs::Names::is_appendage))]
fn is_appendage(network: u64, text: &[u8]) -> bool
    ensures { result ≡ is_appendage network text.now }
{
    text::same_text(text, b"BC") && network == 65 || text::same_text(text, b"DL") && network == 66
}

#[tactic(auto, unfolding(rules::specs::Names::is_reserved))]
pub fn is_reserved(root: &[u8]) -> bool
    ensures { result ≡ is_reserved root.now }
{
    is_listed(root, &RESERVED)
}

// ---- refusal 8

fn has_reserved_root(field: &[u8]) -> bool
    ensures { result ≡ is_reserved (word field.now) }
{
    is_reserved(&field[..name_words::word_length(field)])
}

// A field that may be blank holds, from its left, a text that passes the test.
fn is_lawful_field<F: Fn(&[u8]) -> bool>(field: &[u8], is_listed: F) -> bool
    requires { F.IsAlwaysCallable is_listed }
    ensures { (listed : List ℕ → Bool) → ((r : Bool) → FnReturnsAt F.Fn is_listed (word field.now) r → r ≡ listed (word field.now)) → result ≡ lawful_field listed field.now }
{
    if !name_words::is_left_justified(field) {
        return false;
    }
    let n = name_words::word_length(field);
    n == 0 || is_listed(&field[..n])
}

// No reserved root, and each part after the root blank or a listed text from its left.
#[tactic(auto, unfolding(rules::specs::Names::lawful_name))]
pub fn lawful_name(network: u64, name: &[u8]) -> bool
    requires { length name.now ≡ name_width }
    ensures { result ≡ lawful_name network name.now }
{
    !has_reserved_root(&name[..6])
        && is_lawful_field(&name[6..13], is_suffix)
        && is_lawful_field(&name[13..17], is_temporary)
        && is_lawful_field(&name[17..19], |text: &[u8]| is_appendage(network, text))
}
