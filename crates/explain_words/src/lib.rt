// Reasons as text: a colon and its name for each reason that is given, in a fixed order.
//
//     printed:R:R price=full:R:R volume=shown:R:R
//
// What prints: every high low price distance first six level unit rule differ seller last original-level original-rule.
// Full price, `short` where there is no reason: normal none tens zero unit thousand six whole original.
// Volume, `off` where there is no reason: normal level first six rule.
#![tactic(auto)]

ghost use Rattle.std.specs.Prelude.{◌≡◌, ◌||◌, ◌≤◌, length};
ghost use Rattle.std.specs.List.{flat_map};
ghost use Rattle.text.specs.Pick.{opt};
ghost use Rattle.text.specs.Put.{Written};
ghost use Rattle.explain_reasons.specs.Reasons.{some_full, some_volume};
ghost use Rattle.explain_words.specs.Text.{three, range_reasons, first_reasons, unit_reasons, rule_reasons, last_reasons, print_reasons, price_word, tens_reasons, whole_reasons, side_reasons, full_reasons, price_text, volume_word, level_reasons, volume_reasons, volume_text, reasons_text};

use explain_reasons::{FullReasons, PrintReasons, VolumeReasons};

// The names of those reasons that are given.
fn write_given(rest: &mut [u8], reasons: &[(bool, &[u8])]) -> usize
    requires { length (flat_map (λ r. opt r.0 r.1.now) reasons.now) ≤ length rest.old }
    ensures { Written (flat_map (λ r. opt r.0 r.1.now) reasons.now) rest.old rest.new result }
{
    let mut count = 0;
    for &(given, name) in reasons {
        count += text::write_optional(&mut rest[count..], given, name);
    }
    count
}

// ---- why it prints

fn write_print_reasons(rest: &mut [u8], r: PrintReasons) -> usize
    requires { length (print_reasons r) ≤ length rest.old }
    ensures { Written (print_reasons r) rest.old rest.new result }
{
    write_given(
        rest,
        &[
            (r.every, b":every"),
            (r.high, b":high"),
            (r.low, b":low"),
            (r.price, b":price"),
            (r.distance, b":distance"),
            (r.first, b":first"),
            (r.six, b":six"),
            (r.level, b":level"),
            (r.unit, b":unit"),
            (r.rule, b":rule"),
            (r.differ, b":differ"),
            (r.seller, b":seller"),
            (r.last, b":last"),
            (r.original_level, b":original-level"),
            (r.original_rule, b":original-rule"),
        ],
    )
}

// ---- why its price is in full

#[tactic(auto, unfolding(explain_reasons::specs::Reasons::some_full))]
fn some_full(r: FullReasons) -> bool
    ensures { result ≡ some_full r }
{
    r.normal || r.none || r.tens || r.zero || r.unit || r.thousand || r.six || r.whole || r.original
}

#[tactic(auto, unfolding(crate::specs::Text::price_word, text::specs::Pick::pick))]
fn write_price_word(rest: &mut [u8], r: FullReasons) -> usize
    requires { length (price_word r) ≤ length rest.old }
    ensures { Written (price_word r) rest.old rest.new result }
{
    let word: &[u8] = if some_full(r) { b"full" } else { b"short" };
    text::write_bytes(rest, word)
}

fn write_full_reasons(rest: &mut [u8], r: FullReasons) -> usize
    requires { length (full_reasons r) ≤ length rest.old }
    ensures { Written (full_reasons r) rest.old rest.new result }
{
    write_given(
        rest,
        &[
            (r.normal, b":normal"),
            (r.none, b":none"),
            (r.tens, b":tens"),
            (r.zero, b":zero"),
            (r.unit, b":unit"),
            (r.thousand, b":thousand"),
            (r.six, b":six"),
            (r.whole, b":whole"),
            (r.original, b":original"),
        ],
    )
}

#[tactic(auto, unfolding(crate::specs::Text::price_text), using(text::proofs::Writing::rooms))]
fn write_price(rest: &mut [u8], r: FullReasons) -> usize
    requires { length (price_text r) ≤ length rest.old }
    ensures { Written (price_text r) rest.old rest.new result }
{
    let a = text::write_bytes(rest, b" price=");
    let b = a + write_price_word(&mut rest[a..], r);
    b + write_full_reasons(&mut rest[b..], r)
}

// ---- why its volume is shown

#[tactic(auto, unfolding(explain_reasons::specs::Reasons::some_volume))]
fn some_volume(r: VolumeReasons) -> bool
    ensures { result ≡ some_volume r }
{
    r.normal || r.level || r.first || r.six || r.rule
}

#[tactic(auto, unfolding(crate::specs::Text::volume_word, text::specs::Pick::pick))]
fn write_volume_word(rest: &mut [u8], r: VolumeReasons) -> usize
    requires { length (volume_word r) ≤ length rest.old }
    ensures { Written (volume_word r) rest.old rest.new result }
{
    let word: &[u8] = if some_volume(r) { b"shown" } else { b"off" };
    text::write_bytes(rest, word)
}

fn write_volume_reasons(rest: &mut [u8], r: VolumeReasons) -> usize
    requires { length (volume_reasons r) ≤ length rest.old }
    ensures { Written (volume_reasons r) rest.old rest.new result }
{
    write_given(
        rest,
        &[
            (r.normal, b":normal"),
            (r.level, b":level"),
            (r.first, b":first"),
            (r.six, b":six"),
            (r.rule, b":rule"),
        ],
    )
}

#[tactic(auto, unfolding(crate::specs::Text::volume_text), using(text::proofs::Writing::rooms))]
fn write_volume(rest: &mut [u8], r: VolumeReasons) -> usize
    requires { length (volume_text r) ≤ length rest.old }
    ensures { Written (volume_text r) rest.old rest.new result }
{
    let a = text::write_bytes(rest, b" volume=");
    let b = a + write_volume_word(&mut rest[a..], r);
    b + write_volume_reasons(&mut rest[b..], r)
}

// ---- all three

#[tactic(auto, unfolding(crate::specs::Text::reasons_text), using(text::proofs::Writing::rooms))]
pub fn write_reasons(
    rest: &mut [u8],
    prints: PrintReasons,
    full: FullReasons,
    shows: VolumeReasons,
) -> usize
    requires { length (reasons_text prints full shows) ≤ length rest.old }
    ensures { Written (reasons_text prints full shows) rest.old rest.new result }
{
    let a = text::write_bytes(rest, b"printed");
    let b = a + write_print_reasons(&mut rest[a..], prints);
    let c = b + write_price(&mut rest[b..], full);
    c + write_volume(&mut rest[c..], shows)
}
