// An explanation as a line of text: the line's number right-justified in ten columns, a blank, its kind (`-` where it is
// refused 1 or 2), its security right-justified in five columns (blank where there is none), a blank, and what becomes of it:
//
//     refused N
//     accepted                                          nothing to print: D, S, and P outside MPV
//     announced                                         M, V, and P in MPV
//     left off                                          a trade or a correction that the mode leaves off
//     printed:R:R price=full:R:R volume=shown:R:R       each reason R behind a colon (crate explain_words);
//                                                       price=short, volume=off where there is none
#![tactic(auto)]

ghost use Rattle.std.specs.Prelude.{◌≤◌, length};
ghost use Rattle.text.specs.Put.{Written};
ghost use Rattle.explain_text.specs.Lines.{security_text, head_text, refused_text, fate_text, line_of};

use explain_fate::{Explanation, Fate};

// ---- number, kind and security

#[tactic(auto, unfolding(crate::specs::Lines::security_text, text::specs::Pick::pick))]
fn write_security(rest: &mut [u8], n: u64) -> usize
    requires { length (security_text n) ≤ length rest.old }
    ensures { Written (security_text n) rest.old rest.new result }
{
    if n == 0 {
        text::write_bytes(rest, b"     ")
    } else {
        text_right::write_right(rest, 5, n)
    }
}

#[tactic(auto, unfolding(crate::specs::Lines::head_text), using(text::proofs::Writing::rooms))]
fn write_head(rest: &mut [u8], number: u64, kind: u8, security: u64) -> usize
    requires { length (head_text number kind security) ≤ length rest.old }
    ensures { Written (head_text number kind security) rest.old rest.new result }
{
    let a = text_right::write_right(rest, 10, number);
    let b = a + text::write_bytes(&mut rest[a..], b" ");
    let c = b + text::write_bytes(&mut rest[b..], &[kind]);
    let d = c + write_security(&mut rest[c..], security);
    d + text::write_bytes(&mut rest[d..], b" ")
}

// ---- what becomes of it

#[tactic(auto, unfolding(crate::specs::Lines::refused_text), using(text::proofs::Writing::rooms))]
fn write_refused(rest: &mut [u8], n: u64) -> usize
    requires { length (refused_text n) ≤ length rest.old }
    ensures { Written (refused_text n) rest.old rest.new result }
{
    let a = text::write_bytes(rest, b"refused ");
    a + text::write_decimal(&mut rest[a..], n)
}

#[tactic(auto, unfolding(crate::specs::Lines::fate_text))]
fn write_fate(rest: &mut [u8], f: Fate) -> usize
    requires { length (fate_text f) ≤ length rest.old }
    ensures { Written (fate_text f) rest.old rest.new result }
{
    match f {
        Fate::Refused(r) => write_refused(rest, u64::from(r)),
        Fate::Accepted => text::write_bytes(rest, b"accepted"),
        Fate::Announced => text::write_bytes(rest, b"announced"),
        Fate::LeftOff => text::write_bytes(rest, b"left off"),
        Fate::Printed(r) => explain_words::write_reasons(rest, r.prints, r.full, r.shows),
    }
}

// ---- the line

#[tactic(auto, unfolding(crate::specs::Lines::line_of), using(text::proofs::Writing::rooms))]
pub fn write_explanation(rest: &mut [u8], number: u64, e: Explanation) -> usize
    requires { length (line_of number e) ≤ length rest.old }
    ensures { Written (line_of number e) rest.old rest.new result }
{
    let a = write_head(rest, number, e.kind, e.security);
    let b = a + write_fate(&mut rest[a..], e.fate);
    b + text::write_bytes(&mut rest[b..], b"\n")
}
