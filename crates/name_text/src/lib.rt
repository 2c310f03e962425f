// Names of securities as texts (document 01, "Names"): their lengths and writers, and which are the same. A name is the
// nineteen columns 6 to 24 of an S line: root 6, suffix 7, temporary suffix 4, appendage 2.
#![tactic(auto)]

ghost use Rattle.std.specs.Prelude.{◌≡◌, true, false, ◌+◌, ◌≤◌, eqb, length, take, drop};
ghost use Rattle.text.specs.Pick.{pick, opt, same};
ghost use Rattle.text.specs.Put.{Written};
ghost use Rattle.rules.specs.Tape.{is_raised};
ghost use Rattle.rules.specs.Columns.{word};
ghost use Rattle.rules.specs.Names.{part_text, name_text, has_temporary, same_name};
ghost use Rattle.rules.specs.Sizes.{name_width};
ghost use Rattle.name_words.specs.Word.{WordOf};
ghost use Rattle.name_text.specs.Laid.{Laid, dot_text};

// ---- a name's text

#[tactic(auto, using(crate::proofs::Text::temporary_told))]
pub fn has_temporary(name: &[u8]) -> bool
    requires { length name.now ≡ name_width }
    ensures { result ≡ has_temporary name.now }
{
    name_words::word_length(&name[13..17]) != 0
}

#[tactic(auto, unfolding(rules::specs::Tape::is_raised, text::specs::Pick::among))]
fn is_raised(b: u8) -> bool
    ensures { result ≡ is_raised b }
{
    matches!(b, b'p' | b'r' | b'w')
}

// A part after the root: with a letter dot before it, unless it begins with a raised letter.
fn part_length(field: &[u8]) -> usize
    ensures { (result ≡ length (part_text (word field.now))) × (result ≤ length field.now + 1) }
{
    let n = name_words::word_length(field);
    if n == 0 {
        0
    } else if is_raised(field[0]) {
        n
    } else {
        n + 1
    }
}

#[tactic(auto, unfolding(text::specs::Pick::opt))]
fn shown_length(field: &[u8], shown: bool) -> usize
    ensures { (result ≡ length (opt shown (part_text (word field.now)))) × (result ≤ length field.now + 1) }
{
    if shown { part_length(field) } else { 0 }
}

// The length of a name, its temporary suffix shown or not.
pub fn name_length(name: &[u8], temporary: bool) -> usize
    requires { length name.now ≡ name_width }
    ensures { (result ≡ length (name_text temporary name.now)) × (result ≤ 22) }
{
    let root = name_words::word_length(&name[..6]);
    let suffix = part_length(&name[6..13]);
    let shown = shown_length(&name[13..17], temporary);
    let appendage = part_length(&name[17..19]);
    root + suffix + shown + appendage
}

// ---- its writer: each part is laid by columns of fixed width, over what the one before it left behind its text

// The length of the text at a field's left, up to the first blank: every column is looked at, the last first.
fn word_size(field: &[u8]) -> usize
    ensures { WordOf field.now result }
{
    let mut n = field.len();
    for i in (0..field.len()).rev() {
        if field[i] == b' ' {
            n = i;
        }
    }
    n
}

// 0 where two bytes are the same, 1 otherwise.
#[tactic(auto, unfolding(text::specs::Pick::pick))]
fn unlike(a: u8, b: u8) -> usize
    ensures { (result ≡ pick (eqb a b) 0 1) × (result ≤ 1) }
{
    if a == b { 0 } else { 1 }
}

// 1 where a part that begins with this byte has a letter dot before it: not a blank, not a raised letter.
fn dot_size(b: u8) -> usize
    ensures { (result ≡ length (dot_text b)) × (result ≤ 1) }
{
    unlike(b, b' ') * unlike(b, b'p') * unlike(b, b'r') * unlike(b, b'w')
}

// Every column is laid; the text is their front. All are read before the first is written.
fn lay_word(rest: &mut [u8], field: &[u8]) -> usize
    requires { (length field.now ≤ 7) × (length field.now ≤ length rest.old) }
    ensures { Laid (word field.now) rest.old rest.new result × (result ≤ length field.now) }
{
    let mut own = [0u8; 7];
    let n = text::write_bytes(&mut own, field);
    text::write_bytes(rest, &own[..n]);
    word_size(field)
}

// A part after the root.
fn lay_part(rest: &mut [u8], field: &[u8]) -> usize
    requires { (1 ≤ length field.now) × (length field.now ≤ 7) × (length field.now + 1 ≤ length rest.old) }
    ensures { Laid (part_text (word field.now)) rest.old rest.new result × (result ≤ length field.now + 1) }
{
    rest[0] = b'.';
    let k = dot_size(field[0]);
    k + lay_word(&mut rest[k..], field)
}

// A part that is blank for most securities, or not shown.
fn lay_shown(rest: &mut [u8], field: &[u8], shown: bool) -> usize
    requires { (1 ≤ length field.now) × (length field.now ≤ 7) × (length field.now + 1 ≤ length rest.old) }
    ensures { Laid (opt shown (part_text (word field.now))) rest.old rest.new result × (result ≤ length field.now + 1) }
{
    if !shown || field[0] == b' ' {
        0
    } else {
        lay_part(rest, field)
    }
}

// Root, suffix, temporary suffix where it is shown, appendage.
fn lay_name(rest: &mut [u8], name: &[u8], temporary: bool) -> usize
    requires { (length name.now ≡ name_width) × (22 ≤ length rest.old) }
    ensures { Laid (name_text temporary name.now) rest.old rest.new result × (result ≤ 22) }
{
    let a = lay_word(rest, &name[..6]);
    let b = a + lay_part(&mut rest[a..], &name[6..13]);
    let c = b + lay_shown(&mut rest[b..], &name[13..17], temporary);
    c + lay_shown(&mut rest[c..], &name[17..19], true)
}

// The first n of sixteen bytes and more, where the tape has 32. A fixed number of bytes is written, then those that stood
// behind the text are put back; all are read before the first is written.
fn write_sixteen(rest: &mut [u8], laid: &[u8], n: usize) -> usize
    requires { (n ≤ 16) × (16 ≤ length laid.now) × (32 ≤ length rest.old) }
    ensures { Written (take n laid.now) rest.old rest.new result }
{
    let kept: [u8; 16] = text::taken(rest, n);
    let new: [u8; 16] = text::taken(laid, 0);
    text::write_bytes(rest, &new);
    text::write_bytes(&mut rest[n..], &kept);
    n
}

// The name, laid in bytes of its own first; the bytes of the tape behind it keep their values.
pub fn write_name(rest: &mut [u8], name: &[u8], temporary: bool) -> usize
    requires name_len { length name.now ≡ name_width }
    requires name_in_bounds { length (name_text temporary name.now) ≤ length rest.old }
    ensures { Written (name_text temporary name.now) rest.old rest.new result }
{
    let mut buffer = [0u8; 22];
    let n = lay_name(&mut buffer, name, temporary);
    if n <= 16 && 32 <= rest.len() {
        write_sixteen(rest, &buffer, n)
    } else {
        text::write_bytes(rest, &buffer[..n])
    }
}

// ---- which are the same

// Two names' texts, each with its temporary suffix shown or not.
fn same_shown(a: &[u8], shown: bool, b: &[u8], other: bool) -> bool
    requires { (length a.now ≡ name_width) × (length b.now ≡ name_width) }
    ensures { result ≡ same (name_text shown a.now) (name_text other b.now) }
{
    let mut first = [0u8; 22];
    let mut second = [0u8; 22];
    let m = lay_name(&mut first, a, shown);
    let n = lay_name(&mut second, b, other);
    text::same_text(&first[..m], &second[..n])
}

// The names differ in their first or second byte, neither a blank, so that no text of the one is a text of the other.
#[tactic(auto, using(crate::proofs::Text::apart, crate::proofs::Text::apart_second))]
fn begins_apart(a: &[u8], b: &[u8]) -> bool
    requires { (length a.now ≡ name_width) × (length b.now ≡ name_width) }
    ensures { result ≡ true → same_name a.now b.now ≡ false }
{
    a[0] != b' ' && b[0] != b' ' && (a[0] != b[0] || a[1] != b' ' && b[1] != b' ' && a[1] != b[1])
}

// A name, with or without temporary suffix, equals the other's (refusal 9). Most differ in their first two bytes.
#[tactic(auto, using(crate::proofs::Text::told_apart), unfolding(rules::specs::Names::same_name))]
pub fn same_name(a: &[u8], b: &[u8]) -> bool
    requires { (length a.now ≡ name_width) × (length b.now ≡ name_width) }
    ensures { result ≡ same_name a.now b.now }
{
    !begins_apart(a, b)
        && (same_shown(a, true, b, true)
            || same_shown(a, true, b, false)
            || same_shown(a, false, b, true)
            || same_shown(a, false, b, false))
}
