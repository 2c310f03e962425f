// The reader (document 01, "Reader"): the longest normal print at a place of a tape, its undivided name and its facts.
#![tactic(auto)]

ghost use Rattle.std.specs.Prelude.{◌≡◌, ◌+◌, ◌≤◌, leb, length, take, drop, IfSome, IfOk, IfErr};
ghost use Rattle.rules.specs.declared.Refusal.TheVariants.{NoPrint};
ghost use Rattle.rules.specs.Correction.{repeats_name};
ghost use Rattle.rules.specs.Line.{alike};
ghost use Rattle.read_name.specs.Head.{head_at, again_at};
ghost use Rattle.read_side.specs.Side.{side_at};
ghost use Rattle.reader.specs.Read.{trade_at, end_at, cancel_at, second_at, correction_at, print_at};
ghost use Rattle.reader.specs.Told.{length_of, name_from, name_length, name_at, ReadIs};

use read_name::{AgainRead, NameRead};
use read_side::{Head, SideRead};
use read_volume::Volume;
use rules::{Letters, Refusal, Side};

// A trade, cancel or error: the print's length, where in it its name begins and ends, and the side shown (its letters as a
// print shows them: next day as M, cash as K).
#[derive(Clone, Copy)]
pub struct PrintRead {
    pub length: usize,
    pub from: usize,
    pub to: usize,
    pub side: Side,
}

// A correction; the name is the first one.
#[derive(Clone, Copy)]
pub struct CorrectionRead {
    pub length: usize,
    pub from: usize,
    pub to: usize,
    pub original: Side,
    pub correcting: Side,
}

// What stands at a place: an announcement with its length, a trade, cancel, error or correction.
#[derive(Clone, Copy)]
pub enum Print {
    Announcement(usize),
    Trade(PrintRead),
    Cancel(PrintRead),
    Error(PrintRead),
    Correction(CorrectionRead),
}

// ---- what stands behind n bytes

fn head_from(s: &[u8], n: usize, temporary: bool) -> Option<NameRead>
    requires { n ≤ length s.now }
    ensures is { result ≡ head_at temporary (drop n s.now) }
    ensures within { IfSome result (λ h. (n + h.used ≤ length s.now) × (n + h.length ≤ length s.now) × (h.length ≤ 21)) }
{
    read_name::head_at(&s[n..], temporary)
}

// The head of a correcting trade, whose name has k bytes behind the seven of the opening.
fn again_from(s: &[u8], n: usize, k: usize) -> Option<AgainRead>
    requires { (n ≤ length s.now) × (7 + k ≤ length s.now) }
    ensures is { result ≡ again_at (take k (drop 7 s.now)) (drop n s.now) }
    ensures within { IfSome result (λ g. n + g.used ≤ length s.now) }
{
    read_name::again_at(&s[n..], &s[7..7 + k])
}

fn side_from(s: &[u8], n: usize, first: Option<Volume>, head: Head) -> Result<SideRead, Refusal>
    requires { n ≤ length s.now }
    ensures is { result ≡ side_at first head.letters head.a head.b (drop n s.now) }
    ensures within { IfOk result (λ x. n + x.taken.used ≤ length s.now) }
    ensures refused { IfErr result (λ r. r ≡ NoPrint) }
{
    read_side::side_at(first, head, &s[n..])
}

// The first or only side, behind its head.
fn first_side(s: &[u8], n: usize, h: NameRead) -> Result<SideRead, Refusal>
    requires { n ≤ length s.now }
    ensures is { result ≡ side_at None h.letters h.a h.b (drop n s.now) }
    ensures within { IfOk result (λ x. n + x.taken.used ≤ length s.now) }
    ensures refused { IfErr result (λ r. r ≡ NoPrint) }
{
    let head = Head {
        letters: h.letters,
        a: h.a,
        b: h.b,
    };
    side_from(s, n, None, head)
}

// ---- a trade: head and side

// Its temporary suffix may show.
#[tactic(auto, unfolding(crate::specs::Read::trade_at, crate::specs::Read::trade_head, crate::specs::Read::trade_side))]
fn trade_at(s: &[u8]) -> Result<Print, Refusal>
    ensures { result ≡ trade_at s.now }
{
    let h = head_from(s, 0, true).ok_or(Refusal::NoPrint)?;
    let x = first_side(s, h.used, h)?;
    Ok(Print::Trade(PrintRead {
        length: h.used + x.taken.used,
        from: 0,
        to: h.length,
        side: x.taken.side,
    }))
}

// ---- a cancel or an error: an opening of six bytes, head, side and end pair

// The bytes up to and with the end pair, behind n that are used; a closing G pair serves.
#[tactic(auto, unfolding(crate::specs::Read::end_at, text::specs::Pick::pick))]
fn end_at(s: &[u8], n: usize, x: Side) -> Option<usize>
    requires { n ≤ length s.now }
    ensures { result ≡ end_at s.now n x }
{
    if x.letters.g {
        Some(n)
    } else if read_conditions::stands(s, n, b">>") {
        Some(n + 2)
    } else {
        None
    }
}

// Its temporary suffix never shows.
#[tactic(auto, unfolding(crate::specs::Read::cancel_at, crate::specs::Read::cancel_head, crate::specs::Read::cancel_side, crate::specs::Read::ended_by, crate::specs::Read::amended))]
fn cancel_at(s: &[u8], error: bool) -> Result<Print, Refusal>
    requires { 6 ≤ length s.now }
    ensures { result ≡ cancel_at s.now error }
{
    let h = head_from(s, 6, false).ok_or(Refusal::NoPrint)?;
    let at = 6 + h.used;
    let x = first_side(s, at, h)?;
    let side = x.taken.side;
    let length = end_at(s, at + x.taken.used, side).ok_or(Refusal::NoPrint)?;
    let to = 6 + h.length;
    let read = PrintRead {
        length,
        from: 6,
        to,
        side,
    };
    if error {
        Ok(Print::Error(read))
    } else {
        Ok(Print::Cancel(read))
    }
}

// ---- a correction: an opening of seven bytes, the original, WAS., the correcting trade and end pair

// A head of u bytes repeats the name exactly where the letters ask for it.
#[tactic(auto, unfolding(rules::specs::Line::alike, text::specs::Pick::pick))]
fn repeats_duly(x: Letters, u: usize) -> bool
    ensures { result ≡ alike (repeats_name x) (leb 1 u) }
{
    decide_letters::repeats_name(x) == (1 <= u)
}

// The original x ends behind n bytes; one unit of trading and one network explain both sides.
#[tactic(auto, unfolding(crate::specs::Read::second_at, crate::specs::Read::second_head, crate::specs::Read::second_side, crate::specs::Read::corrected_by, text::specs::Pick::pick))]
fn second_at(s: &[u8], h: NameRead, x: SideRead, n: usize) -> Result<Print, Refusal>
    requires { (n ≤ length s.now) × (h.length ≤ 21) × (7 + h.length ≤ length s.now) }
    ensures { result ≡ second_at s.now h x n }
{
    if !read_conditions::stands(s, n, b"WAS.") {
        return Err(Refusal::NoPrint);
    }
    let again = again_from(s, n + 4, h.length).ok_or(Refusal::NoPrint)?;
    let at = n + 4 + again.used;
    let head = Head {
        letters: again.letters,
        a: x.taken.a,
        b: x.taken.b,
    };
    let y = side_from(s, at, Some(x.volume), head)?;
    let correcting = y.taken.side;
    if !repeats_duly(correcting.letters, again.used) {
        return Err(Refusal::NoPrint);
    }
    let length = end_at(s, at + y.taken.used, correcting).ok_or(Refusal::NoPrint)?;
    Ok(Print::Correction(CorrectionRead {
        length,
        from: 7,
        to: 7 + h.length,
        original: x.taken.side,
        correcting,
    }))
}

#[tactic(auto, unfolding(crate::specs::Read::correction_at, crate::specs::Read::correction_head, crate::specs::Read::correction_side))]
fn correction_at(s: &[u8]) -> Result<Print, Refusal>
    requires { 7 ≤ length s.now }
    ensures { result ≡ correction_at s.now }
{
    let h = head_from(s, 7, false).ok_or(Refusal::NoPrint)?;
    let at = 7 + h.used;
    let x = first_side(s, at, h)?;
    second_at(s, h, x, at + x.taken.used)
}

// ---- any print

// At the front of s.
#[tactic(auto, unfolding(crate::specs::Read::print_at, crate::specs::Read::announced_by, text::specs::Pick::pick))]
fn print_at(s: &[u8]) -> Result<Print, Refusal>
    ensures { result ≡ print_at s.now }
{
    if text::begins(b"<<<", s) {
        let length = read_announcement::announcement_at(s).ok_or(Refusal::NoPrint)?;
        Ok(Print::Announcement(length))
    } else if text::begins(b"<<CORR.", s) {
        correction_at(s)
    } else if text::begins(b"<<CXL.", s) {
        cancel_at(s, false)
    } else if text::begins(b"<<ERR.", s) {
        cancel_at(s, true)
    } else {
        trade_at(s)
    }
}

// The print at a place of a tape; past the end there is none (14).
pub fn read_at(tape: &[u8], place: usize) -> Result<Print, Refusal>
    ensures { ReadIs tape.now place result }
{
    if tape.len() <= place {
        return Err(Refusal::NoPrint);
    }
    print_at(&tape[place..])
}

// ---- what an answer tells

// 0 at a refusal.
#[tactic(auto, unfolding(crate::specs::Told::length_of))]
pub fn length_of(r: Result<Print, Refusal>) -> usize
    ensures { result ≡ length_of r }
{
    match r {
        Ok(Print::Announcement(n)) => n,
        Ok(Print::Trade(x) | Print::Cancel(x) | Print::Error(x)) => x.length,
        Ok(Print::Correction(x)) => x.length,
        Err(_) => 0,
    }
}

// Where the name begins, 0 where there is none.
#[tactic(auto, unfolding(crate::specs::Told::name_from))]
fn name_from(r: Result<Print, Refusal>) -> usize
    ensures { result ≡ name_from r }
{
    match r {
        Ok(Print::Trade(x) | Print::Cancel(x) | Print::Error(x)) => x.from,
        Ok(Print::Correction(x)) => x.from,
        Ok(Print::Announcement(_)) | Err(_) => 0,
    }
}

#[tactic(auto, unfolding(crate::specs::Told::name_length))]
fn name_length(r: Result<Print, Refusal>) -> usize
    ensures { result ≡ name_length r }
{
    match r {
        Ok(Print::Trade(x) | Print::Cancel(x) | Print::Error(x)) => x.to.saturating_sub(x.from),
        Ok(Print::Correction(x)) => x.to.saturating_sub(x.from),
        Ok(Print::Announcement(_)) | Err(_) => 0,
    }
}

// The undivided name at a place of a tape, of a correction the first; empty at an announcement and a refusal.
pub fn name_at<'a>(tape: &'a [u8], place: usize) -> &'a [u8]
    ensures { result.now ≡ name_at tape.now place }
{
    if place < tape.len() {
        let r = read_at(tape, place);
        let from = place + name_from(r);
        let to = from + name_length(r);
        &tape[from..to]
    } else {
        &tape[..0]
    }
}
