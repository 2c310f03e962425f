// Numbers in their columns, looked at all at once: right-justified, blanks before them, no leading zero. Tables say where each
// begins; every column is looked at, so that many are compared at once.
#![tactic(auto)]

ghost use Rattle.std.specs.Prelude.{◌≡◌, ◌+◌, ◌≤◌, length, get_or, drop};
ghost use Rattle.text.specs.Pick.{pick};
ghost use Rattle.line_columns.specs.Columns.{fits, formed, worth_of};

// 1 where column c does not go on a number. `front` is a blank at a number's first column, `most` the highest byte allowed,
// `left` the column before. No test waits for another, so that many columns are compared at once.
#[tactic(auto, unfolding(crate::specs::Columns::fits, crate::specs::Columns::goes_on, rules::specs::Columns::between, text::specs::Pick::pick))]
fn unfit(front: u8, most: u8, left: u8, c: u8) -> u8
    ensures { result ≡ pick (fits front most left c) 0 1 }
{
    let behind = if front == b' ' { b' ' } else { left };
    let low = if behind == b' ' { b'1' } else { b'0' };
    let blank = if behind == b' ' { b' ' } else { b'0' };
    u8::from(((c < low) | (most < c)) & (c != blank))
}

// Every column behind the first goes on a number, by its place in the two tables.
pub fn is_formed(front: &[u8], most: &[u8], columns: &[u8]) -> bool
    requires { (length front.now ≤ 255) × (length most.now ≡ length front.now) × (length columns.now ≡ length front.now + 1) }
    ensures { result ≡ formed front.now most.now (get_or columns.now 0 0) (drop 1 columns.now) }
{
    let mut bad: u8 = 0;
    for i in 0..front.len() {
        bad += unfit(front[i], most[i], columns[i], columns[i + 1]);
    }
    bad == 0
}

// What a field's columns are worth; a blank counts 0.
#[tactic(auto, using(crate::proofs::Numbers::worth_next, crate::proofs::Numbers::worth_end, crate::proofs::Numbers::worth_grows))]
pub fn worth(field: &[u8]) -> u64
    requires { length field.now ≤ 14 }
    ensures { result ≡ worth_of 0 field.now }
{
    let mut acc = 0u64;
    for &c in field {
        acc = acc * 10 + u64::from(c % 16);
    }
    acc
}
