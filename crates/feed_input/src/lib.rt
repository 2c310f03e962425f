// Where a program stands in its input, which it reads in blocks. No input or output here: a program reads behind what is held
// and hands on the answer.
//
//     take_in   the answer of a read: bytes came, none came and the input is at its end, or the read failed
//     go_on     so many bytes are used; where a read comes next, what is left of them goes to the block's front
#![tactic(auto)]

ghost use Rattle.std.specs.Prelude.{◌≡◌, ◌+◌, ◌≤◌, length};
ghost use Rattle.text.specs.Put.{put};
ghost use Rattle.feed_input.specs.Place.{opening, came_of, taken_in, held_from, front_from, GoesOn};

// The bytes of the block from `at` to `have` are held: read, and not yet used. `asks`: a read comes next. `ended`: nothing more
// comes, since the input is at its end or, `failed`, since a read failed.
#[derive(Clone, Copy)]
pub struct Place {
    pub at: usize,
    pub have: usize,
    pub asks: bool,
    pub ended: bool,
    pub failed: bool,
}

// A read that failed.
#[derive(Clone, Copy, Debug, PartialEq, Eq, Drop)]
pub struct ReadFailed;

pub fn opened() -> Place
    ensures { result ≡ opening }
{
    Place {
        at: 0,
        have: 0,
        asks: true,
        ended: false,
        failed: false,
    }
}

// How many bytes came, where there was room for so many.
#[tactic(auto, unfolding(crate::specs::Place::came_of))]
fn came(answer: Result<usize, ReadFailed>, room: usize) -> usize
    ensures { result ≡ came_of answer room }
{
    answer.unwrap_or(0).min(room)
}

// The answer of a read into the block behind what is held, where one was asked for. What is held is taken within the block.
#[tactic(auto, unfolding(crate::specs::Place::taken_in, crate::specs::Place::is_failure, text::specs::Pick::pick), using(crate::proofs::Places::came_most))]
pub fn take_in(p: Place, answer: Result<usize, ReadFailed>, size: usize) -> Place
    ensures { result ≡ taken_in p answer size }
{
    let have = p.have.min(size);
    let at = p.at.min(have);
    if !p.asks {
        return Place { at, have, ..p };
    }
    let n = came(answer, size - have);
    Place {
        at,
        have: have + n,
        asks: false,
        ended: n == 0,
        failed: answer.is_err(),
    }
}

// What is held behind `at` goes to the front.
fn to_front(p: Place, at: usize, block: &mut [u8]) -> Place
    requires { (at ≤ p.have) × (p.have ≤ length block.old) }
    ensures { (result ≡ front_from p at) × (block.new ≡ put (held_from p at block.old) block.old) }
{
    let have = feed_blocks::move_front(&mut block[..p.have], at);
    Place {
        at: 0,
        have,
        asks: true,
        ..p
    }
}

// After a step that used `n` of the held bytes; `reads` is whether a read comes next.
#[tactic(auto, unfolding(crate::specs::Place::gone_on, crate::specs::Place::block_on, text::specs::Pick::pick))]
pub fn go_on(p: Place, n: usize, reads: bool, block: &mut [u8]) -> Place
    requires { (p.at + n ≤ p.have) × (p.have ≤ length block.old) }
    ensures { GoesOn reads p n block.old block.new result }
{
    let at = p.at + n;
    if reads {
        return to_front(p, at, block);
    }
    Place {
        at,
        asks: false,
        ..p
    }
}
