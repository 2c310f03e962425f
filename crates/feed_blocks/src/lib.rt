// A block of bytes read so far: the lines in it (a line is what a line feed ends), where the next one ends, and what is left
// moved to the front.
#![tactic(auto)]

ghost use Rattle.std.specs.Prelude.{◌≡◌, ◌+◌, ◌≤◌, false, length, drop};
ghost use Rattle.text.specs.Put.{Written};
ghost use Rattle.rules.specs.Sizes.{width};
ghost use Rattle.feed_blocks.specs.Lines.{line_end, ends_at};

use rules::WIDTH;

// A line feed stands in the bytes of a line from `from` on. It looks at all of them, so that they are compared at once.
fn feed_near(block: &[u8], from: usize) -> bool
    requires { from + width ≤ length block.now }
    ensures { result ≡ false → line_end block.now (from + width) ≡ line_end block.now from }
{
    let mut near: u8 = 0;
    for i in from..from + WIDTH {
        if block[i] == b'\n' {
            near = 1;
        }
    }
    near != 0
}

// A place in the same line, near its end: the end itself of a line of its width.
fn line_near(block: &[u8], from: usize) -> usize
    ensures { line_end block.now result ≡ line_end block.now from }
{
    let mut i = from;
    while i < block.len() && block[i] != b'\n' && WIDTH <= block.len() - i && !feed_near(block, i) {
        i += WIDTH;
    }
    i
}

// The place of the first line feed from `from` on, or of the block's end. Kept: `from` may be past the end, where no slice begins.
pub fn line_end(block: &[u8], from: usize) -> usize
    ensures { result ≡ line_end block.now from }
{
    let mut i = line_near(block, from);
    while i < block.len() && block[i] != b'\n' {
        i += 1;
    }
    i
}

// A line feed stands at a place.
#[tactic(auto, unfolding(crate::specs::Lines::ends_at))]
pub fn ends_at(block: &[u8], at: usize) -> bool
    ensures { result ≡ ends_at block.now at }
{
    at < block.len() && block[at] == b'\n'
}

// What follows a place, moved to the block's front: the start of a line whose end is yet to be read.
pub fn move_front(block: &mut [u8], from: usize) -> usize
    ensures { Written (drop from block.old) block.old block.new result }
{
    let start = from.min(block.len());
    block.copy_within(start.., 0);
    block.len() - start
}
