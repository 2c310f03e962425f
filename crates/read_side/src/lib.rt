// A side of a normal print behind its head, at the front of a part of a tape (document 01, "Reader"): volume, price and
// conditions, with the networks on which one line could print it. One reader for T, C, X and E.
#![tactic(auto)]

ghost use Rattle.std.specs.Prelude.{◌≡◌, ◌&&◌, ◌≤◌, length, IfErr};
ghost use Rattle.rules.specs.declared.Refusal.TheVariants.{NoPrint};
ghost use Rattle.read_volume.specs.Volume.{explained};
ghost use Rattle.read_side.specs.Side.{head_count, beside, side_with, side_at};

use read_conditions::Taken;
use read_volume::Volume;
use rules::{Letters, Price, Refusal, Side};

// What a head says of its side: the letters after the name, and whether the name is that of a security on network A and B.
#[derive(Clone, Copy)]
pub struct Head {
    pub letters: Letters,
    pub a: bool,
    pub b: bool,
}

// A side: what is shown of its volume, and its values with the bytes used and the networks that are left.
#[derive(Clone, Copy)]
pub struct SideRead {
    pub volume: Volume,
    pub taken: Taken,
}

// ---- parts

// The letters that stand after a name.
#[tactic(auto, unfolding(crate::specs::Side::head_count, text::specs::Pick::pick))]
fn head_count(x: Letters) -> u64
    ensures { result ≡ head_count x }
{
    u64::from(x.o) + (u64::from(x.s) + (u64::from(x.l) + u64::from(x.m)))
}

// The volume that one unit of trading must explain beside v: that read before on the same line, the original's, or v.
#[tactic(auto, unfolding(crate::specs::Side::beside))]
fn volume_beside(first: Option<Volume>, v: Volume) -> Volume
    ensures { result ≡ beside first v }
{
    first.unwrap_or(v)
}

// The head allows the network, and it explains both volumes.
fn allowed(allows: bool, network: u64, x: Volume, v: Volume) -> bool
    ensures { result ≡ (allows && explained network x v) }
{
    allows && read_volume::explained(network, x, v)
}

// ---- the side

// With the volume v in its first bytes.
#[tactic(auto, unfolding(crate::specs::Side::side_with, crate::specs::Side::sided_by, text::specs::Pick::pick))]
fn side_with(
    first: Option<Volume>,
    head: Head,
    part: &[u8],
    v: Volume,
    used: usize,
) -> Result<SideRead, Refusal>
    requires { used ≤ length part.now }
    ensures is { result ≡ side_with first head.letters head.a head.b part.now v used }
    ensures refused { IfErr result (λ r. r ≡ NoPrint) }
{
    let x = volume_beside(first, v);
    let a = allowed(head.a, 65, x, v);
    let b = allowed(head.b, 66, x, v);
    if !a && !b {
        return Err(Refusal::NoPrint);
    }
    let p = read_price::price_at(&part[used..]).ok_or(Refusal::NoPrint)?;
    let side = Side {
        volume: read_volume::shares_in(v),
        price: p.price,
        letters: head.letters,
        days: 0,
        previous: Price { n: 0, d: 0 },
    };
    let bare = Taken {
        side,
        used: used + p.used,
        count: head_count(head.letters),
        a,
        b,
    };
    Ok(SideRead {
        volume: v,
        taken: read_conditions::tail_at(part, bare),
    })
}

// With a volume shown; what is refused so, for whatever part, is tried once more without.
#[tactic(auto, unfolding(crate::specs::Side::side_at, crate::specs::Side::said_side, crate::specs::Side::or_else))]
pub fn side_at(first: Option<Volume>, head: Head, part: &[u8]) -> Result<SideRead, Refusal>
    ensures is { result ≡ side_at first head.letters head.a head.b part.now }
    ensures refused { IfErr result (λ r. r ≡ NoPrint) }
{
    if let Some(v) = read_volume::volume_at(part) {
        if let Ok(x) = side_with(first, head, part, v.volume, v.used) {
            return Ok(x);
        }
    }
    side_with(first, head, part, Volume::Unsaid, 0)
}
