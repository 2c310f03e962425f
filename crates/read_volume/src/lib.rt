// Volumes at the front of a text (document 01, "Reader"): figures and their mark, the shares they stand for, and which units
// and networks explain them.
#![tactic(auto)]

ghost use Rattle.std.specs.Prelude.{◌≡◌, ◌*◌, ◌≤◌, ◌<◌, length, drop};
ghost use Rattle.read_volume.specs.Volume.{is_figure, figure_onto, figures_at, said_by, volume_at, shares_in, hundreds_explained, tens_explained, shares_explained, explains, explains_both, explained};

use read_price::Digits;

// What is shown of a volume: nothing, or figures with a mark.
#[derive(Clone, Copy)]
pub enum Volume {
    Unsaid,
    Hundreds(u64),
    Tens(u64),
    Shares(u64),
}

// A volume and the number of its bytes.
#[derive(Clone, Copy)]
pub struct VolumeRead {
    pub volume: Volume,
    pub used: usize,
}

// ---- volumes

// A digit, or a figure dot before a digit, stands first.
#[tactic(auto, unfolding(crate::specs::Volume::is_figure, text::specs::Reading::is_digit))]
fn begins_figure(s: &[u8]) -> bool
    ensures { result ≡ is_figure s.now }
{
    matches!(s, [b'0'..=b'9', ..] | [b',', b'0'..=b'9', ..])
}

// The value a with the figure c behind it; figure dots are passed over.
#[tactic(auto, unfolding(crate::specs::Volume::figure_onto, text::specs::Pick::pick))]
fn onto(a: u64, c: u8) -> u64
    requires { a < 1000000000000 }
    ensures { result ≡ figure_onto a c }
{
    if c < b'0' {
        a
    } else {
        10 * a + u64::from(c - b'0')
    }
}

// Digits, and figure dots before a digit, passed over: at most twelve bytes.
fn figures_at(s: &[u8]) -> Digits
    ensures { result ≡ figures_at s.now }
{
    let mut value: u64 = 0;
    for i in 0..12 {
        if !begins_figure(&s[i..]) {
            return Digits { count: i, value };
        }
        value = onto(value, s[i]);
    }
    Digits { count: 12, value }
}

// The figures are exactly a full volume's: then the volume, with `mark` bytes behind them.
fn said(s: &[u8], f: Digits, volume: Volume, mark: usize) -> Option<VolumeRead>
    requires { (f.count ≤ length s.now) × (mark ≤ 4) × (f.count ≤ 12) }
    ensures { result ≡ said_by s.now f volume mark }
{
    if 1000000000 <= f.value {
        return None;
    }
    let mut buffer = [0u8; 11];
    let n = print_volume::write_full_volume(&mut buffer, f.value);
    if !text::same_text(&s[..f.count], &buffer[..n]) {
        return None;
    }
    Some(VolumeRead {
        volume,
        used: f.count + mark,
    })
}

// A volume that is shown.
pub fn volume_at(s: &[u8]) -> Option<VolumeRead>
    ensures { result ≡ volume_at s.now }
{
    let f = figures_at(s);
    let rest = &s[f.count..];
    if text::begins(b"s", rest) {
        said(s, f, Volume::Hundreds(f.value), 1)
    } else if text::begins(b"$", rest) {
        said(s, f, Volume::Tens(f.value), 1)
    } else if text::begins(b"SHRS", rest) {
        said(s, f, Volume::Shares(f.value), 4)
    } else {
        None
    }
}

// ---- what explains a volume

// The number of shares that is shown so: hundreds and tens are counted below 10,000.
#[tactic(auto, unfolding(crate::specs::Volume::shares_in, text::specs::Pick::pick))]
pub fn shares_in(v: Volume) -> u64
    ensures { result ≡ shares_in v }
{
    match v {
        Volume::Unsaid => 100,
        Volume::Hundreds(n) if n <= 99 => n * 100,
        Volume::Tens(n) if n <= 999 => n * 10,
        Volume::Hundreds(n) | Volume::Tens(n) | Volume::Shares(n) => n,
    }
}

#[tactic(auto, unfolding(crate::specs::Volume::hundreds_explained, rules::specs::Columns::between))]
fn explains_hundreds(unit: u64, n: u64) -> bool
    ensures { result ≡ hundreds_explained unit n }
{
    unit == 100 && ((2 <= n && n <= 99) || (10000 <= n && n % 100 == 0))
}

#[tactic(auto, unfolding(crate::specs::Volume::tens_explained, rules::specs::Columns::between, rules::specs::Volume::is_round))]
fn explains_tens(network: u64, unit: u64, n: u64) -> bool
    requires { 1 ≤ unit }
    ensures { result ≡ tens_explained network unit n }
{
    network == 65
        && unit < 100
        && ((1 <= n && n <= 999 && n * 10 % unit == 0) || (10000 <= n && n % unit == 0))
}

#[tactic(auto, unfolding(crate::specs::Volume::shares_explained, rules::specs::Volume::is_round))]
fn explains_shares(network: u64, unit: u64, n: u64) -> bool
    requires { 1 ≤ unit }
    ensures { result ≡ shares_explained network unit n }
{
    1 <= n && (n % unit != 0 || (unit < 100 && (network == 66 || (n < 10000 && n % 10 != 0))))
}

// Some volume prints so on the network, with the unit of trading.
// Kept: a network is its letter's number everywhere in the rules.
#[tactic(auto, unfolding(crate::specs::Volume::explains))]
fn explains(network: u64, unit: u64, v: Volume) -> bool
    requires { 1 ≤ unit }
    ensures { result ≡ explains network unit v }
{
    match v {
        Volume::Unsaid => unit == 100,
        Volume::Hundreds(n) => explains_hundreds(unit, n),
        Volume::Tens(n) => explains_tens(network, unit, n),
        Volume::Shares(n) => explains_shares(network, unit, n),
    }
}

#[tactic(auto, unfolding(crate::specs::Volume::explains_both))]
fn explains_both(network: u64, unit: u64, x: Volume, y: Volume) -> bool
    requires { 1 ≤ unit }
    ensures { result ≡ explains_both network unit x y }
{
    explains(network, unit, x) && explains(network, unit, y)
}

// Some unit of trading explains both on the network.
#[tactic(auto, unfolding(crate::specs::Volume::explained))]
pub fn explained(network: u64, x: Volume, y: Volume) -> bool
    ensures { result ≡ explained network x y }
{
    explains_both(network, 100, x, y)
        || explains_both(network, 50, x, y)
        || explains_both(network, 25, x, y)
        || explains_both(network, 10, x, y)
        || explains_both(network, 1, x, y)
}
