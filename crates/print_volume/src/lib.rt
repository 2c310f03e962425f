// Volumes as texts (document 01, "Volume"): the length of each and its writer, which is lent the rest of the tape. One
// writer serves all units and both networks.
#![tactic(auto)]

ghost use Rattle.std.specs.Prelude.{◌≡◌, ◌/◌, ◌^◌, ◌≤◌, ◌&&◌, ◌||◌, not, ◌++◌, eqb, ltb, length};
ghost use Rattle.text.specs.Put.{Written};
ghost use Rattle.text.specs.Decimal.{decimal};
ghost use Rattle.rules.specs.Volume.{group, full_volume, is_round, volume_text};
ghost use Rattle.print_volume.specs.Form.{Formed};

// A figure dot and the last three digits of n.
fn write_group(rest: &mut [u8], n: u64) -> usize
    requires { length (group n) ≤ length rest.old }
    ensures { Written (group n) rest.old rest.new result }
{
    let at = text::write_bytes(rest, b",");
    at + text::write_places(&mut rest[at..], n, 3)
}

pub fn full_volume_length(n: u64) -> usize
    ensures { (result ≡ length (full_volume n)) × (result ≤ 28) }
{
    if n < 10000 {
        text::decimal_length(n)
    } else if n < 1000000 {
        text::decimal_length(n / 1000) + 4
    } else {
        text::decimal_length(n / 1000000) + 8
    }
}

// From 10,000 up.
fn write_thousands(rest: &mut [u8], n: u64) -> usize
    requires { length (decimal (n / 1000) ++ group n) ≤ length rest.old }
    ensures { Written (decimal (n / 1000) ++ group n) rest.old rest.new result }
{
    let at = text::write_decimal(rest, n / 1000);
    at + write_group(&mut rest[at..], n)
}

// From a million up.
fn write_millions(rest: &mut [u8], n: u64) -> usize
    requires { length (decimal (n / 1000000) ++ group (n / 1000) ++ group n) ≤ length rest.old }
    ensures { Written (decimal (n / 1000000) ++ group (n / 1000) ++ group n) rest.old rest.new result }
{
    let at = text::write_decimal(rest, n / 1000000);
    let at2 = at + write_group(&mut rest[at..], n / 1000);
    at2 + write_group(&mut rest[at2..], n)
}

#[tactic(auto, unfolding(rules::specs::Volume::full_volume, text::specs::Pick::pick))]
pub fn write_full_volume(rest: &mut [u8], n: u64) -> usize
    requires { length (full_volume n) ≤ length rest.old }
    ensures { Written (full_volume n) rest.old rest.new result }
{
    if n < 10000 {
        text::write_decimal(rest, n)
    } else if n < 1000000 {
        write_thousands(rest, n)
    } else {
        write_millions(rest, n)
    }
}

// ---- how a volume is shown (document 01, "Volume")

// Its figures without their last `cut` digits, then `size` bytes of the marks, from `mark` on.
#[derive(Clone, Copy)]
pub struct Form {
    pub cut: usize,
    pub mark: usize,
    pub size: usize,
}

// Of hundreds, tens and shares, each at a place that four divides.
pub const MARKS: [u8; 12] = *b"s   $   SHRS";

// The five forms: in shares; in hundreds and in tens, counted below 10,000 and in full from there up.
const SHARES: Form = Form {
    cut: 0,
    mark: 8,
    size: 4,
};

const HUNDREDS: Form = Form {
    cut: 2,
    mark: 0,
    size: 1,
};

const TENS: Form = Form {
    cut: 1,
    mark: 4,
    size: 1,
};

const FULL_HUNDREDS: Form = Form { cut: 0, ..HUNDREDS };

const FULL_TENS: Form = Form { cut: 0, ..TENS };

// Not round, or network B with unit below 100.
#[tactic(auto, unfolding(rules::specs::Volume::is_round))]
fn is_in_shares(network: u64, unit: u64, v: u64) -> bool
    requires { 1 ≤ unit }
    ensures { result ≡ (not (is_round unit v) || (eqb network 66 && ltb unit 100)) }
{
    v % unit != 0 || network == 66 && unit < 100
}

// The form of every volume is decided here.
pub fn form_of(network: u64, unit: u64, v: u64) -> Form
    requires { 1 ≤ unit }
    ensures { Formed network unit v result }
{
    if is_in_shares(network, unit, v) {
        SHARES
    } else if v < 10000 {
        if unit == 100 {
            HUNDREDS
        } else if v % 10 == 0 {
            TENS
        } else {
            SHARES
        }
    } else if unit == 100 {
        FULL_HUNDREDS
    } else {
        FULL_TENS
    }
}

// A hundred in hundreds prints nothing.
pub fn is_unsaid(mark: usize, v: u64) -> bool
    ensures { result ≡ (eqb mark 0 && eqb v 100) }
{
    mark == 0 && v == 100
}

// A volume without its last `cut` digits.
fn figures_of(v: u64, cut: usize) -> u64
    requires { cut ≤ 2 }
    ensures { result ≡ v / 10 ^ cut }
{
    match cut {
        0 => v,
        1 => v / 10,
        _ => v / 100,
    }
}

pub fn volume_length(network: u64, unit: u64, v: u64) -> usize
    requires { 1 ≤ unit }
    ensures { (result ≡ length (volume_text network unit v)) × (result ≤ 32) }
{
    let f = form_of(network, unit, v);
    if is_unsaid(f.mark, v) {
        0
    } else {
        full_volume_length(figures_of(v, f.cut)) + f.size
    }
}

pub fn write_volume(rest: &mut [u8], network: u64, unit: u64, v: u64) -> usize
    requires { (1 ≤ unit) × (length (volume_text network unit v) ≤ length rest.old) }
    ensures { Written (volume_text network unit v) rest.old rest.new result }
{
    let f = form_of(network, unit, v);
    if is_unsaid(f.mark, v) {
        return 0;
    }
    let at = write_full_volume(rest, figures_of(v, f.cut));
    at + text::write_bytes(&mut rest[at..], &MARKS[f.mark..f.mark + f.size])
}
