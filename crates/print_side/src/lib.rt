// One side of a trade, cancel, error or correction as a text (document 01, "Trades by mode"): its length and its writer,
// which is lent the rest of the tape. The same for every kind, unit and network.
#![tactic(auto)]

ghost use Rattle.std.specs.Prelude.{◌≡◌, ◌+◌, ◌≤◌, length, false, []};
ghost use Rattle.text.specs.Pick.{opt};
ghost use Rattle.text.specs.Put.{Written};
ghost use Rattle.rules.specs.Names.{name_text};
ghost use Rattle.rules.specs.Volume.{volume_text};
ghost use Rattle.rules.specs.Side.{head_text, tail_text, side_text};
ghost use Rattle.rules.specs.Conditions.{after_name};
ghost use Rattle.rules.specs.Sizes.{name_width};
ghost use Rattle.line_owed.specs.Owed.{SideColumns};

use rules::{Letters, PriceForm, Side};

// How a side is shown: the network and the unit of trading that its volume is written for, the form of its price, whether its
// volume is shown.
#[derive(Clone, Copy)]
pub struct Look {
    pub network: u64,
    pub unit: u64,
    pub form: PriceForm,
    pub shows: bool,
}

// The volume, where it is shown.
#[tactic(auto, unfolding(text::specs::Pick::opt))]
fn shown_volume_length(look: Look, v: u64) -> usize
    requires { 1 ≤ look.unit }
    ensures { (result ≡ length (opt look.shows (volume_text look.network look.unit v))) × (result ≤ 32) }
{
    if look.shows {
        print_volume::volume_length(look.network, look.unit, v)
    } else {
        0
    }
}

// The name and the conditions after it.
#[tactic(auto, using(text::proofs::Writing::length_joined), unfolding(rules::specs::Side::head_text))]
fn head_length(name: &[u8], temporary: bool, x: Letters) -> usize
    requires { length name.now ≡ name_width }
    ensures { (result ≡ length (head_text (name_text temporary name.now) x)) × (result ≤ 42) }
{
    name_text::name_length(name, temporary) + print_conditions::after_name_length(x)
}

// `marked`: some letter stands in the line.
#[tactic(auto, using(text::proofs::Writing::rooms, crate::proofs::Columns::head_alone), unfolding(rules::specs::Side::head_text))]
fn write_head(rest: &mut [u8], name: &[u8], temporary: bool, marked: bool, x: Letters) -> usize
    requires { (length name.now ≡ name_width) × (marked ≡ false → after_name x ≡ []) × (length (head_text (name_text temporary name.now) x) ≤ length rest.old) }
    ensures { Written (head_text (name_text temporary name.now) x) rest.old rest.new result }
{
    let at = name_text::write_name(rest, name, temporary);
    if marked {
        at + print_conditions::write_after_name(&mut rest[at..], x)
    } else {
        at
    }
}

// The conditions after the price and at the end.
#[tactic(auto, using(text::proofs::Writing::length_joined), unfolding(rules::specs::Side::tail_text))]
fn tail_length(x: Side) -> usize
    requires { x.previous.d ≤ 8 }
    ensures { (result ≡ length (tail_text x)) × (result ≤ 80) }
{
    print_conditions::after_price_length(x.letters) + print_ending::at_end_length(x)
}

#[tactic(auto, using(text::proofs::Writing::rooms, crate::proofs::Columns::no_tail_written), unfolding(rules::specs::Side::tail_text))]
fn write_tail(rest: &mut [u8], marked: bool, x: Side) -> usize
    requires { (x.previous.d ≤ 8) × (marked ≡ false → tail_text x ≡ []) × (length (tail_text x) ≤ length rest.old) }
    ensures { Written (tail_text x) rest.old rest.new result }
{
    if marked {
        let at = print_conditions::write_after_price(rest, x.letters);
        at + print_ending::write_at_end(&mut rest[at..], x)
    } else {
        0
    }
}

// A whole side: name, volume, price, conditions. The name is the columns of one, its temporary suffix shown or not.
#[tactic(auto, using(text::proofs::Writing::length_joined), unfolding(rules::specs::Side::side_text))]
pub fn side_length(name: &[u8], temporary: bool, look: Look, x: Side) -> usize
    requires { (length name.now ≡ name_width) × (1 ≤ look.unit) × (x.price.d ≤ 8) × (x.previous.d ≤ 8) }
    ensures { (result ≡ length (side_text (name_text temporary name.now) look.network look.unit look.form look.shows x)) × (result ≤ 183) }
{
    head_length(name, temporary, x.letters)
        + shown_volume_length(look, x.volume)
        + print_price::price_length(look.form, x.price)
        + tail_length(x)
}

// `part` are the columns that the side stands in: volume and price are written from them, and where they hold no letter no
// condition is asked for.
pub fn write_side(
    rest: &mut [u8],
    name: &[u8],
    temporary: bool,
    look: Look,
    x: Side,
    part: &[u8],
) -> usize
    requires { (length name.now ≡ name_width) × (1 ≤ look.unit) × SideColumns part.now x × (length (side_text (name_text temporary name.now) look.network look.unit look.form look.shows x) ≤ length rest.old) }
    ensures { Written (side_text (name_text temporary name.now) look.network look.unit look.form look.shows x) rest.old rest.new result }
{
    let marked = part[24] != b' ';
    let at = write_head(rest, name, temporary, marked, x.letters);
    let at2 = at
        + print_amounts::write_volume(
            &mut rest[at..],
            part,
            look.shows,
            look.network,
            look.unit,
            x.volume,
        );
    let at3 = at2 + print_amounts::write_price(&mut rest[at2..], &part[9..46], look.form, x.price);
    at3 + write_tail(&mut rest[at3..], marked, x)
}
