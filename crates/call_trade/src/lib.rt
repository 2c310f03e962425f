// A T line that is good by itself, of an entered security, carried out (document 01, "Trades by mode"): whether it prints, the
// security after it, its print on the tape. The one way of every accepted trade, with letters or without.
#![tactic(auto)]

ghost use Rattle.std.specs.Prelude.{◌≡◌, false, ◌≤◌, ◌<◌, leb, length};
ghost use Rattle.rules.specs.Sizes.{name_width, security_places};
ghost use Rattle.rules.specs.Names.{name_text};
ghost use Rattle.rules.specs.Side.{side_text};
ghost use Rattle.rules.specs.Conditions.{has_rule, on_network};
ghost use Rattle.rules.specs.Qualifying.{for_range, for_last};
ghost use Rattle.call_table.specs.Rows.{row, name_of};
ghost use Rattle.line_owed.specs.Owed.{OwedSide, SideColumns};
ghost use Rattle.line_trade.specs.TradeLine.{no_letters, side_in};
ghost use Rattle.call_trade.specs.Traded.{Decided, Fitted, Carried};

use call_table::{Names, Table};
use line_trade::TradeLine;
use print_side::Look;
use rules::{LONGEST_PRINT, Letters, Price, Security, Settings, Side};

// ---- letters: nothing is asked of them where none stands in the line (`marked` is false)

#[tactic(auto, unfolding(rules::specs::Conditions::on_network, line_trade::specs::TradeLine::no_letters))]
fn is_on_network(marked: bool, network: u64, x: Letters) -> bool
    requires { marked ≡ false → x ≡ no_letters }
    ensures { result ≡ on_network network x }
{
    !marked || decide_letters::on_network(network, x)
}

#[tactic(auto, unfolding(rules::specs::Qualifying::for_range, rules::specs::Qualifying::for_neither, line_trade::specs::TradeLine::no_letters))]
fn for_range(marked: bool, x: Letters) -> bool
    requires { marked ≡ false → x ≡ no_letters }
    ensures { result ≡ for_range x }
{
    !marked || decide_letters::for_range(x)
}

#[tactic(auto, unfolding(rules::specs::Qualifying::for_last, rules::specs::Qualifying::for_range, rules::specs::Qualifying::for_neither, rules::specs::Qualifying::for_range_only, line_trade::specs::TradeLine::no_letters))]
fn for_last(marked: bool, x: Letters) -> bool
    requires { marked ≡ false → x ≡ no_letters }
    ensures { result ≡ for_last x }
{
    !marked || decide_letters::for_last(x)
}

#[tactic(auto, unfolding(rules::specs::Conditions::has_rule, line_trade::specs::TradeLine::no_letters))]
fn has_rule(marked: bool, x: Letters) -> bool
    requires { marked ≡ false → x ≡ no_letters }
    ensures { result ≡ has_rule x }
{
    marked && decide_letters::has_rule(x)
}

// ---- the trade

// The tape has room for the print; for any, where it has LONGEST_PRINT bytes.
#[tactic(auto, using(crate::proofs::Carried::room_any))]
fn has_room(room: usize, name: &[u8], temporary: bool, look: Look, x: Side) -> bool
    requires { (length name.now ≡ name_width) × (1 ≤ look.unit) × OwedSide x }
    ensures { result ≡ leb (length (side_text (name_text temporary name.now) look.network look.unit look.form look.shows x)) room }
{
    LONGEST_PRINT <= room || print_side::side_length(name, temporary, look, x) <= room
}

// A trade that prints: `value` is its price in units, `after` the security after it.
fn print_out(
    st: Settings,
    table: &mut Table,
    names: &Names,
    place: usize,
    s: Security,
    t: TradeLine,
    part: &[u8],
    tape: &mut [u8],
    value: u64,
    lasts: bool,
    rule: bool,
    after: Security,
) -> Option<usize>
    requires { (place < security_places) × (1 ≤ s.issue.unit) × SideColumns part.now (side_in t) × Decided st s t.market (side_in t) value lasts rule after }
    ensures { Fitted st s (name_of names.now place) place t.market (side_in t) table.old tape.old table.new tape.new result }
{
    let form = decide_trade::form_by(st, s, t.market, value / 100000000);
    let shows = decide_trade::shows_by(st, s, t.market, t.volume, lasts, rule);
    let look = Look {
        network: s.issue.network,
        unit: s.issue.unit,
        form,
        shows,
    };
    let temporary = decide_letters::shows_temporary(s);
    let name = call_table::name_at(names, place);
    let x = Side {
        volume: t.volume,
        price: Price { n: t.n, d: t.d },
        letters: t.letters,
        days: t.days,
        previous: Price { n: t.m, d: t.e },
    };
    if !has_room(tape.len(), name, temporary, look, x) {
        return None;
    }
    call_table::store(table, place, after);
    let k = print_side::write_side(tape, name, temporary, look, x, part);
    Some(k)
}

fn decide(
    st: Settings,
    table: &mut Table,
    names: &Names,
    place: usize,
    s: Security,
    t: TradeLine,
    part: &[u8],
    tape: &mut [u8],
    marked: bool,
) -> Option<usize>
    requires { (place < security_places) × (1 ≤ s.issue.unit) × SideColumns part.now (side_in t) × (marked ≡ false → t.letters ≡ no_letters) }
    ensures { Fitted st s (name_of names.now place) place t.market (side_in t) table.old tape.old table.new tape.new result }
{
    let value = print_price::in_units(Price { n: t.n, d: t.d });
    let ranges = for_range(marked, t.letters);
    let lasts = for_last(marked, t.letters);
    let rule = has_rule(marked, t.letters);
    let prints = decide_trade::prints_by(st, s, t.market, t.volume, value, ranges, lasts, rule);
    let after = decide_trade::after_by(s, t.market, value, prints, ranges, lasts);
    if !prints {
        call_table::store(table, place, after);
        return Some(0);
    }
    print_out(
        st, table, names, place, s, t, part, tape, value, lasts, rule, after,
    )
}

// `s` is the security at its place, `part` the columns that the side stands in. The length of the print is answered, 0 where it
// is left off; None where J or G are on the wrong network (10) or the print is longer than the lent tape (13), and then nothing
// is done.
pub fn carry_out(
    st: Settings,
    table: &mut Table,
    names: &Names,
    place: usize,
    s: Security,
    t: TradeLine,
    part: &[u8],
    tape: &mut [u8],
) -> Option<usize>
    requires { (place < security_places) × (1 ≤ s.issue.unit) × SideColumns part.now (side_in t) }
    ensures { Carried st s (name_of names.now place) place t.market (side_in t) table.old tape.old table.new tape.new result }
{
    let marked = part[24] != b' ';
    if !is_on_network(marked, s.issue.network, t.letters) {
        return None;
    }
    decide(st, table, names, place, s, t, part, tape, marked)
}
