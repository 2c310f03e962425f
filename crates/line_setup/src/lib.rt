// The lines that set up a day, D, S, M, V and P, read from their columns (document 01, Day lines): each field in its
// form, each number within its values, and the line as a value. What needs the day's state is not asked here.
#![tactic(auto)]

ghost use Rattle.std.specs.Prelude.{◌≡◌, length};
ghost use Rattle.rules.specs.Sizes.{width};
ghost use Rattle.line_setup.specs.Setup.{date_read, listing_read, mode_read, level_read, step_read};

use rules::{Line, Listing, Mode, Parsed, WIDTH};

// ---- the kinds; each line has the width of one

#[tactic(auto, unfolding(rules::specs::Line::date_formed, rules::specs::Line::date_ranged))]
pub fn read_date(line: &[u8]) -> Parsed
    requires { length line.now ≡ width }
    ensures { result ≡ date_read line.now }
{
    let date = line_numbers::read_number(&line[1..9]);
    let n = line_numbers::value_of(date);
    Parsed {
        formed: line_numbers::is_number(date) && line_fields::is_blank_part(&line[9..WIDTH]),
        ranged: line_numbers::is_date(n),
        line: Line::Dated(n),
    }
}

#[tactic(auto, unfolding(rules::specs::Line::mode_formed))]
pub fn read_mode(line: &[u8]) -> Parsed
    requires { length line.now ≡ width }
    ensures { result ≡ mode_read line.now }
{
    Parsed {
        formed: line_fields::is_mode(line[1]) && line_fields::is_blank_part(&line[2..WIDTH]),
        ranged: true,
        line: Line::Moded(Mode::of_letter(u64::from(line[1]))),
    }
}

#[tactic(auto, unfolding(rules::specs::Line::level_formed, rules::specs::Line::level_ranged))]
pub fn read_level(line: &[u8]) -> Parsed
    requires { length line.now ≡ width }
    ensures { result ≡ level_read line.now }
{
    let level = line_numbers::read_number(&line[1..7]);
    let n = line_numbers::value_of(level);
    Parsed {
        formed: line_numbers::is_number(level) && line_fields::is_blank_part(&line[7..WIDTH]),
        ranged: line_numbers::is_between(5000, 100000, n),
        line: Line::Leveled(n),
    }
}

#[tactic(auto, unfolding(rules::specs::Line::step_formed, rules::specs::Line::step_ranged))]
pub fn read_step(line: &[u8]) -> Parsed
    requires { length line.now ≡ width }
    ensures { result ≡ step_read line.now }
{
    let step = line_numbers::read_number(&line[1..4]);
    let n = line_numbers::value_of(step);
    Parsed {
        formed: line_numbers::is_number(step) && line_fields::is_blank_part(&line[4..WIDTH]),
        ranged: line_numbers::is_between(1, 100, n),
        line: Line::Stepped(n),
    }
}

#[tactic(auto, unfolding(rules::specs::Line::listing_formed, rules::specs::Line::listing_ranged, rules::specs::Line::listing_of))]
pub fn read_listing(line: &[u8]) -> Parsed
    requires { length line.now ≡ width }
    ensures { result ≡ listing_read line.now }
{
    let number = line_numbers::read_number(&line[1..5]);
    let unit = line_numbers::read_number(&line[24..27]);
    let network = line[27];
    let market = line[28];
    let first = line_numbers::read_number(&line[29..30]);
    let listing = Listing {
        number: line_numbers::value_of(number),
        unit: line_numbers::value_of(unit),
        network: u64::from(network),
        market: u64::from(market),
        first: line_numbers::value_of(first),
        lawful: name_suffix::lawful_name(u64::from(network), &line[5..24]),
    };
    Parsed {
        formed: line_numbers::is_number(number)
            && line_fields::is_root(&line[5..11])
            && line_numbers::is_number(unit)
            && line_fields::is_network(network)
            && line_fields::is_market(market)
            && line_numbers::is_number(first)
            && line_fields::is_blank_part(&line[30..WIDTH]),
        ranged: line_numbers::is_security_number(listing.number)
            && line_numbers::is_unit(listing.unit)
            && listing.first <= 1,
        line: Line::Listed(listing),
    }
}
