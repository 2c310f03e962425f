// The lent tables of a day: what PLACES securities have by numbers, a row a place, and their names.
#![tactic(auto)]

ghost use Rattle.std.specs.Prelude.{◌≡◌, ◌<◌, ◌*◌, ◌≤◌, ◌+◌, replicate, length, take, drop};
ghost use Rattle.text.specs.Put.{Written};
ghost use Rattle.rules.specs.Sizes.{security_places, name_width};
ghost use Rattle.call_table.specs.Sizes.{table_size, names_size};
ghost use Rattle.call_table.specs.Rows.{issue_in, printed_in, range_in, counts_in, issue_numbers, printed_numbers, range_numbers, counts_numbers, stored_from, row, with_row, name_of, with_name};

use rules::{Counts, Issue, NAME_WIDTH, PLACES, Printed, Range, Security};

// Where in a row the numbers of each part of a security begin, and how many there are in all.
const ISSUE: usize = 0;

const PRINTED: usize = ISSUE + 4;

const RANGE: usize = PRINTED + 1;

const COUNTS: usize = RANGE + 3;

pub const ROW: usize = COUNTS + 3;

// What the securities have by numbers, a row a place.
pub const TABLE_SIZE: usize = PLACES * ROW;

pub type Table = [u64; TABLE_SIZE];

// Their names, one a place.
pub const NAMES_SIZE: usize = PLACES * NAME_WIDTH;

pub type Names = [u8; NAMES_SIZE];

// ---- the parts of a security: each is loaded and stored here, its numbers from `b` on
// Kept: a loader and a storer a part, since a trait over the four would say the same once more and no shorter.

fn load_issue(table: &Table, b: usize) -> Issue
    requires { b + 4 ≤ table_size }
    ensures { result ≡ issue_in table.now b }
{
    Issue {
        unit: table[b + 0],
        network: table[b + 1],
        market: table[b + 2],
        first: table[b + 3],
    }
}

fn store_issue(table: &mut Table, b: usize, x: Issue)
    requires { b + 4 ≤ table_size }
    ensures { table.new ≡ stored_from table.old b 0 (issue_numbers x) }
{
    table[b + 0] = x.unit;
    table[b + 1] = x.network;
    table[b + 2] = x.market;
    table[b + 3] = x.first;
}

fn load_printed(table: &Table, b: usize) -> Printed
    requires { b + 1 ≤ table_size }
    ensures { result ≡ printed_in table.now b }
{
    Printed {
        price: table[b + 0],
    }
}

fn store_printed(table: &mut Table, b: usize, x: Printed)
    requires { b + 1 ≤ table_size }
    ensures { table.new ≡ stored_from table.old b 0 (printed_numbers x) }
{
    table[b + 0] = x.price;
}

fn load_range(table: &Table, b: usize) -> Range
    requires { b + 3 ≤ table_size }
    ensures { result ≡ range_in table.now b }
{
    Range {
        high: table[b + 0],
        low: table[b + 1],
        last: table[b + 2],
    }
}

fn store_range(table: &mut Table, b: usize, x: Range)
    requires { b + 3 ≤ table_size }
    ensures { table.new ≡ stored_from table.old b 0 (range_numbers x) }
{
    table[b + 0] = x.high;
    table[b + 1] = x.low;
    table[b + 2] = x.last;
}

fn load_counts(table: &Table, b: usize) -> Counts
    requires { b + 3 ≤ table_size }
    ensures { result ≡ counts_in table.now b }
{
    Counts {
        trades: table[b + 0],
        qualified: table[b + 1],
        primaries: table[b + 2],
    }
}

fn store_counts(table: &mut Table, b: usize, x: Counts)
    requires { b + 3 ≤ table_size }
    ensures { table.new ≡ stored_from table.old b 0 (counts_numbers x) }
{
    table[b + 0] = x.trades;
    table[b + 1] = x.qualified;
    table[b + 2] = x.primaries;
}

// ---- a security

pub fn load(table: &Table, i: usize) -> Security
    requires { i < security_places }
    ensures { result ≡ row table.now i }
{
    let b = i * ROW;
    Security {
        issue: load_issue(table, b + ISSUE),
        printed: load_printed(table, b + PRINTED),
        range: load_range(table, b + RANGE),
        counts: load_counts(table, b + COUNTS),
    }
}

pub fn store(table: &mut Table, i: usize, s: Security)
    requires { i < security_places }
    ensures { table.new ≡ with_row table.old i s }
{
    let b = i * ROW;
    store_issue(table, b + ISSUE, s.issue);
    store_printed(table, b + PRINTED, s.printed);
    store_range(table, b + RANGE, s.range);
    store_counts(table, b + COUNTS, s.counts);
}

#[tactic(auto, unfolding(crate::specs::Rows::with_name))]
pub fn store_name(names: &mut Names, i: usize, name: &[u8])
    requires { (i < security_places) × (length name.now ≡ name_width) }
    ensures { names.new ≡ with_name names.old (i * name_width) name.now }
{
    let at = i * NAME_WIDTH;
    names[at..at + name.len()].copy_from_slice(name);
}

// A D line clears both.
pub fn clear(table: &mut Table)
    ensures { table.new ≡ replicate table_size 0 }
{
    *table = [0u64; TABLE_SIZE];
}

pub fn clear_names(names: &mut Names)
    ensures { names.new ≡ replicate names_size 0 }
{
    *names = [0u8; NAMES_SIZE];
}

// The columns of the name at a place, a part of the lent table.
pub fn name_at<'a>(names: &'a Names, place: usize) -> &'a [u8]
    requires { place < security_places }
    ensures { (result.now ≡ name_of names.now place) × (length result.now ≡ name_width) }
{
    let from = place * NAME_WIDTH;
    &names[from..from + NAME_WIDTH]
}
