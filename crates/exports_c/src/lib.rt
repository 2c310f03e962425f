// The functions of `exports` for C and Rust, as a static library: a crate is a library or a static library, and `exports` is the
// library, on which theorems stand. Each function calls the one of its name there and promises the same. An array of fixed size
// passes as a pointer, a slice as a pointer and its length; what is lent for writing overlaps nothing else that is lent.
#![tactic(auto)]

ghost use Rattle.std.specs.Prelude.{◌≡◌};
ghost use Rattle.rules.specs.Day.{opened};
ghost use Rattle.rules.specs.Shown.{shown_by};
ghost use Rattle.call_table.specs.Rows.{day_of};
ghost use Rattle.facts_numbers.specs.Numbers.{entry_numbers};
ghost use Rattle.exports.specs.Numbers.{numbers_of, settings_of, TakenNumbers};
ghost use Rattle.exports.specs.Reading.{ReadNumbers};

use call_table::{Names, Table};

#[unsafe(no_mangle)]
pub extern "C" fn lekphimon_fresh(settings: &mut [u64; 4])
    ensures { settings.new ≡ numbers_of (opened 0) }
{
    exports::lekphimon_fresh(settings)
}

#[unsafe(no_mangle)]
pub extern "C" fn lekphimon_take_line(
    settings: &mut [u64; 4],
    table: &mut Table,
    names: &mut Names,
    line: &[u8],
    tape: &mut [u8],
    count: &mut u64,
) -> u64
    ensures { TakenNumbers settings.old table.old names.old line.now tape.old settings.new table.new names.new tape.new count.new result }
{
    exports::lekphimon_take_line(settings, table, names, line, tape, count)
}

#[unsafe(no_mangle)]
pub extern "C" fn lekphimon_shown(
    settings: &[u64; 4],
    table: &Table,
    names: &Names,
    line: &[u8],
    room: usize,
    numbers: &mut [u64; 13],
)
    ensures { numbers.new ≡ entry_numbers (shown_by (day_of (settings_of settings.now) table.now names.now) (record { line = line.now; room = room })) }
{
    exports::lekphimon_shown(settings, table, names, line, room, numbers)
}

#[unsafe(no_mangle)]
pub extern "C" fn lekphimon_read_at(tape: &[u8], place: usize, numbers: &mut [u64; 14]) -> u64
    ensures { ReadNumbers tape.now place numbers.new result }
{
    exports::lekphimon_read_at(tape, place, numbers)
}
