// The engine and the reader for C and Rust: functions on numbers and lent memory, with no `requires`. `exports_c` is the static
// library over them, which C and Rust link.
#![tactic(auto)]

ghost use Rattle.std.specs.Prelude.{◌≡◌};
ghost use Rattle.rules.specs.Day.{opened};
ghost use Rattle.rules.specs.Shown.{shown_by};
ghost use Rattle.call_table.specs.Rows.{day_of};
ghost use Rattle.facts_numbers.specs.Numbers.{entry_numbers};
ghost use Rattle.exports.specs.Numbers.{letter_of, numbers_of, settings_of, left_by, TakenNumbers};
ghost use Rattle.reader.specs.Told.{answer_number};
ghost use Rattle.exports.specs.Reading.{ReadNumbers};

use call_table::{Names, Table};
use engine::Outcome;
use reader::Print;
use rules::{Mode, Refusal, Settings};

// ---- settings as four numbers

fn letter_of(m: Mode) -> u64
    ensures { result ≡ letter_of m }
{
    match m {
        Mode::Normal => 78,
        Mode::Dvd => 68,
        Mode::Rpo => 82,
        Mode::Mpv => 80,
    }
}

fn settings_of(numbers: &[u64; 4]) -> Settings
    ensures { result ≡ settings_of numbers.now }
{
    Settings {
        date: numbers[0],
        mode: Mode::of_letter(numbers[1]),
        level: numbers[2],
        minimum: numbers[3],
    }
}

fn numbers_of(st: Settings) -> [u64; 4]
    ensures { result ≡ numbers_of st }
{
    [st.date, letter_of(st.mode), st.level, st.minimum]
}

// Settings are written only where the line is accepted.
fn leave(numbers: &mut [u64; 4], o: Outcome, st: Settings)
    ensures { numbers.new ≡ left_by o numbers.old st }
{
    if o.is_ok() {
        *numbers = numbers_of(st);
    }
}

fn read_answer(r: Result<Print, Refusal>) -> u64
    ensures { result ≡ answer_number r }
{
    match r {
        Ok(_) => 0,
        Err(x) => u64::from(x),
    }
}

// ---- the exported functions

// The settings of a fresh state: no D accepted yet.
pub fn lekphimon_fresh(settings: &mut [u64; 4])
    ensures { settings.new ≡ numbers_of (opened 0) }
{
    *settings = numbers_of(engine::fresh());
}

// One call: the number of the refusal, 0 where the line is accepted, and in `count` the length of the print, 0 at a refusal.
// A refused line leaves settings, tables and tape as they were.
pub fn lekphimon_take_line(
    settings: &mut [u64; 4],
    table: &mut Table,
    names: &mut Names,
    line: &[u8],
    tape: &mut [u8],
    count: &mut u64,
) -> u64
    ensures { TakenNumbers settings.old table.old names.old line.now tape.old settings.new table.new names.new tape.new count.new result }
{
    let st = settings_of(settings);
    let answer = engine::take_line(st, table, names, line, tape);
    leave(settings, answer.outcome, answer.settings);
    *count = engine::count_of(answer.outcome) as u64;
    engine::answer_of(answer.outcome)
}

// What a call of `lekphimon_take_line` with this line and a tape of `room` bytes would add to the shown facts: the thirteen
// numbers of `entry_numbers` (facts_numbers): security, temporary suffix shown, kind, and of each side price, letters, days,
// previous last and volume. Nothing of the day moves.
pub fn lekphimon_shown(
    settings: &[u64; 4],
    table: &Table,
    names: &Names,
    line: &[u8],
    room: usize,
    numbers: &mut [u64; 13],
)
    ensures { numbers.new ≡ entry_numbers (shown_by (day_of (settings_of settings.now) table.now names.now) (record { line = line.now; room = room })) }
{
    let st = settings_of(settings);
    let entry = facts_entry::entry_of(st, table, names, line, room);
    *numbers = facts_numbers::numbers_of(entry);
}

// The reader at a place: 0 where a print stands there, 14 where none does; its fourteen numbers are those of `numbers_at`
// (read_numbers): length, the name's place in the print and its length, kind, and of each side price, letters, days, previous
// last and volume.
pub fn lekphimon_read_at(tape: &[u8], place: usize, numbers: &mut [u64; 14]) -> u64
    ensures { ReadNumbers tape.now place numbers.new result }
{
    let r = reader::read_at(tape, place);
    *numbers = read_numbers::numbers_of(tape, place, r);
    read_answer(r)
}
