// The state after a plan (document 01, "Day lines"): the settings and every byte of both tables.
#![tactic(auto)]

ghost use Rattle.std.specs.Prelude.{◌≡◌};
ghost use Rattle.rules.specs.Day.{opened};
ghost use Rattle.call_print.specs.Print.{SoundPlan};
ghost use Rattle.call_state.specs.After.{settings_after, table_after, names_after};

use call_plan::Plan;
use call_table::{Names, Table};
use rules::{Mode, Settings};

#[tactic(auto, unfolding(rules::specs::Day::opened))]
pub fn opened_on(date: u64) -> Settings
    ensures { result ≡ opened date }
{
    Settings {
        date,
        mode: Mode::Normal,
        level: 5000,
        minimum: 1,
    }
}

#[tactic(auto, unfolding(crate::specs::After::settings_after))]
pub fn settings_after(st: Settings, p: Plan) -> Settings
    ensures { result ≡ settings_after st p }
{
    match p {
        Plan::Open(n) => opened_on(n),
        Plan::Change(m) => Settings { mode: m, ..st },
        Plan::Level(n) => Settings { level: n, ..st },
        Plan::Step(n) => Settings { minimum: n, ..st },
        Plan::Stop(_) | Plan::Enter(_, _) | Plan::Print(_) | Plan::Cancel(_) | Plan::Correct(_) =>
            st,
    }
}

#[tactic(auto, unfolding(crate::specs::After::table_after, call_print::specs::Print::SoundPlan))]
pub fn update_table(table: &mut Table, line: &[u8], p: Plan)
    requires { SoundPlan line.now p }
    ensures { table.new ≡ table_after table.old p }
{
    match p {
        Plan::Open(_) => call_table::clear(table),
        Plan::Enter(i, s) => call_table::store(table, i, s),
        Plan::Print(t) => call_table::store(table, t.place, t.after),
        Plan::Correct(c) => call_table::store(table, c.place, c.after),
        Plan::Stop(_) | Plan::Change(_) | Plan::Level(_) | Plan::Step(_) | Plan::Cancel(_) => {}
    }
}

#[tactic(auto, unfolding(crate::specs::After::names_after, call_print::specs::Print::SoundPlan))]
pub fn update_names(names: &mut Names, line: &[u8], p: Plan)
    requires { SoundPlan line.now p }
    ensures { names.new ≡ names_after names.old line.now p }
{
    match p {
        Plan::Open(_) => call_table::clear_names(names),
        Plan::Enter(i, _) => call_table::store_name(names, i, &line[5..24]),
        _ => {}
    }
}
