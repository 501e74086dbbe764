// What a row of two tables side by side says: its mark, its title, and its cell of either table. Each function writes its text by crate
// texts' writer: what has no room is left out.
// Not here: which rows there are, and which are marked (crate rows); the line that these make (crate sidebyside).
#![tactic(auto)]

ghost use Rattle.std.specs.Prelude.{◌<◌};
ghost use Rattle.rows.specs.Rows.{row_number};
ghost use Rattle.rowtexts.specs.RowTexts.{cell, mark_text, title, used_text};
ghost use Rattle.texts.specs.Texts.{Wrote};

use hubtexts::Store;
use records::{HubNo, TaskNo};
use rows::{Row, View};
use texts::Writer;

// The mark, which is a row's first field.
#[tactic(auto, unfolding(crate::specs::RowTexts::mark_text))]
pub fn put_mark(out: &mut Writer, m: bool)
    ensures { Wrote out.old (mark_text m) out.new }
{
    out.bytes(if m { b"!\t" } else { b"=\t" });
}

// Subject and what: the second and third field of a row's line.
#[tactic(auto, unfolding(crate::specs::RowTexts::title))]
pub fn put_title(out: &mut Writer, row: Row)
    ensures { Wrote out.old (title row) out.new }
{
    match row {
        Row::Contents => out.bytes(b"table\tcontents\t"),
        Row::ReadyList => out.bytes(b"table\tready list\t"),
        Row::State(i) => out.between(b"task ", i, b"\tstate\t"),
        Row::Priority(i) => out.between(b"task ", i, b"\tpriority\t"),
        Row::Answer(i) => out.between(b"task ", i, b"\tanswer\t"),
        Row::Kind(h) => out.between(b"hub ", h, b"\tkind\t"),
        Row::Holds(h) => out.between(b"hub ", h, b"\tholds\t"),
        Row::Waiting(h) => out.between(b"hub ", h, b"\twaiting\t"),
    }
}

// What a hub holds, from its record and its store.
#[tactic(auto, unfolding(crate::specs::RowTexts::used_text))]
fn put_store(out: &mut Writer, table: &View, h: u32)
    requires { h < 16 }
    ensures { Wrote out.old (used_text table.now.ts.words table.now.words.now table.now.runs (Row.Holds h)) out.new }
{
    let ts = table.ts;
    let store = Store {
        words: table.words,
        from: records::store_at(ts, HubNo(h as usize)),
        w: records::width_of(ts.words),
    };
    let x = records::hub(table.words, records::hubs_at(ts.words), HubNo(h as usize));
    hubtexts::put_holds(out, &store, x);
}

// A task's priority, and by the table's keys its effective one.
fn put_priorities(out: &mut Writer, table: &View, i: u32)
    ensures { Wrote out.old (used_text table.now.ts.words table.now.words.now table.now.runs (Row.Priority i)) out.new }
{
    let own = records::field(
        table.words,
        records::TASKS_AT,
        table.ts.words,
        i as usize,
        records::PRIORITY,
    );
    let key = lists::word(&table.keys, i as usize);
    texts::put_priority(out, own, key);
}

// A cell of a row whose subject the table uses.
#[tactic(auto, unfolding(crate::specs::RowTexts::used_text))]
fn put_used(out: &mut Writer, table: &View, row: Row)
    requires { row_number row < 16 }
    ensures { Wrote out.old (used_text table.now.ts.words table.now.words.now table.now.runs row) out.new }
{
    let t = table.words;
    let ts = table.ts;
    match row {
        Row::Contents => texts::put_contents(out, t),
        Row::ReadyList => texts::put_tasks(out, t, records::ready_at(ts.words), table.runs),
        Row::State(i) => texts::put_state(out, records::task(t, ts, TaskNo(i as usize))),
        Row::Priority(i) => put_priorities(out, table, i),
        Row::Answer(i) => texts::put_answer(out, records::task(t, ts, TaskNo(i as usize))),
        Row::Kind(h) => {
            let x = records::hub(t, records::hubs_at(ts.words), HubNo(h as usize));
            hubtexts::put_kind(out, x);
        }
        Row::Holds(h) => put_store(out, table, h),
        Row::Waiting(h) => {
            texts::put_tasks(out, t, records::waits_at(ts.words, HubNo(h as usize)), 0)
        }
    }
}

// A cell of a row.
#[tactic(auto, unfolding(crate::specs::RowTexts::cell))]
pub fn put_cell(out: &mut Writer, table: &View, row: Row)
    requires { row_number row < 16 }
    ensures { Wrote out.old (cell table.now.ts.words table.now.words.now table.now.runs row) out.new }
{
    if table.uses(row) {
        put_used(out, table, row);
    } else {
        out.bytes(b"not in use");
    }
}
