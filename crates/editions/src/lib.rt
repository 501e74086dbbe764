// M-105: a table moved from edition 1 to edition 2, and back, into a second lent slice. The destination is written from its
// first word to its last; both moves are one function over any two editions, whose numbers are how many words their task
// records have. The source is only read.
// Not here: when a table is well formed (crate wellformed), a record's words (crate records).
#![tactic(auto)]

ghost use Rattle.std.specs.Prelude.{◌≤◌, length, ◌≡◌};
ghost use Rattle.editions.specs.Editions.{Below, contents_from, stores_from, tasks_from};
ghost use Rattle.rules.specs.Editions.{Moved, down_refusal, high_zero, move_refusal, moved_down, moved_up, up_refusal, zeros_at};
ghost use Rattle.messages.specs.Messages.{messages};
ghost use Rattle.records.specs.Records.{Table, stores_at, width};
ghost use Rattle.rules.proofs.Layouts.{Laid};
ghost use Rattle.rules.specs.Reply.{refusal_number};
ghost use Rattle.rules.specs.Table.{Layout, State, words};
ghost use Rattle.std.proofs.lemmas.List.Edits.{sets};

use records::{HubNo, TaskNo, TaskSize};
use rules::Refusal;

// Where the high word stands in a task record of edition 2, and in a message.
const HIGH_IN_TASK: usize = 7;

const HIGH: usize = 1;

// How many messages 16 stores have.
const MESSAGES: usize = 128;

// The contents: the destination's edition and places, the source's T and H.
fn set_contents(from: &[u32], to: &mut [u32], ts: TaskSize)
    ensures { to.new ≡ sets to.old 0 (contents_from ts.words from.now) }
{
    let words = [
        records::width_of(ts.words) as u32,
        lists::word(from, records::TASKS),
        lists::word(from, records::HUBS),
        records::TASKS_AT as u32,
        records::hubs_at(ts.words) as u32,
        records::ready_at(ts.words) as u32,
        records::waits_at(ts.words, HubNo(0)) as u32,
        records::stores_at(ts.words) as u32,
    ];
    records::set_words(to, 0, &words);
}

// All 16 task records: one that is not in use is 0 in both editions.
fn set_tasks(from: &[u32], fs: TaskSize, to: &mut [u32], ts: TaskSize)
    ensures { to.new ≡ sets to.old 8 (tasks_from fs.words ts.words from.now) }
{
    for i in 0..16 {
        let x = records::task(from, fs, TaskNo(i));
        records::set_task(to, ts, TaskNo(i), x);
    }
}

// The messages of all 16 stores: a place that holds none is 0 in both editions.
fn set_stores(from: &[u32], fs: TaskSize, to: &mut [u32], ts: TaskSize)
    ensures { to.new ≡ sets to.old (stores_at ts.words) (stores_from fs.words ts.words from.now) }
{
    let a = records::stores_at(fs.words);
    let v = records::width_of(fs.words);
    let b = records::stores_at(ts.words);
    let w = records::width_of(ts.words);
    for k in 0..MESSAGES {
        let m = messages::message(from, a + k * v, v);
        messages::set_message(to, b + k * w, w, m);
    }
}

// The whole destination. Hub records and lists are the same words in each edition.
fn copy(from: &[u32], fs: TaskSize, to: &mut [u32], ts: TaskSize)
    requires table { Table fs.words from.now }
    requires table_2 { Table ts.words to.old }
    ensures { (L M : Layout) (s : State) → Laid fs.words L → Laid ts.words M → Below (messages (width ts.words)) s
        → from.now ≡ words L s → to.new ≡ words M s }
{
    set_contents(from, to, ts);
    set_tasks(from, fs, to, ts);
    let a = records::hubs_at(fs.words);
    let b = records::stores_at(fs.words);
    records::set_words(to, records::hubs_at(ts.words), &from[a..b]);
    set_stores(from, fs, to, ts);
}

// Refusals 1 and 2, where the destination has `room` words.
fn refusal_of(from: &[u32], fs: TaskSize, room: usize, ts: TaskSize) -> Result<(), Refusal>
    ensures { (L M : Layout) → Laid fs.words L → Laid ts.words M
        → refusal_number result ≡ move_refusal L M from.now room 0 }
{
    rules::need(room == records::table_size(ts), Refusal::WrongLength)?;
    refusals::for_table(from, fs)
}

// Word f of n records of `size` words is 0 in each, where the first starts at word `at`.
fn zeros_at(t: &[u32], at: usize, size: usize, n: usize, f: usize) -> bool
    requires at_bound { at ≤ 65535 }
    requires size_bound { size ≤ 65535 }
    requires n_bound { n ≤ 65535 }
    requires f_bound { f ≤ 65535 }
    ensures { result ≡ zeros_at at size n f t.now }
{
    // tried: `all` over a closure, whose equation with the definition didn't close
    for i in 0..n {
        if records::field(t, at, size, i, f) != 0 {
            return false;
        }
    }
    true
}

// Every high word of a table of edition 2 is 0: those of 16 task records, used or not, and those of all messages in the stores.
fn high_zero(t: &[u32]) -> bool
    ensures { result ≡ high_zero t.now }
{
    let stores = records::stores_at(records::TASK_SIZE_TWO.words);
    zeros_at(
        t,
        records::TASKS_AT,
        records::TASK_SIZE_TWO.words,
        16,
        HIGH_IN_TASK,
    ) & zeros_at(t, stores, 2, MESSAGES, HIGH)
}

// "One call moves a table from edition 1 to 2 with high words 0."
pub fn move_up(from: &[u32], to: &mut [u32]) -> Result<(), Refusal>
    ensures { Moved (up_refusal from.now (length to.old)) (moved_up from.now)
        to.old (refusal_number result) to.new }
{
    refusal_of(from, records::TASK_SIZE, to.len(), records::TASK_SIZE_TWO)?;
    copy(from, records::TASK_SIZE, to, records::TASK_SIZE_TWO);
    Ok(())
}

// "One moves it back, refused with new number 9 exactly if some high word isn't 0."
pub fn move_down(from: &[u32], to: &mut [u32]) -> Result<(), Refusal>
    ensures { Moved (down_refusal from.now (length to.old)) (moved_down from.now)
        to.old (refusal_number result) to.new }
{
    refusal_of(from, records::TASK_SIZE_TWO, to.len(), records::TASK_SIZE)?;
    rules::need(high_zero(from), Refusal::HighWord)?;
    copy(from, records::TASK_SIZE_TWO, to, records::TASK_SIZE);
    Ok(())
}
