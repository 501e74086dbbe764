// The table's words by name: where each body stands, the two kinds of number, and a record's words read and written, in a
// lent slice of any length. What an edition fixes follows from one value, the number of words in a task record: `ts`, 8 in
// edition 1, 9 in edition 2. What lies past the end of a slice reads as 0 and is not written.
// Not here: what the words of a record mean (crate rules), and which records are in use.
#![tactic(auto)]

ghost use Rattle.std.specs.Prelude.{◌*◌, ◌+◌, ◌-◌, ◌<◌, ◌≤◌, get_or, length, set, ◌≡◌};
ghost use Rattle.records.specs.Records.{Table, RowAt, TaskRead, hub_at, hub_words, hubs_at, ready_at, store_size, stores_at, table_size, task_size_of, task_words, waits_at, width};
ghost use Rattle.std.proofs.lemmas.List.Edits.{sets};

mod entries;

pub use entries::{entry, entry_of};

// "The table is a lent slice of exactly 600 words", and its task records have 8: edition 1
pub const TABLE_SIZE: usize = 600;

pub const TASK_SIZE: TaskSize = TaskSize { words: 8 };

// edition 2 (M-105): "744 words in all", and "Task records have 9 words"
pub const TABLE_SIZE_TWO: usize = 744;

pub const TASK_SIZE_TWO: TaskSize = TaskSize { words: 9 };

// "contents: edition 1, tasks T, hubs H": the words that hold T and H
pub const TASKS: usize = 1;

pub const HUBS: usize = 2;

// "then where each body starts": the task records first, right behind the contents; the functions below have the others
pub const TASKS_AT: usize = 8;

// How many words a hub record and a list have, and how many messages a store.
pub const HUB_SIZE: usize = 4;

pub const LIST_SIZE: usize = 16;

pub const STORE_MESSAGES: usize = 8;

// "16 task records", and as many hub records
pub const MOST_RECORDS: u32 = 16;

// The words of a task record, in the paper's order; the answer stands behind the message.
pub const STATE: usize = 0;

pub const SUSPENDED: usize = 1;

pub const PRIORITY: usize = 2;

pub const HUB: usize = 3;

pub const TICKS: usize = 4;

pub const SIDE: usize = 5;

pub const WORD: usize = 6;

// And those of a hub record.
pub const KIND: usize = 0;

pub const COUNT: usize = 1;

pub const LIMIT: usize = 2;

pub const START: usize = 3;

// How many words a task record has: that alone tells one edition from the other.
#[derive(Clone, Copy, Debug, PartialEq, Eq)]
pub struct TaskSize {
    pub words: usize,
    pub ghost low: { 8 ≤ words },
    pub ghost high: { words ≤ 9 },
}

// A table of an edition, to be read: its words, and how many of them a task record has.
#[derive(Clone, Copy, Debug)]
pub struct TableView<'a> {
    pub words: &'a [u32],
    pub ts: TaskSize,
    pub ghost table: { Table ts.words words.now },
}

// "A task number and a hub number are two kinds of number and are never taken for each other."
#[derive(Clone, Copy, Debug, PartialEq, Eq)]
pub struct TaskNo(pub usize);

#[derive(Clone, Copy, Debug, PartialEq, Eq)]
pub struct HubNo(pub usize);

// The "Task record", in the paper's order: a word for each field but the message, which is one number whatever the edition.
#[derive(Clone, Copy, Debug, PartialEq, Eq)]
pub struct TaskRecord {
    pub state: u32,
    pub suspended: u32,
    pub priority: u32,
    pub hub: u32,
    pub ticks: u32,
    pub side: u32,
    pub word: u64,
    pub answer: u32,
}

// The "Hub record", likewise.
#[derive(Clone, Copy, Debug, PartialEq, Eq)]
pub struct HubRecord {
    pub kind: u32,
    pub count: u32,
    pub limit: u32,
    pub start: u32,
}

// The words from word p on, as many as t has room for. In a table they end inside it: one test then, and one move of all.
pub fn set_words(t: &mut [u32], p: usize, words: &[u32])
    requires { p ≤ 281474976710655 }
    ensures { t.new ≡ sets t.old p words.now }
{
    let end = p + words.len();
    if end <= t.len() {
        t[p..end].copy_from_slice(words);
    } else if p < t.len() {
        let room = t.len() - p;
        t[p..].copy_from_slice(&words[..room]);
    }
}

// Where the i-th record of `size` words starts, if the first starts at word `at`. The bounds keep the product from wrapping, and
// leave room for a field's number; the first 16 records lie inside 16.
fn record_at(at: usize, size: usize, i: usize) -> usize
    requires at_bound { at ≤ 65535 }
    requires size_bound { size ≤ 65535 }
    requires i_bound { i ≤ 4294967295 }
    ensures place { result ≡ at + i * size }
    ensures low { result ≤ 281474976710655 }
    ensures inside { i < 16 → result + size ≤ at + 16 * size }
{
    at + i * size
}

// How many words a message has: as many as its edition's number says. The other seven words of a task record have one each.
pub fn width_of(ts: usize) -> usize
    requires { 8 ≤ ts }
    ensures { result ≡ width ts }
{
    ts - 7
}

// Where the hub records start, behind the contents and 16 task records.
pub fn hubs_at(ts: usize) -> usize
    requires { ts ≤ 9 }
    ensures { result ≡ hubs_at ts }
{
    TASKS_AT + 16 * ts
}

// Where the ready list starts, behind 16 hub records.
pub fn ready_at(ts: usize) -> usize
    requires { ts ≤ 9 }
    ensures { result ≡ ready_at ts }
{
    hubs_at(ts) + 16 * HUB_SIZE
}

// Where hub h's waiting list starts: they follow the ready list.
pub fn waits_at(ts: usize, h: HubNo) -> usize
    requires ts_bound { ts ≤ 9 }
    requires h_bound { h.0 ≤ 4294967295 }
    ensures { result ≡ waits_at ts + h.0 * 16 }
{
    let n = h.0;
    ready_at(ts) + LIST_SIZE + n * LIST_SIZE
}

// Where the stores start, behind 16 waiting lists.
pub fn stores_at(ts: usize) -> usize
    requires { ts ≤ 9 }
    ensures { result ≡ stores_at ts }
{
    waits_at(ts, HubNo(16))
}

// How many words a store has.
pub fn store_size(ts: TaskSize) -> usize
    ensures { result ≡ store_size ts.words }
{
    STORE_MESSAGES * width_of(ts.words)
}

// How many words a table has.
pub fn table_size(ts: TaskSize) -> usize
    ensures { result ≡ table_size ts.words }
{
    stores_at(ts.words) + 16 * store_size(ts)
}

// How many words a task record has in a table of n words: the edition is the one that fits the length.
pub fn task_size(n: usize) -> TaskSize
    ensures { result.words ≡ task_size_of n }
{
    if n == table_size(TASK_SIZE_TWO) {
        TASK_SIZE_TWO
    } else {
        TASK_SIZE
    }
}

// Where the record of task i starts.
pub fn task_at(ts: usize, i: TaskNo) -> usize
    requires ts_bound { ts ≤ 9 }
    requires i_bound { i.0 < 16 }
    ensures { RowAt 8 ts i.0 result }
{
    record_at(TASKS_AT, ts, i.0)
}

// Where hub h's store starts.
pub fn store_at(ts: TaskSize, h: HubNo) -> usize
    requires h_bound { h.0 < 16 }
    ensures { RowAt (stores_at ts.words) (store_size ts.words) h.0 result }
{
    record_at(stores_at(ts.words), store_size(ts), h.0)
}

// Word f of the i-th record of `size` words, where the records start at word `at`.
pub fn field(t: &[u32], at: usize, size: usize, i: usize, f: usize) -> u32
    requires at_bound { at ≤ 65535 }
    requires size_bound { size ≤ 65535 }
    requires i_bound { i ≤ 4294967295 }
    requires f_bound { f ≤ 65535 }
    ensures { result ≡ get_or t.now (at + i * size + f) 0 }
{
    let p = record_at(at, size, i) + f;
    lists::word(t, p)
}

// The record of task i.
pub fn task(t: &[u32], ts: TaskSize, i: TaskNo) -> TaskRecord
    requires i_bound { i.0 ≤ 4294967295 }
    ensures { TaskRead ts.words t.now i.0 result }
{
    let n = i.0;
    let w = width_of(ts.words);
    let p = record_at(TASKS_AT, ts.words, n) + WORD;
    TaskRecord {
        state: field(t, TASKS_AT, ts.words, n, STATE),
        suspended: field(t, TASKS_AT, ts.words, n, SUSPENDED),
        priority: field(t, TASKS_AT, ts.words, n, PRIORITY),
        hub: field(t, TASKS_AT, ts.words, n, HUB),
        ticks: field(t, TASKS_AT, ts.words, n, TICKS),
        side: field(t, TASKS_AT, ts.words, n, SIDE),
        word: messages::message(t, p, w),
        answer: lists::word(t, p + w),
    }
}

// The record of task i, written whole.
pub fn set_task(t: &mut [u32], ts: TaskSize, i: TaskNo, x: TaskRecord)
    requires i_bound { i.0 ≤ 4294967295 }
    ensures { t.new ≡ sets t.old (8 + i.0 * ts.words) (task_words ts.words x) }
{
    let n = i.0;
    let w = width_of(ts.words);
    let words = [x.state, x.suspended, x.priority, x.hub, x.ticks, x.side];
    let p = record_at(TASKS_AT, ts.words, n);
    set_words(t, p, &words);
    messages::set_message(t, p + WORD, w, x.word);
    lists::set_word(t, p + WORD + w, x.answer);
}

// The record of hub h, where the hub records start at word `at`.
pub fn hub(t: &[u32], at: usize, h: HubNo) -> HubRecord
    requires at_bound { at ≤ 65535 }
    requires h_bound { h.0 ≤ 4294967295 }
    ensures { result ≡ hub_at at t.now h.0 }
{
    let n = h.0;
    HubRecord {
        kind: field(t, at, HUB_SIZE, n, KIND),
        count: field(t, at, HUB_SIZE, n, COUNT),
        limit: field(t, at, HUB_SIZE, n, LIMIT),
        start: field(t, at, HUB_SIZE, n, START),
    }
}

// The record of hub h, written whole.
pub fn set_hub(t: &mut [u32], at: usize, h: HubNo, x: HubRecord)
    requires at_bound { at ≤ 65535 }
    requires h_bound { h.0 ≤ 4294967295 }
    ensures { t.new ≡ sets t.old (at + h.0 * 4) (hub_words x) }
{
    let n = h.0;
    let words = [x.kind, x.count, x.limit, x.start];
    let p = record_at(at, HUB_SIZE, n);
    set_words(t, p, &words);
}

// The count of hub h: the one word of a hub record that a request changes.
pub fn set_count(t: &mut [u32], at: usize, h: HubNo, count: u32)
    requires at_bound { at ≤ 65535 }
    requires h_bound { h.0 ≤ 4294967295 }
    ensures { t.new ≡ set t.old (at + h.0 * 4 + 1) count }
{
    let n = h.0;
    let p = record_at(at, HUB_SIZE, n) + COUNT;
    lists::set_word(t, p, count);
}
