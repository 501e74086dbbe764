// What stands in a table's contents and hubs, but for the lists: the first part of "well formed". Contents, what is unused, then
// each hub's record with its store and its owner. Every place follows from `ts`, the number of words in a task record, and the
// contracts speak of every layout that has it.
// Not here: the lists, the task records, the whole (crate wellformed).
#![tactic(auto)]

ghost use Rattle.std.specs.Prelude.{◌<◌, ◌≤◌, eqb, get_or, length, ◌&&◌, true, ◌≡◌};
ghost use Rattle.bodies.specs.Bodies.{Used, body_test, kind_test, marks_test, owner_of, owner_test, store_test};
ghost use Rattle.lists.specs.Lists.{all_zero};
ghost use Rattle.records.specs.Records.{Table};
ghost use Rattle.rules.proofs.Layouts.{Laid};
ghost use Rattle.rules.specs.Table.{Layout, store_part};
ghost use Rattle.rules.specs.WellFormed.{contents_right, for_all, unused_zero, within, zero_from};

use records::{
    COUNT, HUB_SIZE, HUBS, HubNo, LIMIT, MOST_RECORDS, START, STATE, TASKS, TASKS_AT, TaskNo,
    TaskSize,
};
use rules::Kind;

// A table of an edition whose counts are right, so that every place that is read is in it.
#[derive(Clone, Copy, Debug)]
pub struct Counted<'a> {
    pub words: &'a [u32],
    pub ts: TaskSize,
    pub ghost used: { Used ts.words words.now },
}

// "contents: edition 1, tasks T, hubs H, then where each body starts"; the edition is how many words a message has
pub fn contents_right(t: &[u32], ts: TaskSize) -> bool
    requires { Table ts.words t.now }
    ensures { (L : Layout) → Laid ts.words L → result ≡ contents_right L t.now }
{
    (t[0] == records::width_of(ts.words) as u32)
        & ((t[TASKS] <= MOST_RECORDS)
            & ((t[HUBS] <= MOST_RECORDS)
                & ((t[3] == TASKS_AT as u32)
                    & ((t[4] == records::hubs_at(ts.words) as u32)
                        & ((t[5] == records::ready_at(ts.words) as u32)
                            & ((t[6] == records::waits_at(ts.words, HubNo(0)) as u32)
                                & (t[7] == records::stores_at(ts.words) as u32)))))))
}

// Words a to b - 1 are 0.
fn zero_from(t: &[u32], a: usize, b: usize) -> bool
    requires { (a ≤ b) × (b ≤ length t.now) }
    ensures { result ≡ zero_from a b t.now }
{
    lists::zeros(&t[a..b])
}

// "Everything unused is 0"
pub fn unused_zero(t: &Counted<'_>) -> bool
    ensures { (L : Layout) → Laid t.now.ts.words L → result ≡ unused_zero L t.now.words.now }
{
    let n = t.words[TASKS] as usize;
    let m = t.words[HUBS] as usize;
    let hubs = records::hubs_at(t.ts.words);
    let stores = records::stores_at(t.ts.words);
    zero_from(t.words, TASKS_AT + n * t.ts.words, hubs)
        & (zero_from(t.words, hubs + m * HUB_SIZE, records::ready_at(t.ts.words))
            & (zero_from(t.words, records::waits_at(t.ts.words, HubNo(m)), stores)
                & zero_from(
                    t.words,
                    stores + m * records::store_size(t.ts),
                    records::table_size(t.ts),
                )))
}

// The marks of hub h's blocks, as many as its limit: each 0 or 1, and count of them 0.
fn marks_right(t: &Counted<'_>, h: usize, count: u32, limit: u32) -> bool
    requires h_bound { h < get_or t.now.words.now 2 0 }
    requires limit_bound { limit ≤ 8 }
    ensures { (L : Layout) → Laid t.now.ts.words L → result ≡ marks_test L t.now.words.now h count limit }
{
    let v = records::width_of(t.ts.words);
    let at = records::store_at(t.ts, HubNo(h));
    let mut free = 0;
    for b in 0..limit as usize {
        let m = messages::message(t.words, at + b * v, v);
        if 1 < m {
            return false;
        }
        free += 1 - m;
    }
    count as u64 == free
}

// Memory: "limit 1 to 8 blocks numbered from 0, start = limit, count = free blocks".
fn memory_right(t: &Counted<'_>, h: usize, count: u32, limit: u32, start: u32) -> bool
    requires h_bound { h < get_or t.now.words.now 2 0 }
    ensures { (L : Layout) → Laid t.now.ts.words L
        → result ≡ (within 1 8 limit && (eqb start limit && marks_test L t.now.words.now h count limit)) }
{
    if (1 <= limit) & (limit <= rules::MOST_HELD) {
        if start == limit {
            return marks_right(t, h, count, limit);
        }
    }
    false
}

// The kinds table: count, limit and start of hub h.
fn kind_right(t: &Counted<'_>, h: usize) -> bool
    requires h_bound { h < get_or t.now.words.now 2 0 }
    ensures { (L : Layout) → Laid t.now.ts.words L → result ≡ kind_test L t.now.words.now h }
{
    let b = records::hubs_at(t.ts.words) + h * HUB_SIZE;
    let count = t.words[b + COUNT];
    let limit = t.words[b + LIMIT];
    let start = t.words[b + START];
    let Some(kind) = Kind::of(t.words[b]) else {
        return false;
    };
    match kind {
        Kind::Event | Kind::Board => (count <= 1) & ((limit == 1) & (start == 0)),
        Kind::Semaphore => (count <= limit)
            & (((1 <= limit) & (limit <= rules::MOST_COUNT)) & (start <= limit)),
        Kind::Port => (count == 0) & ((limit == 0) & (start == 0)),
        Kind::Fifo => (count <= limit)
            & (((1 <= limit) & (limit <= rules::MOST_HELD)) & (start == 0)),
        Kind::Resource => (count <= t.words[TASKS]) & ((limit == 1) & (start == 0)),
        Kind::Memory => memory_right(t, h, count, limit, start),
    }
}

// "A FIFO's store holds its words, oldest first, then zeros. Other stores are 0." A Board's: "the word in its store's first
// place", else 0. A Memory hub's: its marks, "the rest 0". So each is 0 behind the messages that it holds.
fn store_right(t: &Counted<'_>, h: usize) -> bool
    requires h_bound { h < get_or t.now.words.now 2 0 }
    requires h_value { (L : Layout) → Laid t.now.ts.words L → kind_test L t.now.words.now h ≡ true }
    ensures { (L : Layout) → Laid t.now.ts.words L → result ≡ store_test L t.now.words.now h }
{
    let at = records::store_at(t.ts, HubNo(h));
    let store = &t.words[at..at + records::store_size(t.ts)];
    let b = records::hubs_at(t.ts.words) + h * HUB_SIZE;
    let n = rules::stored(t.words[b], t.words[b + COUNT], t.words[b + LIMIT]) as usize;
    lists::zeros(&store[n * records::width_of(t.ts.words)..])
}

// Hub h's store is nothing but zeros.
fn store_blank(t: &Counted<'_>, h: usize) -> bool
    requires h_bound { h < get_or t.now.words.now 2 0 }
    ensures { (L : Layout) → Laid t.now.ts.words L → result ≡ all_zero (store_part L t.now.words.now h) }
{
    let at = records::store_at(t.ts, HubNo(h));
    lists::zeros(&t.words[at..at + records::store_size(t.ts)])
}

// Most stores are blank, which is right at every kind: only of the others the kind and the count are asked for.
fn store_sound(t: &Counted<'_>, h: usize) -> bool
    requires h_bound { h < get_or t.now.words.now 2 0 }
    requires h_value { (L : Layout) → Laid t.now.ts.words L → kind_test L t.now.words.now h ≡ true }
    ensures { (L : Layout) → Laid t.now.ts.words L → result ≡ store_test L t.now.words.now h }
{
    if store_blank(t, h) {
        return true;
    }
    store_right(t, h)
}

// The entry that may not stand in a hub's list, else 0. A word of the table, compared with the list's entries as they stand.
pub fn owner_of(kind: u32, count: u32) -> u32
    ensures { result ≡ owner_of kind count }
{
    if Kind::of(kind) == Some(Kind::Resource) {
        count
    } else {
        0
    }
}

// M-101: hub h is no Resource whose owner is inactive.
fn owner_right(t: &Counted<'_>, h: usize) -> bool
    requires h_bound { h < get_or t.now.words.now 2 0 }
    ensures { (L : Layout) → Laid t.now.ts.words L → result ≡ owner_test L t.now.words.now h }
{
    let b = records::hubs_at(t.ts.words) + h * HUB_SIZE;
    let owner = owner_of(t.words[b], t.words[b + COUNT]);
    if owner == 0 {
        return true;
    }
    if owner > t.words[TASKS] {
        return false;
    }
    t.words[records::task_at(t.ts.words, TaskNo((owner - 1) as usize)) + STATE] != rules::INACTIVE
}

// Hub h but for its list: its record, its store and its owner.
fn body_right(t: &Counted<'_>, h: usize) -> bool
    requires h_bound { h < get_or t.now.words.now 2 0 }
    ensures { (L : Layout) → Laid t.now.ts.words L → result ≡ body_test L t.now.words.now h }
{
    if !kind_right(t, h) {
        return false;
    }
    if !store_sound(t, h) {
        return false;
    }
    owner_right(t, h)
}

// All hubs in use, but for their lists.
pub fn bodies_right(t: &Counted<'_>) -> bool
    ensures { (L : Layout) → Laid t.now.ts.words L
        → result ≡ for_all (get_or t.now.words.now 2 0) (body_test L t.now.words.now) }
{
    (0..t.words[HUBS] as usize).all(|h| body_right(t, h))
}
