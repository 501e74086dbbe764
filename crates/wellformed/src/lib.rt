// Whether a table of words is well formed: refusals 1 and 2. One pass: contents, what is unused, the ready list, each hub
// with its store (crate bodies) and its list, and the task records. A walk of a list marks the tasks that it meets, and the
// records say which of them must have been met once. The order of the lists comes last (M-108): it goes by effective priority,
// which is asked for only where the lists are known to be exact. Every place follows from `ts`, the number of words in a task
// record, and the contracts speak of every layout that has it.
#![tactic(auto)]

ghost use Rattle.std.specs.Prelude.{◌<◌, ◌≤◌, eqb, leb, get_or, length, ◌&&◌, true, ◌≡◌};
ghost use Rattle.bodies.specs.Bodies.{Used};
ghost use Rattle.lists.specs.Lists.{numbers, occ};
ghost use Rattle.rules.proofs.Layouts.{Laid};
ghost use Rattle.rules.specs.Table.{Layout, Ready, State, Task, Waiting, read};
ghost use Rattle.rules.specs.WellFormed.{for_all, stage_right, well_formed_in};
ghost use Rattle.wellformed.specs.Walks.{ExactTable, Formed, Marked, Marks, Row, exact_in, hub_right, may, meets, met_at, queue_test, record_of, record_right, rest_right, task_right, waits_of, walks};

use bodies::Counted;
use records::{
    COUNT, HUB, HUB_SIZE, HUBS, HubNo, LIMIT, LIST_SIZE, PRIORITY, SIDE, STATE, SUSPENDED, TASKS,
    TICKS, TableView, TaskNo, TaskSize, WORD,
};
use rules::Kind;

// Entry e of a list: a task in use, at this hub and on this side, and not the owner. A task whose record names another hub,
// or none, is refused here; one in the wrong state by its record.
fn entry_right(t: &Counted<'_>, e: u32, hub: u32, side: u32, owner: u32) -> bool
    requires e_nonzero { 0 < e }
    ensures { (L : Layout) → Laid t.now.ts.words L → result ≡ meets (read L t.now.words.now) hub side owner e }
{
    if e > t.words[TASKS] {
        return false;
    }
    // entry e is task e - 1
    let b = records::task_at(t.ts.words, TaskNo((e - 1) as usize));
    (t.words[b + HUB] == hub) & ((t.words[b + SIDE] == side) & (e != owner))
}

// A list in one walk: entries, then zeros, each entry's task marked.
fn walk(
    t: &Counted<'_>,
    list: &[u32],
    hub: u32,
    side: u32,
    owner: u32,
    marks: &mut [u32; 16],
) -> bool
    requires list_len { length list.now ≡ 16 }
    requires marks { Marks 256 marks.old }
    ensures { (L : Layout) → Laid t.now.ts.words L
        → Marked result (walks (read L t.now.words.now) hub side owner list.now)
        (λ j. occ j (numbers list.now)) marks.old marks.new }
{
    for (k, e) in list.iter().enumerate() {
        if *e == 0 {
            return lists::zeros(&list[k..]);
        }
        if !entry_right(t, *e, hub, side, owner) {
            return false;
        }
        marks[(*e - 1) as usize] += 1;
    }
    true
}

// Who may wait on a side of a hub, but for a Resource's owner. A Port's count and limit are 0, so either side may. Only
// readers wait at a Board, and only while it is unwritten; only getters at a Memory hub, at count 0.
fn may_wait(side: u32, kind: u32, count: u32, limit: u32) -> bool
    ensures { result ≡ may side kind count limit }
{
    let get = (side == rules::GET) & (count == 0);
    let either = ((side == rules::PUT) & (count == limit)) | get;
    let Some(kind) = Kind::of(kind) else {
        return either;
    };
    match kind {
        Kind::Resource => (side == rules::GET) & (count != 0),
        Kind::Board | Kind::Memory => get,
        Kind::Event | Kind::Semaphore | Kind::Port | Kind::Fifo => either,
    }
}

// Hub h's list: empty, or the first entry's side may wait, and no entry is on the other. Most lists are empty, so that comes
// first, as a test of the whole list.
fn queue_right(t: &Counted<'_>, h: usize, marks: &mut [u32; 16]) -> bool
    requires h_bound { h < get_or t.now.words.now 2 0 }
    requires marks { Marks 256 marks.old }
    ensures { (L : Layout) → Laid t.now.ts.words L
        → Marked result (queue_test L t.now.words.now h) (waits_of L t.now.words.now h)
        marks.old marks.new }
{
    let at = records::waits_at(t.ts.words, HubNo(h));
    let list = &t.words[at..at + LIST_SIZE];
    if lists::zeros(list) {
        return true;
    }
    let e = list[0];
    if e == 0 {
        return false;
    }
    if e > t.words[TASKS] {
        return false;
    }
    let side = t.words[records::task_at(t.ts.words, TaskNo((e - 1) as usize)) + SIDE];
    let b = records::hubs_at(t.ts.words) + h * HUB_SIZE;
    let kind = t.words[b];
    let count = t.words[b + COUNT];
    if !may_wait(side, kind, count, t.words[b + LIMIT]) {
        return false;
    }
    walk(
        t,
        list,
        (h + 1) as u32,
        side,
        bodies::owner_of(kind, count),
        marks,
    )
}

// The lists of all hubs in use.
fn queues_right(t: &Counted<'_>, marks: &mut [u32; 16]) -> bool
    requires marks { Marks 16 marks.old }
    ensures { (L : Layout) → Laid t.now.ts.words L
        → Marked result (for_all (get_or t.now.words.now 2 0) (queue_test L t.now.words.now))
        (met_at (read L t.now.words.now) (get_or t.now.words.now 2 0)) marks.old marks.new }
{
    for h in 0..t.words[HUBS] as usize {
        if !queue_right(t, h, marks) {
            return false;
        }
    }
    true
}

// All hubs in use: first what stands in their records and stores, then their lists, in a loop each: in one loop the compiler
// keeps more places at hand than it has registers for.
fn hubs_right(t: &Counted<'_>, marks: &mut [u32; 16]) -> bool
    requires marks { Marks 16 marks.old }
    ensures { (L : Layout) → Laid t.now.ts.words L
        → Marked result (for_all (get_or t.now.words.now 2 0) (hub_right L t.now.words.now))
        (met_at (read L t.now.words.now) (get_or t.now.words.now 2 0)) marks.old marks.new }
{
    if !bodies::bodies_right(t) {
        return false;
    }
    queues_right(t, marks)
}

// "Waiting: hub in use, side 1 or 2, answer 0, word 0 unless it puts to a Port or FIFO." A put to a Board or a Memory hub bears a
// word too, but its list refuses it: nobody waits to put there.
fn waiting_right(t: &Counted<'_>, hub: u32, side: u32, word: u64, answer: u32) -> bool
    ensures { (L : Layout) (x : Task) → Laid t.now.ts.words L
        → x.hub ≡ hub → x.side ≡ side → x.word ≡ word → x.answer ≡ answer
        → result ≡ stage_right Waiting (read L t.now.words.now) x }
{
    if hub == 0 {
        return false;
    }
    if hub > t.words[HUBS] {
        return false;
    }
    // a hub's number plus 1 stands in the record
    let kind = t.words[records::hubs_at(t.ts.words) - HUB_SIZE + (hub as usize) * HUB_SIZE];
    ((rules::PUT <= side) & (side <= rules::GET))
        & ((answer == 0) & (((side == rules::PUT) & rules::bears_word(kind)) | (word == 0)))
}

// The message of a task's record is 0. The word before the answer is its last, so no edition is asked for.
fn wordless(x: &[u32], ts: TaskSize) -> bool
    requires { Row ts.words x.now }
    ensures { (L : Layout) → Laid ts.words L → result ≡ eqb (record_of L x.now).word 0 }
{
    (x[WORD] == 0) & (x[ts.words - 2] == 0)
}

// "Ready: hub, ticks and side 0; word 0 unless the answer is 1."
fn ready_right(x: &[u32], ts: TaskSize) -> bool
    requires { Row ts.words x.now }
    ensures { (L : Layout) (s : State) → Laid ts.words L → result ≡ rest_right Ready s (record_of L x.now) }
{
    if !((x[HUB] == 0) & ((x[TICKS] == 0) & (x[SIDE] == 0))) {
        return false;
    }
    let answer = x[ts.words - 1];
    if answer == rules::OK {
        return true;
    }
    if answer > rules::TIMED_OUT {
        return false;
    }
    wordless(x, ts)
}

// A waiting task. Most bear no word, so their hub's kind isn't asked for.
fn waiting_task(t: &Counted<'_>, x: &[u32]) -> bool
    requires row { Row t.now.ts.words x.now }
    ensures { (L : Layout) → Laid t.now.ts.words L
        → result ≡ rest_right Waiting (read L t.now.words.now) (record_of L x.now) }
{
    if x[TICKS] > rules::MOST_TICKS {
        return false;
    }
    let hub = x[HUB];
    let side = x[SIDE];
    let answer = x[t.ts.words - 1];
    if !wordless(x, t.ts) {
        let word = messages::message(x, WORD, records::width_of(t.ts.words));
        return waiting_right(t, hub, side, word, answer);
    }
    ((1 <= hub) & (hub <= t.words[HUBS]))
        & (((rules::PUT <= side) & (side <= rules::GET)) & (answer == 0))
}

// The record of a task that stands in one list once: it is ready or waits.
fn listed_right(t: &Counted<'_>, x: &[u32]) -> bool
    requires row { Row t.now.ts.words x.now }
    ensures { (L : Layout) → Laid t.now.ts.words L
        → result ≡ record_right (read L t.now.words.now) (record_of L x.now) 1 }
{
    if !((x[SUSPENDED] <= 1) & (x[PRIORITY] <= rules::LAST_PRIORITY)) {
        return false;
    }
    match x[STATE] {
        rules::READY => ready_right(x, t.ts),
        rules::WAITING => waiting_task(t, x),
        _ => false,
    }
}

// The record of any other: it is inactive or sleeps, and stands in none.
fn idle_right(x: &[u32], ts: TaskSize, mark: u32) -> bool
    requires row { Row ts.words x.now }
    requires fact { mark ≡ 1 → ⊥ }
    ensures { (L : Layout) (s : State) → Laid ts.words L → result ≡ record_right s (record_of L x.now) mark }
{
    let suspended = x[SUSPENDED];
    let hub = x[HUB];
    let ticks = x[TICKS];
    let side = x[SIDE];
    let answer = x[ts.words - 1];
    let word = messages::message(x, WORD, records::width_of(ts.words));
    if !((suspended <= 1)
        & ((x[PRIORITY] <= rules::LAST_PRIORITY)
            & ((ticks <= rules::MOST_TICKS) & (answer <= rules::TIMED_OUT))))
    {
        return false;
    }
    match x[STATE] {
        // "Inactive: all but state and priority 0."
        rules::INACTIVE => {
            ((suspended == 0)
                & ((hub == 0) & ((ticks == 0) & ((side == 0) & ((word == 0) & (answer == 0))))))
                & (mark == 0)
        }
        // "Sleeping: hub, side, word and answer 0, ticks at least 1."
        rules::SLEEPING => {
            ((hub == 0) & ((side == 0) & ((word == 0) & ((answer == 0) & (1 <= ticks)))))
                & (mark == 0)
        }
        _ => false,
    }
}

// A task's record, by its mark: once if it is ready or waits, else not at all.
fn task_right(t: &Counted<'_>, x: &[u32], mark: u32) -> bool
    requires x_len { length x.now ≡ t.now.ts.words }
    ensures { (L : Layout) → Laid t.now.ts.words L
        → result ≡ record_right (read L t.now.words.now) (record_of L x.now) mark }
{
    if mark == 1 {
        return listed_right(t, x);
    }
    idle_right(x, t.ts, mark)
}

// All tasks in use, each with its mark.
fn tasks_right(t: &Counted<'_>, marks: &[u32; 16]) -> bool
    ensures { (L : Layout) → Laid t.now.ts.words L → result ≡ for_all (get_or t.now.words.now 1 0)
        (λ i. task_right (read L t.now.words.now) i (get_or marks.now i 0)) }
{
    (0..t.words[TASKS] as usize).all(|i| {
        let b = records::task_at(t.ts.words, TaskNo(i));
        task_right(t, &t.words[b..b + t.ts.words], marks[i])
    })
}

// All of "well formed" but the order of lists: the table of words is written as the paper has it, and what is read from it is
// right, its lists exact.
fn exact(t: &[u32], ts: TaskSize) -> bool
    ensures { (L : Layout) → Laid ts.words L → result ≡ exact_in L t.now }
{
    if t.len() != records::table_size(ts) {
        return false;
    }
    if !bodies::contents_right(t, ts) {
        return false;
    }
    let counted = Counted { words: t, ts };
    if !bodies::unused_zero(&counted) {
        return false;
    }
    let mut marks = [0u32; 16];
    let a = records::ready_at(ts.words);
    if !walk(&counted, &t[a..a + LIST_SIZE], 0, 0, 0, &mut marks) {
        return false;
    }
    if !hubs_right(&counted, &mut marks) {
        return false;
    }
    tasks_right(&counted, &marks)
}

// The order of lists that are exact: by effective priority, which `keys` then holds of each task, and by which a call joins them.
// Keys and order come last: on lists that are not exact, asking 16 tasks deep could take 16 to the 15th steps.
fn order_right(t: &[u32], ts: TaskSize, keys: &mut [u32; 16]) -> bool
    requires exact_table { ExactTable ts.words t.now }
    ensures { (L : Layout) → Laid ts.words L → Formed L t.now result keys.new }
{
    let table = TableView { words: t, ts };
    inherit::find_keys(&table, keys);
    inherit::in_order(&table, &*keys)
}

// "Well formed"; if so, `keys` then holds each task's effective priority.
pub fn well_formed_keys(t: &[u32], ts: TaskSize, keys: &mut [u32; 16]) -> bool
    ensures { (L : Layout) → Laid ts.words L → Formed L t.now result keys.new }
{
    if !exact(t, ts) {
        return false;
    }
    order_right(t, ts, keys)
}

// "Well formed", for those who join no list.
pub fn well_formed(t: &[u32], ts: TaskSize) -> bool
    ensures { (L : Layout) → Laid ts.words L → result ≡ well_formed_in L t.now }
{
    if !exact(t, ts) {
        return false;
    }
    let mut keys = [0u32; 16];
    order_right(t, ts, &mut keys)
}
