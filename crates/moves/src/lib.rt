// The moves that every service is made of: a task joins a list or leaves it, is answered, made ready, woken; who waits first.
// Each says of every state that the table holds which state it holds afterwards. Safe on any table of the length required.
// Not here: which move a service makes, and when.
#![tactic(auto)]

ghost use Rattle.std.specs.Prelude.{◌*◌, ◌+◌, ◌<◌, ◌≤◌, length, ◌≡◌};
ghost use Rattle.messages.specs.Messages.{messages};
ghost use Rattle.moves.specs.Moves.{IsList, JoinsHub, JoinsReady, ListedBy, TaskHeld, key_of, list_at, task_of};
ghost use Rattle.records.specs.Entries.{Low, numbered};
ghost use Rattle.records.specs.Records.{Table, width};
ghost use Rattle.rules.proofs.Layouts.{Laid};
ghost use Rattle.rules.proofs.Valid.{Sound, Stands, Waits};
ghost use Rattle.rules.specs.Lists.{answer, first_waiting, leave, queued, readied, wake};
ghost use Rattle.rules.specs.Table.{Layout, State, hub, set_hub, set_ready, set_task, task, words};
ghost use Rattle.lists.specs.Lists.{occ, without};

use records::{HubNo, TaskNo, TaskRecord, TaskSize};

// The lists in which tasks stand.
#[derive(Clone, Copy, Debug, PartialEq, Eq)]
pub enum TaskList {
    Ready,
    Waiting(HubNo),
}

// Task i joins the ready list by its key, and its place is what comes back; ts is the number of words in a task record.
pub fn join_ready(t: &mut [u32], ts: TaskSize, keys: &[u32], i: TaskNo) -> usize
    requires table { Table ts.words t.old }
    requires i_bound { i.0 < 16 }
    ensures { JoinsReady ts.words keys.now i.0 t.old result t.new }
{
    let n = i.0;
    let a = records::ready_at(ts.words);
    lists::join(&mut t[a..a + records::LIST_SIZE], keys, n)
}

// Task i joins hub h's list by its key, and its place is what comes back. Not one function with join_ready: each promises of its own
// list what the other's hasn't (JoinsReady, JoinsHub).
pub fn join_hub(t: &mut [u32], ts: TaskSize, keys: &[u32], h: HubNo, i: TaskNo) -> usize
    requires table { Table ts.words t.old }
    requires h_bound { h.0 < 16 }
    requires i_bound { i.0 < 16 }
    ensures { JoinsHub ts.words keys.now h.0 i.0 t.old result t.new }
{
    let n = i.0;
    let a = records::waits_at(ts.words, h);
    lists::join(&mut t[a..a + records::LIST_SIZE], keys, n)
}

// Where a list starts.
fn list_at(ts: TaskSize, list: TaskList) -> usize
    requires hub_bound { IsList list }
    ensures { result ≡ list_at ts.words list }
{
    match list {
        TaskList::Ready => records::ready_at(ts.words),
        TaskList::Waiting(h) => records::waits_at(ts.words, h),
    }
}

// The record of task i.
pub fn task_at(t: &[u32], ts: TaskSize, i: TaskNo) -> TaskRecord
    requires table { Table ts.words t.now }
    requires i_bound { i.0 ≤ 4294967295 }
    ensures { TaskHeld ts.words i.0 t.now result }
{
    records::task(t, ts, i)
}

// The record of task i, written.
pub fn set_task(t: &mut [u32], ts: TaskSize, i: TaskNo, x: TaskRecord)
    requires table { Table ts.words t.old }
    requires i_bound { i.0 ≤ 4294967295 }
    requires word_bound { x.word < messages (width ts.words) }
    ensures { (L : Layout) (s : State) → Laid ts.words L → length s.tasks ≤ 16 → i.0 < length s.tasks
        → t.old ≡ words L s
        → t.new ≡ words L (set_task i.0 (task_of x) s) }
{
    records::set_task(t, ts, i, x);
}

// The first task that waits at hub h on this side, if there is one. One list holds one side only, so its first entry tells.
pub fn first_waiter(t: &[u32], ts: TaskSize, h: HubNo, side: u32) -> Option<TaskNo>
    requires table { Table ts.words t.now }
    requires h_bound { h.0 < 16 }
    ensures value { (L : Layout) (s : State) → Laid ts.words L → Sound s → Waits s → h.0 < length s.hubs
        → t.now ≡ words L s
        → numbered result ≡ first_waiting s side (hub s h.0).waiters }
    ensures low { Low result }
{
    let i = records::entry(lists::word(t, records::waits_at(ts.words, h)))?;
    let x = task_at(t, ts, i);
    if x.side == side { Some(i) } else { None }
}

// The list in which a task with this record stands: a ready task in the ready list, a waiting one in the list of its hub, any
// other in none.
pub fn list_of(x: TaskRecord) -> Option<TaskList>
    ensures { ListedBy x result }
{
    if x.state == rules::READY {
        return Some(TaskList::Ready);
    }
    if x.state == rules::WAITING && 1 <= x.hub && x.hub <= 16 {
        return Some(TaskList::Waiting(HubNo(x.hub as usize - 1)));
    }
    None
}

// "taken from any list": the one in which its record says that the task stands.
// Of the others nothing is asked, so that tasks can be taken out one after the other (M-108).
pub fn leave_list(t: &mut [u32], ts: TaskSize, i: TaskNo)
    requires table { Table ts.words t.old }
    requires i_bound { i.0 < 16 }
    ensures { (L : Layout) (s : State) → Laid ts.words L → Stands i.0 s → i.0 < length s.tasks
        → t.old ≡ words L s
        → t.new ≡ words L (leave i.0 s) }
{
    if let Some(list) = list_of(task_at(t, ts, i)) {
        let a = list_at(ts, list);
        lists::leave(&mut t[a..a + records::LIST_SIZE], i.0);
    }
}

// Task i gets an answer and a word.
pub fn give_answer(t: &mut [u32], ts: TaskSize, i: TaskNo, a: u32, w: u64)
    requires table { Table ts.words t.old }
    requires i_bound { i.0 < 16 }
    requires w_bound { w < messages (width ts.words) }
    ensures { (L : Layout) (s : State) → Laid ts.words L → length s.tasks ≤ 16 → i.0 < length s.tasks
        → t.old ≡ words L s
        → t.new ≡ words L (answer i.0 a w s) }
{
    let x = task_at(t, ts, i);
    set_task(
        t,
        ts,
        i,
        TaskRecord {
            word: w,
            answer: a,
            ..x
        },
    );
}

// Task i's record becomes a ready one. It does not stand in the ready list yet.
pub fn make_ready(t: &mut [u32], ts: TaskSize, i: TaskNo, a: u32, w: u64)
    requires table { Table ts.words t.old }
    requires i_bound { i.0 < 16 }
    requires w_bound { w < messages (width ts.words) }
    ensures { (L : Layout) (s : State) → Laid ts.words L → length s.tasks ≤ 16 → i.0 < length s.tasks
        → t.old ≡ words L s
        → t.new ≡ words L (set_task i.0 (readied a w (task s i.0)) s) }
{
    let x = task_at(t, ts, i);
    set_task(
        t,
        ts,
        i,
        TaskRecord {
            state: rules::READY,
            hub: 0,
            ticks: 0,
            side: 0,
            word: w,
            answer: a,
            ..x
        },
    );
}

// A waiter or sleeper leaves its list and becomes ready behind its equals with this answer and word.
pub fn wake_task(t: &mut [u32], ts: TaskSize, keys: &[u32], i: TaskNo, a: u32, w: u64)
    requires table { Table ts.words t.old }
    requires i_bound { i.0 < 16 }
    requires w_bound { w < messages (width ts.words) }
    ensures { (L : Layout) (s : State) → Laid ts.words L → Sound s → i.0 < length s.tasks
        → t.old ≡ words L s
        → t.new ≡ words L (wake (key_of keys.now) i.0 a w s) }
{
    leave_list(t, ts, i);
    make_ready(t, ts, i, a, w);
    join_ready(t, ts, keys, i);
}
