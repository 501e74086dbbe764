// M-108: the end of an accepted call. "All tasks whose effective priority changed are taken out of their lists, then put back
// behind their equals in task number order." Each function says of every state that the table holds which one it holds
// afterwards; ts is the number of words in a task record. Safe on any table of the length required.
// Not here: effective priorities (inherit), joining and leaving a list (moves), the services.
#![tactic(auto)]

ghost use Rattle.std.specs.Prelude.{◌<◌, ◌≤◌, ℕ, eqb, get_or, length, false, not, true, ◌≡◌};
ghost use Rattle.moves.specs.Moves.{key_of};
ghost use Rattle.records.specs.Records.{Table};
ghost use Rattle.reorder.specs.Changed.{HubsUsed, differs};
ghost use Rattle.rules.proofs.Layouts.{Laid};
ghost use Rattle.rules.proofs.Valid.{Sound};
ghost use Rattle.rules.specs.Effective.{effective};
ghost use Rattle.rules.specs.Reorder.{put_back, rejoin, reordered, taken_out};
ghost use Rattle.rules.specs.Table.{Layout, State, words};

use moves::TaskList;
use records::{TableView, TaskNo, TaskSize};

// Whether task i's key is another than before.
fn is_changed(before: &[u32; 16], after: &[u32; 16], i: usize) -> bool
    requires { i < 16 }
    ensures { result ≡ not (eqb (get_or before.now i 0) (get_or after.now i 0)) }
{
    before[i] != after[i]
}

// "taken out of their lists": of the tasks below n those whose key is another than before.
fn take_changed(t: &mut [u32], ts: TaskSize, before: &[u32; 16], after: &[u32; 16], n: usize)
    requires table { Table ts.words t.old }
    requires n_bound { n ≤ 16 }
    ensures { (L : Layout) (s : State) → Laid ts.words L → Sound s → n ≤ length s.tasks → t.old ≡ words L s
        → t.new ≡ words L (taken_out (differs n before.now after.now) s) }
{
    for i in 0..n {
        if is_changed(before, after, i) {
            moves::leave_list(t, ts, TaskNo(i));
        }
    }
}

// "put back behind their equals": task i joins the list in which its record says that it stands.
fn put_back(t: &mut [u32], ts: TaskSize, keys: &[u32; 16], i: usize)
    requires table { Table ts.words t.old }
    requires i_bound { i < 16 }
    ensures { (L : Layout) (s : State) → Laid ts.words L → HubsUsed s → i < length s.tasks → t.old ≡ words L s
        → t.new ≡ words L (rejoin (key_of keys.now) i s) }
{
    match moves::list_of(moves::task_at(t, ts, TaskNo(i))) {
        Some(TaskList::Ready) => {
            moves::join_ready(t, ts, keys, TaskNo(i));
        }
        Some(TaskList::Waiting(h)) => {
            moves::join_hub(t, ts, keys, h, TaskNo(i));
        }
        None => {}
    }
}

// "then put back .. in task number order": the same tasks. A loop of its own: over a closure that writes the table, the one loop
// for both would say nothing of what the table holds then.
fn put_changed(t: &mut [u32], ts: TaskSize, before: &[u32; 16], after: &[u32; 16], n: usize)
    requires table { Table ts.words t.old }
    requires n_bound { n ≤ 16 }
    ensures { (L : Layout) (s : State) → Laid ts.words L → HubsUsed s → n ≤ length s.tasks → t.old ≡ words L s
        → t.new ≡ words L (put_back (key_of after.now)
        (differs n before.now after.now) n s) }
{
    for i in 0..n {
        if is_changed(before, after, i) {
            put_back(t, ts, after, i);
        }
    }
}

// The reordering, where the keys before and after are known: all out first, since one by one would leave lists out of order.
fn reorder_by(t: &mut [u32], ts: TaskSize, before: &[u32; 16], after: &[u32; 16], n: usize)
    requires table { Table ts.words t.old }
    requires n_bound { n ≤ 16 }
    ensures { (L : Layout) (s s' : State) → Laid ts.words L → Sound s' → n ≡ length s.tasks → n ≤ length s'.tasks
        → ((j : ℕ) → get_or before.now j 0 ≡ effective s j)
        → ((j : ℕ) → get_or after.now j 0 ≡ effective s' j)
        → t.old ≡ words L s' → t.new ≡ words L (reordered s s') }
{
    // Most calls change no key, and end here.
    if before[..n] == after[..n] {
        return;
    }
    take_changed(t, ts, before, after, n);
    put_changed(t, ts, before, after, n);
}

// The end of an accepted call: the lists in order by effective priority again. `before` are the keys before the call, and n is
// the number of tasks then; the table is the one when the call's service is done.
pub fn reorder(t: &mut [u32], ts: TaskSize, before: &[u32; 16], n: usize)
    requires table { Table ts.words t.old }
    requires n_bound { n ≤ 16 }
    ensures { (L : Layout) (s s' : State) → Laid ts.words L → Sound s' → n ≡ length s.tasks → n ≤ length s'.tasks
        → ((j : ℕ) → get_or before.now j 0 ≡ effective s j)
        → t.old ≡ words L s' → t.new ≡ words L (reordered s s') }
{
    let mut after = [0u32; 16];
    inherit::find_keys(&TableView { words: t, ts }, &mut after);
    reorder_by(t, ts, before, &after, n);
}
