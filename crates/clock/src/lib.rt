// Service 8, Tick, on a table that holds a state.
#![tactic(auto)]

ghost use Rattle.std.specs.Prelude.{◌<◌, ◌≤◌, get_or, length, ◌≡◌};
ghost use Rattle.moves.specs.Moves.{key_of};
ghost use Rattle.records.specs.Records.{Table};
ghost use Rattle.rules.proofs.Layouts.{Laid};
ghost use Rattle.rules.proofs.Valid.{Sound};
ghost use Rattle.rules.specs.Calls.{tick_all, tick_one};
ghost use Rattle.rules.specs.Lists.{counted};
ghost use Rattle.rules.specs.Table.{Layout, State, set_task, task, words};
ghost use Rattle.rules.specs.WellFormed.{within};

use records::{TaskNo, TaskRecord, TaskSize};

// Task i has n ticks left.
fn set_ticks(t: &mut [u32], ts: TaskSize, i: TaskNo, n: u32)
    requires table { Table ts.words t.old }
    requires i_bound { i.0 < 16 }
    ensures { (L : Layout) (s : State) → Laid ts.words L → length s.tasks ≤ 16 → i.0 < length s.tasks
        → t.old ≡ words L s
        → t.new ≡ words L (set_task i.0 (counted n (task s i.0)) s) }
{
    let x = moves::task_at(t, ts, i);
    moves::set_task(t, ts, i, TaskRecord { ticks: n, ..x });
}

// "each task in state 3 or 4 ... suspended or not"
fn counts_down(x: TaskRecord) -> bool
    ensures { result ≡ within 3 4 x.state }
{
    rules::WAITING <= x.state && x.state <= rules::SLEEPING
}

// "with ticks above 0 loses one. At 0 it leaves its list and becomes ready behind its equals, answer 3, hub, side and word 0."
fn tick_one(t: &mut [u32], ts: TaskSize, keys: &[u32], i: TaskNo)
    requires table { Table ts.words t.old }
    requires i_bound { i.0 < 16 }
    ensures { (L : Layout) (s : State) → Laid ts.words L → Sound s → i.0 < length s.tasks
        → t.old ≡ words L s
        → t.new ≡ words L (tick_one (key_of keys.now) i.0 s) }
{
    let x = moves::task_at(t, ts, i);
    if !counts_down(x) {
        return;
    }
    match x.ticks {
        0 => {}
        1 => moves::wake_task(t, ts, keys, i, rules::TIMED_OUT, 0),
        n => set_ticks(t, ts, i, n - 1),
    }
}

// "in task number order"
pub fn tick(t: &mut [u32], ts: TaskSize, keys: &[u32])
    requires table { Table ts.words t.old }
    requires t_bound { get_or t.old 1 0 ≤ 16 }
    ensures { (L : Layout) (s : State) → Laid ts.words L → Sound s → t.old ≡ words L s
        → t.new ≡ words L (tick_all (key_of keys.now) (length s.tasks) s) }
{
    let n = t[records::TASKS] as usize;
    for i in 0..n {
        tick_one(t, ts, keys, TaskNo(i));
    }
}
