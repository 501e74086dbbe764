// Services 2 to 7: Start, Stop, Suspend, Resume, Yield, Sleep, each on a table that holds a state, by the caller that runs.
// Not here: when a call is refused, and what it gives back; how a stopped task's locks pass on (crate locks).
#![tactic(auto)]

ghost use Rattle.std.specs.Prelude.{◌<◌, ◌≤◌, ℕ, get_or, length, ◌≡◌};
ghost use Rattle.moves.specs.Moves.{key_of, task_of};
ghost use Rattle.records.specs.Records.{Table};
ghost use Rattle.rules.proofs.Layouts.{Laid};
ghost use Rattle.rules.proofs.Valid.{Sound, Valid};
ghost use Rattle.rules.specs.Calls.{Resume, Sleep, Start, Stop, Suspend, Yield, flag, grant, may_stop, may_suspend, serve};
ghost use Rattle.rules.specs.Table.{Layout, State, inactive, set_task, words};

use records::{TaskNo, TaskRecord, TaskSize};
use rules::Call;

// "Start an inactive task: ready, behind its equals."
pub fn start_task(t: &mut [u32], ts: TaskSize, keys: &[u32], c: Call)
    requires table { Table ts.words t.old }
    requires caller_bound { c.caller < 16 }
    requires target_bound { c.target < 16 }
    ensures { (L : Layout) (s : State) → Laid ts.words L → Sound s → c.caller < length s.tasks
        → c.target < length s.tasks
        → t.old ≡ words L s → t.new ≡ words L (serve (key_of keys.now) Start s c) }
{
    let caller = TaskNo(c.caller as usize);
    let i = TaskNo(c.target as usize);
    // FAIL first, so that behind it stand the steps of the paper alone, in its order; `stop_task` does the same
    if moves::task_at(t, ts, i).state != rules::INACTIVE {
        moves::give_answer(t, ts, caller, rules::FAIL, 0);
        return;
    }
    moves::make_ready(t, ts, i, 0, 0);
    moves::join_ready(t, ts, keys, i);
    moves::give_answer(t, ts, caller, rules::OK, 0);
}

// "made inactive with all but state and priority 0"
fn make_inactive(t: &mut [u32], ts: TaskSize, i: TaskNo, priority: u32)
    requires table { Table ts.words t.old }
    requires i_bound { i.0 < 16 }
    ensures { (L : Layout) (s : State) → Laid ts.words L → length s.tasks ≤ 16 → i.0 < length s.tasks
        → t.old ≡ words L s
        → t.new ≡ words L (set_task i.0 (inactive priority) s) }
{
    moves::set_task(
        t,
        ts,
        i,
        // every field, so that "all but state and priority 0" reads off it
        TaskRecord {
            state: rules::INACTIVE,
            suspended: 0,
            priority,
            hub: 0,
            ticks: 0,
            side: 0,
            word: 0,
            answer: 0,
        },
    );
}

// "a task neither inactive nor the caller"
fn may_stop(x: TaskRecord, c: Call) -> bool
    ensures { result ≡ may_stop (task_of x) c }
{
    x.state != rules::INACTIVE && c.target != c.caller
}

// Stop: "taken from any list, made inactive"; "after the task leaves its list, each Resource it owns passes".
pub fn stop_task(t: &mut [u32], ts: TaskSize, keys: &[u32], c: Call)
    requires table { Table ts.words t.old }
    requires caller_bound { c.caller < 16 }
    requires target_bound { c.target < 16 }
    requires t_bound { get_or t.old 2 0 ≤ 16 }
    ensures { (L : Layout) (s : State) → Laid ts.words L → Valid s → c.caller < length s.tasks
        → c.target < length s.tasks → t.old ≡ words L s
        → t.new ≡ words L (serve (key_of keys.now) Stop s c) }
{
    let caller = TaskNo(c.caller as usize);
    let i = TaskNo(c.target as usize);
    let hubs = t[records::HUBS] as usize;
    let x = moves::task_at(t, ts, i);
    // FAIL first, as in `start_task`
    if !may_stop(x, c) {
        moves::give_answer(t, ts, caller, rules::FAIL, 0);
        return;
    }
    moves::leave_list(t, ts, i);
    make_inactive(t, ts, i, x.priority);
    locks::pass_all(t, ts, keys, i, hubs);
    moves::give_answer(t, ts, caller, rules::OK, 0);
}

// The flag of the call's target and nothing else, where its condition holds; the caller's answer says whether it did.
fn set_flag(t: &mut [u32], ts: TaskSize, c: Call, holds: bool, f: u32)
    requires table { Table ts.words t.old }
    requires caller_bound { c.caller < 16 }
    requires target_bound { c.target < 16 }
    ensures { (L : Layout) (s : State) → Laid ts.words L → length s.tasks ≤ 16 → c.caller < length s.tasks
        → c.target < length s.tasks → t.old ≡ words L s
        → t.new ≡ words L (grant holds (flag f c.target s) s c) }
{
    let caller = TaskNo(c.caller as usize);
    let i = TaskNo(c.target as usize);
    if !holds {
        moves::give_answer(t, ts, caller, rules::FAIL, 0);
        return;
    }
    let x = moves::task_at(t, ts, i);
    moves::set_task(t, ts, i, TaskRecord { suspended: f, ..x });
    moves::give_answer(t, ts, caller, rules::OK, 0);
}

// "a task that is neither inactive, suspended nor the caller"
fn may_suspend(x: TaskRecord, c: Call) -> bool
    ensures { result ≡ may_suspend (task_of x) c }
{
    x.state != rules::INACTIVE && x.suspended == 0 && c.target != c.caller
}

// Suspend: "flag set, state and lists kept".
pub fn suspend_task(t: &mut [u32], ts: TaskSize, c: Call)
    requires table { Table ts.words t.old }
    requires caller_bound { c.caller < 16 }
    requires target_bound { c.target < 16 }
    ensures { (L : Layout) (key : ℕ → ℕ) (s : State) → Laid ts.words L → Sound s → c.caller < length s.tasks
        → c.target < length s.tasks → t.old ≡ words L s
        → t.new ≡ words L (serve key Suspend s c) }
{
    let x = moves::task_at(t, ts, TaskNo(c.target as usize));
    set_flag(t, ts, c, may_suspend(x, c), 1);
}

// "Resume a suspended task: flag cleared."
pub fn resume_task(t: &mut [u32], ts: TaskSize, c: Call)
    requires table { Table ts.words t.old }
    requires caller_bound { c.caller < 16 }
    requires target_bound { c.target < 16 }
    ensures { (L : Layout) (key : ℕ → ℕ) (s : State) → Laid ts.words L → Sound s → c.caller < length s.tasks
        → c.target < length s.tasks → t.old ≡ words L s
        → t.new ≡ words L (serve key Resume s c) }
{
    let x = moves::task_at(t, ts, TaskNo(c.target as usize));
    set_flag(t, ts, c, x.suspended != 0, 0);
}

// "Yield: caller goes behind its equals, answer 1."
pub fn yield_turn(t: &mut [u32], ts: TaskSize, keys: &[u32], c: Call)
    requires table { Table ts.words t.old }
    requires caller_bound { c.caller < 16 }
    ensures { (L : Layout) (s : State) → Laid ts.words L → Sound s → c.caller < length s.tasks
        → t.old ≡ words L s
        → t.new ≡ words L (serve (key_of keys.now) Yield s c) }
{
    let caller = TaskNo(c.caller as usize);
    moves::leave_list(t, ts, caller);
    moves::give_answer(t, ts, caller, rules::OK, 0);
    moves::join_ready(t, ts, keys, caller);
}

// "Sleep (ticks): state 4, these ticks, answer 0, out of the ready list."
pub fn sleep_task(t: &mut [u32], ts: TaskSize, c: Call)
    requires table { Table ts.words t.old }
    requires caller_bound { c.caller < 16 }
    ensures { (L : Layout) (key : ℕ → ℕ) (s : State) → Laid ts.words L → Sound s → c.caller < length s.tasks
        → t.old ≡ words L s
        → t.new ≡ words L (serve key Sleep s c) }
{
    let caller = TaskNo(c.caller as usize);
    moves::leave_list(t, ts, caller);
    let x = moves::task_at(t, ts, caller);
    moves::set_task(
        t,
        ts,
        caller,
        TaskRecord {
            state: rules::SLEEPING,
            hub: 0,
            ticks: c.ticks,
            side: 0,
            word: 0,
            answer: 0,
            ..x
        },
    );
}
