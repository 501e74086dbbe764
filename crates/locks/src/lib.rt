// The Resources that a stopped task owns pass on (M-101), on a table that holds a state: each to its hub's first waiter, who is met,
// or it becomes free.
// Not here: the Stop itself (crate tasks).
#![tactic(auto)]

ghost use Rattle.std.specs.Prelude.{◌<◌, ◌≤◌, length, ◌≡◌};
ghost use Rattle.moves.specs.Moves.{key_of};
ghost use Rattle.records.specs.Records.{Table};
ghost use Rattle.rules.proofs.Layouts.{Laid};
ghost use Rattle.rules.proofs.Valid.{Sound, Waits};
ghost use Rattle.rules.proofs.Waiting.{Good};
ghost use Rattle.rules.specs.Calls.{pass_all, pass_one};
ghost use Rattle.rules.specs.Table.{Layout, State, hub, owns, words};

use records::{HubNo, TaskNo, TaskSize};

// Whether task i owns hub h: a Resource's count is "0 free, else owner plus 1".
fn is_owner(t: &[u32], ts: TaskSize, i: TaskNo, h: HubNo) -> bool
    requires table { Table ts.words t.now }
    requires i_bound { i.0 < 16 }
    requires h_bound { h.0 < 16 }
    ensures { (L : Layout) (s : State) → Laid ts.words L → length s.hubs ≤ 16 → h.0 < length s.hubs
        → t.now ≡ words L s → result ≡ owns i.0 (hub s h.0) }
{
    let x = records::hub(t, records::hubs_at(ts.words), h);
    let is_lock = x.kind == rules::RESOURCE;
    is_lock && x.count as usize == i.0 + 1
}

// Hub h, where task i owns it: "passes ... to that hub's first waiter, who is met, or becomes free" (M-101). The count is the
// new owner plus 1, or 0: the entry that names it.
fn pass_one(t: &mut [u32], ts: TaskSize, keys: &[u32], i: TaskNo, h: HubNo)
    requires table { Table ts.words t.old }
    requires i_bound { i.0 < 16 }
    requires h_bound { h.0 < 16 }
    ensures { (L : Layout) (s : State) → Laid ts.words L → Sound s → Waits s → h.0 < length s.hubs
        → t.old ≡ words L s
        → t.new ≡ words L (pass_one (key_of keys.now) i.0 h.0 s) }
{
    if !is_owner(t, ts, i, h) {
        return;
    }
    match moves::first_waiter(t, ts, h, rules::GET) {
        Some(waiter) => {
            records::set_count(t, records::hubs_at(ts.words), h, records::entry_of(waiter));
            if waiter.0 < 16 {
                moves::wake_task(t, ts, keys, waiter, rules::OK, 0);
            }
        }
        None => records::set_count(t, records::hubs_at(ts.words), h, 0),
    }
}

// "each Resource it owns passes, in hub number order": n is the number of hubs.
pub fn pass_all(t: &mut [u32], ts: TaskSize, keys: &[u32], i: TaskNo, n: usize)
    requires table { Table ts.words t.old }
    requires i_bound { i.0 < 16 }
    requires n_bound { n ≤ 16 }
    ensures { (L : Layout) (s : State) → Laid ts.words L → Sound s → Good s → n ≡ length s.hubs
        → t.old ≡ words L s
        → t.new ≡ words L (pass_all (key_of keys.now) i.0 n s) }
{
    for h in 0..n {
        pass_one(t, ts, keys, i, HubNo(h));
    }
}
