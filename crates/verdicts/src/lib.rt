// What the hub that a request names says of it, on a table that holds a valid state: all that the hub table asks for is read off
// the table (`judge`, of a Memory hub's blocks `judge_block`).
// Not here: the hub table itself (crate hubtable), the update of a Board and what a verdict does (crate requests).
#![tactic(auto)]

ghost use Rattle.std.specs.Prelude.{◌<◌, ◌≤◌, ℕ, length, ◌≡◌};
ghost use Rattle.hubtable.specs.Says.{Below, RecordOf, says};
ghost use Rattle.messages.specs.Messages.{messages};
ghost use Rattle.records.specs.Entries.{Low, numbered};
ghost use Rattle.records.specs.Records.{Table, width};
ghost use Rattle.rules.proofs.Layouts.{Laid};
ghost use Rattle.rules.proofs.Valid.{Valid};
ghost use Rattle.rules.specs.Calls.{HubRequest};
ghost use Rattle.rules.specs.HubTable.{message, verdict};
ghost use Rattle.rules.specs.Refusals.{refusal_for};
ghost use Rattle.rules.specs.Table.{Layout, State, hub, task, words};
ghost use Rattle.std.proofs.Math.Option.{some};

use hubtable::Verdict;
use records::{HubNo, HubRecord, TaskNo, TaskSize};
use rules::{Call, Kind};

// The message of a waiter, if there is one.
fn word_of(t: &[u32], ts: TaskSize, waiter: Option<TaskNo>) -> u64
    requires table { Table ts.words t.now }
    requires low { Low waiter }
    ensures upper_bound { result < messages (width ts.words) }
    ensures value { (L : Layout) (s : State) (w : ℕ) → Laid ts.words L → length s.tasks ≤ 16
        → t.now ≡ words L s → numbered waiter ≡ some w
        → w < length s.tasks → result ≡ (task s w).word }
{
    match waiter {
        Some(i) => moves::task_at(t, ts, i).word,
        None => 0,
    }
}

// What a Memory hub, whose record is x, says of a block that is given back or asked for.
fn judge_block(t: &[u32], ts: TaskSize, x: HubRecord, c: Call) -> Verdict
    requires table { Table ts.words t.now }
    requires target_bound { c.target < 16 }
    requires c_bound { message c < messages (width ts.words) }
    ensures below { Below (messages (width ts.words)) result }
    ensures result_value { (L : Layout) (s : State) → Laid ts.words L → Valid s → refusal_for HubRequest s c ≡ 0
        → RecordOf x (hub s c.target) → (hub s c.target).kind ≡ 7
        → t.now ≡ words L s → says (hub s c.target).held result ≡ verdict s c }
{
    let h = HubNo(c.target as usize);
    if c.side == rules::PUT {
        let waiter = moves::first_waiter(t, ts, h, rules::GET);
        let block = messages::joined(c.word, c.high);
        let out = stores::is_out(t, ts, h, block);
        return hubtable::put_memory(x, waiter, block, out);
    }
    hubtable::get_memory(x, stores::lowest_free(t, ts, h))
}

// What the hub that it names says of a call, but for the update of a Board (`update`).
pub fn judge(t: &[u32], ts: TaskSize, c: Call) -> Verdict
    requires table { Table ts.words t.now }
    requires target_bound { c.target < 16 }
    requires caller_bound { c.caller < 16 }
    requires c_bound { message c < messages (width ts.words) }
    ensures below { Below (messages (width ts.words)) result }
    ensures result_value { (L : Layout) (s : State) → Laid ts.words L → Valid s → refusal_for HubRequest s c ≡ 0
        → ((hub s c.target).kind ≡ 6 → c.side ≡ 1 → ⊥)
        → t.now ≡ words L s → says (hub s c.target).held result ≡ verdict s c }
{
    let h = HubNo(c.target as usize);
    let x = stores::hub_at(t, ts, h);
    if c.side == rules::WIPE {
        return hubtable::on_wipe(x);
    }
    if Kind::of(x.kind) == Some(Kind::Memory) {
        return judge_block(t, ts, x, c);
    }
    if c.side == rules::PUT {
        let waiter = moves::first_waiter(t, ts, h, rules::GET);
        return hubtable::on_put(x, waiter, c.caller, messages::joined(c.word, c.high));
    }
    let waiter = moves::first_waiter(t, ts, h, rules::PUT);
    let its = word_of(t, ts, waiter);
    let oldest = stores::held_at(t, ts, h, 0);
    hubtable::on_get(x, waiter, its, oldest, c.caller)
}
