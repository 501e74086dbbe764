// Service 1, a put or a get at a hub or the wipe of a Board, on a table that holds a valid state: what the hub says (crate
// verdicts) is carried out (`meet`, `wait_there`). The update of a Board (`update`) meets all its readers.
// What comes back is how many are ahead of the caller: the place that joining promised, or 0.
// Not here: the hub table itself (crate hubtable), when a call is refused, and the rest of what it gives back.
#![tactic(auto)]

ghost use Rattle.std.specs.Prelude.{◌<◌, ◌≤◌, ℕ, length, ◌≡◌};
ghost use Rattle.hubtable.specs.Says.{Below, says};
ghost use Rattle.hubtable.specs.declared.Verdict.TheVariants.{Met};
ghost use Rattle.messages.specs.Messages.{messages};
ghost use Rattle.moves.specs.Moves.{key_of};
ghost use Rattle.records.specs.Records.{Table, width};
ghost use Rattle.requests.specs.Requests.{Leaves, meet_one, meetings};
ghost use Rattle.rules.proofs.Layouts.{Laid};
ghost use Rattle.rules.proofs.Valid.{Sound, Valid};
ghost use Rattle.rules.specs.Calls.{HubRequest, kept, meet_all, serve, wait};
ghost use Rattle.rules.specs.HubTable.{message, verdict};
ghost use Rattle.rules.specs.Lists.{answer, waits};
ghost use Rattle.rules.specs.Refusals.{refusal_for};
ghost use Rattle.rules.specs.Table.{Hub, Layout, State, hub, set_task, task, words};

use hubtable::{Meeting, Store, Verdict};
use records::{HubNo, TaskNo, TaskRecord, TaskSize};
use rules::{Call, Kind, Mode, Served};

// "A request that is met answers 1." The waiter met with it, if there is one, becomes ready.
fn meet(t: &mut [u32], ts: TaskSize, keys: &[u32], c: Call, m: Meeting)
    requires table { Table ts.words t.old }
    requires caller_bound { c.caller < 16 }
    requires target_bound { c.target < 16 }
    requires below { Below (messages (width ts.words)) (Met m) }
    ensures { (L : Layout) (s : State) → Laid ts.words L → Valid s → refusal_for HubRequest s c ≡ 0
        → says (hub s c.target).held (Met m) ≡ verdict s c → t.old ≡ words L s
        → t.new ≡ words L (serve (key_of keys.now) HubRequest s c) }
{
    let caller = TaskNo(c.caller as usize);
    let h = HubNo(c.target as usize);
    stores::hold_hub(t, ts, h, m);
    moves::give_answer(t, ts, caller, rules::OK, m.word);
    if let Some(waiter) = m.waiter {
        if waiter.0 < 16 {
            moves::wake_task(t, ts, keys, waiter, rules::OK, m.its);
        }
    }
}

// The first that waits at hub h, if there is one, is met with this word.
fn meet_first(t: &mut [u32], ts: TaskSize, keys: &[u32], h: HubNo, w: u64)
    requires table { Table ts.words t.old }
    requires h_bound { h.0 < 16 }
    requires w_bound { w < messages (width ts.words) }
    ensures { (L : Layout) (s : State) → Laid ts.words L → Sound s → h.0 < length s.hubs → t.old ≡ words L s
        → t.new ≡ words L (meet_one (key_of keys.now) w (hub s h.0).waiters s) }
{
    let first = records::entry(lists::word(&*t, records::waits_at(ts.words, h)));
    if let Some(first) = first {
        if first.0 < 16 {
            moves::wake_task(t, ts, keys, first, rules::OK, w);
        }
    }
}

// "every waiting reader is met with the word, in list order": each that is met leaves the list, so the next stands first.
fn meet_all(t: &mut [u32], ts: TaskSize, keys: &[u32], h: HubNo, w: u64)
    requires table { Table ts.words t.old }
    requires h_bound { h.0 < 16 }
    requires w_bound { w < messages (width ts.words) }
    ensures { (L : Layout) (s : State) → Laid ts.words L → Sound s → h.0 < length s.hubs → t.old ≡ words L s
        → t.new ≡ words L (meet_all (key_of keys.now) (meetings w (hub s h.0).waiters) s) }
{
    for _ in 0..records::LIST_SIZE {
        meet_first(t, ts, keys, h, w);
    }
}

// Side 1 at a Board: "always OK, and every waiting reader is met with the word, in list order".
fn update(t: &mut [u32], ts: TaskSize, keys: &[u32], c: Call)
    requires table { Table ts.words t.old }
    requires caller_bound { c.caller < 16 }
    requires target_bound { c.target < 16 }
    requires c_bound { message c < messages (width ts.words) }
    ensures { (L : Layout) (s : State) → Laid ts.words L → Valid s → refusal_for HubRequest s c ≡ 0
        → (hub s c.target).kind ≡ 6 → c.side ≡ 1 → t.old ≡ words L s
        → t.new ≡ words L (serve (key_of keys.now) HubRequest s c) }
{
    let caller = TaskNo(c.caller as usize);
    let h = HubNo(c.target as usize);
    let word = messages::joined(c.word, c.high);
    let m = Meeting {
        count: 1,
        store: Store::TakeAppend(word),
        word: 0,
        waiter: None,
        its: 0,
    };
    stores::hold_hub(t, ts, h, m);
    moves::give_answer(t, ts, caller, rules::OK, 0);
    meet_all(t, ts, keys, h, word);
}

// "The word of a put to a Port or FIFO is kept; any other word is stored as 0."
fn kept_word(kind: u32, side: u32, word: u64) -> u64
    ensures upper_bound { result ≤ word }
    ensures value { (h : Hub) (c : Call) → kind ≡ h.kind → side ≡ c.side → word ≡ message c → result ≡ kept h c }
{
    if (side == rules::PUT) & rules::bears_word(kind) {
        word
    } else {
        0
    }
}

// "gets state 3, the hub, side and ticks, answer 0"
fn make_waiting(t: &mut [u32], ts: TaskSize, c: Call, word: u64)
    requires table { Table ts.words t.old }
    requires caller_bound { c.caller < 16 }
    requires target_bound { c.target < 16 }
    requires word_bound { word < messages (width ts.words) }
    ensures { (L : Layout) (s : State) → Laid ts.words L → length s.tasks ≤ 16 → c.caller < length s.tasks
        → t.old ≡ words L s
        → t.new ≡ words L (set_task c.caller (waits c.target c.ticks c.side word (task s c.caller)) s) }
{
    let caller = TaskNo(c.caller as usize);
    let x = moves::task_at(&*t, ts, caller);
    moves::set_task(
        t,
        ts,
        caller,
        TaskRecord {
            state: rules::WAITING,
            hub: c.target + 1,
            ticks: c.ticks,
            side: c.side,
            word,
            answer: 0,
            ..x
        },
    );
}

// "the caller leaves the ready list, ... and joins the hub's list behind all entries of its own or a more urgent priority"
// The place at which it joins is how many stand before it.
fn wait_there(t: &mut [u32], ts: TaskSize, keys: &[u32], c: Call) -> u32
    requires table { Table ts.words t.old }
    requires caller_bound { c.caller < 16 }
    requires target_bound { c.target < 16 }
    requires c_bound { message c < messages (width ts.words) }
    ensures { (L : Layout) (s : State) → Laid ts.words L → Sound s → c.caller < length s.tasks
        → c.target < length s.hubs
        → t.old ≡ words L s → Leaves L (wait (key_of keys.now) s c) c result t.new }
{
    let caller = TaskNo(c.caller as usize);
    let h = HubNo(c.target as usize);
    let x = stores::hub_at(&*t, ts, h);
    let word = kept_word(x.kind, c.side, messages::joined(c.word, c.high));
    moves::leave_list(t, ts, caller);
    make_waiting(t, ts, c, word);
    moves::join_hub(t, ts, keys, h, caller) as u32
}

// "FAIL in every mode", and "'not now' under NW answers 2": nothing changes but the caller's answer and word.
fn fail(t: &mut [u32], ts: TaskSize, caller: TaskNo)
    requires table { Table ts.words t.old }
    requires caller_bound { caller.0 < 16 }
    ensures { (L : Layout) (s : State) → Laid ts.words L → length s.tasks ≤ 16 → caller.0 < length s.tasks
        → t.old ≡ words L s
        → t.new ≡ words L (answer caller.0 2 0 s) }
{
    moves::give_answer(t, ts, caller, rules::FAIL, 0);
}

// Any request but the update of a Board: met, failed, or not now, which under NW fails and under W and WT waits.
fn settle(t: &mut [u32], ts: TaskSize, keys: &[u32], c: Call) -> u32
    requires table { Table ts.words t.old }
    requires caller_bound { c.caller < 16 }
    requires target_bound { c.target < 16 }
    requires c_bound { message c < messages (width ts.words) }
    ensures { (L : Layout) (s : State) → Laid ts.words L → Valid s → refusal_for HubRequest s c ≡ 0
        → ((hub s c.target).kind ≡ 6 → c.side ≡ 1 → ⊥) → t.old ≡ words L s
        → Leaves L (serve (key_of keys.now) HubRequest s c) c result t.new }
{
    let caller = TaskNo(c.caller as usize);
    let v = verdicts::judge(&*t, ts, c);
    match v {
        Verdict::Met(m) => {
            meet(t, ts, keys, c, m);
            0
        }
        Verdict::Fail => {
            fail(t, ts, caller);
            0
        }
        Verdict::NotNow => {
            if Mode::of(c.mode) == Some(Mode::Nw) {
                fail(t, ts, caller);
                0
            } else {
                wait_there(t, ts, keys, c)
            }
        }
    }
}

// Service 1, accepted.
pub fn request(t: &mut [u32], ts: TaskSize, keys: &[u32], c: Call) -> Served
    requires table { Table ts.words t.old }
    requires caller_bound { c.caller < 16 }
    requires target_bound { c.target < 16 }
    requires c_bound { message c < messages (width ts.words) }
    ensures { (L : Layout) (s : State) → Laid ts.words L → Valid s → refusal_for HubRequest s c ≡ 0
        → t.old ≡ words L s
        → Leaves L (serve (key_of keys.now) HubRequest s c) c result.ahead t.new }
{
    let x = stores::hub_at(&*t, ts, HubNo(c.target as usize));
    if (Kind::of(x.kind) == Some(Kind::Board)) & (c.side == rules::PUT) {
        update(t, ts, keys, c);
        Served { ahead: 0 }
    } else {
        let ahead = settle(t, ts, keys, c);
        Served { ahead }
    }
}
