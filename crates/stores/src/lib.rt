// A hub of a table that holds a state: its record and its store, read (`hub_at`, `held_at`, of a Memory hub's marks `is_out` and
// `lowest_free`), and what a meeting does to its count and store (`hold_hub`).
// Not here: what the hub says of a request (crate verdicts), its list of waiters (crate moves).
#![tactic(auto)]

ghost use Rattle.std.specs.Prelude.{◌<◌, ◌≤◌, drop, get_or, length, set, [], ◌++◌, ◌∷◌, ◌≡◌};
ghost use Rattle.hubtable.specs.Says.{RecordOf, StoreBelow, store_after};
ghost use Rattle.messages.specs.Messages.{messages};
ghost use Rattle.records.specs.Records.{Table, width};
ghost use Rattle.rules.proofs.Layouts.{Laid};
ghost use Rattle.rules.proofs.Valid.{Held};
ghost use Rattle.rules.specs.Calls.{hold};
ghost use Rattle.rules.specs.HubTable.{is_out, lowest_free};
ghost use Rattle.rules.specs.Table.{Layout, State, hub, kind_of, words};
ghost use Rattle.stores.specs.Fits.{StoreFits};

use hubtable::{Meeting, Store};
use records::{HubNo, HubRecord, TaskSize};

// The record of hub h.
pub fn hub_at(t: &[u32], ts: TaskSize, h: HubNo) -> HubRecord
    requires table { Table ts.words t.now }
    requires h_bound { h.0 ≤ 4294967295 }
    ensures { (L : Layout) (s : State) → Laid ts.words L → length s.hubs ≤ 16 → h.0 < length s.hubs
        → t.now ≡ words L s
        → RecordOf result (hub s h.0) }
{
    records::hub(t, records::hubs_at(ts.words), h)
}

// Message k of the 8 in hub h's store, 0 where it holds fewer.
pub fn held_at(t: &[u32], ts: TaskSize, h: HubNo, k: usize) -> u64
    requires table { Table ts.words t.now }
    requires h_bound { h.0 < 16 }
    requires k_bound { k < 8 }
    ensures upper_bound { result < messages (width ts.words) }
    ensures value { (L : Layout) (s : State) → Laid ts.words L → h.0 < length s.hubs → t.now ≡ words L s
        → result ≡ get_or (hub s h.0).held k 0 }
{
    let v = records::width_of(ts.words);
    messages::message(t, records::store_at(ts, h) + k * v, v)
}

// Memory: whether block b of hub h is out. A number from 8 on has no mark.
pub fn is_out(t: &[u32], ts: TaskSize, h: HubNo, b: u64) -> bool
    requires table { Table ts.words t.now }
    requires h_bound { h.0 < 16 }
    ensures { (L : Layout) (s : State) → Laid ts.words L → h.0 < length s.hubs → length (hub s h.0).held ≤ 8
        → t.now ≡ words L s
        → result ≡ is_out b (hub s h.0) }
{
    if b < records::STORE_MESSAGES as u64 {
        held_at(t, ts, h, b as usize) == 1
    } else {
        false
    }
}

// Memory: the lowest free block of hub h, the first whose mark is 0; its limit where none is.
pub fn lowest_free(t: &[u32], ts: TaskSize, h: HubNo) -> u64
    requires table { Table ts.words t.now }
    requires h_bound { h.0 < 16 }
    ensures upper_bound { result ≤ 8 }
    ensures value { (L : Layout) (s : State) → Laid ts.words L → h.0 < length s.hubs → length (hub s h.0).held ≤ 8
        → t.now ≡ words L s
        → result ≡ lowest_free (hub s h.0) }
{
    for b in 0..records::STORE_MESSAGES {
        if held_at(t, ts, h, b) == 0 {
            return b as u64;
        }
    }
    records::STORE_MESSAGES as u64
}

// The oldest message goes out of hub h's store.
fn take_oldest(t: &mut [u32], ts: TaskSize, h: HubNo)
    requires table { Table ts.words t.old }
    requires h_bound { h.0 < 16 }
    ensures { (L : Layout) (s : State) → Laid ts.words L → h.0 < length s.hubs → length (hub s h.0).held ≤ 8
        → t.old ≡ words L s
        → t.new ≡ words L (hold h.0 (hub s h.0).count (drop 1 (hub s h.0).held) s) }
{
    let a = records::store_at(ts, h);
    let n = records::store_size(ts);
    lists::remove_first(&mut t[a..a + n], records::width_of(ts.words));
}

// A message goes into hub h's store behind the n messages held.
fn append_word(t: &mut [u32], ts: TaskSize, h: HubNo, n: usize, w: u64)
    requires table { Table ts.words t.old }
    requires h_bound { h.0 < 16 }
    requires w_bound { w < messages (width ts.words) }
    ensures { (L : Layout) (s : State) → Laid ts.words L → h.0 < length s.hubs → n ≡ length (hub s h.0).held
        → n < 8
        → t.old ≡ words L s
        → t.new ≡ words L (hold h.0 (hub s h.0).count ((hub s h.0).held ++ w ∷ []) s) }
{
    let v = records::width_of(ts.words);
    if n < records::STORE_MESSAGES {
        messages::set_message(t, records::store_at(ts, h) + n * v, v, w);
    }
}

// Memory: mark b of the n in hub h's store becomes m; a number from n on has none.
fn set_mark(t: &mut [u32], ts: TaskSize, h: HubNo, n: usize, b: u64, m: u64)
    requires table { Table ts.words t.old }
    requires h_bound { h.0 < 16 }
    requires m_bound { m < messages (width ts.words) }
    ensures { (L : Layout) (s : State) → Laid ts.words L → h.0 < length s.hubs → n ≡ length (hub s h.0).held
        → n ≤ 8
        → t.old ≡ words L s
        → t.new ≡ words L (hold h.0 (hub s h.0).count (set (hub s h.0).held b m) s) }
{
    let v = records::width_of(ts.words);
    if n <= records::STORE_MESSAGES {
        if b < n as u64 {
            messages::set_message(t, records::store_at(ts, h) + b as usize * v, v, m);
        }
    }
}

// What a verdict does to hub h's store, which holds n messages.
fn change_store(t: &mut [u32], ts: TaskSize, h: HubNo, n: usize, store: Store)
    requires table { Table ts.words t.old }
    requires h_bound { h.0 < 16 }
    requires store_below { StoreBelow (messages (width ts.words)) store }
    ensures { (L : Layout) (s : State) → Laid ts.words L → h.0 < length s.hubs
        → n ≡ length (hub s h.0).held → StoreFits store (hub s h.0).held
        → t.old ≡ words L s
        → t.new ≡ words L (hold h.0 (hub s h.0).count (store_after store (hub s h.0).held) s) }
{
    match store {
        Store::Keep => {}
        Store::Append(w) => {
            append_word(t, ts, h, n, w);
        }
        Store::Take => {
            take_oldest(t, ts, h);
        }
        Store::TakeAppend(w) => {
            take_oldest(t, ts, h);
            append_word(t, ts, h, n.saturating_sub(1), w);
        }
        Store::Out(b) => {
            set_mark(t, ts, h, n, b, 1);
        }
        Store::Back(b) => {
            set_mark(t, ts, h, n, b, 0);
        }
    }
}

// The count and the store of hub h after a meeting.
pub fn hold_hub(t: &mut [u32], ts: TaskSize, h: HubNo, m: Meeting)
    requires table { Table ts.words t.old }
    requires h_bound { h.0 < 16 }
    requires store_below { StoreBelow (messages (width ts.words)) m.store }
    ensures { (L : Layout) (s : State) → Laid ts.words L → length s.hubs ≤ 16 → h.0 < length s.hubs
        → Held (kind_of (hub s h.0).kind) (hub s h.0) → StoreFits m.store (hub s h.0).held
        → t.old ≡ words L s
        → t.new ≡ words L (hold h.0 m.count (store_after m.store (hub s h.0).held) s) }
{
    let x = hub_at(&*t, ts, h);
    let n = rules::stored(x.kind, x.count, x.limit) as usize;
    let store = m.store;
    change_store(t, ts, h, n, store);
    records::set_count(t, records::hubs_at(ts.words), h, m.count);
}
