// The hub table of document 01: what a hub says of a put, a get or a wipe, by its record, the first waiter of the other side and, of
// a get, the words that may be received. Of a Memory hub's blocks it is told which is the lowest that is free, and whether the one
// named is out.
// A message is one number; what a verdict says of messages is below any bound that those handed in are below.
// Not here: where the words stand in the table, and what a verdict does to it.
#![tactic(auto)]

ghost use Rattle.std.specs.Prelude.{◌<◌, suc, ℕ, eqb, get_or, length, List, [], ◌≡◌};
ghost use Rattle.hubtable.specs.Says.{Below, RecordOf, StoreBelow, met_with, says, store_after};
ghost use Rattle.records.specs.Entries.{Low, numbered};
ghost use Rattle.rules.proofs.Valid.{Held, Range};
ghost use Rattle.rules.specs.HubTable.{get_board, get_fifo, get_memory, get_port, get_resource, get_semaphore, is_out, lowest_free, met, on_get, on_put, on_wipe, put_fifo, put_memory, put_port, put_resource, put_semaphore};
ghost use Rattle.rules.specs.Table.{Hub, Memory, State, kind_of, task};
ghost use Rattle.std.proofs.Math.Option.{some};

use records::{HubRecord, TaskNo};
use rules::Kind;

// What becomes of the messages held. Of a Memory hub's marks: this block is out, this block is back.
#[derive(Clone, Copy)]
pub enum Store {
    Keep,
    Append(u64),
    Take,
    TakeAppend(u64),
    Out(u64),
    Back(u64),
}

// What a met request does: the hub's count and words held, the caller's word, the waiter met with it, and its word.
#[derive(Clone, Copy)]
pub struct Meeting {
    pub count: u32,
    pub store: Store,
    pub word: u64,
    pub waiter: Option<TaskNo>,
    pub its: u64,
}

#[derive(Clone, Copy)]
pub enum Verdict {
    Met(Meeting),
    NotNow,
    Fail,
}

// Met by the hub alone.
fn alone(count: u32, store: Store, word: u64) -> Verdict
    ensures by_index { (held : List ℕ) → says held result ≡ met count (store_after store held) word [] }
    ensures by_index_2 { (b : ℕ) → StoreBelow b store → word < b → Below b result }
{
    Verdict::Met(Meeting {
        count,
        store,
        word,
        waiter: None,
        its: 0,
    })
}

// Met together with a waiter.
fn pair(count: u32, store: Store, word: u64, waiter: TaskNo, its: u64) -> Verdict
    ensures by_index { (held : List ℕ)
        → says held result ≡ met count (store_after store held) word (met_with (some waiter.0) its) }
    ensures by_index_2 { (b : ℕ) → StoreBelow b store → word < b → its < b → Below b result }
{
    Verdict::Met(Meeting {
        count,
        store,
        word,
        waiter: Some(waiter),
        its,
    })
}

// A Resource's count is its owner plus 1; 0 is free.
fn owns(caller: u32, count: u32) -> bool
    ensures { result ≡ eqb count (suc caller) }
{
    if count == 0 {
        return false;
    }
    count - 1 == caller
}

// "a getter waits: the first is met, count stays 0. Else below limit: plus 1. Else not now"
fn put_counted(h: HubRecord, waiter: Option<TaskNo>) -> Verdict
    ensures result_value { (x : Hub) → RecordOf h x → says x.held result ≡ put_semaphore (numbered waiter) x }
    ensures by_index { (b : ℕ) → 0 < b → Below b result }
{
    if let Some(waiter) = waiter {
        return pair(h.count, Store::Keep, 0, waiter, 0);
    }
    if h.count < h.limit {
        return alone(h.count + 1, Store::Keep, 0);
    }
    Verdict::NotNow
}

// "a getter waits: the first is met with this word. Else not now"
fn put_port(h: HubRecord, waiter: Option<TaskNo>, word: u64) -> Verdict
    ensures result_value { (x : Hub) → RecordOf h x → says x.held result ≡ put_port (numbered waiter) x word }
    ensures by_index { (b : ℕ) → 0 < b → word < b → Below b result }
{
    match waiter {
        Some(waiter) => pair(h.count, Store::Keep, 0, waiter, word),
        None => Verdict::NotNow,
    }
}

// "a getter waits: the first is met with this word. Else below limit: appended. Else not now"
fn put_fifo(h: HubRecord, waiter: Option<TaskNo>, word: u64) -> Verdict
    ensures result_value { (x : Hub) → RecordOf h x → says x.held result ≡ put_fifo (numbered waiter) x word }
    ensures by_index { (b : ℕ) → 0 < b → word < b → Below b result }
{
    if let Some(waiter) = waiter {
        return pair(h.count, Store::Keep, 0, waiter, word);
    }
    if h.limit <= h.count {
        return Verdict::NotNow;
    }
    alone(h.count + 1, Store::Append(word), 0)
}

// "caller owns it: first waiter, if any, is met and becomes owner, else free. Otherwise FAIL in every mode"
fn put_resource(h: HubRecord, waiter: Option<TaskNo>, caller: u32) -> Verdict
    ensures result_value { (x : Hub) → RecordOf h x → Low waiter → says x.held result ≡ put_resource (numbered waiter) x caller }
    ensures by_index { (b : ℕ) → 0 < b → Below b result }
{
    if owns(caller, h.count) {
        if let Some(waiter) = waiter {
            return pair(records::entry_of(waiter), Store::Keep, 0, waiter, 0);
        }
        return alone(0, Store::Keep, 0);
    }
    Verdict::Fail
}

// "above 0: a putter waits, the first is met and count stays; else minus 1. At 0: not now"
fn get_counted(h: HubRecord, waiter: Option<TaskNo>) -> Verdict
    ensures result_value { (x : Hub) → RecordOf h x → says x.held result ≡ get_semaphore (numbered waiter) x }
    ensures by_index { (b : ℕ) → 0 < b → Below b result }
{
    if h.count == 0 {
        return Verdict::NotNow;
    }
    if let Some(waiter) = waiter {
        return pair(h.count, Store::Keep, 0, waiter, 0);
    }
    alone(h.count - 1, Store::Keep, 0)
}

// "a putter waits: the first is met and its word taken. Else not now"
fn get_port(h: HubRecord, waiter: Option<TaskNo>, its: u64) -> Verdict
    ensures result_value { (x : Hub) (s : State) → RecordOf h x → ((w : ℕ) → numbered waiter ≡ some w → its ≡ (task s w).word)
        → says x.held result ≡ get_port s (numbered waiter) x }
    ensures by_index { (b : ℕ) → 0 < b → its < b → Below b result }
{
    match waiter {
        Some(waiter) => pair(h.count, Store::Keep, its, waiter, 0),
        None => Verdict::NotNow,
    }
}

// "holds a word: oldest taken; if a putter waits, the first is met and its word appended. Empty: not now"
fn get_fifo(h: HubRecord, waiter: Option<TaskNo>, its: u64, oldest: u64) -> Verdict
    ensures result_value { (x : Hub) (s : State) → RecordOf h x → x.count ≡ length x.held
        → ((w : ℕ) → numbered waiter ≡ some w → its ≡ (task s w).word) → oldest ≡ get_or x.held 0 0
        → says x.held result ≡ get_fifo s x.held (numbered waiter) x }
    ensures by_index { (b : ℕ) → 0 < b → its < b → oldest < b → Below b result }
{
    if h.count == 0 {
        return Verdict::NotNow;
    }
    if let Some(waiter) = waiter {
        return pair(h.count, Store::TakeAppend(its), oldest, waiter, 0);
    }
    alone(h.count - 1, Store::Take, oldest)
}

// "free: caller owns it. Owned by caller: FAIL in every mode. Owned by another: not now"
fn get_resource(h: HubRecord, caller: u32) -> Verdict
    requires { caller < 4294967295 }
    ensures result_value { (x : Hub) → RecordOf h x → says x.held result ≡ get_resource x caller }
    ensures by_index { (b : ℕ) → 0 < b → Below b result }
{
    if h.count == 0 {
        return alone(caller + 1, Store::Keep, 0);
    }
    if owns(caller, h.count) {
        Verdict::Fail
    } else {
        Verdict::NotNow
    }
}

// Board: "reads without taking, its word the board's; on an unwritten board it is 'not now'"
fn get_board(h: HubRecord, word: u64) -> Verdict
    ensures result_value { (x : Hub) → RecordOf h x → x.count ≡ length x.held → word ≡ get_or x.held 0 0
        → says x.held result ≡ get_board x.held x }
    ensures by_index { (b : ℕ) → word < b → Below b result }
{
    if h.count == 0 {
        return Verdict::NotNow;
    }
    alone(h.count, Store::Keep, word)
}

// Memory: "Put gives a block back; a number not out is FAIL in every mode. With getters waiting, the block returned goes to the first
// and stays marked." Where a block is out, not all are free.
pub fn put_memory(h: HubRecord, waiter: Option<TaskNo>, block: u64, out: bool) -> Verdict
    ensures result_value { (x : Hub) (T : ℕ) → RecordOf h x → Range Memory T x → Held Memory x → out ≡ is_out block x
        → says x.held result ≡ put_memory (numbered waiter) x block }
    ensures by_index { (b : ℕ) → 0 < b → block < b → Below b result }
{
    if out {
        if let Some(waiter) = waiter {
            return pair(h.count, Store::Keep, 0, waiter, block);
        }
        if h.limit > h.count {
            return alone(h.count + 1, Store::Back(block), 0);
        }
    }
    Verdict::Fail
}

// Memory: "takes the lowest free block and receives its number as word"; "not now" when no block is free
pub fn get_memory(h: HubRecord, lowest: u64) -> Verdict
    ensures result_value { (x : Hub) → RecordOf h x → lowest ≡ lowest_free x → says x.held result ≡ get_memory x }
    ensures by_index { (b : ℕ) → lowest < b → Below b result }
{
    if h.count == 0 {
        return Verdict::NotNow;
    }
    alone(h.count - 1, Store::Out(lowest), lowest)
}

// Board: "always OK, and store and count become 0": it holds at most one word, the oldest. Any other kind's wipe is refused
// before it comes here.
pub fn on_wipe(h: HubRecord) -> Verdict
    ensures result_value { (x : Hub) (T : ℕ) → RecordOf h x → Range (kind_of x.kind) T x → Held (kind_of x.kind) x
        → says x.held result ≡ on_wipe (kind_of x.kind) }
    ensures by_index { (b : ℕ) → 0 < b → Below b result }
{
    if Kind::of(h.kind) == Some(Kind::Board) {
        return alone(0, Store::Take, 0);
    }
    Verdict::Fail
}

// A put by the caller of this word, where waiter is the first getter that waits. An Event runs as a Semaphore of limit 1.
// Not here: a block given back (`put_memory`), and the update of a Board, which meets every waiter (crate requests).
pub fn on_put(h: HubRecord, waiter: Option<TaskNo>, caller: u32, word: u64) -> Verdict
    ensures result_value { (x : Hub) (s : State) (T : ℕ) → RecordOf h x → Range (kind_of x.kind) T x → (x.kind ≡ 6 → ⊥)
        → (x.kind ≡ 7 → ⊥) → Low waiter
        → says x.held result ≡ on_put (kind_of x.kind) s (numbered waiter) x caller word }
    ensures by_index { (b : ℕ) → 0 < b → word < b → Below b result }
{
    let Some(kind) = Kind::of(h.kind) else {
        return Verdict::Fail;
    };
    match kind {
        Kind::Event | Kind::Semaphore => put_counted(h, waiter),
        Kind::Port => put_port(h, waiter, word),
        Kind::Fifo => put_fifo(h, waiter, word),
        Kind::Resource => put_resource(h, waiter, caller),
        Kind::Board | Kind::Memory => Verdict::Fail,
    }
}

// A get by the caller, where waiter is the first putter that waits, its is that putter's word and oldest the first word held.
// Not here: a block taken (`get_memory`).
pub fn on_get(h: HubRecord, waiter: Option<TaskNo>, its: u64, oldest: u64, caller: u32) -> Verdict
    requires { caller < 4294967295 }
    ensures result_value { (x : Hub) (s : State) (T : ℕ) → RecordOf h x → Range (kind_of x.kind) T x
        → Held (kind_of x.kind) x → (x.kind ≡ 7 → ⊥)
        → ((w : ℕ) → numbered waiter ≡ some w → its ≡ (task s w).word) → oldest ≡ get_or x.held 0 0
        → says x.held result ≡ on_get (kind_of x.kind) s (numbered waiter) x caller }
    ensures by_index { (b : ℕ) → 0 < b → its < b → oldest < b → Below b result }
{
    let Some(kind) = Kind::of(h.kind) else {
        return Verdict::Fail;
    };
    match kind {
        Kind::Event | Kind::Semaphore => get_counted(h, waiter),
        Kind::Port => get_port(h, waiter, its),
        Kind::Fifo => get_fifo(h, waiter, its, oldest),
        Kind::Resource => get_resource(h, caller),
        Kind::Board => get_board(h, oldest),
        Kind::Memory => Verdict::Fail,
    }
}
