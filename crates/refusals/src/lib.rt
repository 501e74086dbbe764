// "Refusal numbers, tested in this order": 1 and 2 of a table, 3 to 7 of a call on it, and the running task, read from words.
// Any words, any length, any numbers: where the words are those of a state, the answer is the rules'.
// Not here: when a table is well formed (crate wellformed).
#![tactic(auto)]

ghost use Rattle.std.specs.Prelude.{◌<◌, ◌≤◌, suc, eqb, leb, ltb, ◌&&◌, IfSome, not, ◌≡◌};
ghost use Rattle.records.specs.Records.{task_at};
ghost use Rattle.refusals.specs.Lookup.{found_hub, hubs_in, kind_in, next_number, tasks_in};
ghost use Rattle.rules.proofs.Layouts.{Laid};
ghost use Rattle.rules.proofs.Valid.{Listed, Room, Valid};
ghost use Rattle.rules.specs.Lists.{next};
ghost use Rattle.rules.specs.Refusals.{by_running, good_hub, good_message, good_request, good_wait, last_side, mode_of, need, on_table, refusal, refusal_at};
ghost use Rattle.rules.specs.Reply.{refusal_number};
ghost use Rattle.rules.specs.Table.{Layout, State, kind_of, words};
ghost use Rattle.rules.specs.WellFormed.{within};

use records::{HubNo, TaskNo, TaskSize};
use rules::{Call, Kind, Mode, Refusal, Service};

// "Length isn't 600 words", "not well formed": a table of words, before anything else is asked of it.
pub fn for_table(t: &[u32], ts: TaskSize) -> Result<(), Refusal>
    ensures { (L : Layout) → Laid ts.words L → refusal_number result ≡ on_table L t.now 0 }
{
    rules::need(t.len() == records::table_size(ts), Refusal::WrongLength)?;
    rules::need(wellformed::well_formed(t, ts), Refusal::NotWellFormed)
}

// "Records 0 to T-1 and 0 to H-1 are in use": the number as a hub's, where it is.
pub fn find_hub(t: &[u32], n: u32) -> Option<HubNo>
    ensures { result ≡ found_hub t.now n }
{
    if n < lists::word(t, records::HUBS) {
        Some(HubNo(n as usize))
    } else {
        None
    }
}

// The flag of task i.
fn is_suspended(t: &[u32], ts: TaskSize, i: TaskNo) -> bool
    requires i_bound { i.0 ≤ 4294967295 }
    ensures { result ≡ not (eqb (task_at ts.words t.now i.0).suspended 0) }
{
    let x = records::task(t, ts, i);
    x.suspended != 0
}

// "The running task is the first task in the ready list that isn't suspended; there may be none."
fn running(t: &[u32], ts: TaskSize) -> Option<TaskNo>
    ensures number { (L : Layout) (s : State) → Laid ts.words L → Room s → Listed s → t.now ≡ words L s
        → next_number result ≡ next s }
    ensures low { IfSome result (λ i. i.0 < 4294967295) }
{
    let at = records::ready_at(ts.words);
    for k in 0..records::LIST_SIZE {
        let e = lists::word(t, at + k);
        if e == 0 {
            return None;
        }
        let i = TaskNo((e - 1) as usize);
        if !is_suspended(t, ts, i) {
            return Some(i);
        }
    }
    None
}

// "Next is the running task plus 1, or 0."
pub fn next(t: &[u32], ts: TaskSize) -> u32
    ensures { (L : Layout) (s : State) → Laid ts.words L → Room s → Listed s → t.now ≡ words L s
        → result ≡ next s }
{
    match running(t, ts) {
        Some(i) => i.0 as u32 + 1,
        None => 0,
    }
}

fn is_running(t: &[u32], ts: TaskSize, caller: u32) -> bool
    ensures { (L : Layout) (s : State) → Laid ts.words L → Room s → Listed s → t.now ≡ words L s
        → result ≡ eqb (next s) (suc caller) }
{
    match running(t, ts) {
        Some(i) => i.0 == caller as usize,
        None => false,
    }
}

// "1 to 1,000,000"
fn good_ticks(ticks: u32) -> bool
    ensures { result ≡ within 1 1000000 ticks }
{
    (1 <= ticks) & (ticks <= rules::MOST_TICKS)
}

// "mode 1 W, 2 NW, 3 WT with ticks"
#[tactic(auto, unfolding(rules::specs::Refusals::good_wait))]
fn good_wait(mode: u32, ticks: u32) -> bool
    ensures { result ≡ good_wait (mode_of mode) ticks }
{
    let Some(mode) = Mode::of(mode) else {
        return false;
    };
    match mode {
        Mode::W | Mode::Nw => ticks == 0,
        Mode::Wt => good_ticks(ticks),
    }
}

// "side 1 put, 2 get"; of a Board 3 wipe (M-103).
fn last_side(kind: u32) -> u32
    ensures { result ≡ last_side (kind_of kind) }
{
    if Kind::of(kind) == Some(Kind::Board) {
        rules::WIPE
    } else {
        rules::GET
    }
}

// Side, mode and ticks of a request at a hub of this kind.
fn good_request(kind: u32, c: Call) -> bool
    ensures { result ≡ good_request (kind_of kind) c }
{
    ((rules::PUT <= c.side) & (c.side <= last_side(kind))) & good_wait(c.mode, c.ticks)
}

// The kinds table: limit and start.
#[tactic(auto, unfolding(rules::specs::Refusals::good_hub))]
fn good_hub(kind: u32, limit: u32, start: u32) -> bool
    ensures { result ≡ good_hub (kind_of kind) limit start }
{
    let Some(kind) = Kind::of(kind) else {
        return false;
    };
    match kind {
        Kind::Event | Kind::Resource | Kind::Board => (limit == 1) & (start == 0),
        Kind::Semaphore => ((1 <= limit) & (limit <= rules::MOST_COUNT)) & (start <= limit),
        Kind::Port => (limit == 0) & (start == 0),
        Kind::Fifo => ((1 <= limit) & (limit <= rules::MOST_HELD)) & (start == 0),
        Kind::Memory => ((1 <= limit) & (limit <= rules::MOST_HELD)) & (start == limit),
    }
}

// 1 Hub request: "the hub is looked up before side, mode and ticks; an unused number ends the call there"
fn for_request(t: &[u32], ts: TaskSize, c: Call) -> Result<(), Refusal>
    ensures { refusal_number result ≡ need (ltb c.target (hubs_in t.now)) 5
        (need (good_request (kind_of (kind_in ts.words t.now c.target)) c) 6 0) }
{
    let h = find_hub(t, c.target).ok_or(Refusal::NotInUse)?;
    let x = records::hub(t, records::hubs_at(ts.words), h);
    rules::need(good_request(x.kind, c), Refusal::BadArgument)
}

// 2 Start, 3 Stop, 4 Suspend, 5 Resume.
fn for_task(t: &[u32], c: Call) -> Result<(), Refusal>
    ensures { refusal_number result ≡ need (ltb c.target (tasks_in t.now)) 5 0 }
{
    rules::need(c.target < lists::word(t, records::TASKS), Refusal::NotInUse)
}

// 7 Sleep.
fn for_sleep(c: Call) -> Result<(), Refusal>
    ensures { refusal_number result ≡ need (within 1 1000000 c.ticks) 6 0 }
{
    rules::need(good_ticks(c.ticks), Refusal::BadArgument)
}

// 9 Add task: "target is priority, side 1 starts it at once, side 0 doesn't".
fn for_add_task(t: &[u32], c: Call) -> Result<(), Refusal>
    ensures { refusal_number result ≡ need (leb c.target 255 && leb c.side 1) 6
        (need (ltb (tasks_in t.now) 16) 7 0) }
{
    rules::need(
        (c.target <= rules::LAST_PRIORITY) & (c.side <= 1),
        Refusal::BadArgument,
    )?;
    rules::need(
        lists::word(t, records::TASKS) < records::MOST_RECORDS,
        Refusal::Full,
    )
}

// 10 Add hub: "target is kind, ticks the limit, word the start".
fn for_add_hub(t: &[u32], c: Call) -> Result<(), Refusal>
    ensures { refusal_number result ≡ need (good_hub (kind_of c.target) c.ticks c.word) 6
        (need (ltb (hubs_in t.now) 16) 7 0) }
{
    rules::need(good_hub(c.target, c.ticks, c.word), Refusal::BadArgument)?;
    rules::need(
        lists::word(t, records::HUBS) < records::MOST_RECORDS,
        Refusal::Full,
    )
}

// "services 1 to 7: caller isn't the running task"
#[tactic(auto, unfolding(rules::specs::Refusals::by_running))]
fn by_running(t: &[u32], ts: TaskSize, c: Call) -> Result<(), Refusal>
    ensures { (L : Layout) (s : State) → Laid ts.words L → Room s → Listed s → t.now ≡ words L s
        → refusal_number result ≡ by_running s c 0 }
{
    rules::need(is_running(t, ts, c.caller), Refusal::NotRunning)
}

// Document 01's tests of a call on a table that is well formed, by service, each row's in the order of their numbers. Blank and
// Tick are never refused here.
fn by_service(t: &[u32], ts: TaskSize, c: Call) -> Result<(), Refusal>
    ensures { (L : Layout) (s : State) → Laid ts.words L → Valid s → Room s → t.now ≡ words L s
        → refusal_number result ≡ refusal s c }
{
    let Some(service) = Service::of(c.service) else {
        return Err(Refusal::UnknownService);
    };
    match service {
        Service::Blank | Service::Tick => Ok(()),
        Service::HubRequest => {
            by_running(t, ts, c)?;
            for_request(t, ts, c)
        }
        Service::Start | Service::Stop | Service::Suspend | Service::Resume => {
            by_running(t, ts, c)?;
            for_task(t, c)
        }
        Service::Yield => by_running(t, ts, c),
        Service::Sleep => {
            by_running(t, ts, c)?;
            for_sleep(c)
        }
        Service::AddTask => for_add_task(t, c),
        Service::AddHub => for_add_hub(t, c),
    }
}

// "with a high word above 0 a hub request on them is refusal 6" (M-105): only edition 2 has messages of two words.
fn good_message(ts: TaskSize, c: Call) -> bool
    ensures { (L : Layout) → Laid ts.words L → result ≡ good_message L c }
{
    (Service::of(c.service) != Some(Service::HubRequest))
        | ((2 <= records::width_of(ts.words)) | (c.high == 0))
}

// A call on a table that is well formed: refused, or not.
pub fn for_service(t: &[u32], ts: TaskSize, c: Call) -> Result<(), Refusal>
    ensures { (L : Layout) (s : State) → Laid ts.words L → Valid s → Room s → t.now ≡ words L s
        → refusal_number result ≡ refusal_at L s c }
{
    by_service(t, ts, c)?;
    rules::need(good_message(ts, c), Refusal::BadArgument)
}
