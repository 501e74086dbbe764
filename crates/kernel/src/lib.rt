// The hub kernel: one call on one table, for any words and any eight numbers. Numbers in, one look at the table, one service,
// numbers out. `call` and `summary` are the public promise, over both editions; each function above them says what it does to
// every state that a table of any layout holds.
#![tactic(auto)]

ghost use Rattle.std.specs.Prelude.{◌<◌, ◌≤◌, IfOk, Some, false, get_or, length, true, ◌≡◌, ◌≢◌};
ghost use Rattle.kernel.specs.Promise.{Accepts, Called, CalledIn, Judged, ServedIn};
ghost use Rattle.moves.specs.Moves.{key_of};
ghost use Rattle.records.specs.Records.{Table};
ghost use Rattle.rules.proofs.Layouts.{Laid};
ghost use Rattle.rules.specs.Calls.{AddTask, add_started, serve, served, service_of};
ghost use Rattle.rules.specs.Effective.{effective};
ghost use Rattle.rules.specs.Refusals.{refusal_in};
ghost use Rattle.rules.specs.Reply.{bears_answer, outcome, refusal_number, summary_of};
ghost use Rattle.rules.specs.Services.{service_named};
ghost use Rattle.rules.specs.Table.{Layout, State, read, words};

use records::{TaskNo, TaskSize};
use rules::{Call, Kind, Outcome, Refusal, Reply, Served, Service, Summary};

// "Refusal numbers, tested in this order": 1 to 3 here, then the service's own. Of a table that is well formed `keys` then holds each
// task's effective priority, which the test of order has asked for: the call joins lists by them. An accepted call's service comes back.
fn refusal_of(t: &[u32], ts: TaskSize, c: Call, keys: &mut [u32; 16]) -> Result<Service, Refusal>
    ensures judged { (L : Layout) → Laid ts.words L → Judged L t.now c (refusal_number result) keys.new }
    ensures named { IfOk result (λ v. service_named (Some v) ≡ service_of c.service) }
{
    rules::need(t.len() == records::table_size(ts), Refusal::WrongLength)?;
    let service = Service::of(c.service);
    if service == Some(Service::Blank) {
        return Ok(Service::Blank);
    }
    rules::need(
        wellformed::well_formed_keys(t, ts, keys),
        Refusal::NotWellFormed,
    )?;
    let service = service.ok_or(Refusal::UnknownService)?;
    refusals::for_service(t, ts, c)?;
    Ok(service)
}

// "side 1 starts it at once": a task is added, and joins by its own priority.
fn add_started(t: &mut [u32], ts: TaskSize, keys: &[u32; 16], priority: u32)
    requires table { Table ts.words t.old }
    requires t_bound { get_or t.old 1 0 < 16 }
    ensures { (L : Layout) (s : State) → Laid ts.words L → length s.tasks < 16 → t.old ≡ words L s
        → t.new ≡ words L (add_started (key_of keys.now) priority s) }
{
    let n = t[records::TASKS] as usize;
    setup::add_task(t, ts, priority);
    moves::make_ready(t, ts, TaskNo(n), 0, 0);
    let mut added = *keys;
    added[n] = priority;
    moves::join_ready(t, ts, &added, TaskNo(n));
}

// "Add task: target is priority, side 1 starts it at once, side 0 doesn't."
fn serve_add_task(t: &mut [u32], ts: TaskSize, keys: &[u32; 16], c: Call)
    requires table { Table ts.words t.old }
    requires t_bound { get_or t.old 1 0 < 16 }
    ensures { (L : Layout) (s : State) → Laid ts.words L → length s.tasks < 16 → t.old ≡ words L s
        → t.new ≡ words L (serve (key_of keys.now) AddTask s c) }
{
    if c.side == 1 {
        add_started(t, ts, keys, c.target);
    } else {
        setup::add_task(t, ts, c.target);
    }
}

// One accepted call's service, by the keys that it is given, and what it hands up: only a hub request has any ahead.
fn serve(t: &mut [u32], ts: TaskSize, keys: &[u32; 16], service: Service, c: Call) -> Served
    requires accepts { Accepts ts.words t.old c }
    requires named { service_named (Some service) ≡ service_of c.service }
    ensures { (L : Layout) → Laid ts.words L → refusal_in L t.old c ≡ 0
        → ServedIn L (serve (key_of keys.now) (service_of c.service) (read L t.old) c) c result t.new }
{
    match service {
        Service::Blank => setup::blank(t, ts),
        Service::HubRequest => return requests::request(t, ts, keys, c),
        Service::Start => tasks::start_task(t, ts, keys, c),
        Service::Stop => tasks::stop_task(t, ts, keys, c),
        Service::Suspend => tasks::suspend_task(t, ts, c),
        Service::Resume => tasks::resume_task(t, ts, c),
        Service::Yield => tasks::yield_turn(t, ts, keys, c),
        Service::Sleep => tasks::sleep_task(t, ts, c),
        Service::Tick => clock::tick(t, ts, keys),
        Service::AddTask => serve_add_task(t, ts, keys, c),
        Service::AddHub => setup::add_hub(t, ts, c.target, c.ticks, c.word),
    }
    Served { ahead: 0 }
}

// Whether a call leaves who waits for whose lock as it was, so that no effective priority changes: Start, Suspend, Resume, Yield
// and Sleep do, and a hub request at any hub but a Resource. After Blank there is no task.
fn is_calm(t: &[u32], ts: TaskSize, service: Service, c: Call) -> bool
    requires accepts { Accepts ts.words t.now c }
    requires named { service_named (Some service) ≡ service_of c.service }
    ensures calm { (L : Layout) → Laid ts.words L → refusal_in L t.now c ≡ 0 → result ≡ true
        → served (read L t.now) c
        ≡ serve (effective (read L t.now)) (service_of c.service) (read L t.now) c }
    ensures not_blank { result ≡ false → c.service ≢ 0 }
{
    match service {
        Service::Blank
        | Service::Start
        | Service::Suspend
        | Service::Resume
        | Service::Yield
        | Service::Sleep => true,
        Service::HubRequest => {
            let kind = t[records::hubs_at(ts.words) + (c.target as usize) * records::HUB_SIZE];
            Kind::of(kind) != Some(Kind::Resource)
        }
        Service::Stop | Service::Tick | Service::AddTask | Service::AddHub => false,
    }
}

// One accepted call: its service by the effective priorities before it, and at its end all tasks whose effective priority changed
// are put in order (M-108); the number ahead is the same before that and after. After a calm call nobody is asked.
fn serve_call(t: &mut [u32], ts: TaskSize, keys: &[u32; 16], service: Service, c: Call) -> Served
    requires accepts { Accepts ts.words t.old c }
    requires named { service_named (Some service) ≡ service_of c.service }
    ensures { (L : Layout) → Laid ts.words L → Judged L t.old c 0 keys.now
        → ServedIn L (served (read L t.old) c) c result t.new }
{
    let n = t[records::TASKS] as usize;
    let calm = is_calm(&*t, ts, service, c);
    let served = serve(t, ts, keys, service, c);
    if !calm {
        reorder::reorder(t, ts, keys, n);
    }
    served
}

// "For services 1 to 7 the answer is the caller's answer word after the call; for 0, 8, 9 and 10 it is 0."
#[tactic(auto, unfolding(rules::specs::Reply::bears_answer))]
fn bears_answer(service: Service) -> bool
    ensures { result ≡ bears_answer (service_named (Some service)) }
{
    match service {
        Service::HubRequest
        | Service::Start
        | Service::Stop
        | Service::Suspend
        | Service::Resume
        | Service::Yield
        | Service::Sleep => true,
        Service::Blank | Service::Tick | Service::AddTask | Service::AddHub => false,
    }
}

// "nothing yet (answer 0), OK 1, FAIL 2"
fn outcome_of(t: &[u32], ts: TaskSize, service: Service, c: Call) -> Outcome
    requires table { Table ts.words t.now }
    requires named { service_named (Some service) ≡ service_of c.service }
    ensures { (L : Layout) (s : State) → Laid ts.words L → length s.tasks ≤ 16
        → (bears_answer (service_of c.service) ≡ true → c.caller < length s.tasks)
        → t.now ≡ words L s → result ≡ outcome s c }
{
    if !bears_answer(service) {
        return Outcome::NothingYet;
    }
    let x = moves::task_at(t, ts, TaskNo(c.caller as usize));
    let answer = x.answer;
    match answer {
        rules::OK => Outcome::Ok,
        rules::FAIL => Outcome::Fail,
        _ => Outcome::NothingYet,
    }
}

// A call: refused under its number with the table untouched, or served and answered.
fn call_in(t: &mut [u32], ts: TaskSize, c: Call) -> Reply
    ensures { (L : Layout) → Laid ts.words L → CalledIn L t.old c result t.new }
{
    let mut keys = [0u32; 16];
    let service = match refusal_of(&*t, ts, c, &mut keys) {
        Ok(service) => service,
        Err(refusal) => {
            return Reply {
                answer: Err(refusal),
                next: 0,
                ahead: 0,
            };
        }
    };
    let served = serve_call(t, ts, &keys, service, c);
    Reply {
        answer: Ok(outcome_of(&*t, ts, service, c)),
        next: refusals::next(&*t, ts),
        ahead: served.ahead,
    }
}

// A call on a table of either edition: the one that fits its length.
pub fn call(t: &mut [u32], c: Call) -> Reply
    ensures { Called t.old c result t.new }
{
    let ts = records::task_size(t.len());
    call_in(t, ts, c)
}

// "Hub summary: given a table and a hub, one word with bit i set when task i waits there, and the number of set bits as count."
pub fn summary(t: &[u32], hub: u32) -> Result<Summary, Refusal>
    ensures { result ≡ summary_of t.now hub }
{
    let ts = records::task_size(t.len());
    summaries::summarise(t, ts, hub)
}
