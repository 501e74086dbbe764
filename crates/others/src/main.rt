// Document 01's "Others to run", each through kernel::call on a table of edition 2, as the runner's is, with every reply printed as
// a line. The expected lines, the file `stdout`, are the second program's: tests/others/run makes the same calls through
// second_call and compares.
#![tactic(auto)]

ghost use Rattle.std.specs.Prelude.{◌<◌, ◌≤◌, length};

use rules::Call;

// A word more than the longer table has.
const LONGER: usize = records::TABLE_SIZE_TWO + 1;

// A Blank; the other calls say what differs from it.
const BLANK: Call = Call {
    service: rules::BLANK,
    caller: 0,
    target: 0,
    side: 0,
    mode: 0,
    ticks: 0,
    word: 0,
    high: 0,
};

const TICK: Call = Call {
    service: rules::TICK,
    ..BLANK
};

// A task, started.
fn task(priority: u32) -> Call {
    Call {
        service: rules::ADD_TASK,
        target: priority,
        side: 1,
        ..BLANK
    }
}

fn hub(kind: u32, limit: u32) -> Call {
    Call {
        service: rules::ADD_HUB,
        target: kind,
        ticks: limit,
        ..BLANK
    }
}

// A request at the first hub.
fn request(caller: u32, side: u32, mode: u32, ticks: u32) -> Call {
    Call {
        service: rules::HUB_REQUEST,
        caller,
        side,
        mode,
        ticks,
        ..BLANK
    }
}

// A call by the second task; where it is for a task, for the first.
fn by_second(service: u32) -> Call {
    Call {
        service,
        caller: 1,
        ..BLANK
    }
}

// One call, and its refusal, answer, next and ahead.
fn say(rt: &HostRuntime, t: &mut [u32], call: Call) {
    let reply = kernel::call(t, call);
    let answer = reply.answer;
    let mut line = [0u8; lines::PRINT_ROOM];
    let end = lines::write_reply(
        &mut line,
        0,
        rules::refusal_number(answer),
        rules::answer_number(answer),
        reply.next,
        reply.ahead,
    );
    let _ = rt.write_all(&line[..end]);
}

// Two ready tasks of one priority, and an empty Semaphore.
fn two_equals(rt: &HostRuntime, t: &mut [u32]) {
    say(rt, t, BLANK);
    say(rt, t, task(5));
    say(rt, t, task(5));
    say(rt, t, hub(rules::SEMAPHORE, 1));
}

// "ticks 0, 1, 1,000,000 and 1,000,001 under WT": gets of an empty Semaphore; the one of 1 is timed out by a Tick.
fn ticks_under_wt(rt: &HostRuntime, t: &mut [u32]) {
    two_equals(rt, t);
    say(rt, t, request(0, rules::GET, rules::WT, 0));
    say(rt, t, request(0, rules::GET, rules::WT, 1000001));
    say(rt, t, request(0, rules::GET, rules::WT, 1));
    say(rt, t, TICK);
    say(rt, t, request(1, rules::GET, rules::WT, 1000000));
}

// "priority 255 and 256"
fn priorities(rt: &HostRuntime, t: &mut [u32]) {
    say(rt, t, BLANK);
    say(rt, t, task(255));
    say(rt, t, task(256));
    say(rt, t, task(0));
}

// "the 16th and 17th task": each more urgent than those before it, so that it runs.
fn seventeen_tasks(rt: &HostRuntime, t: &mut [u32]) {
    say(rt, t, BLANK);
    for priority in (0..17).rev() {
        say(rt, t, task(priority));
    }
    say(rt, t, task(256));
}

// "599 and 601 words", and likewise 743 and 745, where a table has n: Blank and Tick, between the same on n.
fn lengths(rt: &HostRuntime, t: &mut [u32], n: usize)
    requires le_n { 1 ≤ n }
    requires n_in_bounds { n < length t.old }
{
    say(rt, &mut t[..n], BLANK);
    say(rt, &mut t[..n - 1], BLANK);
    say(rt, &mut t[..n - 1], TICK);
    say(rt, &mut t[..n + 1], BLANK);
    say(rt, &mut t[..n + 1], TICK);
    say(rt, &mut t[..n], TICK);
}

// A task that owns a Resource.
fn locked(rt: &HostRuntime, t: &mut [u32]) {
    say(rt, t, BLANK);
    say(rt, t, task(5));
    say(rt, t, hub(rules::RESOURCE, 1));
    say(rt, t, request(0, rules::GET, rules::W, 0));
}

// "a second lock by the owner": FAIL in every mode, and the Resource is still its own.
fn second_lock(rt: &HostRuntime, t: &mut [u32]) {
    locked(rt, t);
    say(rt, t, request(0, rules::GET, rules::W, 0));
    say(rt, t, request(0, rules::GET, rules::NW, 0));
    say(rt, t, request(0, rules::GET, rules::WT, 5));
    say(rt, t, request(0, rules::PUT, rules::W, 0));
    say(rt, t, request(0, rules::PUT, rules::W, 0));
}

// A task that slept and was stopped by the other.
fn stopped(rt: &HostRuntime, t: &mut [u32]) {
    two_equals(rt, t);
    say(
        rt,
        t,
        Call {
            service: rules::SLEEP,
            ticks: 1,
            ..BLANK
        },
    );
    say(rt, t, by_second(rules::STOP));
}

// "Stop of a sleeper": no Tick wakes it, and it can be started again.
fn stop_of_a_sleeper(rt: &HostRuntime, t: &mut [u32]) {
    stopped(rt, t);
    say(rt, t, TICK);
    say(rt, t, by_second(rules::YIELD));
    say(rt, t, by_second(rules::START));
    say(rt, t, by_second(rules::YIELD));
}

fn on_one_table(rt: &HostRuntime, t: &mut [u32]) {
    ticks_under_wt(rt, t);
    priorities(rt, t);
    seventeen_tasks(rt, t);
    second_lock(rt, t);
    stop_of_a_sleeper(rt, t);
}

fn main(rt: HostRuntime) {
    let mut table = [0u32; records::TABLE_SIZE_TWO];
    on_one_table(&rt, &mut table);
    let mut longer = [0u32; LONGER];
    lengths(&rt, &mut longer, records::TABLE_SIZE);
    lengths(&rt, &mut longer, records::TABLE_SIZE_TWO);
}
