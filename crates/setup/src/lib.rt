// Services 0, 9 and 10 in the words of a table.
// Not here: when these calls are refused, and the start of a task that is added.
#![tactic(auto)]

ghost use Rattle.std.specs.Prelude.{◌<◌, get_or, length, replicate, [], ◌≡◌};
ghost use Rattle.records.specs.Records.{Table};
ghost use Rattle.rules.proofs.Layouts.{Laid};
ghost use Rattle.rules.specs.Calls.{add_hub, add_task, blank};
ghost use Rattle.rules.specs.Table.{Layout, State, kind_of, stored, words};

use records::{HubNo, HubRecord, TaskNo, TaskRecord, TaskSize};

// "contents 1, 0, 0, 8, 136, 200, 216, 472 and the other words 0"; an edition's number is how many words a message has
pub fn blank(t: &mut [u32], ts: TaskSize)
    requires { Table ts.words t.old }
    ensures { (L : Layout) → Laid ts.words L → t.new ≡ words L blank }
{
    t.fill(0);
    t[0] = records::width_of(ts.words) as u32;
    t[3] = records::TASKS_AT as u32;
    t[4] = records::hubs_at(ts.words) as u32;
    t[5] = records::ready_at(ts.words) as u32;
    t[6] = records::waits_at(ts.words, HubNo(0)) as u32;
    t[7] = records::stores_at(ts.words) as u32;
}

// "Each takes the next number": a task of this priority, inactive.
pub fn add_task(t: &mut [u32], ts: TaskSize, priority: u32)
    requires table { Table ts.words t.old }
    requires t_bound { get_or t.old 1 0 < 16 }
    ensures { (L : Layout) (s : State) → Laid ts.words L → length s.tasks < 16 → t.old ≡ words L s
        → t.new ≡ words L (add_task priority s) }
{
    let n = t[records::TASKS] as usize;
    records::set_task(
        t,
        ts,
        TaskNo(n),
        // every field, so that the paper's "all but state and priority 0" reads off it
        TaskRecord {
            state: rules::INACTIVE,
            suspended: 0,
            priority,
            hub: 0,
            ticks: 0,
            side: 0,
            word: 0,
            answer: 0,
        },
    );
    t[records::TASKS] = (n + 1) as u32;
}

// "target is kind, ticks the limit, word the start, count = start"; its store is 0 already
pub fn add_hub(t: &mut [u32], ts: TaskSize, kind: u32, limit: u32, start: u32)
    requires table { Table ts.words t.old }
    requires t_bound { get_or t.old 2 0 < 16 }
    ensures { (L : Layout) (s : State) → Laid ts.words L → length s.hubs < 16 → t.old ≡ words L s
        → t.new ≡ words L (add_hub record {
          kind = kind;
          count = start;
          limit = limit;
          start = start;
          waiters = [];
          held = replicate (stored (kind_of kind) start limit) 0;
        } s) }
{
    let n = t[records::HUBS] as usize;
    records::set_hub(
        t,
        records::hubs_at(ts.words),
        HubNo(n),
        HubRecord {
            kind,
            count: start,
            limit,
            start,
        },
    );
    t[records::HUBS] = (n + 1) as u32;
}
