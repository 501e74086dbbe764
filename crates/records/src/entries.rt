// "A list holds task number plus 1 per entry": an entry as the task that it names, and a task as an entry.
ghost use Rattle.records.specs.Entries.{Low, numbered};
ghost use Rattle.records.specs.Records.{first};
ghost use Rattle.std.specs.Prelude.{◌<◌, suc, ◌≡◌};

use crate::TaskNo;

// The task that an entry names, if it names one: 0 is none.
pub fn entry(word: u32) -> Option<TaskNo>
    ensures value { numbered result ≡ first word }
    ensures low { Low result }
{
    if word == 0 {
        None
    } else {
        Some(TaskNo((word - 1) as usize))
    }
}

// The entry that names task i. A number too large for one has the largest.
pub fn entry_of(i: TaskNo) -> u32
    ensures { i.0 < 4294967295 → result ≡ suc i.0 }
{
    match u32::try_from(i.0) {
        Ok(n) => n.saturating_add(1),
        Err(_) => u32::MAX,
    }
}
