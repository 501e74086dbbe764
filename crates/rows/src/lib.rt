// Two tables of one edition side by side: which rows there are, one for each thing that people compare, and which of them are marked.
// Which words a row covers is specs/Rows.antt.
// Not here: what a row says (crate rowtexts).
#![tactic(auto)]

ghost use Rattle.std.specs.Prelude.{◌*◌, ◌+◌, ◌≤◌, ◌≡◌};
ghost use Rattle.records.specs.Records.{hubs_at};
ghost use Rattle.rows.specs.Rows.{KeysOf, hub_row, marked_in, row_at, rows, task_row};
ghost use Rattle.rows.specs.Rows.{apart, differ, marked, shown, used};

use records::{HubNo, TaskSize};

// What a row is about. A number is a task's or a hub's.
#[derive(Clone, Copy, PartialEq, Eq, Debug)]
pub enum Row {
    Contents,
    ReadyList,
    State(u32),
    Priority(u32),
    Answer(u32),
    Kind(u32),
    Holds(u32),
    Waiting(u32),
}

// How many rows there are: two of the table, three for each of 16 tasks, three for each of 16 hubs.
pub const ROWS: u32 = 98;

const FIRST_TASK: u32 = 2;

const FIRST_HUB: u32 = 50;

// The k-th row, from 0.
#[tactic(auto, unfolding(crate::specs::Rows::row_at))]
pub fn row_at(k: u32) -> Row
    ensures { result ≡ row_at k }
{
    match k {
        0 => Row::Contents,
        1 => Row::ReadyList,
        FIRST_TASK..FIRST_HUB => task_row((k - FIRST_TASK) / 3, (k - FIRST_TASK) % 3),
        _ => hub_row((k - FIRST_HUB) / 3, (k - FIRST_HUB) % 3),
    }
}

// A task's rows, j from 0 to 2; and a hub's. Two functions, since what differs is three variants each: one that is handed them says no less.
#[tactic(auto, unfolding(crate::specs::Rows::task_row))]
fn task_row(i: u32, j: u32) -> Row
    ensures { result ≡ task_row i j }
{
    match j {
        0 => Row::State(i),
        1 => Row::Priority(i),
        _ => Row::Answer(i),
    }
}

#[tactic(auto, unfolding(crate::specs::Rows::hub_row))]
fn hub_row(h: u32, j: u32) -> Row
    ensures { result ≡ hub_row h j }
{
    match j {
        0 => Row::Kind(h),
        1 => Row::Holds(h),
        _ => Row::Waiting(h),
    }
}

// A table as a comparison is handed it: its words, how many of them a task record has, who runs in it (the task plus 1, or 0, since
// `more_differs` of specs/Rows takes it so), and what its tasks' effective priorities are, worked out once.
#[derive(Clone, Copy)]
pub struct View<'a> {
    pub words: &'a [u32],
    pub ts: TaskSize,
    pub runs: u32,
    pub keys: [u32; 16],
    pub ghost keys_of: { KeysOf words.now keys },
}

// Two tables of one edition.
#[derive(Clone, Copy)]
pub struct Pair<'a, 'b> {
    pub left: View<'a>,
    pub right: View<'b>,
    pub ghost one_edition: { left.ts.words ≡ right.ts.words },
}

impl View<'_> {
    // Whether the table uses what the row is about.
    #[tactic(auto, unfolding(crate::specs::Rows::used))]
    pub fn uses(&self, row: Row) -> bool
        ensures { result ≡ used self.now.words.now row }
    {
        match row {
            Row::Contents | Row::ReadyList => true,
            Row::State(i) | Row::Priority(i) | Row::Answer(i) => {
                i < lists::word(self.words, records::TASKS)
            }
            Row::Kind(h) | Row::Holds(h) | Row::Waiting(h) => {
                h < lists::word(self.words, records::HUBS)
            }
        }
    }
}

impl Pair<'_, '_> {
    ghost use Rattle.rows.specs.Views.{differ_from, how_many_marked, is_apart, is_marked, is_shown};

    // Whether some of n words differs: of the i-th record of `size` words from word f on, where the records start at word `at`.
    fn differ(&self, at: usize, size: usize, i: u32, f: usize, n: usize) -> bool
        requires at_bound { at ≤ 65535 }
        requires size_bound { size ≤ 65535 }
        requires n_bound { f + n ≤ 65535 }
        ensures { result ≡ differ_from self.now (at + i * size + f) n }
    {
        for j in 0..n {
            let old = records::field(self.left.words, at, size, i as usize, f + j);
            let new = records::field(self.right.words, at, size, i as usize, f + j);
            if old != new {
                return true;
            }
        }
        false
    }

    // Of a task's record.
    fn task_differs(&self, i: u32, f: usize, n: usize) -> bool
        requires { f + n ≤ 65535 }
        ensures { result ≡ differ_from self.now (8 + i * self.now.left.ts.words + f) n }
    {
        self.differ(records::TASKS_AT, self.left.ts.words, i, f, n)
    }

    // Of a hub's record.
    fn hub_differs(&self, h: u32, f: usize, n: usize) -> bool
        requires { f + n ≤ 65535 }
        ensures { result ≡ differ_from self.now (hubs_at self.now.left.ts.words + h * 4 + f) n }
    {
        self.differ(
            records::hubs_at(self.left.ts.words),
            records::HUB_SIZE,
            h,
            f,
            n,
        )
    }

    // What a hub holds: its count and its store, and, since a text says it by the kind, its kind.
    #[tactic(auto, unfolding(crate::specs::Rows::apart, crate::specs::Rows::covers, crate::specs::Rows::differs, crate::specs::Rows::more_differs))]
    fn holds_apart(&self, h: u32) -> bool
        ensures { result ≡ is_apart self.now (Row.Holds h) }
    {
        let size = records::store_size(self.left.ts);
        self.hub_differs(h, records::COUNT, 1)
            || self.differ(records::stores_at(self.left.ts.words), size, h, 0, size)
            || self.hub_differs(h, records::KIND, 1)
    }

    // A task's priority: its own is a word of its record, its effective one follows from the locks of the whole table.
    #[tactic(auto, unfolding(crate::specs::Rows::apart, crate::specs::Rows::covers, crate::specs::Rows::differs, crate::specs::Rows::more_differs))]
    fn priority_apart(&self, i: u32) -> bool
        ensures { result ≡ is_apart self.now (Row.Priority i) }
    {
        let old = lists::word(&self.left.keys, i as usize);
        let new = lists::word(&self.right.keys, i as usize);
        self.task_differs(i, records::PRIORITY, 1) || old != new
    }

    // Whether the words that a row covers differ, or what its text says beside them: of the ready list the task that runs, of a
    // priority the effective one, of what a hub holds its kind.
    #[tactic(auto, unfolding(crate::specs::Rows::apart, crate::specs::Rows::covers, crate::specs::Rows::differs, crate::specs::Rows::more_differs))]
    fn apart(&self, row: Row) -> bool
        ensures { result ≡ is_apart self.now row }
    {
        let ts = self.left.ts;
        match row {
            Row::Contents => self.differ(0, 0, 0, 0, records::TASKS_AT),
            Row::ReadyList => {
                self.differ(records::ready_at(ts.words), 0, 0, 0, records::LIST_SIZE)
                    || self.left.runs != self.right.runs
            }
            Row::State(i) => {
                self.task_differs(i, records::STATE, 2) || self.task_differs(i, records::HUB, 3)
            }
            Row::Priority(i) => self.priority_apart(i),
            Row::Answer(i) => self.task_differs(i, records::WORD, records::width_of(ts.words) + 1),
            Row::Kind(h) => {
                self.hub_differs(h, records::KIND, 1) || self.hub_differs(h, records::LIMIT, 2)
            }
            Row::Holds(h) => self.holds_apart(h),
            Row::Waiting(h) => {
                let at = records::waits_at(ts.words, HubNo(0));
                self.differ(at, records::LIST_SIZE, h, 0, records::LIST_SIZE)
            }
        }
    }

    // Whether the row is marked: one table alone uses what it is about, or what they say of it is apart.
    #[tactic(auto, unfolding(crate::specs::Rows::marked))]
    pub fn marked(&self, row: Row) -> bool
        ensures { result ≡ is_marked self.now row }
    {
        self.left.uses(row) != self.right.uses(row) || self.apart(row)
    }

    // Whether the row is shown: either table uses what it is about, or it is marked.
    #[tactic(auto, unfolding(crate::specs::Rows::shown))]
    pub fn is_shown(&self, row: Row) -> bool
        ensures { result ≡ is_shown self.now row }
    {
        self.left.uses(row) || self.right.uses(row) || self.marked(row)
    }

    // How many rows are marked.
    pub fn count_marked(&self) -> u32
        ensures { result ≡ how_many_marked self.now rows }
    {
        let mut count = 0;
        for k in 0..ROWS {
            count += u32::from(self.marked(row_at(k)));
        }
        count
    }
}
