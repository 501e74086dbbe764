// The words that people read about a table: what a cell of the comparison says of a task, a list and the contents. Each function
// writes its text by a Writer. What has no room is left out: so no function asks for room, and whether all of a text is there is
// seen from the place where the writer ends.
// Not here: what a cell says of a hub (crate hubtexts); which cells there are, in which order, and which are marked (crate
// sidebyside).
#![tactic(auto)]

ghost use Rattle.std.specs.Prelude.{◌≤◌, pred, [], ◌++◌, ◌∷◌, ◌≡◌};
ghost use Rattle.lines.specs.Lines.{decimal};
ghost use Rattle.lists.specs.Lists.{numbers};
ghost use Rattle.rules.specs.Table.{part};
ghost use Rattle.texts.specs.Cells.{answer_text, contents_text, entry_text, message_text, outcome_text, priority_text, stage_text, state_text, task_text, tasks_text, ticks_text, waits_text};
ghost use Rattle.texts.specs.Texts.{Wrote};

use records::TaskRecord;

// The room that a number of 32 bits and a newline take.
const NUMBER: usize = 11;

// How many numbers a word has.
const WORDS: u64 = 4294967296;

// A lent buffer, and the place up to which it is written.
#[derive(Drop)]
pub struct Writer<'a> {
    out: &'a mut [u8],
    end: usize,
}

impl<'a> Writer<'a> {
    // At the buffer's start.
    pub fn new(out: &'a mut [u8]) -> Writer<'a>
        ensures buffer { result.out.now ≡ out.old }
        ensures same_buffer { result.out.ghost_name ≡ out.entry.ghost_name }
        ensures start { result.end ≡ 0 }
    {
        Writer { out, end: 0 }
    }

    // Behind what stands in the buffer already, up to this place.
    pub fn at(out: &'a mut [u8], place: usize) -> Writer<'a>
        ensures buffer { result.out.now ≡ out.old }
        ensures same_buffer { result.out.ghost_name ≡ out.entry.ghost_name }
        ensures start { result.end ≡ place }
    {
        Writer { out, end: place }
    }

    // The place behind what is written.
    pub fn end(&self) -> usize
        ensures { result ≡ self.now.end }
    {
        self.end
    }

    // A byte. Where there is no room nothing is written, and the place stays.
    #[tactic(auto, using(crate::proofs::Putting::put_byte, crate::proofs::Putting::put_full))]
    pub fn byte(&mut self, b: u8)
        ensures { Wrote self.old (b ∷ []) self.new }
    {
        if self.end < self.out.len() {
            self.out[self.end] = b;
            self.end += 1;
        }
    }

    // Bytes, one behind the other.
    pub fn bytes(&mut self, text: &[u8])
        ensures { Wrote self.old text.now self.new }
    {
        for b in text {
            self.byte(*b);
        }
    }

    // A number in decimal, as a line of its own has it, without the newline.
    pub fn number(&mut self, n: u32)
        ensures { Wrote self.old (decimal n) self.new }
    {
        let numbers = [n];
        let mut line = [0u8; NUMBER];
        let end = lines::write_numbers(&mut line, 0, &numbers);
        self.bytes(&line[..end - 1]);
    }

    // A number behind a text.
    pub fn labelled(&mut self, before: &[u8], n: u32)
        ensures { Wrote self.old (before.now ++ decimal n) self.new }
    {
        self.bytes(before);
        self.number(n);
    }

    // A number between two texts.
    pub fn between(&mut self, before: &[u8], n: u32, after: &[u8])
        ensures { Wrote self.old (before.now ++ decimal n ++ after.now) self.new }
    {
        self.labelled(before, n);
        self.bytes(after);
    }
}

// The number that an entry of a list names, or a task's hub word: it stands there plus 1.
pub fn named(entry: u32) -> u32
    ensures { result ≡ pred entry }
{
    entry.saturating_sub(1)
}

// How long a task has left.
#[tactic(auto, unfolding(crate::specs::Cells::ticks_text))]
fn put_ticks(out: &mut Writer, ticks: u32)
    ensures { Wrote out.old (ticks_text ticks) out.new }
{
    match ticks {
        0 => out.bytes(b", no limit"),
        1 => out.bytes(b", 1 tick left"),
        _ => out.between(b", ", ticks, b" ticks left"),
    }
}

// At which hub a task waits, and what for.
fn put_waits(out: &mut Writer, hub: u32, side: u32)
    ensures { Wrote out.old (waits_text hub side) out.new }
{
    if side == rules::PUT {
        out.between(b"waits at hub ", named(hub), b" to put");
    } else {
        out.between(b"waits at hub ", named(hub), b" to get");
    }
}

// What a task does, but for its flag.
#[tactic(auto, unfolding(crate::specs::Cells::stage_text))]
fn put_stage(out: &mut Writer, x: TaskRecord)
    ensures { Wrote out.old (stage_text x) out.new }
{
    match x.state {
        rules::INACTIVE => out.bytes(b"inactive"),
        rules::READY => out.bytes(b"ready"),
        rules::WAITING => {
            put_waits(out, x.hub, x.side);
            put_ticks(out, x.ticks);
        }
        _ => {
            out.bytes(b"sleeps");
            put_ticks(out, x.ticks);
        }
    }
}

// The state of a task.
pub fn put_state(out: &mut Writer, x: TaskRecord)
    ensures { Wrote out.old (state_text x) out.new }
{
    put_stage(out, x);
    if x.suspended != 0 {
        out.bytes(b", suspended");
    }
}

// The priority of a task: its own, and its effective priority where that is another.
pub fn put_priority(out: &mut Writer, own: u32, effective: u32)
    ensures { Wrote out.old (priority_text own effective) out.new }
{
    out.number(own);
    if own != effective {
        out.labelled(b", effective ", effective);
    }
}

// A message: its low word, and its high word where that isn't 0.
pub fn put_message(out: &mut Writer, m: u64)
    ensures { Wrote out.old (message_text m) out.new }
{
    let low = (m % WORDS) as u32;
    let high = (m / WORDS) as u32;
    out.number(low);
    if high != 0 {
        out.bytes(b" high ");
        out.number(high);
    }
}

// The answer of a task, but for its word.
#[tactic(auto, unfolding(crate::specs::Cells::outcome_text))]
fn put_outcome(out: &mut Writer, answer: u32, m: u64)
    ensures { Wrote out.old (outcome_text answer m) out.new }
{
    match answer {
        0 => out.bytes(b"none"),
        rules::FAIL => out.bytes(b"failed"),
        rules::TIMED_OUT => out.bytes(b"timed out"),
        _ if m == 0 => out.bytes(b"OK"),
        _ => out.bytes(b"met"),
    }
}

// The answer of a task, and its word where that isn't 0.
pub fn put_answer(out: &mut Writer, x: TaskRecord)
    ensures { Wrote out.old (answer_text x) out.new }
{
    put_outcome(out, x.answer, x.word);
    if x.word != 0 {
        out.bytes(b", word ");
        put_message(out, x.word);
    }
}

// The k-th task of a list, from 0.
#[tactic(auto, unfolding(crate::specs::Cells::task_text))]
fn put_task(out: &mut Writer, k: usize, i: u32)
    ensures { Wrote out.old (task_text k i) out.new }
{
    if k == 0 {
        out.labelled(b"task ", i);
    } else {
        out.labelled(b", task ", i);
    }
}

// The k-th entry of a list, from 0: a task's name, and whether it is the one that runs.
fn put_entry(out: &mut Writer, k: usize, entry: u32, runs: u32)
    requires { 1 ≤ entry }
    ensures { Wrote out.old (entry_text k runs (pred entry)) out.new }
{
    put_task(out, k, named(entry));
    if entry == runs {
        out.bytes(b" (runs)");
    }
}

// The tasks of the list of 16 words that starts at word `from`; `runs` is the running task plus 1, or 0.
pub fn put_tasks(out: &mut Writer, t: &[u32], from: usize, runs: u32)
    requires { from ≤ 65535 }
    ensures { Wrote out.old (tasks_text runs (numbers (part from 16 t.now))) out.new }
{
    if lists::word(t, from) == 0 {
        out.bytes(b"nobody");
        return;
    }
    for k in 0..records::LIST_SIZE {
        let entry = lists::word(t, from + k);
        if entry == 0 {
            return;
        }
        put_entry(out, k, entry, runs);
    }
}

// The contents of a table: its edition, and how many tasks and hubs are in use.
pub fn put_contents(out: &mut Writer, t: &[u32])
    ensures { Wrote out.old (contents_text t.now) out.new }
{
    out.between(b"edition ", lists::word(t, 0), b", tasks: ");
    out.number(lists::word(t, records::TASKS));
    out.bytes(b", hubs: ");
    out.number(lists::word(t, records::HUBS));
}
