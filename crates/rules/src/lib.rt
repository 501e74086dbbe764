// What a call hands over and what it gives back, and the paper's numbers by name. The rules themselves are in specs/, in the
// order of document 01. Not here: the places and sizes of the table (crate records).
#![tactic(auto)]

ghost use Rattle.rules.specs.Refusals.{need};
ghost use Rattle.rules.specs.Reply.{answer_number, code, number_given, refusal_number};
ghost use Rattle.rules.specs.Table.{kind_of, stored};
ghost use Rattle.std.specs.Prelude.{◌≡◌};

mod kinds;
mod modes;
mod services;

pub use kinds::{Kind, bears_word};
pub use modes::Mode;
pub use services::Service;

// What is read from a call or a table stays a number, here and below: at the C interface each is any 32-bit value, and a word is
// kept as it came.

// The services.
pub const BLANK: u32 = 0;

pub const HUB_REQUEST: u32 = 1;

pub const START: u32 = 2;

pub const STOP: u32 = 3;

pub const SUSPEND: u32 = 4;

pub const RESUME: u32 = 5;

pub const YIELD: u32 = 6;

pub const SLEEP: u32 = 7;

pub const TICK: u32 = 8;

pub const ADD_TASK: u32 = 9;

pub const ADD_HUB: u32 = 10;

// The states of a task.
pub const INACTIVE: u32 = 1;

pub const READY: u32 = 2;

pub const WAITING: u32 = 3;

pub const SLEEPING: u32 = 4;

// The answer word of a task: nothing yet is 0.
pub const OK: u32 = 1;

pub const FAIL: u32 = 2;

pub const TIMED_OUT: u32 = 3;

// The kinds of hub.
pub const EVENT: u32 = 1;

pub const SEMAPHORE: u32 = 2;

pub const PORT: u32 = 3;

pub const FIFO: u32 = 4;

pub const RESOURCE: u32 = 5;

pub const BOARD: u32 = 6;

pub const MEMORY: u32 = 7;

// The sides of a hub request.
pub const PUT: u32 = 1;

pub const GET: u32 = 2;

// of a Board alone (M-103)
pub const WIPE: u32 = 3;

// Its modes: wait, no wait, wait at most so many ticks.
pub const W: u32 = 1;

pub const NW: u32 = 2;

pub const WT: u32 = 3;

// "priority 0 to 255", "ticks left 0 to 1,000,000", and the limits of a Semaphore, and of a FIFO and a Memory hub
pub const LAST_PRIORITY: u32 = 255;

pub const MOST_TICKS: u32 = 1000000;

pub const MOST_COUNT: u32 = 65535;

pub const MOST_HELD: u32 = 8;

// The refusals by their numbers, in the order in which they are tested; 0 is none.
#[derive(Clone, Copy, Debug, PartialEq, Eq)]
pub enum Refusal {
    WrongLength = 1,
    NotWellFormed = 2,
    UnknownService = 3,
    NotRunning = 4,
    NotInUse = 5,
    BadArgument = 6,
    Full = 7,
    // M-100, M-106: the lent buffer is shorter than what is to be written
    ShortBuffer = 8,
    // M-105, of a move back to edition 1: some high word isn't 0
    HighWord = 9,
    // M-106, of two tables that are compared: differing editions
    OtherEdition = 13,
}

impl Refusal {
    pub fn number(self) -> u32
        ensures { result ≡ code self }
    {
        self as u32
    }
}

// The test must pass, or the call is refused.
#[tactic(auto, unfolding(crate::specs::Refusals::need))]
pub fn need(holds: bool, refusal: Refusal) -> Result<(), Refusal>
    ensures { refusal_number result ≡ need holds (code refusal) 0 }
{
    if holds { Ok(()) } else { Err(refusal) }
}

// "A call is seven numbers, each any 32-bit value", with M-105 eight: the message's high word.
#[derive(Clone, Copy, Debug, PartialEq, Eq)]
pub struct Call {
    pub service: u32,
    pub caller: u32,
    pub target: u32,
    pub side: u32,
    pub mode: u32,
    pub ticks: u32,
    pub word: u32,
    pub high: u32,
}

// "carries one of three outcomes: nothing yet (answer 0), OK 1, FAIL 2"
#[derive(Clone, Copy)]
pub enum Outcome {
    NothingYet,
    Ok,
    Fail,
}

// An accepted call carries its outcome; a refused one bears its refusal. "Next is the running task plus 1, or 0." Ahead: how many
// requests stand before the caller's, where it has to wait at a hub; else 0.
#[derive(Clone, Copy)]
pub struct Reply {
    pub answer: Result<Outcome, Refusal>,
    pub next: u32,
    pub ahead: u32,
}

// What an accepted call hands up besides the table.
#[derive(Clone, Copy)]
pub struct Served {
    pub ahead: u32,
}

// The hub summary: "one word with bit i set when task i waits there, and the number of set bits as count".
#[derive(Clone, Copy)]
pub struct Summary {
    pub mask: u32,
    pub count: u32,
}

// The paper's refusal number: 0 for what is not refused.
pub fn refusal_number<T: Drop>(a: Result<T, Refusal>) -> u32
    ensures { result ≡ refusal_number a }
{
    match a {
        Ok(_) => 0,
        Err(e) => e.number(),
    }
}

// The length of a listing or the number of entries: "a refusal .. reports 0".
pub fn number_given(a: Result<u32, Refusal>) -> u32
    ensures { result ≡ number_given a }
{
    a.unwrap_or(0)
}

// The paper's answer number: nothing yet 0, OK 1, FAIL 2; 0 for a refused call.
pub fn answer_number(a: Result<Outcome, Refusal>) -> u32
    ensures { result ≡ answer_number a }
{
    match a {
        Ok(o) => match o {
            Outcome::NothingYet => 0,
            Outcome::Ok => OK,
            Outcome::Fail => FAIL,
        },
        Err(_) => 0,
    }
}

// How many messages a hub's store holds, by its record: words of a FIFO or a Board, marks of a Memory hub.
pub fn stored(kind: u32, count: u32, limit: u32) -> u32
    ensures { result ≡ stored (kind_of kind) count limit }
{
    match Kind::of(kind) {
        Some(k) => match k {
            Kind::Fifo | Kind::Board => count,
            Kind::Memory => limit,
            Kind::Event | Kind::Semaphore | Kind::Port | Kind::Resource => 0,
        },
        None => 0,
    }
}
