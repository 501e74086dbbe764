// The kinds of hub by name, as the word of a hub's record has them by number.
ghost use Rattle.rules.specs.Kinds.{named};
ghost use Rattle.rules.specs.Table.{kind_of};
ghost use Rattle.rules.specs.WellFormed.{bears_word};
ghost use Rattle.std.specs.Prelude.{◌≡◌};

// "1 Event, 2 Semaphore, 3 Port, 4 FIFO, 5 Resource, 6 Board (M-103), 7 Memory (M-107)"
#[derive(Clone, Copy, Debug, PartialEq, Eq)]
pub enum Kind {
    Event,
    Semaphore,
    Port,
    Fifo,
    Resource,
    Board,
    Memory,
}

impl Kind {
    // The kind that this word of a hub's record names, if it names one.
    pub fn of(word: u32) -> Option<Kind>
        ensures { named result ≡ kind_of word }
    {
        match word {
            crate::EVENT => Some(Kind::Event),
            crate::SEMAPHORE => Some(Kind::Semaphore),
            crate::PORT => Some(Kind::Port),
            crate::FIFO => Some(Kind::Fifo),
            crate::RESOURCE => Some(Kind::Resource),
            crate::BOARD => Some(Kind::Board),
            crate::MEMORY => Some(Kind::Memory),
            _ => None,
        }
    }
}

// Whether a put to a hub whose kind this word names bears a word.
pub fn bears_word(kind: u32) -> bool
    ensures { result ≡ bears_word (kind_of kind) }
{
    let Some(kind) = Kind::of(kind) else {
        return false;
    };
    match kind {
        Kind::Port | Kind::Fifo | Kind::Board | Kind::Memory => true,
        Kind::Event | Kind::Semaphore | Kind::Resource => false,
    }
}
