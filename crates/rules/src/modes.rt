// The modes of a hub request by name, as a call has them by number.
ghost use Rattle.rules.specs.Modes.{mode_named};
ghost use Rattle.rules.specs.Refusals.{mode_of};
ghost use Rattle.std.specs.Prelude.{◌≡◌};

// "1 W, 2 NW, 3 WT": wait, no wait, wait at most so many ticks.
#[derive(Clone, Copy, Debug, PartialEq, Eq)]
pub enum Mode {
    W,
    Nw,
    Wt,
}

impl Mode {
    // The mode with this number, if there is one.
    #[tactic(auto, unfolding(crate::specs::Refusals::mode_of), using(crate::proofs::Numbers::no_mode))]
    pub fn of(number: u32) -> Option<Mode>
        ensures { mode_named result ≡ mode_of number }
    {
        match number {
            crate::W => Some(Mode::W),
            crate::NW => Some(Mode::Nw),
            crate::WT => Some(Mode::Wt),
            _ => None,
        }
    }
}
