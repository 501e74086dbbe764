// The services by name, as the first number of a call has them.
ghost use Rattle.rules.specs.Calls.{service_of};
ghost use Rattle.rules.specs.Services.{service_named};
ghost use Rattle.std.specs.Prelude.{◌≡◌};

// In the order of their numbers, 0 to 10.
#[derive(Clone, Copy, Debug, PartialEq, Eq)]
pub enum Service {
    Blank,
    HubRequest,
    Start,
    Stop,
    Suspend,
    Resume,
    Yield,
    Sleep,
    Tick,
    AddTask,
    AddHub,
}

impl Service {
    // The service with this number, if there is one.
    #[tactic(auto, unfolding(crate::specs::Calls::service_of), using(crate::proofs::Numbers::no_service))]
    pub fn of(number: u32) -> Option<Service>
        ensures { service_named result ≡ service_of number }
    {
        match number {
            crate::BLANK => Some(Service::Blank),
            crate::HUB_REQUEST => Some(Service::HubRequest),
            crate::START => Some(Service::Start),
            crate::STOP => Some(Service::Stop),
            crate::SUSPEND => Some(Service::Suspend),
            crate::RESUME => Some(Service::Resume),
            crate::YIELD => Some(Service::Yield),
            crate::SLEEP => Some(Service::Sleep),
            crate::TICK => Some(Service::Tick),
            crate::ADD_TASK => Some(Service::AddTask),
            crate::ADD_HUB => Some(Service::AddHub),
            _ => None,
        }
    }
}
