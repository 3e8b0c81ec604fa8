// Why a call is turned away before anything lent is altered.
ghost use Rattle.std.specs.Prelude.{◌≡◌};
ghost use Rattle.rules.specs.Call.{call_number};
ghost use Rattle.haabuvilk.specs.Checks.{refusal_meant};

// The call number of a call that is not turned away.
pub const HANDLED: u32 = 0;

#[derive(Clone, Copy, Debug, PartialEq, Eq)]
pub enum Refusal {
    // A buffer has a wrong size.
    WrongSize,
    // A table is unsound.
    Unsound,
    // The sender is not known.
    Stranger,
    // The message is not as long as its header says, or has no whole header.
    Broken,
    // The header says a payload of more than 4,096 bytes.
    Overlong,
    // The record has no event message for the watch.
    NoEvent,
}

impl Refusal {
    // Its call number.
    pub fn number(self) -> u32
        ensures { result ≡ call_number (refusal_meant self) }
    {
        match self {
            Refusal::WrongSize => 1,
            Refusal::Unsound => 2,
            Refusal::Stranger => 3,
            Refusal::Broken => 4,
            Refusal::Overlong => 5,
            Refusal::NoEvent => 6,
        }
    }
}
