// Why a command is refused: the reasons of document 01's order of judgement, by name.
ghost use Rattle.std.specs.Prelude.{◌≡◌};
ghost use Rattle.model.specs.Reason.{number_of};
ghost use Rattle.model.specs.Refusal.{refusal};

use crate::{Answer, refuse};

// The reasons, with document 01's number of each; 1b is 1Bh.
#[derive(Clone, Copy, Debug, PartialEq, Eq)]
pub enum Reason {
    NoUnit = 1,
    UnsoundUnit = 0x1b,
    UnknownCode = 2,
    WrongLength = 3,
    WrongProtocol = 4,
    NoCapability = 6,
    WrongFormat = 7,
    WrongMethod = 8,
    WrongAlgorithm = 9,
    Expired = 10,
    LacksPermission = 11,
    WrongTag = 12,
    WrongDescriptor = 13,
    NoKey = 14,
    WrongValue = 15,
    WrongTotal = 16,
    NoExchange = 17,
    WrongListLength = 18,
    WrongList = 19,
}

impl Reason {
    // Its number in document 01.
    pub fn number(self) -> u8
        ensures { result ≡ number_of self }
    {
        self as u8
    }
}

// The answer that a reason gives.
impl From<Reason> for Answer {
    ghost from_gives = { λ reason answer. answer ≡ refusal (number_of reason) };

    fn from(reason: Reason) -> Answer {
        refuse(reason.number())
    }
}
