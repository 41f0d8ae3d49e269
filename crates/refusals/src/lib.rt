// The refusals that the calls give. The numbers of each are in specs/Number.antt, ordered lists of conditions and what is ruled by them in
// specs/First.antt.
#![tactic(auto)]

ghost use Rattle.std.specs.Prelude.{◌≡◌};
ghost use Rattle.refusals.specs.Number.{refusal_number};

// Why a call refuses, each with its number. The words are those of the C header.
#[derive(Clone, Copy, PartialEq, Eq, Debug)]
pub enum Refusal {
    Misframed = 1,
    TooManyPoints = 2,
    ShortBuffer = 3,
    BadSwitch = 4,
    BadSetting = 5,
    BadCell = 6,
    BadPosition = 7,
    RepeatedCell = 8,
    TwoPositions = 9,
    MapTooWide = 10,
    RunFull = 11,
    StrengthsLength = 12,
    BadStrength = 13,
    TwoStrengths = 14,
    HighIndex = 15,
    BadMove = 16,
    UnlikeHalves = 17,
}

impl Refusal {
    pub fn number(self) -> u8
        ensures { result ≡ refusal_number self }
    {
        self as u8
    }
}
