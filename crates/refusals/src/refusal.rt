// Why nothing is done: the numbers of docs/REFUSALS.md, by name.

ghost use Rattle.std.specs.Prelude.{◌≡◌};
ghost use Rattle.refusals.specs.Number.{number_of};

#[derive(Clone, Copy, Debug, PartialEq, Eq)]
pub enum Refusal {
    UnevenRows = 1,
    NoPoint = 2,
    TooManyPoints = 3,
    StartsOffCurve = 4,
    OffCurveNeighbours = 5,
    TooManySamples = 6,
    TooManyBreaks = 7,
    PastLastSample = 8,
    OutputTooShort = 9,
    NoSuchRun = 10,
    NoSuchSegment = 11,
    CutShort = 12,
    EndsNotRising = 13,
    TooLarge = 14,
    Composite = 15,
    NoSuchPenalty = 16,
    Outside16Bits = 17,
    ListTooShort = 18,
    Malformed = 19,
    CubicOrOpen = 20,
    NoOnCurve = 21,
}

impl Refusal {
    // Its number, the same in C, Rust, Python and the command.
    pub fn number(self) -> u8
        ensures { result ≡ number_of self }
    {
        self as u8
    }
}
