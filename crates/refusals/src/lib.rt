// The refusals of documents 01 and 02, one variant each, and the papers' number of each.
//
// Assumes nothing.

#![tactic(auto)]

ghost use Rattle.std.specs.Prelude.{◌≡◌};
ghost use Rattle.refusals.specs.Numbers.{number};

// Why a call is refused; the papers' number of each is its own.
#[derive(Clone, Copy)]
pub enum Refusal {
    FileLength = 1,
    Mark = 2,
    Counts = 3,
    Layout = 4,
    Automata = 5,
    FileSymbols = 6,
    Record = 7,
    Repeated = 8,
    TableLength = 9,
    TableSymbols = 10,
    StepNumber = 11,
    RoomLength = 12,
    AnswerLength = 13,
    Pattern = 14,
    Alphabet = 15,
    States = 16,
    BufferLength = 17,
    IndexLength = 18,
    IndexWords = 19,
}

impl Refusal {
    // The papers' number of the refusal.
    pub fn number(self) -> u8
        ensures { result ≡ number self }
    {
        self as u8
    }
}
