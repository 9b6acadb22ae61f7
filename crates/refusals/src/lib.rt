// Why an input is refused: docs/RULES.md has a table of numbers for each entry point, and no number stands for two
// reasons. A call that may refuse answers `Result<.., Refusal>`; only the C face and the printed text turn that into a
// number.
#![tactic(auto)]

ghost use Rattle.std.specs.Prelude.{◌≡◌};
ghost use Rattle.refusals.specs.Numbers.{number_of, number_told, verdict_told};

/// The reasons, in the order of their numbers.
#[derive(Clone, Copy, Debug, PartialEq, Eq)]
pub enum Refusal {
    // of the words of a problem
    FewWords,
    Size,
    Length,
    Coefficient,
    Kind,
    Limit,
    // of the room for an answer or a text, or of an answer that is checked
    ShortRoom,
    BlankRow,
    // of time rows
    FewTimeWords,
    TimeSize,
    TimeLength,
    Vertex,
    StrictWord,
    RowLength,
    ShortTimeRoom,
    // of a day's file
    ByteCount,
    Edition,
    BodyCount,
    ShortHead,
    BodyPlace,
    BodyTotal,
    ShortFileRoom,
    // of a switch
    NoVariable,
    NoLimit,
    OnAlready,
    OffAlready,
    // of a trace
    TraceLength,
    // of SMT-LIB text
    Token,
}

impl Refusal {
    /// The number of docs/RULES.md.
    pub fn number(self) -> u32
        ensures { result ≡ number_of self }
    {
        match self {
            Refusal::FewWords => 1,
            Refusal::Size => 2,
            Refusal::Length => 3,
            Refusal::Coefficient => 4,
            Refusal::Kind => 5,
            Refusal::Limit => 6,
            Refusal::ShortRoom => 7,
            Refusal::BlankRow => 10,
            Refusal::FewTimeWords => 11,
            Refusal::TimeSize => 12,
            Refusal::TimeLength => 13,
            Refusal::Vertex => 14,
            Refusal::StrictWord => 15,
            Refusal::RowLength => 16,
            Refusal::ShortTimeRoom => 17,
            Refusal::ByteCount => 30,
            Refusal::Edition => 31,
            Refusal::BodyCount => 32,
            Refusal::ShortHead => 33,
            Refusal::BodyPlace => 34,
            Refusal::BodyTotal => 35,
            Refusal::ShortFileRoom => 36,
            Refusal::NoVariable => 41,
            Refusal::NoLimit => 42,
            Refusal::OnAlready => 43,
            Refusal::OffAlready => 44,
            Refusal::TraceLength => 51,
            Refusal::Token => 60,
        }
    }
}

/// 0 where nothing is refused, else the number.
pub fn number(judged: Result<(), Refusal>) -> u32
    ensures { result ≡ number_told judged }
{
    match judged {
        Ok(()) => 0,
        Err(refusal) => refusal.number(),
    }
}

/// What a checker tells: 8 where the evidence is right, 9 where it is not, else the number of the refusal.
pub fn verdict(judged: Result<bool, Refusal>) -> u32
    ensures { result ≡ verdict_told judged }
{
    match judged {
        Ok(true) => 8,
        Ok(false) => 9,
        Err(refusal) => refusal.number(),
    }
}
