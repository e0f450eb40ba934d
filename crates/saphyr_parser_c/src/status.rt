//! What a call returns, and its number in C.

ghost use Rattle.std.specs.Prelude.{◌≡◌};
ghost use Rattle.saphyr_parser_c.specs.Status.{IsStatusOfRefusal, code_of};

use saphyr_scalar::FaultText;

/// What a call returns.
#[derive(Clone, Copy)]
pub enum Status {
    /// The call made or changed what it was asked to.
    Done,
    /// No event is left.
    End,
    /// There is an event.
    Event,
    /// The text is refused.
    Refused,
    /// Memory ran out.
    NoMemory,
    /// The text is not UTF-8.
    NotUtf8,
    /// The handle has no parser.
    NoParser,
    /// The text begins as UTF-16.
    Utf16,
    /// More of the text is needed.
    More,
    /// All of the text is there, so nothing can be added.
    Whole,
    /// More bytes wait for an event than may.
    TooMuch,
    /// The next document is loaded.
    Loaded,
    /// The trees of the text would pass a limit.
    TooLarge,
    /// No trees are loaded from where the parser is, or its text comes in pieces.
    Late,
    /// The text is read, and is not YAML 1.2.2.
    Deviates,
    /// There is a finding.
    Finding,
    /// The text has an error, or a warning that counts as one.
    Wrong,
    /// No text is checked.
    NotChecked,
    /// The text is refused, since it has more characters than may.
    TooLong,
}

impl Status {
    /// Its number in C.
    pub fn code(self) -> i32
        ensures { result ≡ code_of self }
    {
        match self {
            Status::Done => 0,
            Status::End => 0,
            Status::Event => 1,
            Status::Refused => -1,
            Status::NoMemory => -2,
            Status::NotUtf8 => -3,
            Status::NoParser => -4,
            Status::Utf16 => -5,
            Status::More => 2,
            Status::Loaded => 3,
            Status::Whole => -6,
            Status::TooMuch => -7,
            Status::TooLarge => -8,
            Status::Late => -9,
            Status::Deviates => 4,
            Status::Finding => 5,
            Status::Wrong => 6,
            Status::NotChecked => -10,
            Status::TooLong => -11,
        }
    }

    /// What is returned of a text that is refused, by what its fault says.
    pub fn of_refusal(info: &str) -> Status
        ensures { IsStatusOfRefusal info.now result }
    {
        if info == FaultText::TextTooLong.words() {
            Status::TooLong
        } else {
            Status::Refused
        }
    }
}
