//! What is said beside a fault.
ghost use Rattle.std.specs.Prelude.{◌≡◌};

use saphyr_parser::Marker;
use std::fmt;

/// What is said beside a fault.
#[derive(Clone, Copy, Debug)]
pub enum Remark {
    /// The sequence that begins here with a bracket is open.
    SequenceOpen,
    MappingOpen,
    /// A collection without brackets is open, and what is refused is not in it.
    SequenceColumn,
    MappingColumn,
    /// A key is among the entries of a sequence, or an entry among the keys of a mapping.
    Mixed,
    /// The line has no colon that makes it a key.
    NoColon,
    /// A value is in the column of its key.
    ValueColumn,
    /// A line of a block scalar is left of the others.
    BlockScalarColumn,
    /// A key is right of the column of its mapping.
    TooFarRight,
    /// A line is in another column than those below it, which belong with it.
    OtherColumn,
    /// The dash before a key is missing, where entries follow.
    NoDash,
    NoBlankBehindDash,
    /// A key begins with a dash that has no blank behind it.
    KeyBeginsWithDash,
    NoBlankBehindColon,
    /// A colon of another width.
    WideColon,
    ColonInText,
    /// No text without quotes begins with the character.
    FirstCharacter,
    /// A text without quotes begins with the brackets of a template.
    Template,
    CommentInText,
    /// A comment begins as in another language.
    OtherComment,
    /// The first line of a block scalar stands behind its sign.
    BlockScalarHeader,
    /// A comma outside brackets.
    CommaBehind,
    QuotesOpen,
    /// What is refused comes behind the quotes that begin here.
    QuotesEnd,
    /// A single quote ends a text where it was meant to be a part of it.
    Apostrophe,
    /// Double quotes are around a text of JSON that has some.
    JsonText,
    TypographersQuote,
    NoBreakSpace,
    IdeographicSpace,
    OtherSpace,
    ZeroWidth,
    MissingComma,
    Escape,
    Tab,
    /// A sequence begins on the line of its key.
    SequenceLine,
    /// A line between brackets is not indented.
    BracketColumn,
    UnknownAlias,
    ConflictMarker,
    /// YAML allows what follows, and the parser does not: a tab behind a colon or a question mark,
    AllowedTab,
    /// one that begins the text of a block scalar,
    AllowedFirstTab,
    /// a colon on the line below its key, and right before its value,
    AllowedColon,
    /// one right behind a tag,
    AllowedColonBehindTag,
    /// a dash in front of a bracket or a comma,
    AllowedDash,
    /// a line behind a block scalar without content,
    AllowedLine,
    /// a question mark as the last character.
    AllowedQuestionMark,
}

/// A remark and its place.
#[derive(Clone, Copy, Debug)]
pub struct Note {
    pub place: Marker,
    pub remark: Remark,
}

impl fmt::Display for Remark {
    ghost use Rattle.std.specs.Prelude.{Some};
    ghost use Rattle.yaml_check.specs.Texts.{remark_text};

    ghost output = { λ remark. Some (remark_text remark) };

    fn fmt<W: fmt::Write>(&self, f: &mut fmt::Formatter<W>) -> fmt::Result {
        f.write_str(self.text())
    }
}

impl Remark {
    ghost use Rattle.yaml_check.specs.Mended.{is_at_fault, is_of_collection, mends};
    ghost use Rattle.yaml_check.specs.Texts.{remark_text};

    /// Whether a person mends the text where it is told. The error is then told there, and else at the parser's fault.
    pub(crate) fn mends(self) -> bool
        ensures { result ≡ mends self }
    {
        match self {
            Remark::SequenceColumn | Remark::MappingColumn => false,
            _ => true,
        }
    }

    /// Whether it is told where the fault is.
    pub(crate) fn is_at_fault(self) -> bool
        ensures { result ≡ is_at_fault self }
    {
        match self {
            Remark::ColonInText | Remark::FirstCharacter | Remark::CommentInText => true,
            Remark::QuotesOpen | Remark::SequenceLine | Remark::UnknownAlias => true,
            Remark::Mixed | Remark::BracketColumn | Remark::MissingComma => true,
            Remark::CommaBehind | Remark::BlockScalarHeader => true,
            Remark::AllowedColon | Remark::AllowedDash => true,
            Remark::AllowedLine | Remark::AllowedQuestionMark => true,
            _ => false,
        }
    }

    /// Whether it is told where a collection begins.
    pub(crate) fn is_of_collection(self) -> bool
        ensures { result ≡ is_of_collection self }
    {
        matches!(
            self,
            Remark::MappingColumn | Remark::SequenceColumn | Remark::KeyBeginsWithDash
        )
    }

    /// What it says.
    pub(crate) fn text(self) -> &'static str
        ensures { result.now ≡ remark_text self }
    {
        match self {
            Remark::SequenceOpen => "the sequence that begins here is not closed yet",
            Remark::MappingOpen => "the mapping that begins here is not closed yet",
            Remark::SequenceColumn => "the dashes of this sequence are in this column",
            Remark::MappingColumn => "the keys of this mapping begin in this column",
            Remark::Mixed => {
                "a collection has either keys or entries with dashes: write this as those before it"
            }
            Remark::NoColon => {
                "a ':' with a blank behind it is missing in this line, or the line is indented wrongly"
            }
            Remark::ValueColumn => "indent a value further than its key",
            Remark::BlockScalarColumn => "indent this as the first line of the text above it",
            Remark::TooFarRight => {
                "this is too far right for a key, and goes on with the text of the line before"
            }
            Remark::OtherColumn => {
                "this is in another column than the lines below, or a '-' before it is missing"
            }
            Remark::NoDash => "a '-' before this is missing, as the lines below have it",
            Remark::NoBlankBehindDash => "write a blank behind this dash",
            Remark::KeyBeginsWithDash => "write a blank behind this dash: it is a part of the key",
            Remark::NoBlankBehindColon => "write a blank behind this colon",
            Remark::WideColon => {
                "this is a colon of another width, which is a part of a text: write ':' and a blank"
            }
            Remark::ColonInText => "a text with ': ' in it needs quotes",
            Remark::FirstCharacter => "a text that begins with this character needs quotes",
            Remark::Template => "a text that begins with {{ or {% needs quotes",
            Remark::CommentInText => {
                "a text with ' #' in it needs quotes, and a comment ends a text"
            }
            Remark::OtherComment => "a comment begins with '#'",
            Remark::BlockScalarHeader => "the text of a block scalar begins on the next line",
            Remark::CommaBehind => "a ',' is between entries in brackets alone: take it away",
            Remark::QuotesOpen => "these quotes are not closed, or a line in them is not indented",
            Remark::QuotesEnd => {
                "the quotes from here on end before that: is a quote, a comma, a colon or an escape missing?"
            }
            Remark::Apostrophe => "write '' for a ' in single quotes",
            Remark::JsonText => "write single quotes around a text with double quotes in it",
            Remark::TypographersQuote => {
                "this is a typographer's quote, which is a part of a text: write \" or '"
            }
            Remark::NoBreakSpace => {
                "this is a no-break space, which is a part of a text: write a space"
            }
            Remark::IdeographicSpace => {
                "this is an ideographic space, which is a part of a text: write a space"
            }
            Remark::OtherSpace => {
                "this is a space of another width, which is a part of a text: write a space"
            }
            Remark::ZeroWidth => {
                "this is a character without width, which is a part of a text: take it away"
            }
            Remark::MissingComma => {
                "a ',' is missing before this, or a text with ': ' in it needs quotes"
            }
            Remark::Escape => {
                "this is no character's escape; in single quotes a backslash stands for itself"
            }
            Remark::Tab => "indent with spaces: a tab is no indentation",
            Remark::SequenceLine => "a sequence begins on a line of its own, below its key",
            Remark::BracketColumn => "indent each line between brackets, and the closing one",
            Remark::UnknownAlias => {
                "no anchor has this name; a text that begins with * needs quotes"
            }
            Remark::ConflictMarker => "this is the marker of a conflict between versions",
            Remark::AllowedTab => {
                "YAML allows a tab here, and this parser, as the Rust crate, does not: write a space"
            }
            Remark::AllowedFirstTab => {
                "YAML allows a tab here, and this parser, as the Rust crate, does not: write \"\\t\" in quotes"
            }
            Remark::AllowedColon => {
                "YAML allows this colon, and this parser, as the Rust crate, does not: write a blank behind it"
            }
            Remark::AllowedColonBehindTag => {
                "YAML allows this colon, and this parser, as the Rust crate, does not: write a blank before it"
            }
            Remark::AllowedDash => {
                "YAML allows this dash, and this parser, as the Rust crate, does not: write quotes around the text"
            }
            Remark::AllowedLine => {
                "YAML allows this line, and this parser, as the Rust crate, does not: write \"\" for the text before it"
            }
            Remark::AllowedQuestionMark => {
                "YAML allows a '?' at the end, and this parser, as the Rust crate, does not: write a line break"
            }
        }
    }
}
