//! The rules of YAML 1.2.2 that the parser does not keep.
ghost use Rattle.std.specs.Prelude.{◌≡◌};
ghost use Rattle.yaml_standard.specs.Rules as spec;

/// What a text breaks, and the parser reads all the same.
#[derive(Clone, Copy, Debug, PartialEq, Eq)]
pub enum Rule {
    CollectionAtColon,
    TabIndentation,
    UnderscoreInHandle,
    BlockIndicatorInFlow,
    QuestionInFlow,
    QuotedIndentation,
    FlowIndentation,
    TabBehindBlockScalar,
    CommentWithoutBlank,
    UnprintableCharacter,
    EscapedEmptyLine,
    LongKeyInFlow,
    BracketBehindProperty,
    PrefixWithoutBlank,
    EmptyVerbatimTag,
    TabBehindProperty,
    TabInEmptyLine,
    QuoteAtFirstColumn,
    /// No rule is broken: the grammar leaves out what the standard derives here.
    LoneDashInFlow,
    /// None of these.
    Unnamed,
}

impl Rule {
    /// Its name.
    pub fn name(self) -> &'static str
        ensures { result.now ≡ spec.rule_name self }
    {
        match self {
            Rule::CollectionAtColon => "collection-at-colon",
            Rule::TabIndentation => "tab-indentation",
            Rule::UnderscoreInHandle => "underscore-in-handle",
            Rule::BlockIndicatorInFlow => "block-indicator-in-flow",
            Rule::QuestionInFlow => "question-in-flow",
            Rule::QuotedIndentation => "quoted-indentation",
            Rule::FlowIndentation => "flow-indentation",
            Rule::TabBehindBlockScalar => "tab-behind-block-scalar",
            Rule::CommentWithoutBlank => "comment-without-blank",
            Rule::UnprintableCharacter => "unprintable-character",
            Rule::EscapedEmptyLine => "escaped-empty-line",
            Rule::LongKeyInFlow => "long-key-in-flow",
            Rule::BracketBehindProperty => "bracket-behind-property",
            Rule::PrefixWithoutBlank => "prefix-without-blank",
            Rule::EmptyVerbatimTag => "empty-verbatim-tag",
            Rule::TabBehindProperty => "tab-behind-property",
            Rule::TabInEmptyLine => "tab-in-empty-line",
            Rule::QuoteAtFirstColumn => "quote-at-first-column",
            Rule::LoneDashInFlow => "lone-dash-in-flow",
            Rule::Unnamed => "unnamed",
        }
    }

    /// The production, and what it asks.
    pub fn sentence(self) -> &'static str
        ensures { result.now ≡ spec.rule_sentence self }
    {
        match self {
            Rule::CollectionAtColon =>
                "[194] c-l-block-map-implicit-value: after a key's colon a block collection begins on a later line",
            Rule::TabIndentation =>
                "[183], [185], [187]: before the first entry of a block collection are spaces alone",
            Rule::UnderscoreInHandle =>
                "[92] c-named-tag-handle: a handle has letters, digits and hyphens between its two '!'",
            Rule::BlockIndicatorInFlow =>
                "[126] ns-plain-first: a plain scalar does not begin with '|' or '>'",
            Rule::QuestionInFlow =>
                "[126] ns-plain-first: a plain scalar begins with '?' only before a character of its own",
            Rule::QuotedIndentation =>
                "[109], [120]: each line of a quoted scalar begins right of the block collection that it is in",
            Rule::FlowIndentation =>
                "[69] s-flow-line-prefix: each line of a flow collection begins right of the block collection \
                 that it is in",
            Rule::TabBehindBlockScalar =>
                "[169] l-trail-comments: what follows a block scalar is indented by spaces alone",
            Rule::CommentWithoutBlank =>
                "[149] c-ns-flow-map-adjacent-value: a blank parts a comment from the colon before it",
            Rule::UnprintableCharacter =>
                "[1] c-printable, [2] nb-json: each character is printable, or in quotes and above U+001F",
            Rule::EscapedEmptyLine =>
                "[115], [116]: a later line of a quoted scalar has a character before an escaped break",
            Rule::LongKeyInFlow =>
                "[154], [155]: the colon of a key in brackets is at most 1024 characters after its start",
            Rule::BracketBehindProperty =>
                "[160], [161]: an anchor or a tag is parted from the bracket behind it",
            Rule::PrefixWithoutBlank =>
                "[88] ns-tag-directive: blanks part the prefix from the handle before it",
            Rule::EmptyVerbatimTag =>
                "[98] c-verbatim-tag: a character at least stands between '!<' and '>'",
            Rule::TabBehindProperty =>
                "[96], [200]: the line behind an anchor or a tag is indented by spaces, as its node is",
            Rule::TabInEmptyLine =>
                "[70] l-empty: an empty line of a scalar has no tab left of the indentation",
            Rule::QuoteAtFirstColumn =>
                "[112] s-double-escaped: the line after an escaped break is indented as the scalar is",
            Rule::LoneDashInFlow =>
                "no rule is broken: YAML 1.2.2 ([130], [132]) has this '-', but the grammar that is checked does not",
            Rule::Unnamed => "no production derives the text from here on",
        }
    }
}
