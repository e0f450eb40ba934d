//! The styles of scalars (YAML 1.2.2, 7.3 and 8.1).

/// How a scalar is written.
#[derive(Clone, Copy, Debug, PartialEq, Eq, PartialOrd, Ord, Hash)]
pub enum ScalarStyle {
    /// Without quotes.
    Plain,
    /// Between single quotes.
    SingleQuoted,
    /// Between double quotes.
    DoubleQuoted,
    /// Lines after `|`, whose breaks are kept.
    Literal,
    /// Lines after `>`, which are folded.
    Folded,
}
