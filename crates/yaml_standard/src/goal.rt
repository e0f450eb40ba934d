//! What is still open of a text: a goal is a production of the grammar, with its context, and stands for a piece that
//! is to come. The productions are those of YAML 1.2.2, chapters 7 and 8.

/// Where a piece in flow style is: how many flow collections may still be opened, and the first column to the right of
/// the enclosing block collection.
#[derive(Clone, Copy)]
pub(crate) struct Flow {
    pub room: usize,
    pub indent: usize,
}

/// What a collection is.
#[derive(Clone, Copy)]
pub(crate) enum Kind {
    Sequence,
    Mapping,
}

/// Where a node in block style is.
#[derive(Clone, Copy)]
pub(crate) enum Place {
    /// After the `-` of the block sequence at this column.
    BehindDash(usize),
    /// After a `?`, or the `:` of its value, of the block mapping at this column.
    BehindMark(usize),
    /// After the colon of a key on one line, or of one that is left out, of the block mapping at this column.
    BehindKey(usize),
    /// After `---`.
    BehindMarker,
    /// At the start of a bare document.
    AtStart,
}

/// A piece that is to come.
#[derive(Clone, Copy)]
pub(crate) enum Goal<'a> {
    /// A node in flow style.
    Node(Flow),
    /// The rest of a flow collection, behind its bracket or the comma of an entry.
    Entries(Flow, Kind),
    /// The rest of a flow collection, behind an entry.
    AfterEntry(Flow, Kind),
    /// A pair in flow style, which is in brackets if this says so.
    Pair(Flow, bool),
    /// A pair without `?`, or what follows the `?`: a key, a value or both. A pair in brackets has a colon, on one line
    /// with its key.
    KeyOrValue(Flow, bool),
    /// After a flow collection that is a key: nothing, or a colon and a value.
    AfterKey(Flow),
    /// After a flow collection that is a key and begins here: a colon on one line with it.
    Colon(&'a str),
    /// What follows a colon: nothing, or separation and a value, which may come at once if this says so.
    Value(Flow, bool),
    /// A node in block style.
    BlockNode(Place),
    /// An entry of the block collection at this column.
    BlockEntry(Kind, usize),
    /// Further entries of the block collection at this column.
    BlockEntries(Kind, usize),
    /// After the key that follows a `?` of the block mapping at this column, and begins here: nothing, or its value.
    AfterMarkedKey(usize, &'a str),
    /// The end of a line.
    LineEnd,
}

/// What replaces a goal, in the order of the text.
#[derive(Clone, Copy)]
pub(crate) enum Goals<'a> {
    None,
    One(Goal<'a>),
    Two(Goal<'a>, Goal<'a>),
    Three(Goal<'a>, Goal<'a>, Goal<'a>),
}

/// A goal is closed up to here, and these are open in its place.
pub(crate) type Step<'a> = (&'a str, Goals<'a>);
