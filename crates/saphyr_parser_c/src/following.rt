//! The node that an alias stands for (YAML 1.2.2, 7.1), and values by the texts of their keys, where aliases are
//! followed.

ghost use Rattle.std.specs.Prelude.{◌≡◌, IsUtf8, List, None};
ghost use Rattle.saphyr_parser.specs.Events.{Happening as Told};
ghost use Rattle.yaml_tree.specs.Accessing.{is_this_text};
ghost use Rattle.yaml_tree.specs.Tables.{Event as Placed, IsNodeAt, IsTable, TellsFirst, store_of};
ghost use Rattle.saphyr_parser_c.specs.Followed as spec;

use yaml_tree::{Content, NodeTable, Step};

/// The number of the node that an alias names, and of any other node its own.
pub fn follow(table: &NodeTable, number: usize) -> Option<usize>
    ensures { spec.FollowsAlias number result table.now }
{
    match table.entry(number)?.content {
        Content::Alias(id) => table.with_anchor(id as usize),
        _ => Some(number),
    }
}

/// The number of the value of a key in the mapping with this number, or in the one that an alias with this number
/// names. The first key counts that is a scalar with this text, or an alias of one. None if the bytes are no text.
pub fn get_by_bytes(table: &NodeTable, number: usize, key: &[u8]) -> Option<usize>
    ensures text { IsUtf8 key.now → spec.GetsFollowed number key.now result table.now }
    ensures no_text { (IsUtf8 key.now → ⊥) → result ≡ None }
{
    match str::from_utf8(key) {
        Ok(key) => get(table, number, key),
        Err(_) => None,
    }
}

// The same of a key that is a text.
fn get(table: &NodeTable, number: usize, key: &str) -> Option<usize>
    ensures { spec.GetsFollowed number key.now result table.now }
{
    let whole = follow(table, number)?;
    for index in 0..table.count(whole) {
        if has_key(table, whole, index, key) {
            return table.part(whole, Step::Value(index));
        }
    }
    None
}

// Whether the key with this index has this text.
fn has_key(table: &NodeTable, whole: usize, index: usize, text: &str) -> bool
    ensures { (es own : List Placed) → IsTable es table.now → IsNodeAt es whole own
        → spec.IsKey es text.now own whole index result }
{
    match table.part(whole, Step::Key(index)) {
        Some(key) => has_text(table, follow(table, key), text),
        None => false,
    }
}

// Whether it is the number of a scalar with this text.
fn has_text(table: &NodeTable, number: Option<usize>, text: &str) -> bool
    ensures { (es : List Placed) → IsTable es table.now → spec.IsThere es number
        → spec.IsTextOfKey es text.now number result }
{
    let Some(number) = number else {
        return false;
    };
    match table.entry(number) {
        Some(entry) => is_text(table, entry.content, text),
        None => false,
    }
}

// Whether it is that of a scalar with this text.
fn is_text(table: &NodeTable, content: Content, text: &str) -> bool
    ensures { (h : Told) → TellsFirst (store_of table.now) content h
        → result ≡ is_this_text text.now (spec.scalar_text h) }
{
    match content {
        Content::Scalar(_, row, _) => table.text(row) == text.as_bytes(),
        _ => false,
    }
}
