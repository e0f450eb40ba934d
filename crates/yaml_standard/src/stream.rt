//! Documents one after the other (YAML 1.2.2, 9.2).
ghost use Rattle.std.specs.Prelude.{◌≡◌, ℕ, List, ◌++◌, None, IfOk, IsTrue, IsFalse};
ghost use Rattle.std.specs.Str.{chars};
ghost use Rattle.yaml_laws.specs.Grammar.Yaml as grammar;
ghost use Rattle.yaml_standard.specs.Documents as spec;
ghost use Rattle.yaml_standard.specs.Goals.{position};
ghost use Rattle.yaml_standard.specs.Takes.{TakesBefore};

use crate::document::{
    behind_document_prefix, behind_document_suffix, behind_marker, behind_marks, has_marker,
};
use crate::front::front_before;
use crate::goal::{Goal, Place};
use crate::hint::{Guide, HintKind};
use crate::spaces::{behind_filler, is_last_filler};
use crate::walk::{Stuck, close};
use std::alloc::{AllocError, Global};

/// Where the node of a document is.
fn place_of_content(is_bare: bool) -> Place
    ensures { position result ≡ spec.place_of_content is_bare }
{
    if is_bare {
        Place::AtStart
    } else {
        Place::BehindMarker
    }
}

/// Whether no document marker begins a line before the rest of a document's text.
fn is_one_document(text: &str, rest: &str, is_bare: bool) -> bool
    ensures { IsTrue result → (t : List ℕ) → chars text.now ≡ t ++ chars rest.now
        → IsFalse (grammar.has_marker is_bare t) }
{
    match front_before(text, rest) {
        None => false,
        Some(front) => !has_marker(front, is_bare),
    }
}

/// What follows the node of a document.
fn behind_content<'a>(
    alloc: Global,
    text: &'a str,
    is_bare: bool,
    guide: &mut Guide<'a>,
) -> Result<Result<&'a str, Stuck<'a>>, AllocError>
    ensures { IfOk result (λ read. IfOk read (λ rest. TakesBefore (spec.IsDocumentNode is_bare)
        (chars text.now) (chars rest.now))) }
{
    pass_document_start(guide);
    let place = place_of_content(is_bare);
    let read = close(alloc, Goal::BlockNode(place), text, guide)?;
    match read {
        Err(stuck) => Ok(Err(stuck)),
        Ok(rest) if is_one_document(text, rest, is_bare) => Ok(Ok(rest)),
        Ok(_) => Ok(Err(Stuck { goal: None, text })),
    }
}

/// Passes the events before a document's node: the start of the stream or the end of the last document, and the start
/// of this one.
fn pass_document_start(guide: &mut Guide<'_>) {
    for _ in 0..2 {
        if matches!(guide.hint().kind, HintKind::Document) {
            guide.pass();
        }
    }
}

/// What follows a document, which may be bare or have directives only where it is free.
fn behind_document<'a>(
    alloc: Global,
    text: &'a str,
    free: bool,
    guide: &mut Guide<'a>,
) -> Result<Result<&'a str, Stuck<'a>>, AllocError>
    ensures { IfOk result (λ read. IfOk read (λ rest. TakesBefore (spec.IsSomeDocument free)
        (chars text.now) (chars rest.now))) }
{
    let found = behind_marker(alloc, text, free)?;
    if found.is_none() && text.starts_with("%") {
        return Ok(Err(Stuck { goal: None, text }));
    }
    match found {
        Some(content) => behind_content(alloc, content, false, guide),
        None if free => behind_content(alloc, text, true, guide),
        None => Ok(Err(Stuck { goal: None, text })),
    }
}

/// Where the next document may come behind one, and whether it is free there.
pub(crate) fn next_place(text: &str) -> (&str, bool)
    ensures { spec.ComesBehind (chars text.now) result.1 (chars result.0.now) }
{
    let marks = behind_marks(text);
    match behind_document_suffix(marks) {
        None => (marks, false),
        Some(rest) => (rest, true),
    }
}

/// Reads documents up to the end, of which the first may be free. Where they can't be read on is told, or nothing if
/// the grammar derives them.
pub(crate) fn read_documents<'a>(
    alloc: Global,
    text: &'a str,
    is_free: bool,
    guide: &mut Guide<'a>,
) -> Result<Option<Stuck<'a>>, AllocError>
    ensures { IfOk result (λ stuck. stuck ≡ None → spec.AreSomeFurther is_free (chars text.now)) }
{
    let mut rest = text;
    let mut free = is_free;
    for _ in 0..usize::MAX {
        if is_last_filler(rest) {
            return Ok(None);
        }
        let document = behind_filler(rest);
        let read = behind_document(alloc, document, free, guide)?;
        match read {
            Err(stuck) => return Ok(Some(stuck)),
            Ok(behind) => {
                let place = next_place(behind);
                rest = place.0;
                free = place.1;
            }
        }
    }
    Ok(Some(Stuck {
        goal: None,
        text: rest,
    }))
}

/// Reads a stream, in the same way.
pub(crate) fn read_stream<'a>(
    alloc: Global,
    text: &'a str,
    guide: &mut Guide<'a>,
) -> Result<Option<Stuck<'a>>, AllocError>
    ensures { IfOk result (λ stuck. stuck ≡ None → spec.IsSomeStream (chars text.now)) }
{
    let first = behind_document_prefix(text);
    read_documents(alloc, first, true, guide)
}
