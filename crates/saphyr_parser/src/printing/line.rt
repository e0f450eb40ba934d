//! The line of an event: its name, the properties of its node, and a scalar's text.

ghost use Rattle.std.specs.Prelude.{◌≡◌, ◌+◌, ◌<◌, ◌++◌, codes, length, option_map};
ghost use Rattle.std.specs.Fmt.{decimal};
ghost use Rattle.saphyr_machine.specs.Views.Events.{happening, resolved_tag};
ghost use Rattle.saphyr_parser.specs.Written.{Takes};
ghost use Rattle.saphyr_parser.specs.Printed as printed;

use crate::printing::writing::{
    Unwritten, copies_plain, copy, is_plain_up_to, write_all, write_escaped, write_id,
};
use saphyr_machine::{Event, Tag};
use saphyr_scalar::ScalarStyle;
use std::io::Write;

// Writes the line of an event.
pub(super) fn write_line<W: Write>(out: &mut W, event: &Event<'_>) -> Result<(), Unwritten>
    ensures { Takes result (W.contents out.old) (W.contents out.new)
        (printed.printed_line (happening event.now)) }
{
    match event {
        Event::Nothing => Ok(()),
        Event::StreamStart => write_all(out, b"+STR\n"),
        Event::StreamEnd => write_all(out, b"-STR\n"),
        Event::DocumentStart(_) => write_all(out, b"+DOC\n"),
        Event::DocumentEnd => write_all(out, b"-DOC\n"),
        Event::Alias(id) => write_alias(out, *id),
        Event::Scalar(text, style, 0, None) => write_bare_scalar(out, text, *style),
        Event::Scalar(text, style, id, tag) => write_scalar(out, text, *style, *id, tag),
        Event::SequenceStart(0, None) => write_all(out, b"+SEQ\n"),
        Event::SequenceStart(id, tag) => write_start(out, b"+SEQ", *id, tag),
        Event::SequenceEnd => write_all(out, b"-SEQ\n"),
        Event::MappingStart(0, None) => write_all(out, b"+MAP\n"),
        Event::MappingStart(id, tag) => write_start(out, b"+MAP", *id, tag),
        Event::MappingEnd => write_all(out, b"-MAP\n"),
    }
}

fn write_alias<W: Write>(out: &mut W, id: usize) -> Result<(), Unwritten>
    ensures { Takes result (W.contents out.old) (W.contents out.new)
        (codes "=ALI *" ++ (decimal id ++ codes "\n")) }
{
    // For speed: one write costs less than three, and few anchors have aliases.
    if id < 10 {
        let digit = b'0' + (id % 10) as u8;
        return write_all(out, &[b'=', b'A', b'L', b'I', b' ', b'*', digit, b'\n']);
    }
    write_all(out, b"=ALI *")?;
    write_id(out, id)?;
    write_all(out, b"\n")
}

fn write_scalar<W: Write>(
    out: &mut W,
    text: &str,
    style: ScalarStyle,
    id: usize,
    tag: &Option<Tag>,
) -> Result<(), Unwritten>
    ensures { Takes result (W.contents out.old) (W.contents out.new)
        (printed.node_text (codes "=VAL") id (option_map resolved_tag tag.now)
        ++ ((codes " " ++ printed.style_mark style) ++ (printed.printed_bytes text.now ++ codes "\n"))) }
{
    write_node(out, b"=VAL", id, tag)?;
    write_text(out, mark(style), text.as_bytes())
}

// Writes the line of a scalar without properties.
fn write_bare_scalar<W: Write>(out: &mut W, text: &str, style: ScalarStyle) -> Result<(), Unwritten>
    ensures { Takes result (W.contents out.old) (W.contents out.new)
        (codes "=VAL " ++ printed.style_mark style ++ (printed.printed_bytes text.now ++ codes "\n")) }
{
    write_text(out, bare_mark(style), text.as_bytes())
}

// Writes a line of at most 16 bytes in one piece, if its text has no escapes.
#[inline(always)]
fn write_few<W: Write>(out: &mut W, front: &[u8], text: &[u8]) -> Result<(), Unwritten>
    requires { length front.now + length text.now < 16 }
    ensures { Takes result (W.contents out.old) (W.contents out.new)
        (front.now ++ (printed.printed_bytes text.now ++ codes "\n")) }
{
    let mut line = [0; 16];
    let end = front.len() + text.len();
    line[..front.len()].copy_from_slice(front);
    if !copies_plain(text, &mut line[front.len()..end]) {
        return write_pieces(out, front, text);
    }
    line[end] = b'\n';
    write_all(out, &line[..end + 1])
}

// Writes a line of at most 64 bytes. It is filled with spaces first, so that all of a block can be looked at.
#[inline(always)]
fn write_short<W: Write>(out: &mut W, front: &[u8], text: &[u8]) -> Result<(), Unwritten>
    requires { length front.now + length text.now < 64 }
    ensures { Takes result (W.contents out.old) (W.contents out.new)
        (front.now ++ (printed.printed_bytes text.now ++ codes "\n")) }
{
    let mut line = [b' '; 64];
    let end = front.len() + text.len();
    line[..front.len()].copy_from_slice(front);
    copy(text, &mut line[front.len()..end]);
    if !is_plain_up_to(&line, end) {
        return write_pieces(out, front, text);
    }
    line[end] = b'\n';
    write_all(out, &line[..end + 1])
}

// Writes what comes before a scalar's text and the text, and ends the line.
#[inline(always)]
fn write_text<W: Write>(out: &mut W, front: &[u8], text: &[u8]) -> Result<(), Unwritten>
    ensures { Takes result (W.contents out.old) (W.contents out.new)
        (front.now ++ (printed.printed_bytes text.now ++ codes "\n")) }
{
    // For speed: a short line in one piece, since each write costs more than most texts.
    if text.len() < 4 && front.len() < 12 {
        write_few(out, front, text)
    } else if front.len() + text.len() < 64 {
        write_short(out, front, text)
    } else {
        write_pieces(out, front, text)
    }
}

// Writes a line that is long or has escapes.
#[inline(never)]
fn write_pieces<W: Write>(out: &mut W, front: &[u8], text: &[u8]) -> Result<(), Unwritten>
    ensures { Takes result (W.contents out.old) (W.contents out.new)
        (front.now ++ (printed.printed_bytes text.now ++ codes "\n")) }
{
    write_all(out, front)?;
    write_escaped(out, text)?;
    write_all(out, b"\n")
}

// What comes before the text of a scalar without properties.
#[inline(always)]
fn bare_mark(style: ScalarStyle) -> &'static [u8]
    ensures { result.now ≡ codes "=VAL " ++ printed.style_mark style }
{
    match style {
        ScalarStyle::Plain => b"=VAL :",
        ScalarStyle::SingleQuoted => b"=VAL '",
        ScalarStyle::DoubleQuoted => b"=VAL \"",
        ScalarStyle::Literal => b"=VAL |",
        ScalarStyle::Folded => b"=VAL >",
    }
}

// What is between a scalar's properties and its text.
fn mark(style: ScalarStyle) -> &'static [u8]
    ensures { result.now ≡ codes " " ++ printed.style_mark style }
{
    match style {
        ScalarStyle::Plain => b" :",
        ScalarStyle::SingleQuoted => b" '",
        ScalarStyle::DoubleQuoted => b" \"",
        ScalarStyle::Literal => b" |",
        ScalarStyle::Folded => b" >",
    }
}

// Writes the line of a collection's start.
fn write_start<W: Write>(
    out: &mut W,
    name: &[u8],
    id: usize,
    tag: &Option<Tag>,
) -> Result<(), Unwritten>
    ensures { Takes result (W.contents out.old) (W.contents out.new)
        (printed.node_text name.now id (option_map resolved_tag tag.now) ++ codes "\n") }
{
    write_node(out, name, id, tag)?;
    write_all(out, b"\n")
}

// Writes the name of an event, and the properties of its node.
fn write_node<W: Write>(
    out: &mut W,
    name: &[u8],
    id: usize,
    tag: &Option<Tag>,
) -> Result<(), Unwritten>
    ensures { Takes result (W.contents out.old) (W.contents out.new)
        (printed.node_text name.now id (option_map resolved_tag tag.now)) }
{
    write_all(out, name)?;
    write_anchor(out, id)?;
    match tag {
        Some(tag) => write_tag(out, tag),
        None => Ok(()),
    }
}

fn write_anchor<W: Write>(out: &mut W, id: usize) -> Result<(), Unwritten>
    ensures { Takes result (W.contents out.old) (W.contents out.new) (printed.anchor_text id) }
{
    if id == 0 {
        return Ok(());
    }
    write_all(out, b" &")?;
    write_id(out, id)
}

fn write_tag<W: Write>(out: &mut W, tag: &Tag) -> Result<(), Unwritten>
    ensures { Takes result (W.contents out.old) (W.contents out.new)
        (printed.tag_text (Some (resolved_tag tag.now))) }
{
    write_all(out, b" <")?;
    write_all(out, tag.handle.as_bytes())?;
    write_all(out, tag.suffix.as_bytes())?;
    write_all(out, b">")
}
