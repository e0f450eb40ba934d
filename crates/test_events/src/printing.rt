//! What a parser hands out, as a line of a case.

use saphyr_parser::{Event, Fault, Marker, ScalarStyle, Span, Tag};
use std::alloc::AllocError;

/// Puts the line of what a parser hands out after a text.
pub fn push_item(
    line: &mut String,
    item: Result<&(Event<'_>, Span), &Fault>,
) -> Result<(), AllocError> {
    match item {
        Ok((event, span)) => push_event_line(line, event, *span),
        Err(fault) => write!(line, "! {fault}"),
    }
}

fn push_event_line(line: &mut String, event: &Event<'_>, span: Span) -> Result<(), AllocError> {
    line.push_str("> ")?;
    push_event(line, event)?;
    line.push_str(" @ ")?;
    push_span(line, span)
}

fn push_span(line: &mut String, span: Span) -> Result<(), AllocError> {
    push_place(line, span.start)?;
    line.push(' ')?;
    push_place(line, span.end)
}

fn push_place(line: &mut String, mark: Marker) -> Result<(), AllocError> {
    let Marker {
        index,
        line: number,
        col,
    } = mark;
    write!(line, "{index},{number},{col}")
}

fn push_event(line: &mut String, event: &Event<'_>) -> Result<(), AllocError> {
    match event {
        Event::Nothing => line.push_str("nothing"),
        Event::StreamStart => line.push_str("+STR"),
        Event::StreamEnd => line.push_str("-STR"),
        Event::DocumentStart(false) => line.push_str("+DOC"),
        Event::DocumentStart(true) => line.push_str("+DOC ---"),
        Event::DocumentEnd => line.push_str("-DOC"),
        Event::Alias(id) => write!(line, "=ALI *{id}"),
        Event::Scalar(text, style, id, tag) => push_scalar(line, text, *style, *id, tag),
        Event::SequenceStart(id, tag) => push_node(line, "+SEQ", *id, tag),
        Event::SequenceEnd => line.push_str("-SEQ"),
        Event::MappingStart(id, tag) => push_node(line, "+MAP", *id, tag),
        Event::MappingEnd => line.push_str("-MAP"),
    }
}

fn push_scalar(
    line: &mut String,
    text: &str,
    style: ScalarStyle,
    id: usize,
    tag: &Option<Tag>,
) -> Result<(), AllocError> {
    push_node(line, "=VAL", id, tag)?;
    line.push_str(mark(style))?;
    push_escaped(line, text)
}

fn mark(style: ScalarStyle) -> &'static str {
    match style {
        ScalarStyle::Plain => " :",
        ScalarStyle::SingleQuoted => " '",
        ScalarStyle::DoubleQuoted => " \"",
        ScalarStyle::Literal => " |",
        ScalarStyle::Folded => " >",
    }
}

fn push_node(
    line: &mut String,
    name: &str,
    id: usize,
    tag: &Option<Tag>,
) -> Result<(), AllocError> {
    line.push_str(name)?;
    if id != 0 {
        write!(line, " &{id}")?;
    }
    if let Some(Tag { handle, suffix }) = tag {
        write!(line, " <{handle}{suffix}>")?;
    }
    Ok(())
}

fn push_escaped(line: &mut String, text: &str) -> Result<(), AllocError> {
    for c in text.chars() {
        push_escape(line, c)?;
    }
    Ok(())
}

fn push_escape(line: &mut String, c: char) -> Result<(), AllocError> {
    match c {
        '\\' => line.push_str("\\\\"),
        '\n' => line.push_str("\\n"),
        '\r' => line.push_str("\\r"),
        '\t' => line.push_str("\\t"),
        '\u{8}' => line.push_str("\\b"),
        _ => line.push(c),
    }
}
