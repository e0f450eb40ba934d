//! What `dump` writes, and what a writer has taken where it fails.

use crate::inputs::parser_of;
use saphyr_parser::{DumpFault, Fault, Input, Parser, dump};
use std::alloc::Global;
use test_events::{Case, Difference, KeepingWriter, Manner, printed, push_item};

/// How many bytes the lines may have of which each is refused alone.
const MOST_CUT: usize = 200;

/// A writer that takes each piece whole.
pub const WHOLE: Manner = Manner {
    at_a_time: usize::MAX,
    before_failure: usize::MAX,
    is_silent: false,
};

/// Has each write of a text's lines fail in turn, by an error and by nothing taken. Where there are few,
/// each byte is refused too.
pub fn compare(alloc: Global, case: &Case) -> Result<(), Difference> {
    let text = printed(alloc, case.lines.as_slice())?;
    compare_text(alloc, case, text.as_str())
}

fn compare_text(alloc: Global, case: &Case, text: &str) -> Result<(), Difference> {
    let by_bytes = Manner {
        at_a_time: 1,
        ..WHOLE
    };
    if write_case(alloc, case, text, by_bytes)? {
        return Err(Difference::new(alloc, "a writer that takes bytes fails"));
    }
    fail_all(alloc, case, text, by_bytes)
}

// Has the writes fail of a writer that takes each piece whole, and by an error and by nothing taken.
fn fail_all(alloc: Global, case: &Case, text: &str, by_bytes: Manner) -> Result<(), Difference> {
    fail_each(alloc, case, text, WHOLE)?;
    let silent = Manner {
        is_silent: true,
        ..WHOLE
    };
    fail_each(alloc, case, text, silent)?;
    if text.len() <= MOST_CUT {
        fail_each(alloc, case, text, by_bytes)?;
    }
    Ok(())
}

// Has the first write fail, then the second, and so on until none fails.
fn fail_each(alloc: Global, case: &Case, text: &str, manner: Manner) -> Result<(), Difference> {
    for before_failure in 0..usize::MAX {
        let manner = Manner {
            before_failure,
            ..manner
        };
        if !write_case(alloc, case, text, manner)? {
            break;
        }
    }
    Ok(())
}

// Writes the lines of a case. Whether the writer has failed.
fn write_case(alloc: Global, case: &Case, text: &str, manner: Manner) -> Result<bool, Difference> {
    is_dumped(
        alloc,
        parser_of(alloc, case),
        text,
        case.fault_line(),
        manner,
    )
}

/// `dump` writes the text up to where the writer fails, and answers that, or the fault. Whether the writer
/// has failed.
pub fn is_dumped<T: Input + Drop>(
    alloc: Global,
    mut parser: Parser<'_, T>,
    text: &str,
    fault: Option<&str>,
    manner: Manner,
) -> Result<bool, Difference> {
    let mut writer = KeepingWriter::new(alloc, manner);
    let answer = dump(&mut parser, &mut writer);
    drop(parser);
    let rest = writer.rest_of(text);
    let has_failed = writer.has_failed();
    drop(writer);
    let Some(rest) = rest else {
        return Err(Difference::new(alloc, "other bytes are written"));
    };
    match answer {
        Err(DumpFault::Write) if has_failed && !rest.is_empty() => Ok(true),
        Ok(()) if rest.is_empty() && fault.is_none() => Ok(false),
        Err(DumpFault::Parse(found)) if rest.is_empty() => is_fault(alloc, found, fault),
        _ => Err(Difference::new(alloc, "another answer")),
    }
}

// The line of a fault is as expected. No writer has failed.
fn is_fault(alloc: Global, found: Fault, fault: Option<&str>) -> Result<bool, Difference> {
    let mut line = String::new(alloc);
    let pushed = push_item(&mut line, Err(&found));
    drop(found);
    pushed?;
    if fault != Some(line.as_str()) {
        return Err(Difference::new(alloc, line.as_str()));
    }
    Ok(false)
}
