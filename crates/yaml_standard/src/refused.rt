//! Whether the parser refuses a text, and why.
ghost use Rattle.std.specs.Prelude.{IfOk};
ghost use Rattle.saphyr_parser.specs.Cursor.{to_come};
ghost use Rattle.saphyr_parser.specs.Runs.{answer_of_text};
ghost use Rattle.yaml_standard.specs.Verdicts.{EndsWithFault, IsLastFault};

use saphyr_parser::{Event, Fault, Parser, Progress, ScanError, Span, StrInput, no_event};
use std::alloc::{AllocError, Global};

/// The fault by which the parser refuses a text.
pub(crate) fn fault_on(alloc: Global, text: &str) -> Result<Option<ScanError>, AllocError>
    ensures { IfOk result (EndsWithFault (answer_of_text text.now)) }
{
    let mut parser = Parser::new_from_str(alloc, text);
    let mut next = no_event();
    let last = last_fault(&mut parser, &mut next);
    drop((next, parser));
    match last {
        None => Ok(None),
        Some(Fault::Scan(error)) => Ok(Some(error)),
        Some(other) => {
            drop(other);
            Err(AllocError)
        }
    }
}

/// Passes all events, through one place: the fault that ends them, if one does.
pub(crate) fn last_fault<'a>(
    parser: &mut Parser<'a, StrInput<'a>>,
    next: &mut (Event<'a>, Span),
) -> Option<Fault>
    ensures { IsLastFault (to_come parser.old) result }
{
    let mut fault = Fault::OutOfMemory;
    loop {
        match parser.next_event_into(next, &mut fault) {
            Progress::Event => (),
            Progress::Fault => return Some(fault),
            Progress::Over => return None,
        }
    }
}
