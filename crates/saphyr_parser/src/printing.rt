//! The events of a text as lines, one for each, in the notation of the YAML test suites.
ghost use Rattle.saphyr_machine.specs.Cursor.{to_come};
ghost use Rattle.saphyr_machine.specs.Calls.{EndsTheStream};
ghost use Rattle.saphyr_parser.specs.Dumps.{Dumps, Leaves};

mod fault;
mod line;
mod run;
mod writing;

use crate::cursor::Parser;
pub use fault::DumpFault;
use line::write_line;
pub use run::run_dump;
use saphyr_input::input::Input;
use saphyr_machine::{Event, Fault, Progress, no_event};
use saphyr_scalar::Span;
use std::io::Write;

/// Writes a line for each event that is still to come. It keeps no text of its own.
///
/// A fault that ends the events is returned after the lines before it are written. The first write that
/// fails, or that takes nothing, ends the call; the event of the cut line is lost.
pub fn dump<'input, T: Input, W: Write>(
    parser: &mut Parser<'input, T>,
    out: &mut W,
) -> Result<(), DumpFault>
    ensures dumps { Dumps result (to_come parser.old) (to_come parser.new) (W.contents out.old)
        (W.contents out.new) }
    ensures leaves { Leaves result parser.old parser.new (W.contents out.old) (W.contents out.new) }
    ensures over { EndsTheStream parser.new }
{
    let mut next = no_event();
    dump_each(parser, &mut next, out)
}

// Dumps all events through one place, since they are large to move.
#[inline(always)]
#[tactic(auto, using(crate::proofs::Printed::Dumping::prints_none))]
fn dump_each<'input, T: Input, W: Write>(
    parser: &mut Parser<'input, T>,
    next: &mut (Event<'input>, Span),
    out: &mut W,
) -> Result<(), DumpFault>
    ensures dumps { Dumps result (to_come parser.old) (to_come parser.new) (W.contents out.old)
        (W.contents out.new) }
    ensures leaves { Leaves result parser.old parser.new (W.contents out.old) (W.contents out.new) }
    ensures over { EndsTheStream parser.new }
{
    let mut fault = Fault::OutOfMemory;
    loop {
        match parser.next_event_into(next, &mut fault) {
            Progress::Event => write_line(out, &next.0)?,
            Progress::Fault => return Err(DumpFault::Parse(fault)),
            Progress::Over => return Ok(()),
        }
    }
}
