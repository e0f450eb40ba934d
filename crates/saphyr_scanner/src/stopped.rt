//! The error of a step that keeps what ended the reading.

ghost use Rattle.std.specs.Prelude.{◌≡◌};
ghost use Rattle.saphyr_scanner.specs.Views.Engine.{Keeps};

use saphyr_scalar::Stop;

/// What ended the reading is kept by who returns this.
#[derive(Clone, Copy, Debug, PartialEq, Eq)]
pub struct Stopped;

/// Passes on what a call returned, and keeps what ended the reading, if something did.
#[inline(always)]
pub(crate) fn keep<R, E: Into<Stop>>(stop: &mut Stop, read: Result<R, E>) -> Result<R, Stopped>
    ensures { Keeps E.converts read result stop.new }
{
    match read {
        Ok(value) => Ok(value),
        Err(reason) => {
            *stop = reason.into();
            Err(Stopped)
        }
    }
}
