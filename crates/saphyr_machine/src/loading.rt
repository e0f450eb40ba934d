//! Hands events to a receiver, a document at a time or all of them.

ghost use Rattle.std.specs.Prelude.{◌≡◌, None};
ghost use Rattle.saphyr_machine.specs.Loading as spec;
ghost use Rattle.saphyr_machine.specs.Views.Events.{happening};

use crate::event::Event;
use crate::fault::Fault;
use crate::reader::EventReader;
use crate::receiver::SpannedEventReceiver;
use saphyr_input::input::Input;
use saphyr_scalar::Span;

// Whether `load` stops after the event.
fn is_last(event: &Event<'_>, multi: bool) -> bool
    ensures { result ≡ spec.is_last multi (happening event.now) }
{
    !multi && matches!(event, Event::DocumentEnd)
}

// Hands an event to the receiver.
fn send<'input, R: SpannedEventReceiver<'input>>(
    recv: &mut R,
    event: Event<'input>,
    span: Span,
) -> Result<(), Fault>
    ensures { spec.SendsOne R.receives result (happening event.entry, span) recv.old recv.new }
{
    match recv.on_event(event, span) {
        Ok(()) => Ok(()),
        Err(_) => Err(Fault::Receiver),
    }
}

impl<'input, T: Input> EventReader<'input, T> {
    ghost use Rattle.saphyr_machine.specs.Views.Readers.{cursor};
    ghost use Rattle.std.specs.Prelude.{Some, Err, true, false};
    ghost use Rattle.saphyr_scalar.specs.declared.scalar.position.Span.{Span as PlaceSpan};
    ghost use Rattle.saphyr_machine.specs.declared.fault.Fault.TheVariants.{InsideDocument};
    ghost use Rattle.saphyr_machine.specs.Events.{StreamEnd};
    ghost use Rattle.saphyr_machine.specs.Cursor.{IsKept};

    // Passes the next event, if there is one.
    fn pass(&mut self) -> Option<(Event<'input>, Span)>
        requires { (cursor self.old).kept ≡ None }
        ensures { spec.Passes result (cursor self.old) (cursor self.new) }
    {
        self.look();
        let (event, span) = self.current.take()?;
        self.remember(&event, &span);
        Some((event, span))
    }

    // Returns the fault that ended the events, if one did.
    fn report_fault(&self) -> Result<(), Fault>
        ensures { spec.ReportsFault result (cursor self.now).kept }
    {
        let Some(kept) = &self.kept else {
            return Ok(());
        };
        match kept.fault.try_clone() {
            Ok(fault) => Err(fault),
            Err(_) => Err(Fault::OutOfMemory),
        }
    }

    // Hands over one document, with what comes before it, or all that is left.
    fn load_part<R: SpannedEventReceiver<'input>>(
        &mut self,
        recv: &mut R,
        multi: bool,
    ) -> Result<(), Fault>
        requires { (cursor self.old).kept ≡ None }
        ensures { spec.Loads R.receives result (spec.portion_to_send multi (cursor self.old))
            (cursor self.old) recv.old recv.new (cursor self.new) }
    {
        while let Some((event, span)) = self.pass() {
            let last = is_last(&event, multi);
            send(recv, event, span)?;
            if last {
                return Ok(());
            }
        }
        self.report_fault()
    }

    /// Hands the events to the receiver up to the end of a document, or all of them.
    pub fn load<R: SpannedEventReceiver<'input>>(
        &mut self,
        recv: &mut R,
        multi: bool,
    ) -> Result<(), Fault>
        ensures ended { IsKept (cursor self.old).kept
            → spec.ReportsFault result (cursor self.old).kept × (recv.new ≡ recv.old)
            × (cursor self.new ≡ cursor self.old) }
        ensures finished { (cursor self.old).kept ≡ None → (span : PlaceSpan)
            → (cursor self.old).finished ≡ Some span
            → spec.SendsOne R.receives result (StreamEnd, span) recv.old recv.new
            × (cursor self.new ≡ cursor self.old) }
        ensures inside { (cursor self.old).kept ≡ None → (cursor self.old).finished ≡ None
            → (cursor self.old).inside ≡ true
            → (result ≡ Err InsideDocument) × (recv.new ≡ recv.old)
            × (cursor self.new ≡ cursor self.old) }
        ensures between { (cursor self.old).kept ≡ None → (cursor self.old).finished ≡ None
            → (cursor self.old).inside ≡ false
            → spec.Loads R.receives result (spec.portion_to_send multi (cursor self.old))
            (cursor self.old) recv.old recv.new (cursor self.new) }
    {
        self.report_fault()?;
        if let Some(span) = self.finished {
            return send(recv, Event::StreamEnd, span);
        }
        if self.inside {
            return Err(Fault::InsideDocument);
        }
        self.load_part(recv, multi)
    }
}
