//! Aliases, and the properties of nodes: an anchor and a tag (YAML 1.2.2, 6.9 and 7.1).

ghost use Rattle.std.specs.Prelude.{◌≡◌};
ghost use Rattle.saphyr_machine.specs.Steps.Nodes as spec;

use crate::event::Event;
use crate::machine::Machine;
use crate::tag::Tag;
use saphyr_input::input::Input;
use saphyr_scalar::{FaultText, Marker, ScalarStyle, Span};
use saphyr_scanner::{Stopped, TokenKind, TokenParts};
use std::borrow::CowStr;

// What comes before the content of a node.
#[derive(Drop)]
pub struct Properties {
    pub(super) start: Marker,
    pub(super) behind: Marker,
    // The id of the anchor, or 0 for none.
    pub(super) anchor: usize,
    pub(super) tag: Option<Tag>,
}

impl<T: Input> Machine<T> {
    ghost use Rattle.std.specs.Prelude.{List, ℕ, IfOk, Ok, OnErr, OnOk, option_map};
    ghost use Rattle.saphyr_scalar.specs.declared.scalar.position.Marker.{Marker};
    ghost use Rattle.saphyr_scalar.specs.declared.scalar.fault.Stop.TheVariants.{OutOfMemory};
    ghost use Rattle.saphyr_scalar.specs.Views.Reader.{Moves};
    ghost use Rattle.saphyr_scanner.specs.Views.Engine.{stopped_by};
    ghost use Rattle.saphyr_scanner.specs.Views.Scanning.{IsReady};
    ghost use Rattle.saphyr_scanner.specs.Views.Tokens.{Piece};
    ghost use Rattle.saphyr_scanner.specs.Grammar.Tokens as tokens;
    ghost use Rattle.saphyr_machine.specs.Views.Machines.{IsNext, machine_in, resolved_tag, emitted_of};
    ghost use Rattle.saphyr_machine.specs.Views.Nodes.{properties as seen};
    ghost use Rattle.saphyr_machine.specs.Steps.Machine.{Machine as Seen, next_id, taken_token};

    // Properties without content are those of an empty scalar before the next token. Its event ends behind them.
    #[tactic(auto, using(crate::proofs::Passing::put_back_again))]
    pub(super) fn without_content<'input>(
        &mut self,
        behind: Marker,
        anchor: usize,
        tag: Option<Tag>,
        next: &mut (Event<'input>, Span),
    ) -> Result<(), Stopped>
        requires { IsReady self.old.scanner }
        ensures { (more : List ℕ) (start : Marker) → IfOk (taken_token (machine_in more self.old))
            (λ taken. Moves (λ _. emitted_of (machine_in more self.new)
            (next.new.0, record { start = start; end = next.new.1.end }))
            (stopped_by result self.new.scanner.stop)
            (spec.node_without_content (record {
              start = start;
              behind = behind;
              anchor = anchor;
              tag = option_map resolved_tag tag;
            }) taken.0 taken.1)) }
    {
        if anchor == 0 && tag.is_none() {
            return Err(self.refuse_next(FaultText::NodeContentExpected));
        }
        self.pop();
        next.1.end = behind;
        let text = CowStr::Owned(String::new(self.alloc));
        let event = Event::Scalar(text, ScalarStyle::Plain, anchor, tag);
        self.write_over(&mut next.0, event);
        Ok(())
    }

    // Takes an anchor, and gives its name the next id.
    #[inline(always)]
    fn anchor(&mut self) -> Result<usize, Stopped>
        requires { IsReady self.old.scanner }
        ensures id { (more : List ℕ) (t : Piece) (m : Seen) (name : List ℕ)
            → taken_token (machine_in more self.old) ≡ Ok (t, m) → t.kind ≡ tokens.Anchor name
            → IfOk result (λ id. id ≡ next_id m.anchors) }
        ensures left { (more : List ℕ) (t : Piece) (m : Seen) (name : List ℕ)
            → taken_token (machine_in more self.old) ≡ Ok (t, m) → t.kind ≡ tokens.Anchor name
            → OnOk result (machine_in more self.new ≡ spec.register name m) }
        ensures failed { OnErr result (self.new.scanner.stop ≡ OutOfMemory) }
    {
        let name = self.take_text()?;
        let id = self.anchors.register(name.as_str());
        let id = self.scanner.keep(id)?;
        self.scanner.give_back(name);
        Ok(id)
    }

    // Takes a tag, and puts the prefix of its handle in the handle's place. If that is not declared, the text is
    // refused at the place.
    #[tactic(auto, unfolding(crate::specs::Steps::Tags::resolved_tag_at))]
    fn tag(&mut self, place: Marker) -> Result<Tag, Stopped>
        requires { IsReady self.old.scanner }
        ensures { (more : List ℕ) (t : Piece) (m : Seen) (handle suffix : List ℕ)
            → taken_token (machine_in more self.old) ≡ Ok (t, m) → t.kind ≡ tokens.Tag handle suffix
            → Moves (λ tag. (resolved_tag tag, machine_in more self.new))
            (stopped_by result self.new.scanner.stop)
            (spec.tag_taken m.prefixes handle suffix place m) }
    {
        let TokenParts {
            mut handle,
            text: suffix,
            ..
        } = self.take_parts()?;
        self.write_prefix(&mut handle, place)?;
        Ok(Tag { handle, suffix })
    }

    // The next token is an alias.
    #[tactic(auto, unfolding(crate::specs::Steps::Nodes::alias_node))]
    pub(super) fn alias<'input>(&mut self, next: &mut (Event<'input>, Span)) -> Result<(), Stopped>
        requires { IsReady self.old.scanner }
        ensures { (more : List ℕ) (t : Piece) (m : Seen) (name : List ℕ)
            → taken_token (machine_in more self.old) ≡ Ok (t, m) → t.kind ≡ tokens.Alias name
            → Moves (λ _. emitted_of (machine_in more self.new) next.new)
            (stopped_by result self.new.scanner.stop) (spec.alias_node name t.span m) }
    {
        let span = self.span();
        let name = self.take_text()?;
        let id = self.anchors.id_of(name.as_str());
        let id = self.scanner.keep(id)?;
        self.scanner.give_back(name);
        let Some(id) = id else {
            return Err(self.refuse(FaultText::UnknownAnchor, span.start));
        };
        self.pop();
        self.emit(next, Event::Alias(id), span);
        Ok(())
    }

    // Takes the properties of a node that begins with the next token, which is of this kind: an anchor and a tag in
    // either order, one of them, or none.
    #[inline(always)]
    #[tactic(auto, unfolding(crate::specs::Steps::Nodes::properties_behind_anchor, crate::specs::Steps::Nodes::properties_behind_tag))]
    pub(super) fn properties(&mut self, kind: TokenKind) -> Result<Properties, Stopped>
        requires { IsNext kind self.old }
        ensures { (more : List ℕ) → Moves (λ p. (seen p, machine_in more self.new))
            (stopped_by result self.new.scanner.stop)
            (spec.next_properties (machine_in more self.old)) }
    {
        let mut span = self.span();
        let start = span.start;
        let mut anchor = 0;
        let mut tag = None;
        let mut next = kind;
        match kind {
            TokenKind::Anchor => {
                anchor = self.anchor()?;
                next = self.peek()?;
            }
            TokenKind::Tag => {}
            // There are none, up to where the content begins.
            _ => span.end = start,
        }
        if let TokenKind::Tag = next {
            self.span_into(&mut span);
            tag = Some(self.tag(start)?);
            if let TokenKind::Tag = kind {
                if let TokenKind::Anchor = self.peek()? {
                    self.span_into(&mut span);
                    anchor = self.anchor()?;
                }
            }
        }
        Ok(Properties {
            start,
            behind: span.end,
            anchor,
            tag,
        })
    }
}
