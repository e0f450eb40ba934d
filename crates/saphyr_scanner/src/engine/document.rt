//! What comes between documents: directives, the markers `---` and `...`, and byte order marks; and the end of the
//! text (YAML 1.2.2, 6.8 and chapter 9).

ghost use Rattle.std.specs.Prelude.{◌≡◌, ◌≤◌, ◌<◌, length, slice_index, None, OnOk};
ghost use Rattle.saphyr_input.specs.Indicators.{percent_sign};
ghost use Rattle.saphyr_scanner.specs.Steps.Document as document;
ghost use Rattle.saphyr_scanner.specs.Views.Tokens.{kind_with, no_parts};

use crate::engine::Engine;
use crate::stopped::{Stopped, keep};
use crate::token::TokenKind;
use saphyr_input::char_traits::is_breakz;
use saphyr_input::input::Input;
use saphyr_scalar::{Directive, FaultText, Marker, Span, TagParts};

impl<T: Input> Engine<T> {
    ghost use Rattle.saphyr_scanner.specs.Views.Engine.{state, MovesBy};

    // Ends all block collections, and what may be a key.
    #[tactic(auto, using(crate::proofs::Blocks::unrolled_cursor), unfolding(crate::specs::Steps::Document::end_content, crate::specs::Steps::Core::remove_key))]
    fn end_content(&mut self) -> Result<(), Stopped>
        ensures content { MovesBy document.end_content self.old result self.new }
        ensures cursor { OnOk result
            ((state self.new).core.cursor ≡ (state self.old).core.cursor) }
    {
        let mark = self.reader.mark();
        self.unroll(None, mark)?;
        self.remove_key()
    }

    // NUL, or the end of the text.
    #[inline(never)]
    #[tactic(auto, unfolding(crate::specs::Steps::Document::state_behind_end, crate::specs::Steps::Document::end_at))]
    pub(super) fn fetch_end(&mut self) -> Result<(), Stopped>
        requires { slice_index (state self.old).core.cursor.rest 0 ≡ 0 }
        ensures { MovesBy document.state_behind_end self.old result self.new }
    {
        self.reader.load(1);
        if self.reader.input().peek_opt().is_some() {
            return Err(self.refuse_here(FaultText::UnprintableCharacter));
        }
        let mark = end_mark(self.reader.mark());
        if self.required {
            return Err(self.refuse(FaultText::KeyExpected, mark, true));
        }
        self.unroll(None, mark)?;
        self.key_allowed = false;
        self.ended = true;
        self.put(mark, mark, TokenKind::StreamEnd)
    }

    // `---` or `...`.
    #[tactic(auto, unfolding(crate::specs::Steps::Document::state_behind_marker))]
    pub(super) fn fetch_document_marker(&mut self, kind: TokenKind) -> Result<(), Stopped>
        requires { 3 ≤ length (state self.old).core.cursor.rest }
        ensures { MovesBy (document.state_behind_marker (kind_with kind no_parts)) self.old
            result self.new }
    {
        self.end_content()?;
        self.key_allowed = false;
        let start = self.reader.mark();
        self.reader.skip_n_non_blank(3);
        let end = self.reader.mark();
        self.put(start, end, kind)
    }

    // `...` and what follows it on its line.
    #[tactic(auto, unfolding(crate::specs::Steps::Document::state_behind_document_end, crate::specs::Steps::Document::end_line))]
    pub(super) fn fetch_document_end(&mut self) -> Result<(), Stopped>
        requires { 3 ≤ length (state self.old).core.cursor.rest }
        ensures { MovesBy document.state_behind_document_end self.old result self.new }
    {
        self.fetch_document_marker(TokenKind::DocumentEnd)?;
        self.separate()?;
        let c = self.reader.look();
        if !is_breakz(c) {
            return Err(self.refuse_here(FaultText::ContentAfterDocumentEnd));
        }
        Ok(())
    }

    // `%` and the rest of a directive's line.
    #[inline(never)]
    #[tactic(auto, unfolding(crate::specs::Steps::Document::state_behind_directive, crate::specs::Steps::Document::read_directive))]
    pub(super) fn fetch_directive(&mut self) -> Result<(), Stopped>
        requires { slice_index (state self.old).core.cursor.rest 0 ≡ percent_sign }
        ensures { MovesBy document.state_behind_directive self.old result self.new }
    {
        self.end_content()?;
        self.key_allowed = false;
        let start = self.reader.mark();
        let line = keep(&mut self.stop, self.reader.read_directive(self.alloc))?;
        let span = Span::new(start, line.end);
        match line.directive {
            Directive::Version(major, minor) => {
                self.put_parts(span, TokenKind::VersionDirective, "", "", major, minor)
            }
            Directive::TagPrefix(handle, suffix) => {
                self.put_parts(span, TokenKind::TagDirective, &handle, &suffix, 0, 0)?;
                self.reader.spare.keep_tag(TagParts { handle, suffix });
                Ok(())
            }
            Directive::Reserved(name) => {
                self.put_parts(span, TokenKind::ReservedDirective, "", &name, 0, 0)?;
                self.reader.spare.keep(name);
                Ok(())
            }
        }
    }

    // A byte order mark. It is allowed only at the start of a line outside flow.
    #[inline(never)]
    #[tactic(auto, unfolding(crate::specs::Steps::Document::state_behind_byte_order_mark))]
    pub(super) fn fetch_byte_order_mark(&mut self) -> Result<(), Stopped>
        requires { 0 < length (state self.old).core.cursor.rest }
        ensures { MovesBy document.state_behind_byte_order_mark self.old result self.new }
    {
        let start = self.reader.mark();
        if start.col > 0 || !self.in_block() {
            return Err(self.refuse_here(FaultText::MisplacedByteOrderMark));
        }
        self.end_content()?;
        self.reader.skip_byte_order_mark();
        self.key_allowed = true;
        let end = self.reader.mark();
        self.put(start, end, TokenKind::ByteOrderMark)
    }
}

// The place of the stream's end: the end of the text, or the next line if the text's last line has no break.
fn end_mark(mark: Marker) -> Marker
    ensures { result ≡ document.end_mark mark }
{
    if mark.col == 0 {
        return mark;
    }
    Marker::new(mark.index, mark.line.saturating_add(1), 0)
}
