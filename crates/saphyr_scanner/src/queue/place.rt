//! A token of the queue, and what comes in front of it, in a small form, since the queue may hold all tokens of a text.

ghost use Rattle.std.specs.Prelude.{◌≡◌, ◌++◌, ◌-◌, ◌<◌, ◌≤◌, [], true, false, List, ℕ, IfOk, OnErr, OnOk, Some, length, string_bytes};
ghost use Rattle.saphyr_scanner.specs.declared.queue.Opening.TheVariants.{Nothing};
ghost use Rattle.saphyr_scanner.specs.Views.Texts.{IsTextOf, with_last_extent, with_last_text};
ghost use Rattle.saphyr_scanner.specs.Views.Places.{AddsBehind, HasTexts, extent_at, near_span, parts_at, place_at, texts_behind};
ghost use Rattle.saphyr_scanner.specs.Views.Places as spec_place;
ghost use Rattle.saphyr_scanner.specs.Views.Tokens.{kind_with, no_parts, parts_view, piece_with, text_parts, text_of, texts_alone};

use crate::queue::Opening;
use crate::queue::near::NearMarker;
use crate::queue::texts::{Extent, Texts};
use crate::token::{TokenKind, TokenParts};
use saphyr_scalar::{Marker, Span, Spare, TagParts};
use std::alloc::{AllocError, Global};

// In place of a count of bytes: the token's extent is apart.
const APART: u8 = u8::MAX;

// The handle of a token whose place has all but the texts has fewer bytes.
const HANDLES: u8 = 64;

/// A token, and what is handed out before it.
///
/// Most tokens are on one line and have short texts or none. Their places have all but the texts. Of others the place
/// has the kind, and the extent is beside the texts.
#[derive(Clone, Copy)]
pub(super) struct Place {
    // What comes in front of the token, and how many bytes its handle has, fewer than `HANDLES`. The two share a byte,
    // since there is no room for another.
    front: u8,
    pub(super) kind: TokenKind,
    // How many bytes the handle and the text have together, or `APART`.
    count: u8,
    // How many characters the token has.
    length: u8,
    start: NearMarker,
}

// Where the numbers begin that say what comes in front of a token.
#[inline(always)]
fn front_of(opening: Opening) -> u8
    ensures value { result ≡ spec_place.opening_code opening }
    ensures small { result ≤ 192 }
{
    match opening {
        Opening::Nothing => 0,
        Opening::Key => HANDLES,
        Opening::BlockMappingAndKey => 2 * HANDLES,
        Opening::FlowMappingAndKey => 3 * HANDLES,
    }
}

impl Place {
    ghost use Rattle.saphyr_scanner.specs.Views.Texts.{Texts as Seen};

    // The place of a token on one line, whose handle has so many bytes, and both texts, which come behind the others.
    #[inline(always)]
    fn here(kind: TokenKind, start: NearMarker, length: u8, handle: u8, count: u8) -> Place
        requires handle { handle < 64 }
        requires most { handle ≤ count }
        requires count { count < 255 }
        ensures { (front text : List ℕ) (s : Seen) → IsTextOf handle front
            → IsTextOf (count - handle) text → AddsBehind
            (piece_with (near_span start length) kind (texts_alone front text)) result
            s (with_last_text text (with_last_text front s)) }
    {
        Place {
            front: handle,
            kind,
            count,
            length,
            start,
        }
    }

    // The place of a token whose extent is apart.
    #[inline(always)]
    fn apart(kind: TokenKind) -> Place
        ensures { (e : Extent) (handle text : List ℕ) (s : Seen)
            → IsTextOf e.handle handle → IsTextOf e.text text → AddsBehind
            (piece_with e.span kind (parts_at e (handle ++ text))) result
            s (with_last_extent e (with_last_text text (with_last_text handle s))) }
    {
        Place {
            front: 0,
            kind,
            count: APART,
            length: 0,
            start: NearMarker::zero(),
        }
    }

    /// The place of a token of this extent, whose texts were put behind the others.
    #[inline(always)]
    pub(super) fn of_extent(
        kind: TokenKind,
        extent: Extent,
        texts: &mut Texts,
    ) -> Result<Place, AllocError>
        ensures place { (handle text : List ℕ) (s : Seen)
            → texts.old ≡ with_last_text text (with_last_text handle s)
            → IsTextOf extent.handle handle → IsTextOf extent.text text
            → IfOk result (λ p. AddsBehind
            (piece_with extent.span kind (parts_at extent (handle ++ text))) p s texts.new) }
        ensures failed { OnErr result (texts.new ≡ texts.old) }
    {
        texts.push_extent(extent)?;
        Ok(Place::apart(kind))
    }

    /// The place of a token without parts.
    #[inline(always)]
    pub(super) fn bare(
        kind: TokenKind,
        start: &Marker,
        end: &Marker,
        texts: &mut Texts,
    ) -> Result<Place, AllocError>
        ensures place { IfOk result (λ p. AddsBehind
            (piece_with (record { start = start.now; end = end.now }) kind no_parts) p
            texts.old texts.new) }
        ensures failed { OnErr result (texts.new ≡ texts.old) }
    {
        Place::of_text(kind, start, end, 0, texts)
    }

    /// The place of a token with a text alone, which is put behind the others. After an error nothing is known of the
    /// texts.
    pub(super) fn with_text(
        kind: TokenKind,
        span: &Span,
        text: String,
        texts: &mut Texts,
        spare: &mut Spare,
    ) -> Result<Place, AllocError>
        ensures { IfOk result (λ p. AddsBehind
            (piece_with span.now kind (text_parts (string_bytes text))) p texts.old texts.new) }
    {
        let count = text.len();
        texts.take_over(text, spare)?;
        Place::of_text(kind, &span.start, &span.end, count, texts)
    }

    /// The place of a token of this extent, whose texts are put behind the others. After an error nothing is known of
    /// the texts.
    pub(super) fn with_parts(
        kind: TokenKind,
        extent: Extent,
        handle: &str,
        text: &str,
        texts: &mut Texts,
    ) -> Result<Place, AllocError>
        requires handle { extent.handle ≡ length handle.now }
        requires text { extent.text ≡ length text.now }
        ensures { IfOk result (λ p. AddsBehind
            (piece_with extent.span kind (parts_at extent (handle.now ++ text.now))) p
            texts.old texts.new) }
    {
        texts.push(handle)?;
        texts.push(text)?;
        if extent.major == 0 && extent.minor == 0 {
            let (start, end) = (&extent.span.start, &extent.span.end);
            return Place::of_texts(kind, start, end, extent.handle, extent.text, texts);
        }
        Place::of_extent(kind, extent, texts)
    }

    /// The place of a token from one place to another, whose text of so many bytes was put behind the others.
    #[inline(always)]
    pub(super) fn of_text(
        kind: TokenKind,
        start: &Marker,
        end: &Marker,
        count: usize,
        texts: &mut Texts,
    ) -> Result<Place, AllocError>
        ensures place { (text : List ℕ) (s : Seen)
            → texts.old ≡ with_last_text text s → IsTextOf count text
            → IfOk result (λ p. AddsBehind
            (piece_with (record { start = start.now; end = end.now }) kind (text_parts text)) p
            s texts.new) }
        ensures failed { OnErr result (texts.new ≡ texts.old) }
    {
        Place::of_texts(kind, start, end, 0, count, texts)
    }

    /// The place of a token from one place to another, whose handle and text of so many bytes were put behind the
    /// others.
    #[inline(always)]
    pub(super) fn of_texts(
        kind: TokenKind,
        start: &Marker,
        end: &Marker,
        handle: usize,
        count: usize,
        texts: &mut Texts,
    ) -> Result<Place, AllocError>
        ensures place { (front text : List ℕ) (s : Seen)
            → texts.old ≡ with_last_text text (with_last_text front s)
            → IsTextOf handle front → IsTextOf count text → IfOk result (λ p. AddsBehind
            (piece_with (record { start = start.now; end = end.now }) kind (texts_alone front text))
            p s texts.new) }
        ensures failed { OnErr result (texts.new ≡ texts.old) }
    {
        if handle < usize::from(HANDLES)
            && count < usize::from(APART) - handle
            && let Some((start, length)) = NearMarker::of_span(start, end)
        {
            let both = (handle + count) as u8;
            return Ok(Place::here(kind, start, length, handle as u8, both));
        }
        let span = Span::new(*start, *end);
        Place::of_extent(kind, Extent::of_texts(span, handle, count), texts)
    }

    /// Whether something comes in front of the token. For speed that is asked first: mostly nothing does.
    #[inline(always)]
    pub(super) fn is_opened(self) -> bool
        ensures closed { result ≡ false → spec_place.coded_opening self.front ≡ Nothing }
        ensures opened { result ≡ true → spec_place.coded_opening self.front ≡ Nothing → ⊥ }
    {
        self.front >= HANDLES
    }

    /// What comes in front of the token.
    #[inline(always)]
    pub(super) fn opening(self) -> Opening
        ensures { result ≡ spec_place.coded_opening self.front }
    {
        if self.front < HANDLES {
            Opening::Nothing
        } else if self.front < 2 * HANDLES {
            Opening::Key
        } else if self.front < 3 * HANDLES {
            Opening::BlockMappingAndKey
        } else {
            Opening::FlowMappingAndKey
        }
    }

    // How many bytes the handle of the token has, if its extent is not apart.
    #[inline(always)]
    fn handle(self) -> usize
        ensures { result ≡ spec_place.handle_length self.front }
    {
        usize::from(self.front % HANDLES)
    }

    /// Sets what comes in front of the token.
    #[inline(always)]
    pub(super) fn open(&mut self, opening: Opening)
        ensures { self.new ≡ spec_place.with_opening_of opening self.old }
    {
        self.front = front_of(opening) + self.front % HANDLES;
    }

    /// The span of the token goes into the place of another.
    #[inline(always)]
    pub(super) fn span_into(self, texts: &Texts, span: &mut Span)
        ensures { span.new ≡ (place_at self texts.now).piece.span }
    {
        if self.count == APART {
            texts.first_span_into(span);
            return;
        }
        *span = self.start.span(self.length);
    }

    /// The extent of the token.
    #[inline(always)]
    pub(super) fn extent(self, texts: &Texts) -> Extent
        ensures { result ≡ extent_at self texts.now }
    {
        if self.count == APART {
            return texts.first_extent();
        }
        let (handle, count) = (self.handle(), usize::from(self.count));
        Extent::of_texts(
            self.start.span(self.length),
            handle,
            count.saturating_sub(handle),
        )
    }

    /// Takes off the texts of the token.
    #[inline(always)]
    pub(super) fn pass_texts(self, texts: &mut Texts)
        requires { HasTexts self texts.old }
        ensures { texts.new ≡ texts_behind self texts.old }
    {
        if self.count == APART {
            texts.pass_extent();
            return;
        }
        texts.pass_text(usize::from(self.count));
    }

    /// Takes the text of the token off, which has no other parts. It goes into an empty text.
    #[inline(always)]
    pub(super) fn take_texts_into(
        self,
        texts: &mut Texts,
        into: &mut String,
    ) -> Result<(), AllocError>
        requires there { HasTexts self texts.old }
        requires empty { string_bytes into.old ≡ [] }
        ensures text { (text : List ℕ) → text_of (place_at self texts.old).piece.kind ≡ Some text
            → OnOk result (string_bytes into.new ≡ text) }
        ensures left { OnOk result (texts.new ≡ texts_behind self texts.old) }
        ensures failed { OnErr result (texts.new ≡ texts.old) }
    {
        if self.count == APART {
            return texts.take_extent_into(into);
        }
        let (handle, count) = (self.handle(), usize::from(self.count));
        if handle > 0 {
            return texts.take_behind_into(handle, count - handle, into);
        }
        texts.take_second_into(0, count, into)
    }

    /// Takes all parts of the token off.
    pub(super) fn take_parts(
        self,
        alloc: Global,
        texts: &mut Texts,
        spare: &mut Spare,
    ) -> Result<TokenParts, AllocError>
        requires { HasTexts self texts.old }
        ensures parts { IfOk result (λ x. (place_at self texts.old).piece.kind
            ≡ kind_with self.kind (parts_view x)) }
        ensures left { OnOk result (texts.new ≡ texts_behind self texts.old) }
        ensures failed { OnErr result (texts.new ≡ texts.old) }
    {
        let extent = self.extent(texts);
        let TagParts {
            mut handle,
            suffix: mut text,
        } = spare.begin_tag(alloc)?;
        handle.push_str(texts.text_at(0, extent.handle))?;
        text.push_str(texts.text_at(extent.handle, extent.text))?;
        self.pass_texts(texts);
        texts.clear_spent();
        Ok(TokenParts {
            handle,
            text,
            major: extent.major,
            minor: extent.minor,
        })
    }
}

// Texts whose tokens are all held have one for each byte or two.
const _: () = prove!(size_of::<Place>() == 16);
