//! The parser for C: what `saphyr_parser.h` declares. C keeps a parser as a pointer, which is null if there is none.
//! It points to the heap, to the parser and the event that the parser gave last.
#![tactic(auto)]

ghost use Rattle.std.specs.Prelude.{◌≡◌, ◌↔◌, IsUtf8, negsuc, pos};
ghost use mathlib.Core.Option.{Option, none, some};
ghost use Rattle.saphyr_parser_c.specs.Encoding.{BeginsAsUtf16, IsUtf8Front};
ghost use Rattle.saphyr_parser_c.specs.Exports as spec;

mod answer;
mod check;
mod coming;
mod encoding;
mod following;
mod found;
mod growing;
mod handle;
mod inner;
mod law;
mod nodes;
mod parts;
mod shown;
mod source;
mod standard;
mod status;
mod texts;
mod trees;

use encoding::utf8_front;
use handle::Handle;
use inner::Inner;
use parts::Parts;
use shown::{CEvent, blank};
use status::Status;
use std::alloc::Global;
use std::mem;

// Replaces what C holds by a parser, or by none, and frees it.
fn put(place: &mut Handle, handle: Handle)
    ensures { place.new.value ≡ handle.value }
{
    match mem::replace(place, handle).into_parts() {
        Some(parts) => drop(parts.into_box()),
        None => {}
    }
}

// Puts a parser back that was taken. The handle has none, so nothing is tested or freed.
pub(crate) fn put_back(place: &mut Handle, inner: Box<Inner, Global>)
    requires { place.old.value ≡ none }
    ensures { place.new.value ≡ some inner.value }
{
    match mem::replace(place, Handle::of_parts(Parts::of(inner))).into_parts() {
        Some(parts) => mem::forget(parts.into_box()),
        None => {}
    }
}

// Takes what C holds, and leaves an empty handle.
pub(crate) fn take(alloc: Global, place: &mut Handle) -> Option<Box<Inner, Global>>
    ensures taken { spec.IsTakenOut result place.old.value }
    ensures emptied { place.new.value ≡ none }
{
    match mem::replace(place, Handle::none(alloc)).into_parts() {
        Some(parts) => Some(parts.into_box()),
        None => None,
    }
}

/// Makes a parser of a text, which must stay unchanged until the parser is freed. What `out` held is freed.
#[unsafe(no_mangle)]
pub extern "C" fn saphyr_new(
    alloc: Global,
    text: &'static [u8],
    keep_tags: bool,
    out: &mut Handle,
) -> i32
    ensures made { result ≡ pos 0 → spec.IsMade text.now keep_tags out.new.value }
    ensures empty { (result ≡ pos 0 → ⊥) → out.new.value ≡ none }
    ensures not_utf8 { (result ≡ negsuc 2)
        ↔ ((IsUtf8 text.now → ⊥) × (BeginsAsUtf16 text.now → ⊥)) }
    ensures utf16 { (result ≡ negsuc 4) ↔ ((IsUtf8 text.now → ⊥) × BeginsAsUtf16 text.now) }
    ensures others { spec.MakesOrNot result }
{
    match Inner::over(alloc, text, keep_tags) {
        Ok(inner) => {
            put(out, Handle::of_parts(Parts::of(inner)));
            Status::Done.code()
        }
        Err(status) => {
            put(out, Handle::none(alloc));
            status.code()
        }
    }
}

/// Makes a parser of a text that the caller knows to be UTF-8, so this isn't tested. What `out` held is freed.
#[unsafe(no_mangle)]
pub extern "C" fn saphyr_new_utf8(
    alloc: Global,
    text: &'static [u8],
    keep_tags: bool,
    out: &mut Handle,
) -> i32
    requires { IsUtf8 text.now }
    ensures made { result ≡ pos 0 → spec.IsMade text.now keep_tags out.new.value }
    ensures empty { (result ≡ pos 0 → ⊥) → out.new.value ≡ none }
    ensures others { spec.HasMemoryOrNot result }
{
    let text = unsafe { str::from_utf8_unchecked(text) };
    match Inner::over_text(alloc, text, keep_tags) {
        Ok(inner) => {
            put(out, Handle::of_parts(Parts::of(inner)));
            Status::Done.code()
        }
        Err(_) => {
            put(out, Handle::none(alloc));
            Status::NoMemory.code()
        }
    }
}

/// Makes a parser of a text that comes in pieces, of which nothing came. What `out` held is freed.
#[unsafe(no_mangle)]
pub extern "C" fn saphyr_new_pieces(
    alloc: Global,
    keep_tags: bool,
    most_characters: usize,
    most_waiting: usize,
    out: &mut Handle,
) -> i32
    ensures made { result ≡ pos 0
        → spec.IsMadeOfPieces keep_tags most_characters most_waiting out.new.value }
    ensures empty { (result ≡ pos 0 → ⊥) → out.new.value ≡ none }
    ensures others { spec.HasMemoryOrNot result }
{
    match Inner::of_pieces(alloc, keep_tags, most_characters, most_waiting) {
        Ok(inner) => {
            put(out, Handle::of_parts(Parts::of(inner)));
            Status::Done.code()
        }
        Err(_) => {
            put(out, Handle::none(alloc));
            Status::NoMemory.code()
        }
    }
}

/// Adds the next bytes of a text that comes in pieces, cut anywhere. No bytes say that no more come.
#[unsafe(no_mangle)]
pub extern "C" fn saphyr_add(alloc: Global, parser: &mut Handle, bytes: &[u8]) -> i32
    ensures { spec.AddsTo bytes.now parser.old.value result parser.new.value }
{
    let Some(mut inner) = take(alloc, parser) else {
        return Status::NoParser.code();
    };
    let status = inner.add(alloc, bytes);
    put_back(parser, inner);
    status.code()
}

/// Adds the next characters of a text that comes in pieces. The caller knows that the bytes are some, so this isn't
/// tested. No bytes say that no more come.
#[unsafe(no_mangle)]
pub extern "C" fn saphyr_add_utf8(alloc: Global, parser: &mut Handle, bytes: &[u8]) -> i32
    requires { IsUtf8 bytes.now }
    ensures { spec.AddsTo bytes.now parser.old.value result parser.new.value }
{
    let Some(mut inner) = take(alloc, parser) else {
        return Status::NoParser.code();
    };
    let text = unsafe { str::from_utf8_unchecked(bytes) };
    let status = inner.add_text(alloc, text);
    put_back(parser, inner);
    status.code()
}

/// How many bytes at the front of a text are UTF-8. If not all are, this is the place of the first that is not.
#[unsafe(no_mangle)]
pub extern "C" fn saphyr_valid_up_to(text: &'static [u8]) -> usize
    ensures { IsUtf8Front text.now result }
{
    utf8_front(text)
}

/// Hands out the next event. If a fault ends the events, hands out that fault, once.
#[unsafe(no_mangle)]
pub extern "C" fn saphyr_next(alloc: Global, parser: &mut Handle, event: &mut CEvent) -> i32
    ensures { spec.Nexts parser.old.value result event.new parser.new.value }
{
    match take(alloc, parser) {
        Some(mut inner) => {
            let code = inner.step(alloc, event).code();
            put_back(parser, inner);
            code
        }
        None => {
            *event = blank();
            Status::NoParser.code()
        }
    }
}

/// Shows what `saphyr_next` hands out next, without handing it out.
#[unsafe(no_mangle)]
pub extern "C" fn saphyr_peek(alloc: Global, parser: &mut Handle, event: &mut CEvent) -> i32
    ensures { spec.PeeksAt parser.old.value result event.new parser.new.value }
{
    match take(alloc, parser) {
        Some(mut inner) => {
            let code = inner.look(alloc, event).code();
            put_back(parser, inner);
            code
        }
        None => {
            *event = blank();
            Status::NoParser.code()
        }
    }
}

/// Makes an independent parser at the same place of the events. What `copy` held is freed.
#[unsafe(no_mangle)]
pub extern "C" fn saphyr_clone(alloc: Global, parser: &mut Handle, copy: &mut Handle) -> i32
    ensures same { parser.new.value ≡ parser.old.value }
    ensures copied { spec.Clones parser.old.value result copy.new.value }
{
    match take(alloc, parser) {
        Some(inner) => {
            let status = match inner.copy(alloc) {
                Ok(other) => {
                    put(copy, Handle::of_parts(Parts::of(other)));
                    Status::Done
                }
                Err(_) => {
                    put(copy, Handle::none(alloc));
                    Status::NoMemory
                }
            };
            put_back(parser, inner);
            status.code()
        }
        None => {
            put(copy, Handle::none(alloc));
            Status::NoParser.code()
        }
    }
}

/// Sets whether the prefixes of tags hold for later documents too.
#[unsafe(no_mangle)]
pub extern "C" fn saphyr_keep_tags(alloc: Global, parser: &mut Handle, keep_tags: bool) -> i32
    ensures { spec.KeepsTags keep_tags parser.old.value result parser.new.value }
{
    match take(alloc, parser) {
        Some(mut inner) => {
            inner.keep_tags(alloc, keep_tags);
            put_back(parser, inner);
            Status::Done.code()
        }
        None => Status::NoParser.code(),
    }
}

/// Frees the parser, if there is one. The handle is null after this.
#[unsafe(no_mangle)]
pub extern "C" fn saphyr_free(alloc: Global, parser: &mut Handle)
    ensures { parser.new.value ≡ none }
{
    put(parser, Handle::none(alloc));
}

/// The version of the library, as the header counts it.
#[unsafe(no_mangle)]
pub extern "C" fn saphyr_version() -> u32
    ensures { result ≡ 3001 }
{
    3001
}
