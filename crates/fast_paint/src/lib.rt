// A paint as a whole text, sooner: what most texts are is told as one number, and the plain reader reads the rest.
#![tactic(auto)]

ghost use Rattle.std.specs.Prelude.{◌≡◌, ◌+◌, ◌≤◌, true, length};
ghost use Rattle.paint.specs.Answers.{from_str};
ghost use Rattle.fast_color.specs.Told.{told_or};
ghost use Rattle.fast_paint.specs.Links.{bare_link, told_link, told_fallback, told_linked};
ghost use Rattle.fast_paint.specs.Told.{keyword_of, uncolored, told_plain, told_inner, numbered};
ghost use Rattle.fast_paint.specs.Visible.{has_visible_ends, is_visible};
ghost use Rattle.fast_paint.specs.Empty.{FiveEmpty};

use packed::{NO_COLOR, PLACES};
use paint::{Paint, PaintFallback};
use stream::{LIMIT, Read, Reason, Trouble};
use text_bytes::{Part, Place};

mod numbered;

pub use numbered::number;

// The number of the paint that a word alone names. Tests, as the plain reader's: a `match` on the words is proved byte by byte, in 57 goals that were left.
#[tactic(auto, unfolding(crate::specs::Told::keyword_of))]
fn keyword(text: &[u8]) -> Option<u64>
    ensures { result ≡ keyword_of text.now }
{
    if text_bytes::equals(text, b"none") {
        return Some(1);
    }
    if text_bytes::equals(text, b"inherit") {
        return Some(2);
    }
    if text_bytes::equals(text, b"currentColor") {
        return Some(3);
    }
    if text_bytes::equals(text, b"context-fill") {
        return Some(4);
    }
    if text_bytes::equals(text, b"context-stroke") {
        return Some(5);
    }
    None
}

// A link at `start` of bytes that no reader has to judge, which `close` follows.
#[tactic(auto, unfolding(crate::specs::Links::bare_link), using(text_bytes::proofs::Wording::word_ends))]
fn bare_link(text: &[u8], start: Place, close: &[u8]) -> Option<Read<Part>>
    requires { start.0 ≤ length text.now }
    ensures { result ≡ bare_link text.now start.0 close.now }
{
    let end = fast_funciri::skip_bare(text, start);
    if end.0 <= start.0 || !text_bytes::starts_with(text, end, close) {
        return None;
    }
    let len = end.0 - start.0;
    Some(Read {
        value: Part { start, len },
        next: Place(end.0 + close.len()),
    })
}

// A link that a text begins with, with quotes or without.
#[tactic(auto, unfolding(crate::specs::Links::told_link), using(crate::proofs::Links::word_inside))]
fn told_link(text: &[u8]) -> Option<Read<Part>>
    ensures { result ≡ told_link text.now }
{
    if text_bytes::begins(text, b"url(#") {
        return bare_link(text, Place(5), b")");
    }
    if text_bytes::begins(text, b"url('#") {
        return bare_link(text, Place(6), b"')");
    }
    if text_bytes::begins(text, b"url(\"#") {
        return bare_link(text, Place(6), b"\")");
    }
    None
}

// The fallback that a text is, or where one that is refused by 5 was read to. None for another refusal: the plain reader has its position.
#[tactic(auto, unfolding(crate::specs::Links::told_fallback))]
fn told_fallback(text: &[u8]) -> Option<Result<PaintFallback, Place>>
    ensures { result ≡ told_fallback text.now }
{
    if text_bytes::equals(text, b"none") {
        return Some(Ok(PaintFallback::None));
    }
    if text_bytes::equals(text, b"currentColor") {
        return Some(Ok(PaintFallback::CurrentColor));
    }
    match fast_color::from_str(text) {
        Ok(color) => Some(Ok(PaintFallback::Color(color))),
        Err(e) => match e.reason {
            Reason::Unread(Trouble::InvalidValue) => Some(Err(e.from)),
            _ => None,
        },
    }
}

// The number of a link and of what follows it: spaces, and a fallback unless the text ends there. `from` is where trimming left the text; where a fallback was read to counts in its own bytes.
#[tactic(auto, unfolding(crate::specs::Links::told_linked, paint::specs::Moves::link_start, packed::specs::Links::link_len), using(crate::proofs::Links::link_inside, text_bytes::proofs::Parts::rest_part))]
fn told_linked(text: &[u8], from: Place) -> Option<Result<u64, Place>>
    requires { from.0 + length text.now ≤ 4096 }
    ensures { result ≡ told_linked from.0 text.now }
{
    let read = told_link(text)?;
    let start = Place(from.0 + read.value.start.0);
    let link = Part {
        start,
        ..read.value
    };
    let base = text_bytes::skip_spaces(text, read.next);
    if text.len() <= base.0 {
        return Some(Ok(packed::paint_number(Paint::FuncIRI(link, None))));
    }
    match told_fallback(&text[base.0..])? {
        Ok(fallback) => Some(Ok(packed::paint_number(Paint::FuncIRI(link, Some(fallback))))),
        Err(at) => Some(Err(at)),
    }
}

// A text that is no link: a keyword, a colour, or no paint.
#[tactic(auto, unfolding(crate::specs::Told::told_plain))]
fn told_plain(text: &[u8]) -> Option<Result<u64, Place>>
    ensures { result ≡ told_plain text.now }
{
    if let Some(v) = keyword(text) {
        return Some(Ok(v));
    }
    let v = fast_color::value(text);
    if v < NO_COLOR {
        return Some(Ok(packed::painted(v)));
    }
    Some(Err(uncolored(v - NO_COLOR)?))
}

// A text without white space at its ends, which trimming left from `from` on.
#[tactic(auto, unfolding(crate::specs::Told::told_inner))]
fn told_inner(text: &[u8], from: Place) -> Option<Result<u64, Place>>
    requires { from.0 + length text.now ≤ 4096 }
    ensures { result ≡ told_inner from.0 text.now }
{
    if text_bytes::is_curr_byte_eq(text, Place(0), b'u') {
        return told_linked(text, from);
    }
    told_plain(text)
}

// Where a plain colour is refused, by the number of its refusal, which `fast_color::value` tells in a register. None where its text may not be read, or for a number outside the domain.
#[tactic(auto, unfolding(crate::specs::Told::uncolored))]
fn uncolored(refusal: u64) -> Option<Place>
    ensures { result ≡ uncolored refusal }
{
    match refusal / PLACES {
        0..=3 | 10 | 23 | 24 => None,
        _ => Some(Place((refusal % PLACES) as usize)),
    }
}

// Whether the first and the last byte are visible ASCII characters, no part of white space.
#[tactic(auto, unfolding(crate::specs::Visible::has_visible_ends, text_bytes::specs::Bytes::within))]
fn has_visible_ends(text: &[u8]) -> bool
    ensures { result ≡ has_visible_ends text.now }
{
    matches!(
        (text.first(), text.last()),
        (Some(b'!'..=b'~'), Some(b'!'..=b'~'))
    )
}

// The part between the spaces at a text's ends, where visible characters end it. Most texts have no spaces at
// their ends: one look at the first and the last byte tells.
#[tactic(auto, using(crate::proofs::Visible::none_visible, crate::proofs::Visible::whole_visible, crate::proofs::Visible::trimmed_visible))]
fn visible_part(text: &[u8]) -> Option<Part>
    ensures { is_visible text.now result ≡ true }
{
    if has_visible_ends(text) {
        return Some(Part {
            start: Place(0),
            len: text.len(),
        });
    }
    let rest = text.trim_ascii_start();
    let part = rest.trim_ascii_end();
    if !has_visible_ends(part) {
        return None;
    }
    Some(Part {
        start: Place(text.len() - rest.len()),
        len: part.len(),
    })
}

// What is told of a whole text at once: its paint's number, or where a text that is no paint was read to. None: the
// plain reader is to be asked. Spaces alone are trimmed: that other white space stands at neither end is told by the
// first and the last byte left.
#[tactic(auto, unfolding(fast_color::specs::Told::told_or), using(crate::proofs::Trims::part_inside, crate::proofs::Texts::part_told))]
fn told(text: &[u8]) -> Option<Result<u64, Place>>
    ensures { told_or result (numbered (from_str text.now)) ≡ numbered (from_str text.now) }
{
    if LIMIT < text.len() {
        return None;
    }
    let part = visible_part(text)?;
    let start = part.start.0;
    told_inner(&text[start..start + part.len], part.start)
}

// Does nothing: its contract is the theorem that a refusal by 5 has no more to tell than its place.
#[tactic(auto, using(crate::proofs::Answers::five_empty))]
pub fn five_empty()
    ensures { FiveEmpty }
{}
