// Colours as whole texts and at a place: `color`, sooner.
#![tactic(auto)]

ghost use Rattle.std.specs.Prelude.{◌≡◌, ◌+◌, ◌*◌, ◌<◌, ◌≤◌, length, get_or, None};
ghost use Rattle.color.specs.Answer.{from_str};
ghost use Rattle.color.specs.Color.{parse_color};
ghost use Rattle.packed.specs.Numbers.{no_color, places, color_or};
ghost use Rattle.stream.specs.Refusals.{empty_refusal};
ghost use Rattle.stream.specs.declared.Reason.TheVariants as R;
ghost use Rattle.stream.specs.declared.Trouble.TheVariants as T;
ghost use Rattle.fast_names.specs.Named.{named_number};
ghost use Rattle.names.specs.Look.{named_of};
ghost use Rattle.fast_color.specs.Told.{numbered, told_or, valued, invalid, refused};
ghost use Rattle.fast_color.specs.Empty.{FiveEmpty};

use color::Color;
use packed::NO_COLOR;
use stream::{Fault, LIMIT, Read, Reason, Refusal, Trouble};
use text_bytes::Place;

mod digits;
mod numbered;

pub use numbered::number;

// The first number of a text that is no colour.
const INVALID: u64 = 0x1_0000_a000;

// A colour as a whole text, as its number; for a refused text, NO_COLOR, the refusal's number and where its stretch starts.
// A number, which comes back in a register: so docs/PROMISES.md has it.
#[tactic(auto, unfolding(crate::specs::Told::told_or, crate::specs::Told::numbered, packed::specs::Numbers::color_or, packed::specs::Numbers::stretch_start, stream::specs::Refusals::reason_number, stream::specs::Refusals::number_of), using(fast_numbers::proofs::Told::all_text, crate::proofs::Told::color_told, crate::proofs::Told::color_small, crate::proofs::Told::color_refused, packed::proofs::Decoding::number_back))]
pub fn value(text: &[u8]) -> u64
    ensures value { result ≡ color_or (from_str text.now) }
    ensures upper_bound { result < no_color + 32 * places }
{
    match told_text(&text[0..]) {
        Some(Ok(v)) => v,
        Some(Err(at)) => INVALID + at.0 as u64,
        None => plain_value(text),
    }
}

// What the plain reader reads.
#[tactic(auto, unfolding(packed::specs::Numbers::color_or), using(crate::proofs::Near::color_near))]
fn plain_value(text: &[u8]) -> u64
    ensures value { result ≡ color_or (from_str text.now) }
    ensures upper_bound { result < no_color + 32 * places }
{
    match color::from_str(text) {
        Ok(c) => packed::color_number(c),
        Err(e) => NO_COLOR + packed::refusal_number(e),
    }
}

// A colour as a whole text, for a caller who has promised nothing of it.
// Compiled into its caller: the Result would come back by memory, and go on so.
#[inline(always)]
#[tactic(auto, using(fast_numbers::proofs::Told::all_text, crate::proofs::Told::color_told, crate::proofs::Told::color_small, crate::proofs::Told::color_refused))]
pub fn from_str(text: &[u8]) -> Result<Color, Refusal>
    ensures { result ≡ from_str text.now }
{
    match told_text(&text[0..]) {
        Some(Ok(v)) => Ok(packed::number_color(v)),
        Some(Err(at)) => Err(invalid_value(at)),
        None => color::from_str(text),
    }
}

fn invalid_value(at: Place) -> Refusal
    ensures { result ≡ empty_refusal (R.Unread T.InvalidValue) at.0 }
{
    stream::empty_refusal(Reason::Unread(Trouble::InvalidValue), at)
}

// What is told of a whole text at once: its colour's number, or where a text that is no colour was read to.
// None: the plain reader is to be asked. The slice is taken anew on its way: handed on whole it is copied by
// 16 bytes, which wait for the stores of its two halves.
// Compiled into its callers, down to calls that answer in registers: an Option of a Result comes back by memory.
#[inline(always)]
#[tactic(auto, unfolding(crate::specs::Told::told_or), using(fast_numbers::proofs::Told::all_text))]
fn told_text(text: &[u8]) -> Option<Result<u64, Place>>
    ensures { told_or result (numbered (from_str text.now)) ≡ numbered (from_str text.now) }
{
    // the plain reader refuses it at once, and here no byte of it is gone through
    if LIMIT < text.len() {
        return None;
    }
    match text {
        [b'#', ..] => told_hex(&text[0..]),
        [.., b')'] => told_bracket(&text[0..]),
        [.., last] if last.is_ascii_alphabetic() => told_word(&text[0..]),
        _ => Some(Err(told_unnamed(&text[0..])?)),
    }
}

// Refused where reading stopped.
#[tactic(auto, unfolding(crate::specs::Told::refused))]
fn refused(text: &[u8], at: Place) -> Option<Place>
    requires { length text.now ≤ 4096 }
    ensures { invalid result ≡ refused text.now at.0 }
{
    if text.is_empty() {
        return None;
    }
    Some(at)
}

// `#` and digits alone: a colour, or refused where their number is none of four.
#[inline(always)]
#[tactic(auto, unfolding(crate::specs::Told::told_or), using(fast_numbers::proofs::Told::all_text, crate::proofs::Hexes::hex_told, crate::proofs::Hexes::hex_refused))]
fn told_hex(text: &[u8]) -> Option<Result<u64, Place>>
    requires small { length text.now ≤ 4096 }
    requires hash { get_or text.now 0 0 ≡ 35 }
    ensures { told_or result (numbered (from_str text.now)) ≡ numbered (from_str text.now) }
{
    if let Some(v) = digits::digits_alone(&text[0..]) {
        return Some(Ok(v));
    }
    let end = text_bytes::skip_hex_digits(text, Place(1));
    if end.0 < text.len() {
        return None;
    }
    Some(Err(refused(text, end)?))
}

// A name; or letters, digits, `-` and `_` alone that name no colour.
#[inline(always)]
#[tactic(auto, unfolding(crate::specs::Told::told_or), using(fast_numbers::proofs::Told::all_text, crate::proofs::Names::name_told))]
fn told_word(text: &[u8]) -> Option<Result<u64, Place>>
    requires { length text.now ≤ 4096 }
    ensures { told_or result (numbered (from_str text.now)) ≡ numbered (from_str text.now) }
{
    if let Some(v) = fast_names::from_str(&text[0..]) {
        return Some(Ok(v));
    }
    Some(Err(told_nameless(text)?))
}

#[tactic(auto, unfolding(crate::specs::Told::told_or), using(crate::proofs::Names::name_none))]
fn told_nameless(text: &[u8]) -> Option<Place>
    requires small { length text.now ≤ 4096 }
    requires nameless { named_number (named_of text.now) ≡ None }
    ensures { told_or (invalid result) (numbered (from_str text.now)) ≡ numbered (from_str text.now) }
{
    let end = text_bytes::consume_ascii_ident(text, Place(0));
    if end.0 < text.len() || color::is_rgb(text) || color::is_hsl(text) {
        return None;
    }
    refused(text, end)
}

// A word that names no colour, and whatever follows it. None of this begins with a space or with `#`.
#[tactic(auto, unfolding(crate::specs::Told::told_or), using(crate::proofs::Names::unnamed_told, crate::proofs::Told::utf8_ok, crate::proofs::Names::word_inside))]
fn told_unnamed(text: &[u8]) -> Option<Place>
    requires { length text.now ≤ 4096 }
    ensures { told_or (invalid result) (numbered (from_str text.now)) ≡ numbered (from_str text.now) }
{
    if text_bytes::byte_at(text, Place(0)) <= b'#' {
        return None;
    }
    let end = text_bytes::consume_ascii_ident(text, Place(0));
    let word = &text[..end.0];
    if color::is_rgb(word) || color::is_hsl(word) || fast_names::from_str(word).is_some() {
        return None;
    }
    utf8::utf8_test(text).ok()?;
    Some(end)
}

// A text that ends with a bracket. Which bytes are looked at first only chooses what is tried.
#[inline(always)]
#[tactic(auto, unfolding(crate::specs::Told::told_or))]
fn told_bracket(text: &[u8]) -> Option<Result<u64, Place>>
    requires { length text.now ≤ 4096 }
    ensures { told_or result (numbered (from_str text.now)) ≡ numbered (from_str text.now) }
{
    match text_bytes::byte_at(text, Place(0)) | 32 {
        b'r' | b'h' | b' ' => Some(Ok(told_function(text)?)),
        _ => Some(Err(told_unnamed(text)?)),
    }
}

// A text that ends with its colour.
#[tactic(auto, unfolding(crate::specs::Told::told_or), using(crate::proofs::Told::function_told, crate::proofs::Told::utf8_ok))]
fn told_function(text: &[u8]) -> Option<u64>
    requires { length text.now ≤ 4096 }
    ensures { told_or (valued result) (numbered (from_str text.now)) ≡ numbered (from_str text.now) }
{
    let read = fast_color_functions::told_color(text, Place(0))?;
    if read.next.0 < text.len() {
        return None;
    }
    utf8::utf8_test(text).ok()?;
    Some(packed::color_number(read.value))
}

// A colour, spaces before it skipped: a function or a name sooner. The plain reader is as soon with digits, and finds the fault of another text.
#[tactic(auto, using(fast_numbers::proofs::Told::all_text, crate::proofs::Starts::function_read, crate::proofs::Names::name_read))]
pub fn parse_color(text: &[u8], at: Place) -> Result<Read<Color>, Fault>
    ensures { result ≡ parse_color text.now at.0 }
{
    let start = text_bytes::skip_spaces(text, at);
    if text_bytes::is_curr_byte_eq(text, start, b'#') {
        return color::parse_color(text, at);
    }
    let end = text_bytes::consume_ascii_ident(text, start);
    if text_bytes::is_curr_byte_eq(text, end, b'(') {
        if let Some(read) = fast_color_functions::told_color(&text[0..], at) {
            return Ok(read);
        }
    } else if let Some(word) = text.get(start.0..end.0)
        && let Some(v) = fast_names::from_str(word)
    {
        return Ok(Read {
            value: packed::number_color(v),
            next: end,
        });
    }
    color::parse_color(text, at)
}

// Does nothing: its contract is the theorem that a refusal by 5 has no more to tell than its place.
#[tactic(auto, using(crate::proofs::Empty::five_empty))]
pub fn five_empty()
    ensures { FiveEmpty }
{}
