// A length and a step of a list of lengths, sooner. No fault is carried where no number starts: the refusal is made where it is answered.
#![tactic(auto)]

ghost use Rattle.std.specs.Prelude.{◌≡◌, ◌≤◌, length, Ok, None};
ghost use Rattle.std.specs.Result.{result_ok};
ghost use Rattle.utf8.specs.Characters.{utf8_of};
ghost use Rattle.stream.specs.Refusals.{at_edge, admit_text};
ghost use Rattle.length.specs.Lengths.{unit_at, parse_length, from_str, next_length};
ghost use Rattle.records.specs.Records.{length_step_record};
ghost use Rattle.fast_length.specs.Left.{left};

use length::{Length, LengthUnit};
use numbers::Written;
use stream::{LIMIT, Read, Reason, Refusal, Step, Trouble};
use text_bytes::Place;

// A whole text. The bytes of a length are ASCII: one that fills the text is told before the text is tested for UTF-8.
#[tactic(auto, using(crate::proofs::Edges::long, crate::proofs::Edges::filled, crate::proofs::Edges::left_over))]
pub fn from_str(text: &[u8]) -> Result<Written<Length>, Refusal>
    ensures { result ≡ from_str text.now }
{
    if LIMIT < text.len() {
        return Err(stream::bare_refusal(Reason::TextTooLong));
    }
    let Some(read) = length_at(text, Place(0)) else {
        return unread(text);
    };
    if read.next.0 < text.len() {
        return Err(left(text, read.next));
    }
    Ok(read.value)
}

// A text with no length. A call: where a refusal meets a length in registers, the length's number is taken apart byte by byte.
#[cold]
#[inline(never)]
#[tactic(auto, using(crate::proofs::Edges::whole, crate::proofs::Edges::none_read, stream::proofs::Edges::admitted_utf8))]
fn unread(text: &[u8]) -> Result<Written<Length>, Refusal>
    requires { result_ok (parse_length text.now 0) ≡ None }
    ensures { result ≡ from_str text.now }
{
    stream::admit_text(text)?;
    let read = at_edge(text, Place(0), None)?;
    Ok(read.value)
}

// A text with a length and more after it.
#[tactic(auto, unfolding(crate::specs::Left::left), using(stream::proofs::Edges::admitted_utf8))]
fn left(text: &[u8], end: Place) -> Refusal
    ensures { result ≡ left text.now end.0 }
{
    match stream::admit_text(text) {
        Err(refusal) => refusal,
        Ok(()) => stream::refusal_of(text, stream::unexpected_data(text, end)),
    }
}

// A length at a place, spaces before it skipped; None where the plain reader reads none. Compiled into its callers it needs no way through memory.
#[tactic(auto, using(crate::proofs::Told::length_told, crate::proofs::Told::none_told, crate::proofs::Told::told_inside, fast_numbers::proofs::Told::all_text, length::proofs::Units::unit_ends))]
#[inline(always)]
pub fn length_at(text: &[u8], at: Place) -> Option<Read<Written<Length>>>
    ensures { result ≡ result_ok (parse_length text.now at.0) }
{
    // The slice is taken anew: handed on whole it is copied by 16 bytes, which wait for the stores of its two halves.
    let n = fast_numbers::number(&text[0..], at)?;
    let unit = unit_at(text, n.end);
    Some(Read {
        value: Written {
            value: Length {
                number: n.value,
                unit,
            },
            whole: n.whole,
            end: n.end,
        },
        next: Place(n.end.0 + length::unit_width(unit)),
    })
}

// The unit whose word stands at a place: both its bytes are looked at once, where the plain reader tries word after word.
#[tactic(auto, using(crate::proofs::Units::unit_is, crate::proofs::Units::unit_none))]
fn unit_at(text: &[u8], at: Place) -> LengthUnit
    requires { at.0 ≤ length text.now }
    ensures { result ≡ unit_at text.now at.0 }
{
    let first = text_bytes::byte_at(text, at);
    let second = text_bytes::byte_at(text, Place(at.0 + 1));
    match (first, second) {
        (b'%', _) => LengthUnit::Percent,
        (b'p', b'x') => LengthUnit::Px,
        (b'p', b't') => LengthUnit::Pt,
        (b'p', b'c') => LengthUnit::Pc,
        (b'e', b'm') => LengthUnit::Em,
        (b'e', b'x') => LengthUnit::Ex,
        (b'i', b'n') => LengthUnit::In,
        (b'c', b'm') => LengthUnit::Cm,
        (b'm', b'm') => LengthUnit::Mm,
        _ => LengthUnit::None,
    }
}

// What is told at a place, or the refusal there. Where no number starts it is made with no fault, else the plain reader says which it is.
#[inline(always)]
#[tactic(auto, unfolding(length::specs::Lengths::parse_length, numbers::specs::Number::parse_number, stream::specs::Refusals::refusal_of, stream::specs::Refusals::number_of), using(fast_numbers::proofs::Told::told_ok))]
fn at_edge(
    text: &[u8],
    at: Place,
    told: Option<Read<Written<Length>>>,
) -> Result<Read<Written<Length>>, Refusal>
    requires utf8 { utf8_of text.now ≡ Ok tt }
    requires told_value { told ≡ result_ok (parse_length text.now at.0) }
    ensures { result ≡ at_edge text.now (parse_length text.now at.0) }
{
    if let Some(read) = told {
        return Ok(read);
    }
    let start = text_bytes::skip_spaces(text, at);
    let i = start.0;
    if i >= text.len() {
        return Err(stream::refusal_at(text, Reason::Unread(Trouble::TextEnded), start));
    }
    if !numbers::starts_number(text[i]) {
        return Err(stream::refusal_at(text, Reason::Unread(Trouble::WrongByte), start));
    }
    length::parse_length(text, at).map_err(|e| stream::refusal_of(text, e))
}

// The record of a step of a list, from a list place of a text whose admission is known.
pub fn write_step(out: &mut [u64; 24], text: &[u8], admission: Result<(), Refusal>, place: Place)
    requires { admission ≡ admit_text text.now }
    ensures { out.new ≡ length_step_record (next_length text.now place.0) }
{
    records::write_length_step(out, step(text, admission, place));
}

// What `length::next` answers.
#[tactic(auto, using(crate::proofs::Edges::list_step, stream::proofs::Edges::placed_utf8))]
fn step(text: &[u8], admission: Result<(), Refusal>, place: Place) -> Step<Option<Written<Length>>>
    requires { admission ≡ admit_text text.now }
    ensures { result ≡ next_length text.now place.0 }
{
    if let Err(refusal) = stream::admit_from(text, admission, place) {
        return Step::refused(refusal, place);
    }
    let end = Place(text.len());
    if place.0 >= end.0 {
        return Step {
            item: Ok(None),
            place: end,
        };
    }
    match at_edge(text, place, length_at(text, place)) {
        Ok(read) => Step {
            item: Ok(Some(read.value)),
            place: numbers::after_item(text, read.next),
        },
        Err(refusal) => Step::refused(refusal, end),
    }
}
