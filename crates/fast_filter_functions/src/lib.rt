// A step of a list of filter values, sooner: a value that is written as most are is told at once, and the plain reader answers the rest.
#![tactic(auto)]

ghost use Rattle.std.specs.Prelude.{◌≡◌};
ghost use Rattle.stream.specs.Refusals.{admit_text};
ghost use Rattle.filter_functions.specs.Filters.{parse_step, next_filter};
ghost use Rattle.records.specs.Records.{filter_record};
ghost use Rattle.fast_filter_functions.specs.Told.{closed_or, row_or};

use filter_functions::{FilterValue, Plain};
use records::State;
use stream::{Read, Refusal, Step};
use text_bytes::Place;

mod shadow;
mod values;

use shadow::drop_shadow;
use values::{blur, hue_rotate, plain, url};

// What `filter_functions::next` answers, as a record, from a place of a text whose admission is known.
#[tactic(auto, unfolding(filter_functions::specs::Filters::next_filter), using(stream::proofs::Edges::placed_utf8, crate::proofs::Rows::end_told))]
pub fn write_step(out: &mut [u64; 24], text: &[u8], admission: Result<(), Refusal>, place: Place)
    requires { admission ≡ admit_text text.now }
    ensures { out.new ≡ filter_record (next_filter text.now place.0) }
{
    if stream::admit_from(text, admission, place).is_ok() {
        let end = text.len();
        if end <= place.0 {
            records::written::ended(out, State::End.number(), Place(end));
            return;
        }
        if let Some(()) = write_told(out, text, place) {
            return;
        }
    }
    write_untold(out, text, &admission, place);
}

// The same by the plain reader. Apart and cold: its rooms for a step and a fault are not set to zero for each value that is told.
#[tactic(auto, unfolding(filter_functions::specs::Filters::next_filter), using(stream::proofs::Edges::placed_utf8))]
#[cold]
#[inline(never)]
fn write_untold(out: &mut [u64; 24], text: &[u8], admission: &Result<(), Refusal>, place: Place)
    requires { admission.now ≡ admit_text text.now }
    ensures { out.new ≡ filter_record (next_filter text.now place.0) }
{
    let step = match stream::admit_from(text, *admission, place) {
        Ok(()) => Step::edged(text, filter_functions::parse_step(text, place)),
        Err(refusal) => Step::refused(refusal, place),
    };
    records::write_filter(out, step);
}

// Writes a value that is told at once. The first byte picks the names that may stand there.
#[tactic(auto, using(crate::proofs::Laws::url_told, crate::proofs::Shaded::shadow_told, crate::proofs::Laws::degrees_told, crate::proofs::Laws::blur_told, crate::proofs::Laws::brightness_told, text_bytes::proofs::Wording::word_ends))]
fn write_told(out: &mut [u64; 24], text: &[u8], at: Place) -> Option<()>
    ensures { out.new ≡ row_or result text.now at.0 out.old }
{
    let i = at.0;
    match text_bytes::byte_at(text, at) {
        b'u' if text_bytes::starts_with(text, at, b"url(#") => {
            write_closed(out, text, at, url(text, Place(i + 5)))
        }
        b'd' if text_bytes::starts_with(text, at, b"drop-shadow(") => {
            write_closed(out, text, at, drop_shadow(text, Place(i + 12)))
        }
        b'h' if text_bytes::starts_with(text, at, b"hue-rotate(") => {
            write_closed(out, text, at, hue_rotate(text, Place(i + 11)))
        }
        b'b' if text_bytes::starts_with(text, at, b"blur(") => {
            write_closed(out, text, at, blur(text, Place(i + 5)))
        }
        b'b' if text_bytes::starts_with(text, at, b"brightness(") => {
            write_closed(out, text, at, plain(text, Place(i + 11), Plain::Brightness))
        }
        _ => write_plain(out, text, at),
    }
}

// The same of the plain functions whose first byte begins no other name.
#[tactic(auto, using(crate::proofs::Laws::sepia_told, crate::proofs::Laws::saturate_told, crate::proofs::Laws::contrast_told, crate::proofs::Laws::grayscale_told, crate::proofs::Laws::invert_told, crate::proofs::Laws::opacity_told, text_bytes::proofs::Wording::word_ends))]
fn write_plain(out: &mut [u64; 24], text: &[u8], at: Place) -> Option<()>
    ensures { out.new ≡ row_or result text.now at.0 out.old }
{
    let i = at.0;
    match text_bytes::byte_at(text, at) {
        b's' if text_bytes::starts_with(text, at, b"sepia(") => {
            write_closed(out, text, at, plain(text, Place(i + 6), Plain::Sepia))
        }
        b's' if text_bytes::starts_with(text, at, b"saturate(") => {
            write_closed(out, text, at, plain(text, Place(i + 9), Plain::Saturate))
        }
        b'c' if text_bytes::starts_with(text, at, b"contrast(") => {
            write_closed(out, text, at, plain(text, Place(i + 9), Plain::Contrast))
        }
        b'g' if text_bytes::starts_with(text, at, b"grayscale(") => {
            write_closed(out, text, at, plain(text, Place(i + 10), Plain::Grayscale))
        }
        b'i' if text_bytes::starts_with(text, at, b"invert(") => {
            write_closed(out, text, at, plain(text, Place(i + 7), Plain::Invert))
        }
        b'o' if text_bytes::starts_with(text, at, b"opacity(") => {
            write_closed(out, text, at, plain(text, Place(i + 8), Plain::Opacity))
        }
        _ => None,
    }
}

// The same of a value that is told up to its closing bracket. Compiled into each arm, the value needs no way through memory.
#[tactic(auto, using(crate::proofs::Rows::value_told, text_bytes::proofs::Wording::curr_ends))]
#[inline(always)]
fn write_closed(
    out: &mut [u64; 24],
    text: &[u8],
    at: Place,
    told: Option<Read<FilterValue>>,
) -> Option<()>
    requires { closed_or text.now (parse_step text.now at.0) told ≡ parse_step text.now at.0 }
    ensures { out.new ≡ row_or result text.now at.0 out.old }
{
    let read = told?;
    if !text_bytes::is_curr_byte_eq(text, read.next, b')') {
        return None;
    }
    let next = text_bytes::skip_spaces(text, Place(read.next.0 + 1));
    records::write_value(out, read.value, next);
    Some(())
}
