// What the brackets of a filter function hold, a shadow's apart, where it is told at once.
// Compiled into the writing of its kind, a value needs no way through memory, and no match on its kind.
ghost use Rattle.std.specs.Prelude.{◌≡◌};
ghost use Rattle.numbers.specs.Number.{parse_number_or_percent};
ghost use Rattle.fast_filter_functions.specs.Told.{offset_at, radius_at, blur_at, degrees_at, told_value, plain_at, url_at};

use angle::{Angle, AngleUnit};
use filter_functions::{FilterValue, Plain};
use length::Length;
use stream::Read;
use text_bytes::{Part, Place};

// A length that is no percentage. It is handed on field by field: copied whole, it waits for the stores of its fields.
#[tactic(auto, unfolding(crate::specs::Told::offset_at))]
pub fn offset(text: &[u8], at: Place) -> Option<Read<Length>>
    ensures { result ≡ offset_at text.now at.0 }
{
    let read = fast_length::length_at(text, at)?;
    let length = read.value.value;
    if filter_functions::is_percent(length.unit) {
        return None;
    }
    Some(Read {
        value: Length {
            number: length.number,
            unit: length.unit,
        },
        next: read.next,
    })
}

// Such a length that is not negative.
#[tactic(auto, unfolding(crate::specs::Told::radius_at))]
#[inline(always)]
pub fn radius(text: &[u8], at: Place) -> Option<Read<Length>>
    ensures { result ≡ radius_at text.now at.0 }
{
    let read = offset(text, at)?;
    if floats::is_sign_negative(read.value.number) {
        return None;
    }
    Some(read)
}

#[tactic(auto, unfolding(crate::specs::Told::blur_at))]
#[inline(always)]
pub fn blur(text: &[u8], at: Place) -> Option<Read<FilterValue>>
    ensures { result ≡ blur_at text.now at.0 }
{
    let read = radius(text, at)?;
    Some(Read {
        value: FilterValue::Blur(read.value),
        next: read.next,
    })
}

// A turn of the hue by degrees.
#[tactic(auto, unfolding(crate::specs::Told::degrees_at), using(text_bytes::proofs::Wording::word_ends))]
#[inline(always)]
pub fn hue_rotate(text: &[u8], at: Place) -> Option<Read<FilterValue>>
    ensures { result ≡ degrees_at text.now at.0 }
{
    let n = fast_numbers::number(text, at)?;
    if !text_bytes::starts_with(text, n.end, b"deg") {
        return None;
    }
    let number = n.value;
    let unit = AngleUnit::Degrees;
    Some(Read {
        value: FilterValue::HueRotate(Angle { number, unit }),
        next: Place(n.end.0 + 3),
    })
}

// The number of one of the seven plain functions.
#[tactic(auto, unfolding(crate::specs::Told::plain_at))]
#[inline(always)]
pub fn plain(text: &[u8], at: Place, plain: Plain) -> Option<Read<FilterValue>>
    ensures { result ≡ plain_at text.now at.0 plain }
{
    let read = number_or_percent(text, at)?;
    if floats::is_sign_negative(read.value) {
        return None;
    }
    Some(Read {
        value: filter_functions::plain_value(plain, read.value),
        next: read.next,
    })
}

// A number, or the hundredth of a percentage.
#[tactic(auto, using(crate::proofs::Laws::percent_none, crate::proofs::Laws::percent_marked, crate::proofs::Laws::percent_plain, text_bytes::proofs::Wording::curr_ends))]
#[inline(always)]
fn number_or_percent(text: &[u8], at: Place) -> Option<Read<f64>>
    ensures { result ≡ told_value (parse_number_or_percent text.now at.0) }
{
    let n = fast_numbers::number(text, at)?;
    let end = n.end;
    if text_bytes::is_curr_byte_eq(text, end, b'%') {
        return Some(Read {
            value: n.value / 100.0,
            next: Place(end.0 + 1),
        });
    }
    Some(Read {
        value: n.value,
        next: end,
    })
}

// A link, the `#` before it passed.
#[tactic(auto, unfolding(crate::specs::Told::url_at))]
#[inline(always)]
pub fn url(text: &[u8], at: Place) -> Option<Read<FilterValue>>
    ensures { result ≡ url_at text.now at.0 }
{
    let end = text_bytes::skip_to_space_or_bracket(text, at);
    if at.0 >= end.0 {
        return None;
    }
    let len = end.0 - at.0;
    Some(Read {
        value: FilterValue::Url(Part { start: at, len }),
        next: end,
    })
}
