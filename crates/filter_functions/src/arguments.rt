// What the brackets of a filter function hold, a shadow's apart.
ghost use Rattle.std.specs.Prelude.{◌≡◌, ◌≤◌, length};
ghost use Rattle.length.specs.Paper.{zero_length};
ghost use Rattle.filter_functions.specs.Values.{is_percent, no_percentage, plain_value, parse_generic_color_func, parse_filter_length, parse_filter_positive_length, parse_filter_angle, parse_blur, parse_hue_rotate, parse_url};

use crate::{FilterValue, Plain};
use angle::{Angle, AngleUnit};
use length::{Length, LengthUnit};
use stream::{Fault, Read, Trouble};
use text_bytes::{Part, Place};

#[tactic(auto, unfolding(crate::specs::Values::parse_blur))]
pub fn parse_blur(text: &[u8], name: Place, at: Place) -> Result<Read<FilterValue>, Fault>
    ensures { result ≡ parse_blur text.now name.0 at.0 }
{
    if text_bytes::is_curr_byte_eq(text, at, b')') {
        return Ok(Read {
            value: FilterValue::Blur(zero_length()),
            next: at,
        });
    }
    Ok(parse_filter_positive_length(text, name, at)?.map(FilterValue::Blur))
}

#[tactic(auto, unfolding(crate::specs::Values::parse_hue_rotate))]
pub fn parse_hue_rotate(text: &[u8], name: Place, at: Place) -> Result<Read<FilterValue>, Fault>
    ensures { result ≡ parse_hue_rotate text.now name.0 at.0 }
{
    if text_bytes::is_curr_byte_eq(text, at, b')') {
        let number = 0.0;
        let unit = AngleUnit::Degrees;
        return Ok(Read {
            value: FilterValue::HueRotate(Angle { number, unit }),
            next: at,
        });
    }
    Ok(parse_filter_angle(text, name, at)?.map(FilterValue::HueRotate))
}

// `#` and a link, which ends before a space or the bracket.
#[tactic(auto, unfolding(crate::specs::Values::parse_url))]
pub fn parse_url(text: &[u8], name: Place, at: Place) -> Result<Read<FilterValue>, Fault>
    ensures { result ≡ parse_url text.now name.0 at.0 }
{
    let start = stream::consume_byte(text, at, b'#')?;
    let next = text_bytes::skip_to_space_or_bracket(text, start);
    if next.0 <= start.0 {
        return Err(stream::trouble_at(Trouble::InvalidUrl, name, name, start));
    }
    let len = next.0 - start.0;
    Ok(Read {
        value: FilterValue::Url(Part { start, len }),
        next,
    })
}

// The argument of one of the seven plain functions.
#[tactic(auto, unfolding(crate::specs::Values::parse_generic_color_func))]
pub fn parse_generic_color_func(
    text: &[u8],
    name: Place,
    at: Place,
    plain: Plain,
) -> Result<Read<FilterValue>, Fault>
    ensures { result ≡ parse_generic_color_func text.now name.0 at.0 plain }
{
    if text_bytes::is_curr_byte_eq(text, at, b')') {
        return Ok(Read {
            value: plain_value(plain, 1.0),
            next: at,
        });
    }
    let read = numbers::parse_number_or_percent(text, at)?;
    let number = read.value.value;
    if floats::is_sign_negative(number) {
        return Err(stream::trouble_at(Trouble::NegativeValue, at, name, read.next));
    }
    Ok(Read {
        value: plain_value(plain, number),
        next: read.next,
    })
}

// No From: it takes which of the seven it is, too.
#[tactic(auto, unfolding(crate::specs::Values::plain_value))]
pub fn plain_value(plain: Plain, number: f64) -> FilterValue
    ensures { result ≡ plain_value plain number }
{
    match plain {
        Plain::Brightness => FilterValue::Brightness(number),
        Plain::Contrast => FilterValue::Contrast(number),
        Plain::Grayscale => FilterValue::Grayscale(number),
        Plain::Invert => FilterValue::Invert(number),
        Plain::Opacity => FilterValue::Opacity(number),
        Plain::Saturate => FilterValue::Saturate(number),
        Plain::Sepia => FilterValue::Sepia(number),
    }
}

// What a length that is left out counts as.
pub fn zero_length() -> Length
    ensures { result ≡ zero_length }
{
    Length {
        number: 0.0,
        unit: LengthUnit::None,
    }
}

#[tactic(auto, unfolding(crate::specs::Values::is_percent))]
pub fn is_percent(unit: LengthUnit) -> bool
    ensures { result ≡ is_percent unit }
{
    unit == LengthUnit::Percent
}

// A length that is no percentage.
#[tactic(auto, unfolding(crate::specs::Values::parse_filter_length))]
pub fn parse_filter_length(text: &[u8], name: Place, at: Place) -> Result<Read<Length>, Fault>
    ensures { result ≡ parse_filter_length text.now name.0 at.0 }
{
    let read = length::parse_length(text, at)?.map(|written| written.value);
    no_percentage(read, name, at)
}

// A length that is neither negative nor a percentage; the sign is judged first.
#[tactic(auto, unfolding(crate::specs::Values::parse_filter_positive_length))]
fn parse_filter_positive_length(text: &[u8], name: Place, at: Place) -> Result<Read<Length>, Fault>
    ensures { result ≡ parse_filter_positive_length text.now name.0 at.0 }
{
    let read = length::parse_length(text, at)?.map(|written| written.value);
    if floats::is_sign_negative(read.value.number) {
        return Err(stream::trouble_at(Trouble::NegativeValue, at, name, read.next));
    }
    no_percentage(read, name, at)
}

// What was read from `at` on, unless it is a percentage.
fn no_percentage(read: Read<Length>, name: Place, at: Place) -> Result<Read<Length>, Fault>
    ensures { result ≡ no_percentage read name.0 at.0 }
{
    if is_percent(read.value.unit) {
        return Err(stream::trouble_at(Trouble::PercentageValue, at, name, read.next));
    }
    Ok(read)
}

// As an angle, but that only zero may lack its unit.
#[tactic(auto, unfolding(crate::specs::Values::parse_filter_angle))]
fn parse_filter_angle(text: &[u8], name: Place, at: Place) -> Result<Read<Angle>, Fault>
    ensures { result ≡ parse_filter_angle text.now name.0 at.0 }
{
    let start = text_bytes::skip_spaces(text, at);
    let read = numbers::parse_number(text, start)?;
    let number = read.value.value;
    match angle::parse_unit(text, read.next) {
        Some(unit) => Ok(Read {
            value: Angle {
                number,
                unit: unit.value,
            },
            next: unit.next,
        }),
        None if number == 0.0 => Ok(Read {
            value: Angle {
                number,
                unit: AngleUnit::Degrees,
            },
            next: read.next,
        }),
        None => Err(stream::trouble_at(Trouble::InvalidAngle, start, name, read.next)),
    }
}
