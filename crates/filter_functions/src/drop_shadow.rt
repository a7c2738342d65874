// What the brackets of a drop-shadow hold.
ghost use Rattle.std.specs.Prelude.{◌≡◌, ◌≤◌, length};
ghost use Rattle.filter_functions.specs.Shadow.{try_parse_color, parse_deviation, parse_shadow_lengths, shadow, parse_drop_shadow_func};

use crate::arguments::{is_percent, parse_filter_length, zero_length};
use crate::{FilterValue, Shadow, ShadowLengths};
use color::Color;
use length::Length;
use stream::{Fault, Read, Trouble};
use text_bytes::Place;

// The colour may stand before the lengths or after them.
#[tactic(auto, unfolding(crate::specs::Shadow::parse_drop_shadow_func, crate::specs::Shadow::shadow_before, crate::specs::Shadow::shadow_after))]
pub fn parse_drop_shadow_func(
    text: &[u8],
    name: Place,
    at: Place,
) -> Result<Read<FilterValue>, Fault>
    ensures { result ≡ parse_drop_shadow_func text.now name.0 at.0 }
{
    if text_bytes::is_curr_byte_eq(text, at, b')') {
        return Err(stream::trouble_at(Trouble::MissingDropShadowOffset, at, name, at));
    }
    let first = try_parse_color(text, at)?;
    let from = first.map_or(at, |color| text_bytes::skip_spaces(text, color.next));
    let lengths = parse_shadow_lengths(text, name, from)?;
    let end = lengths.next;
    let (color, next) = match first {
        Some(before) => (before.value, end),
        None => match try_parse_color(text, end)? {
            Some(after) => (after.value, after.next),
            None => (None, end),
        },
    };
    let value = shadow(color, lengths.value);
    Ok(Read { value, next })
}

// A colour or `currentColor`. A colour that is refused leaves the place, but for a number outside the domain.
#[tactic(auto, unfolding(crate::specs::Shadow::try_parse_color), using(text_bytes::proofs::Wording::word_ends))]
fn try_parse_color(text: &[u8], at: Place) -> Result<Option<Read<Option<Color>>>, Fault>
    ensures { result ≡ try_parse_color text.now at.0 }
{
    match color::parse_color(text, at) {
        Ok(read) => Ok(Some(read.map(Some))),
        Err(e) => {
            if stream::is_outside_domain(e) {
                return Err(e);
            }
            if text_bytes::starts_with(text, at, b"currentColor") {
                return Ok(Some(Read {
                    value: None,
                    next: Place(at.0 + 12),
                }));
            }
            Ok(None)
        }
    }
}

fn shadow(color: Option<Color>, lengths: ShadowLengths) -> FilterValue
    ensures { result ≡ shadow color lengths }
{
    FilterValue::DropShadow(Shadow {
        color,
        dx: lengths.dx,
        dy: lengths.dy,
        deviation: lengths.deviation,
    })
}

// Both offsets must be there; the deviation need not.
#[tactic(auto, unfolding(crate::specs::Shadow::parse_shadow_lengths))]
fn parse_shadow_lengths(text: &[u8], name: Place, at: Place) -> Result<Read<ShadowLengths>, Fault>
    ensures { result ≡ parse_shadow_lengths text.now name.0 at.0 }
{
    let dx = parse_filter_length(text, name, at)?;
    let dy = parse_filter_length(text, name, text_bytes::skip_spaces(text, dx.next))?;
    let deviation = parse_deviation(text, text_bytes::skip_spaces(text, dy.next))?;
    Ok(Read {
        value: ShadowLengths {
            dx: dx.value,
            dy: dy.value,
            deviation: deviation.value,
        },
        next: deviation.next,
    })
}

// A deviation that is negative or a percentage is read past and counts as 0; the spaces after it are then left to what follows.
#[tactic(auto, unfolding(crate::specs::Shadow::parse_deviation))]
fn parse_deviation(text: &[u8], at: Place) -> Result<Read<Length>, Fault>
    ensures { result ≡ parse_deviation text.now at.0 }
{
    match length::parse_length(text, at) {
        Ok(read) => {
            let length = read.value.value;
            if floats::is_sign_negative(length.number) || is_percent(length.unit) {
                return Ok(Read {
                    value: zero_length(),
                    next: read.next,
                });
            }
            Ok(Read {
                value: length,
                next: text_bytes::skip_spaces(text, read.next),
            })
        }
        Err(e) if stream::is_outside_domain(e) => Err(e),
        Err(_) => Ok(Read {
            value: zero_length(),
            next: at,
        }),
    }
}
