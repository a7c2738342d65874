// Shadows that are told at once: three lengths, and a colour before them, after them or nowhere.
ghost use Rattle.std.specs.Prelude.{◌≡◌};
ghost use Rattle.std.specs.Result.{result_ok};
ghost use Rattle.color.specs.Color.{parse_color};
ghost use Rattle.fast_filter_functions.specs.Told.{lengths_at, lengths_first, color_first, shadow_at};

use crate::values::{offset, radius};
use color::Color;
use filter_functions::{FilterValue, Shadow};
use length::Length;
use stream::Read;
use text_bytes::Place;

#[tactic(auto, unfolding(crate::specs::Told::shadow_at, text_bytes::specs::Bytes::within))]
#[inline(always)]
pub fn drop_shadow(text: &[u8], at: Place) -> Option<Read<FilterValue>>
    ensures { result ≡ shadow_at text.now at.0 }
{
    // No colour begins with a byte between `)` and `A`.
    let read = match text_bytes::byte_at(text, at) {
        b'*'..=b'@' => lengths_first(text, at),
        _ => color_first(text, at),
    }?;
    Some(Read {
        value: FilterValue::DropShadow(read.value),
        next: read.next,
    })
}

// Lengths, and a colour that may follow them.
#[tactic(auto, unfolding(crate::specs::Told::lengths_first))]
#[inline(always)]
fn lengths_first(text: &[u8], at: Place) -> Option<Read<Shadow>>
    ensures { result ≡ lengths_first text.now at.0 }
{
    let read = lengths(text, at, None)?;
    if text_bytes::is_curr_byte_eq(text, read.next, b')') {
        return Some(read);
    }
    let color = color_at(text, read.next)?;
    Some(Read {
        value: Shadow {
            color: Some(color.value),
            ..read.value
        },
        next: color.next,
    })
}

// A colour, and the lengths after it.
#[tactic(auto, unfolding(crate::specs::Told::color_first))]
#[inline(always)]
fn color_first(text: &[u8], at: Place) -> Option<Read<Shadow>>
    ensures { result ≡ color_first text.now at.0 }
{
    let color = color_at(text, at)?;
    lengths(text, color.next, Some(color.value))
}

fn color_at(text: &[u8], at: Place) -> Option<Read<Color>>
    ensures { result ≡ result_ok (parse_color text.now at.0) }
{
    let read = fast_color::parse_color(text, at).ok()?;
    Some(Read {
        value: read.value,
        next: read.next,
    })
}

// The lengths of a shadow of this colour, handed on field by field.
#[tactic(auto, unfolding(crate::specs::Told::lengths_at))]
#[inline(always)]
fn lengths(text: &[u8], at: Place, color: Option<Color>) -> Option<Read<Shadow>>
    ensures { result ≡ lengths_at text.now at.0 color }
{
    let dx = offset(text, at)?;
    let dy = offset(text, dx.next)?;
    let deviation = radius(text, dy.next)?;
    Some(Read {
        value: Shadow {
            color,
            dx: Length {
                number: dx.value.number,
                unit: dx.value.unit,
            },
            dy: Length {
                number: dy.value.number,
                unit: dy.value.unit,
            },
            deviation: Length {
                number: deviation.value.number,
                unit: deviation.value.unit,
            },
        },
        next: deviation.next,
    })
}
