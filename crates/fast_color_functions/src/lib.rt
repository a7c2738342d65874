// Colours without their refusals: `rgb` and `hsl` are told sooner, and every other colour as `color` reads it.
#![tactic(auto)]

ghost use Rattle.std.specs.Prelude.{◌≡◌, if◌then◌else◌};
ghost use Rattle.std.specs.Result.{result_ok};
ghost use Rattle.numbers.specs.Number.{parse_list_number, parse_list_number_or_percent};
ghost use Rattle.color.specs.Color.{close_bracket, parse_alpha, channel, rgb_plain, rgb_marked, parse_color};
ghost use Rattle.fast_color_functions.specs.Told.{told_item, whole_at, rgb_numbers, hsl_numbers};

use color::Color;
use numbers::LIMIT;
use stream::Read;
use text_bytes::Place;

// A colour, spaces before it skipped; None where the plain reader reads none.
// A slice is taken anew on its way: handed on whole it is copied by 16 bytes, which wait for the stores of its two halves.
// Compiled into its callers, since what comes back would be copied so too.
#[inline(always)]
#[tactic(auto, using(crate::proofs::Openings::open_rgb, crate::proofs::Openings::open_rgba, crate::proofs::Openings::open_hsl, crate::proofs::Openings::open_hsla, text_bytes::proofs::Wording::word_ends, fast_numbers::proofs::Told::all_text))]
pub fn told_color(text: &[u8], at: Place) -> Option<Read<Color>>
    ensures { result ≡ result_ok (parse_color text.now at.0) }
{
    let start = text_bytes::skip_spaces(text, at);
    let i = start.0;
    if text_bytes::starts_with(text, start, b"rgb(") {
        return rgb(&text[0..], Place(i + 4));
    }
    if text_bytes::starts_with(text, start, b"rgba(") {
        return rgb(&text[0..], Place(i + 5));
    }
    if text_bytes::starts_with(text, start, b"hsl(") {
        return hsl(&text[0..], Place(i + 4));
    }
    if text_bytes::starts_with(text, start, b"hsla(") {
        return hsl(&text[0..], Place(i + 5));
    }
    color::parse_color(&text[0..], at).ok()
}

// The numbers of `rgb`: the `%` of the first decides for the others.
#[tactic(auto, using(crate::proofs::Tellings::first_whole, crate::proofs::Tellings::first_none, crate::proofs::Tellings::first_marked, crate::proofs::Tellings::first_plain, text_bytes::proofs::Wording::curr_ends, fast_numbers::proofs::Told::all_text))]
fn rgb(text: &[u8], at: Place) -> Option<Read<Color>>
    ensures { result ≡ result_ok (rgb_numbers text.now at.0) }
{
    if let Some(first) = whole(text, at) {
        return rgb_rest(text, first.next, first.value, false, true);
    }
    let first = fast_numbers::number(&text[0..], at)?;
    let end = first.end;
    if text_bytes::is_curr_byte_eq(text, end, b'%') {
        let next = numbers::after_item(text, Place(end.0 + 1));
        return rgb_rest(text, next, first.value, true, false);
    }
    rgb_rest(
        text,
        numbers::after_item(text, end),
        first.value,
        false,
        false,
    )
}

// Green and blue after red, which is marked or not; after a whole red they are tried as whole ones first.
// The hint, here and below: an Option of a struct comes back by memory, and calls would make all a tenth slower.
#[tactic(auto, using(crate::proofs::Tellings::rest_is))]
#[inline(always)]
fn rgb_rest(text: &[u8], at: Place, first: f64, marked: bool, wholes: bool) -> Option<Read<Color>>
    ensures { result ≡ result_ok (if marked then rgb_marked text.now at.0 first else rgb_plain text.now at.0 first) }
{
    let green = channel(text, at, marked, wholes)?;
    let blue = channel(text, green.next, marked, wholes)?;
    // divided and multiplied apart, so that it rounds as green and blue do
    let red = if marked {
        (first / 100.0) * 255.0
    } else {
        first
    };
    let color = Color {
        red: floats::channel(red),
        green: green.value,
        blue: blue.value,
        alpha: 255,
    };
    alpha(text, blue.next, color)
}

// Green or blue, as `color` has it.
#[tactic(auto, using(crate::proofs::Tellings::channel_is, crate::proofs::Items::item_whole))]
#[inline(always)]
fn channel(text: &[u8], at: Place, marked: bool, wholes: bool) -> Option<Read<u8>>
    ensures { result ≡ result_ok (channel text.now at.0 marked) }
{
    if wholes && !marked {
        if let Some(read) = whole(text, at) {
            return Some(Read {
                value: floats::channel(read.value),
                next: read.next,
            });
        }
    }
    let read = item(text, at, marked)?;
    let value = if marked {
        read.value * 255.0
    } else {
        read.value
    };
    Some(Read {
        value: floats::channel(value),
        next: read.next,
    })
}

// The numbers of `hsl`.
#[tactic(auto, using(crate::proofs::Tellings::hsl_is))]
fn hsl(text: &[u8], at: Place) -> Option<Read<Color>>
    ensures { result ≡ result_ok (hsl_numbers text.now at.0) }
{
    let hue = item(text, at, false)?;
    let saturation = item(text, hue.next, true)?;
    let lightness = item(text, saturation.next, true)?;
    let color = color::hsl_color(hue.value, saturation.value, lightness.value);
    alpha(text, lightness.next, color)
}

// A whole number directly before a comma or the bracket, as most of `rgb` are: there is neither a sign, a dot nor an exponent to look for.
#[tactic(auto, unfolding(crate::specs::Told::whole_at), using(text_bytes::proofs::Parts::byte_there))]
#[inline(always)]
fn whole(text: &[u8], at: Place) -> Option<Read<f64>>
    ensures { result ≡ whole_at text.now at.0 }
{
    let start = text_bytes::skip_spaces(text, at);
    let digits = numbers::read_digits(text, start, 0);
    let end = digits.next;
    if start.0 >= end.0 || digits.value >= LIMIT {
        return None;
    }
    let next = match text_bytes::byte_at(text, end) {
        b',' => Place(end.0 + 1),
        b')' => end,
        _ => return None,
    };
    Some(Read {
        value: fast_numbers::whole_value(false, digits.value),
        next,
    })
}

// A number of a list, and the place where the next may start; with `percent` a `%` after it makes it a share of one.
#[tactic(auto, using(crate::proofs::Items::item_none, crate::proofs::Items::item_some, crate::proofs::Items::share_none, crate::proofs::Items::share_marked, crate::proofs::Items::share_plain, text_bytes::proofs::Wording::curr_ends, fast_numbers::proofs::Told::all_text))]
#[inline(always)]
fn item(text: &[u8], at: Place, percent: bool) -> Option<Read<f64>>
    ensures { result ≡ told_item (if percent then parse_list_number_or_percent text.now at.0 else parse_list_number text.now at.0) }
{
    let n = fast_numbers::number(&text[0..], at)?;
    let end = n.end;
    if percent && text_bytes::is_curr_byte_eq(text, end, b'%') {
        return Some(Read {
            value: n.value / 100.0,
            next: numbers::after_item(text, Place(end.0 + 1)),
        });
    }
    Some(Read {
        value: n.value,
        next: numbers::after_item(text, end),
    })
}

// The fourth number, unless the bracket stands there, and the bracket.
#[tactic(auto, using(crate::proofs::Tellings::alpha_is, text_bytes::proofs::Wording::curr_ends))]
#[inline(always)]
fn alpha(text: &[u8], at: Place, color: Color) -> Option<Read<Color>>
    ensures { result ≡ result_ok (parse_alpha text.now at.0 color) }
{
    let start = text_bytes::skip_spaces(text, at);
    if text_bytes::is_curr_byte_eq(text, start, b')') {
        return Some(Read {
            value: color,
            next: Place(start.0 + 1),
        });
    }
    let n = item(text, start, false)?;
    let alpha = floats::channel(n.value * 255.0);
    closed(text, n.next, Color { alpha, ..color })
}

// The bracket, spaces before it skipped.
#[tactic(auto, using(crate::proofs::Tellings::close_is, text_bytes::proofs::Wording::curr_ends))]
#[inline(always)]
fn closed(text: &[u8], at: Place, color: Color) -> Option<Read<Color>>
    ensures { result ≡ result_ok (close_bracket text.now at.0 color) }
{
    let start = text_bytes::skip_spaces(text, at);
    if !text_bytes::is_curr_byte_eq(text, start, b')') {
        return None;
    }
    Some(Read {
        value: color,
        next: Place(start.0 + 1),
    })
}
