// Colours: hex digits, `rgb` and `hsl` with their brackets, and names.
#![tactic(auto)]

ghost use Rattle.std.specs.Prelude.{◌≡◌, ◌+◌, ◌*◌, ◌≤◌, length};
ghost use Rattle.color.specs.Hex.{from_hex, parse_hex};
ghost use Rattle.color.specs.Hsl.{hue_to_rgb, hsl_to_rgb, hsl_color};
ghost use Rattle.color.specs.Color.{parse_alpha, channel, parse_rgb, parse_hsl, is_rgb, is_hsl, color_of, rgb_of, named_color, parse_color, parse_color_text};
ghost use Rattle.color.specs.Answer.{from_str};
ghost use Rattle.color.specs.Paper.{paper};

use names::{Named, Rgb};
use stream::{Fault, Read, Refusal};
use text_bytes::Place;

// svgtypes' own type; a keyword's `Rgb` has no alpha to give.
#[derive(Clone, Copy, Debug, PartialEq, Eq)]
pub struct Color {
    pub red: u8,
    pub green: u8,
    pub blue: u8,
    pub alpha: u8,
}

// A colour as a whole text, for a caller who has promised nothing of it.
// As `length`'s and `angle`'s but for the reader: a function over a reader would want a closure's contract.
#[tactic(auto, unfolding(crate::specs::Answer::from_str), using(stream::proofs::Edges::admitted_utf8))]
pub fn from_str(text: &[u8]) -> Result<Color, Refusal>
    ensures value { result ≡ from_str text.now }
    ensures result_value { paper result ≡ paper (from_str text.now) }
{
    stream::admit_text(text)?;
    let read = parse_color_text(text).map_err(|e| stream::refusal_of(text, e))?;
    Ok(read.value)
}

// A colour as a whole text. What follows it could be an icccolor, which is not read.
#[tactic(auto, unfolding(crate::specs::Color::parse_color_text))]
pub fn parse_color_text(text: &[u8]) -> Result<Read<Color>, Fault>
    ensures { result ≡ parse_color_text text.now }
{
    let value = parse_color(text, Place(0))?.spaced(text).whole(text)?;
    let next = Place(text.len());
    Ok(Read { value, next })
}

// A colour, spaces before it skipped: `#` and digits, or a word, which begins `rgb(` or `hsl(` or is a name alone.
#[tactic(auto, unfolding(crate::specs::Color::parse_color, crate::specs::Color::parse_word, text_bytes::specs::Words::part), using(text_bytes::proofs::Scans::scan_ge, text_bytes::proofs::Scans::scan_le))]
pub fn parse_color(text: &[u8], at: Place) -> Result<Read<Color>, Fault>
    ensures { result ≡ parse_color text.now at.0 }
{
    let start = text_bytes::skip_spaces(text, at);
    stream::goes_on(text, start)?;
    if text[start.0] == b'#' {
        return parse_hex(text, Place(start.0 + 1));
    }
    let end = text_bytes::consume_ascii_ident(text, start);
    let word = &text[start.0..end.0];
    if is_rgb(word) {
        return parse_rgb(text, end);
    }
    if is_hsl(word) {
        return parse_hsl(text, end);
    }
    named_color(word, end)
}

// The colour whose hex digits start at a place, the one after the `#`. A short form has each digit twice.
// `at` lies inside: the `#` stands before it. A total form would have an answer for a case that none meets.
#[tactic(auto, unfolding(crate::specs::Hex::parse_hex, crate::specs::Hex::long_color, crate::specs::Hex::short_color, crate::specs::Hex::hex_pair, crate::specs::Hex::short_hex, text_bytes::specs::Words::part), using(text_bytes::proofs::Scans::scan_ge, text_bytes::proofs::Scans::scan_le))]
fn parse_hex(text: &[u8], at: Place) -> Result<Read<Color>, Fault>
    requires { at.0 ≤ length text.now }
    ensures { result ≡ parse_hex text.now at.0 }
{
    let next = text_bytes::skip_hex_digits(text, at);
    let (red, green, blue, alpha) = match &text[at.0..next.0] {
        [r, g, b] => (pair(*r, *r), pair(*g, *g), pair(*b, *b), 255),
        [r, g, b, a] => (pair(*r, *r), pair(*g, *g), pair(*b, *b), pair(*a, *a)),
        [r, s, g, h, b, c] => (pair(*r, *s), pair(*g, *h), pair(*b, *c), 255),
        [r, s, g, h, b, c, a, d] => (pair(*r, *s), pair(*g, *h), pair(*b, *c), pair(*a, *d)),
        _ => return Err(stream::invalid_value(next)),
    };
    let value = Color {
        red,
        green,
        blue,
        alpha,
    };
    Ok(Read { value, next })
}

// A channel of two hex digits.
fn pair(high: u8, low: u8) -> u8
    ensures { result ≡ from_hex high * 16 + from_hex low }
{
    from_hex(high) * 16 + from_hex(low)
}

// The value of a hex digit. None but digits come, and 0 for another byte spares each of fourteen calls an Option.
#[tactic(auto, unfolding(crate::specs::Hex::from_hex, text_bytes::specs::Bytes::within))]
fn from_hex(c: u8) -> u8
    ensures value { result ≡ from_hex c }
    ensures upper_bound { result ≤ 15 }
{
    match c {
        b'0'..=b'9' => c - b'0',
        b'a'..=b'f' => c - b'a' + 10,
        b'A'..=b'F' => c - b'A' + 10,
        _ => 0,
    }
}

// One test each: a function of the two words would be as long as these.
#[tactic(auto, unfolding(crate::specs::Color::is_rgb))]
pub fn is_rgb(word: &[u8]) -> bool
    ensures { result ≡ is_rgb word.now }
{
    text_bytes::equals_lowered(word, b"rgb") || text_bytes::equals_lowered(word, b"rgba")
}

#[tactic(auto, unfolding(crate::specs::Color::is_hsl))]
pub fn is_hsl(word: &[u8]) -> bool
    ensures { result ≡ is_hsl word.now }
{
    text_bytes::equals_lowered(word, b"hsl") || text_bytes::equals_lowered(word, b"hsla")
}

impl From<Named> for Color {
    fn from(named: Named) -> Color
        ensures { result ≡ color_of named }
    {
        let (rgb, alpha) = match named {
            Named::Keyword(rgb) => (rgb, 255),
            Named::Transparent => (
                Rgb {
                    red: 0,
                    green: 0,
                    blue: 0,
                },
                0,
            ),
        };
        Color {
            red: rgb.red,
            green: rgb.green,
            blue: rgb.blue,
            alpha,
        }
    }
}

// As the keywords have it, without its alpha.
impl From<Color> for Rgb {
    fn from(color: Color) -> Rgb
        ensures { result ≡ rgb_of color }
    {
        let Color {
            red,
            green,
            blue,
            ..
        } = color;
        Rgb { red, green, blue }
    }
}

// The colour that a word names; the word's end is where reading goes on.
#[tactic(auto, unfolding(crate::specs::Color::named_color))]
fn named_color(word: &[u8], end: Place) -> Result<Read<Color>, Fault>
    ensures { result ≡ named_color word.now end.0 }
{
    let named = names::from_str(word).ok_or(stream::invalid_value(end))?;
    Ok(Read {
        value: Color::from(named),
        next: end,
    })
}

// What follows `rgb` or `rgba`. The first number is no number of a list, and its `%` decides for green and blue too.
#[tactic(auto, unfolding(crate::specs::Color::parse_rgb, crate::specs::Color::rgb_rest, crate::specs::Color::rgb_marked, crate::specs::Color::rgb_plain, crate::specs::Color::channel), using(text_bytes::proofs::Wording::curr_ends))]
fn parse_rgb(text: &[u8], at: Place) -> Result<Read<Color>, Fault>
    ensures { result ≡ parse_rgb text.now at.0 }
{
    let first = stream::consume_byte(text, at, b'(')?;
    let number = numbers::parse_number(text, first)?;
    let marked = text_bytes::is_curr_byte_eq(text, number.next, b'%');
    // divided and multiplied apart, so that it rounds as green and blue do
    let (red, end) = if marked {
        (
            (number.value.value / 100.0) * 255.0,
            Place(number.next.0 + 1),
        )
    } else {
        (number.value.value, number.next)
    };
    let green = channel(text, numbers::after_item(text, end), marked)?;
    let blue = channel(text, green.next, marked)?;
    let color = Color {
        red: floats::channel(red),
        green: green.value,
        blue: blue.value,
        alpha: 255,
    };
    parse_alpha(text, blue.next, color)
}

// Green or blue: a number or percent times 255 after a marked red, else a plain number.
#[tactic(auto, unfolding(crate::specs::Color::channel))]
fn channel(text: &[u8], at: Place, marked: bool) -> Result<Read<u8>, Fault>
    ensures { result ≡ channel text.now at.0 marked }
{
    if marked {
        let read = numbers::parse_list_number_or_percent(text, at)?;
        return Ok(read.map(|n| floats::channel(n.value * 255.0)));
    }
    let read = numbers::parse_list_number(text, at)?;
    Ok(read.map(|n| floats::channel(n.value)))
}

// The fourth number, unless the bracket stands there, and the bracket.
#[tactic(auto, unfolding(crate::specs::Color::parse_alpha, crate::specs::Color::close_bracket))]
fn parse_alpha(text: &[u8], at: Place, color: Color) -> Result<Read<Color>, Fault>
    ensures { result ≡ parse_alpha text.now at.0 color }
{
    let start = text_bytes::skip_spaces(text, at);
    if text_bytes::is_curr_byte_eq(text, start, b')') {
        return stream::close(text, start, b')', color);
    }
    let read = numbers::parse_list_number(text, start)?;
    let alpha = floats::channel(read.value.value * 255.0);
    stream::close(text, read.next, b')', Color { alpha, ..color })
}

// What follows `hsl` or `hsla`.
#[tactic(auto, unfolding(crate::specs::Color::parse_hsl, crate::specs::Color::hsl_rest))]
fn parse_hsl(text: &[u8], at: Place) -> Result<Read<Color>, Fault>
    ensures { result ≡ parse_hsl text.now at.0 }
{
    let first = stream::consume_byte(text, at, b'(')?;
    let hue = numbers::parse_list_number(text, first)?;
    let saturation = numbers::parse_list_number_or_percent(text, hue.next)?;
    let lightness = numbers::parse_list_number_or_percent(text, saturation.next)?;
    let color = hsl_color(
        hue.value.value,
        saturation.value.value,
        lightness.value.value,
    );
    parse_alpha(text, lightness.next, color)
}

// Hue, saturation and lightness as they were read, rounded to `f32`s.
#[tactic(auto, unfolding(crate::specs::Hsl::hsl_color))]
pub fn hsl_color(h: f64, s: f64, l: f64) -> Color
    ensures { result ≡ hsl_color h s l }
{
    let turned = floats::remainder_360(floats::remainder_360(h) + 360.0);
    let hue = floats::narrow(turned) / 60.0;
    let saturation = floats::narrow(floats::unit_clamp(s));
    let lightness = floats::narrow(floats::unit_clamp(l));
    hsl_to_rgb(hue, saturation, lightness)
}

// `hue` is in 0..6, `saturation` and `lightness` are in 0..=1.
#[tactic(auto, unfolding(crate::specs::Hsl::hsl_to_rgb))]
fn hsl_to_rgb(hue: f32, saturation: f32, lightness: f32) -> Color
    ensures { result ≡ hsl_to_rgb hue saturation lightness }
{
    let t2 = if lightness <= 0.5 {
        lightness * (saturation + 1.0)
    } else {
        lightness + saturation - (lightness * saturation)
    };
    let t1 = lightness * 2.0 - t2;
    let red = hue_to_rgb(t1, t2, hue + 2.0);
    let green = hue_to_rgb(t1, t2, hue);
    let blue = hue_to_rgb(t1, t2, hue - 2.0);
    Color {
        red: floats::channel_f32(red * 255.0),
        green: floats::channel_f32(green * 255.0),
        blue: floats::channel_f32(blue * 255.0),
        alpha: 255,
    }
}

#[tactic(auto, unfolding(crate::specs::Hsl::hue_to_rgb))]
fn hue_to_rgb(t1: f32, t2: f32, hue: f32) -> f32
    ensures { result ≡ hue_to_rgb t1 t2 hue }
{
    let mut h = hue;
    if h < 0.0 {
        h = h + 6.0;
    }
    if h >= 6.0 {
        h = h - 6.0;
    }
    if h < 1.0 {
        return (t2 - t1) * h + t1;
    }
    if h < 3.0 {
        return t2;
    }
    if h < 4.0 {
        return (t2 - t1) * (4.0 - h) + t1;
    }
    t1
}
