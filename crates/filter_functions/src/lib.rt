// Filter values: a step of a list of filter functions and links.
#![tactic(auto)]

ghost use Rattle.std.specs.Prelude.{◌≡◌, ◌≤◌, length, false};
ghost use Rattle.std.specs.Iterator.{at_most};
ghost use Rattle.filter_functions.specs.Filters.{filter_name, plain_name, argument_of, parse_next, after_none, parse_step, next_filter};
ghost use Rattle.filter_functions.specs.Lists.{StepsOn, left};
ghost use Rattle.filter_functions.specs.Paper.{paper_step};

use angle::Angle;
use color::Color;
use length::Length;
use stream::{Fault, Read, Refusal, Step};
use text_bytes::{Part, Place};

mod arguments;
mod drop_shadow;

pub use arguments::{is_percent, plain_value};
use arguments::{parse_blur, parse_generic_color_func, parse_hue_rotate, parse_url};
use drop_shadow::parse_drop_shadow_func;

// The offsets are no percentages; the deviation is not negative either. No colour is one that is left out or `currentColor`, which are to be
// drawn alike.
#[derive(Clone, Copy, Debug, PartialEq)]
pub struct Shadow {
    pub color: Option<Color>,
    pub dx: Length,
    pub dy: Length,
    pub deviation: Length,
}

// The seven plain functions' numbers are not negative, and a percentage is a part of 1. A link is never empty.
#[derive(Clone, Copy)]
pub enum FilterValue {
    Blur(Length),
    DropShadow(Shadow),
    Brightness(f64),
    Contrast(f64),
    Grayscale(f64),
    HueRotate(Angle),
    Invert(f64),
    Opacity(f64),
    Sepia(f64),
    Saturate(f64),
    Url(Part),
}

// What a list has at a place: a value, or its end. The word `none`, which ends it too, is told apart.
#[derive(Clone, Copy)]
pub enum Listed {
    Value(FilterValue),
    End,
    NoneWord,
}

#[derive(Clone, Copy)]
pub enum Plain {
    Brightness,
    Contrast,
    Grayscale,
    Invert,
    Opacity,
    Saturate,
    Sepia,
}

#[derive(Clone, Copy)]
enum FilterName {
    Blur,
    DropShadow,
    HueRotate,
    Plain(Plain),
    Url,
}

// Both offsets and the deviation.
#[derive(Clone, Copy)]
struct ShadowLengths {
    dx: Length,
    dy: Length,
    deviation: Length,
}

// One step of a filter list, from a list place.
// As `length::next` but for the reader, whose contract a function over a reader would want as a closure's.
#[tactic(auto, unfolding(crate::specs::Filters::next_filter), using(stream::proofs::Edges::placed_utf8))]
pub fn next(text: &[u8], place: Place) -> Step<Listed>
    ensures value { result ≡ next_filter text.now place.0 }
    ensures result_value { paper_step result ≡ paper_step (next_filter text.now place.0) }
{
    if let Err(refusal) = stream::admit_place(text, place) {
        return Step::refused(refusal, place);
    }
    Step::edged(text, parse_step(text, place))
}

// An empty list is a list, too.
#[tactic(auto, unfolding(crate::specs::Filters::parse_step), using(text_bytes::proofs::Wording::word_ends))]
pub fn parse_step(text: &[u8], at: Place) -> Result<Read<Listed>, Fault>
    ensures { result ≡ parse_step text.now at.0 }
{
    let start = text_bytes::skip_spaces(text, at);
    let i = start.0;
    if i >= text.len() {
        return Ok(Read {
            value: Listed::End,
            next: Place(text.len()),
        });
    }
    if text_bytes::starts_with(text, start, b"none") {
        return after_none(text, Place(i + 4));
    }
    Ok(parse_next(text, start)?.spaced(text).map(Listed::Value))
}

// What follows `none`: nothing may.
#[tactic(auto, unfolding(crate::specs::Filters::after_none))]
fn after_none(text: &[u8], at: Place) -> Result<Read<Listed>, Fault>
    ensures { result ≡ after_none text.now at.0 }
{
    let rest = text_bytes::skip_spaces(text, at);
    if rest.0 < text.len() {
        return Err(stream::invalid_value(rest));
    }
    Ok(Read {
        value: Listed::NoneWord,
        next: Place(text.len()),
    })
}

// One value, from its name to its closing bracket.
// `start` lies inside, where a byte was seen. A total form would have an answer for a case that none meets.
#[tactic(auto, unfolding(crate::specs::Filters::parse_next, crate::specs::Filters::parse_argument, crate::specs::Filters::close_bracket, text_bytes::specs::Words::part), using(text_bytes::proofs::Scans::scan_ge, text_bytes::proofs::Scans::scan_le))]
fn parse_next(text: &[u8], start: Place) -> Result<Read<FilterValue>, Fault>
    requires start_in_bounds { start.0 ≤ length text.now }
    ensures { result ≡ parse_next text.now start.0 }
{
    let end = text_bytes::consume_ascii_ident(text, start);
    let inner = stream::consume_byte(text, text_bytes::skip_spaces(text, end), b'(')?;
    let word = &text[start.0..end.0];
    let read = parse_argument(text, start, word, text_bytes::skip_spaces(text, inner))?;
    stream::close(text, read.next, b')', read.value)
}

// What stands in the brackets after `word`, the name that starts at `name`.
// No struct of `text, name, at`: `at` moves with each call, and one of the other two would save a parameter for a `self.` at each use.
fn parse_argument(
    text: &[u8],
    name: Place,
    word: &[u8],
    at: Place,
) -> Result<Read<FilterValue>, Fault>
    ensures { result ≡ argument_of (filter_name word.now) text.now name.0 at.0 }
{
    match filter_name(word) {
        Some(FilterName::Blur) => parse_blur(text, name, at),
        Some(FilterName::DropShadow) => parse_drop_shadow_func(text, name, at),
        Some(FilterName::HueRotate) => parse_hue_rotate(text, name, at),
        Some(FilterName::Plain(plain)) => parse_generic_color_func(text, name, at, plain),
        Some(FilterName::Url) => parse_url(text, name, at),
        None => Err(stream::unexpected_data(text, name)),
    }
}

#[tactic(auto, unfolding(crate::specs::Filters::filter_name))]
fn filter_name(word: &[u8]) -> Option<FilterName>
    ensures { result ≡ filter_name word.now }
{
    if text_bytes::equals(word, b"blur") {
        return Some(FilterName::Blur);
    }
    if text_bytes::equals(word, b"drop-shadow") {
        return Some(FilterName::DropShadow);
    }
    if text_bytes::equals(word, b"hue-rotate") {
        return Some(FilterName::HueRotate);
    }
    if text_bytes::equals(word, b"url") {
        return Some(FilterName::Url);
    }
    plain_name(word).map(FilterName::Plain)
}

#[tactic(auto, unfolding(crate::specs::Filters::plain_name))]
fn plain_name(word: &[u8]) -> Option<Plain>
    ensures { result ≡ plain_name word.now }
{
    if text_bytes::equals(word, b"brightness") {
        return Some(Plain::Brightness);
    }
    if text_bytes::equals(word, b"contrast") {
        return Some(Plain::Contrast);
    }
    if text_bytes::equals(word, b"grayscale") {
        return Some(Plain::Grayscale);
    }
    if text_bytes::equals(word, b"invert") {
        return Some(Plain::Invert);
    }
    if text_bytes::equals(word, b"opacity") {
        return Some(Plain::Opacity);
    }
    if text_bytes::equals(word, b"saturate") {
        return Some(Plain::Saturate);
    }
    if text_bytes::equals(word, b"sepia") {
        return Some(Plain::Sepia);
    }
    None
}

// A list of filter values, one by one: each call of `next` is one step, and a refusal is the last. `none` is a list without values.
// As `LengthListParser`: a generic one would want the reader, its contract and its measure as ghost members of a trait, which is no shorter.
#[derive(Drop)]
pub struct FilterValueListParser<'a> {
    text: &'a [u8],
    place: Place,
    ended: bool,
}

impl<'a> FilterValueListParser<'a> {
    pub fn new(text: &'a [u8]) -> FilterValueListParser<'a>
        ensures text { result.text.now ≡ text.now }
        ensures place { result.place.0 ≡ 0 }
        ensures ended { result.ended ≡ false }
    {
        FilterValueListParser {
            text,
            place: Place(0),
            ended: false,
        }
    }
}

impl<'a> Iterator for FilterValueListParser<'a> {
    type Item = Result<FilterValue, Refusal>;

    ghost next_gives = { StepsOn };

    ghost remaining = { λ s. at_most (left s) };

    #[tactic(auto, using(crate::proofs::Growing::step_grows))]
    fn next(&mut self) -> Option<Result<FilterValue, Refusal>> {
        if self.ended {
            return None;
        }
        let step = next(self.text, self.place);
        self.place = step.place;
        match step.item {
            Ok(Listed::Value(value)) => Some(Ok(value)),
            Ok(_) => {
                self.ended = true;
                None
            }
            Err(refusal) => {
                self.ended = true;
                Some(Err(refusal))
            }
        }
    }
}
