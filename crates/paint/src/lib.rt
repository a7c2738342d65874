// Paint: a keyword, a colour, or a link with an optional fallback.
#![tactic(auto)]

ghost use Rattle.std.specs.Prelude.{◌≡◌, ◌≤◌, Ok};
ghost use Rattle.utf8.specs.Blanks.{trim_part, trim_of};
ghost use Rattle.utf8.specs.Characters.{utf8_of};
ghost use Rattle.paint.specs.Moves.{link_start, move_paint};
ghost use Rattle.paint.specs.Reading.{at_start, plain_fault, parse_fallback, parse_linked, parse_plain, parse_paint};
ghost use Rattle.paint.specs.Answers.{parse_trimmed, from_str};
ghost use Rattle.paint.specs.Paper.{paper};

use color::Color;
use stream::{Fault, Refusal};
use text_bytes::{Part, Place};

// What is painted where a link leads nowhere.
#[derive(Clone, Copy)]
pub enum PaintFallback {
    None,
    CurrentColor,
    Color(Color),
}

#[derive(Clone, Copy)]
pub enum Paint {
    None,
    Inherit,
    CurrentColor,
    ContextFill,
    ContextStroke,
    Color(Color),
    FuncIRI(Part, Option<PaintFallback>),
}

// A fault whose places count from `base`, a place of the trimmed text.
#[derive(Clone, Copy)]
pub struct PaintFault {
    pub fault: Fault,
    pub base: Place,
}

// A paint as a whole text.
#[tactic(auto, unfolding(crate::specs::Answers::from_str, utf8::specs::Blanks::trim_part), using(stream::proofs::Edges::admitted_small, stream::proofs::Edges::admitted_utf8, crate::proofs::Trims::trim_fits, crate::proofs::Trims::link_near))]
pub fn from_str(text: &[u8]) -> Result<Paint, Refusal>
    ensures value { result ≡ from_str text.now }
    ensures result_value { paper result ≡ paper (from_str text.now) }
{
    stream::admit_text(text)?;
    let part = utf8::trim(text);
    let paint = parse_trimmed(text, part)?;
    Ok(move_paint(paint, part.start))
}

// What an admitted text reads as; `part` is what trimming leaves of it, and a link's place counts from there.
#[tactic(auto, unfolding(crate::specs::Answers::parse_trimmed), using(crate::proofs::Trims::trim_bytes, crate::proofs::Trims::trimmed_utf8, crate::proofs::Trims::base_holds, crate::proofs::Trims::base_utf8, text_bytes::proofs::Parts::rest_part))]
pub fn parse_trimmed(text: &[u8], part: Part) -> Result<Paint, Refusal>
    requires text_utf8 { utf8_of text.now ≡ Ok tt }
    requires part_value { part ≡ trim_part text.now }
    ensures { result ≡ parse_trimmed (trim_of text.now) }
{
    let trimmed = text_bytes::part_of(text, part);
    match parse_paint(trimmed) {
        Ok(paint) => Ok(paint),
        Err(e) => Err(stream::refusal_of(&trimmed[e.base.0..], e.fault)),
    }
}

// A paint as a trimmed text.
#[tactic(auto, unfolding(crate::specs::Reading::parse_paint))]
pub fn parse_paint(text: &[u8]) -> Result<Paint, PaintFault>
    ensures { result ≡ parse_paint text.now }
{
    if text_bytes::equals(text, b"none") {
        return Ok(Paint::None);
    }
    if text_bytes::equals(text, b"inherit") {
        return Ok(Paint::Inherit);
    }
    if text_bytes::equals(text, b"currentColor") {
        return Ok(Paint::CurrentColor);
    }
    if text_bytes::equals(text, b"context-fill") {
        return Ok(Paint::ContextFill);
    }
    if text_bytes::equals(text, b"context-stroke") {
        return Ok(Paint::ContextStroke);
    }
    if text_bytes::begins(text, b"url(") {
        return parse_linked(text);
    }
    parse_plain(text)
}

// A text that begins with `url(`.
#[tactic(auto, unfolding(crate::specs::Reading::parse_linked))]
fn parse_linked(text: &[u8]) -> Result<Paint, PaintFault>
    ensures { result ≡ parse_linked text.now }
{
    let link = funciri::parse_func_iri(text, Place(0)).map_err(|fault| at_start(
        stream::invalid_value(fault.at),
    ))?;
    let base = text_bytes::skip_spaces(text, link.next);
    if base.0 >= text.len() {
        return Ok(Paint::FuncIRI(link.value, None));
    }
    let fallback = parse_fallback(&text[base.0..]).map_err(|fault| PaintFault { fault, base })?;
    Ok(Paint::FuncIRI(link.value, Some(fallback)))
}

#[tactic(auto, unfolding(crate::specs::Reading::parse_fallback))]
fn parse_fallback(text: &[u8]) -> Result<PaintFallback, Fault>
    ensures { result ≡ parse_fallback text.now }
{
    if text_bytes::equals(text, b"none") {
        return Ok(PaintFallback::None);
    }
    if text_bytes::equals(text, b"currentColor") {
        return Ok(PaintFallback::CurrentColor);
    }
    let color = color::parse_color_text(text)?;
    Ok(PaintFallback::Color(color.value))
}

// A colour without a link.
#[tactic(auto, unfolding(crate::specs::Reading::parse_plain))]
fn parse_plain(text: &[u8]) -> Result<Paint, PaintFault>
    ensures { result ≡ parse_plain text.now }
{
    let color = color::parse_color_text(text).map_err(|fault| at_start(plain_fault(fault)))?;
    Ok(Paint::Color(color.value))
}

// A plain colour's fault: a number outside the domain is the one that is told.
#[tactic(auto, unfolding(crate::specs::Reading::plain_fault))]
fn plain_fault(fault: Fault) -> Fault
    ensures { result ≡ plain_fault fault }
{
    if stream::is_outside_domain(fault) {
        return fault;
    }
    stream::invalid_value(fault.at)
}

fn at_start(fault: Fault) -> PaintFault
    ensures { result ≡ at_start fault }
{
    PaintFault {
        fault,
        base: Place(0),
    }
}

// A paint of a text of which `by` bytes were trimmed at the front.
#[tactic(auto, unfolding(crate::specs::Moves::move_paint, crate::specs::Moves::link_start))]
fn move_paint(paint: Paint, by: Place) -> Paint
    requires by_bound { by.0 ≤ 4096 }
    requires paint_bound { link_start paint ≤ 4096 }
    ensures { result ≡ move_paint by.0 paint }
{
    match paint {
        Paint::FuncIRI(link, fallback) => {
            let start = Place(by.0 + link.start.0);
            Paint::FuncIRI(Part { start, ..link }, fallback)
        }
        _ => paint,
    }
}
