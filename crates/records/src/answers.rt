// The record of each answer but a list's step.
ghost use Rattle.std.specs.Prelude.{◌≡◌, [], None};
ghost use Rattle.stream.specs.Paper.{paper_refusal};
ghost use Rattle.paint.specs.declared.Paint.TheVariants as Paint;
ghost use Rattle.records.specs.Records.{row, color_record, length_record, angle_record, link_record, paint_row, paint_record, inherited_record};

use crate::{entries, written};
use angle::Angle;
use color::Color;
use inherit::{Chosen, WhoseRefusal};
use length::Length;
use numbers::Written;
use paint::{Paint, PaintFallback};
use stream::Refusal;
use text_bytes::{Part, Place};

pub fn refused(out: &mut [u64; 24], e: Refusal)
    ensures { out.new ≡ row (paper_refusal e) 0 0 [] }
{
    written::refused(out, e, 0, Place(0));
}

#[tactic(auto, using(crate::proofs::Wholes::color_refused, crate::proofs::Wholes::color_value))]
pub fn write_color(out: &mut [u64; 24], answer: Result<Color, Refusal>)
    ensures { out.new ≡ color_record answer }
{
    match answer {
        Err(e) => refused(out, e),
        Ok(c) => written::found(
            out,
            Place(0),
            [c.red as u64, c.green as u64, c.blue as u64, c.alpha as u64],
        ),
    }
}

#[tactic(auto, using(crate::proofs::Wholes::length_refused, crate::proofs::Wholes::length_value))]
pub fn write_length(out: &mut [u64; 24], answer: Result<Written<Length>, Refusal>)
    ensures { out.new ≡ length_record answer }
{
    match answer {
        Err(e) => refused(out, e),
        Ok(w) => {
            let bits = entries::bits_of(w.value.number);
            let unit = entries::length_unit(w.value.unit);
            written::found(
                out,
                Place(0),
                [bits, unit, u64::from(w.whole), w.end.0 as u64],
            );
        }
    }
}

#[tactic(auto, using(crate::proofs::Wholes::angle_refused, crate::proofs::Wholes::angle_value))]
pub fn write_angle(out: &mut [u64; 24], answer: Result<Written<Angle>, Refusal>)
    ensures { out.new ≡ angle_record answer }
{
    match answer {
        Err(e) => refused(out, e),
        Ok(w) => {
            let a = w.value;
            let bits = entries::bits_of(a.number);
            let unit = entries::angle_unit(a.unit);
            let degrees = entries::bits_of(a.to_degrees());
            written::found(
                out,
                Place(0),
                [bits, unit, degrees, u64::from(w.whole), w.end.0 as u64],
            );
        }
    }
}

#[tactic(auto, using(crate::proofs::Wholes::link_refused, crate::proofs::Wholes::link_value))]
pub fn write_link(out: &mut [u64; 24], answer: Result<Part, Refusal>)
    ensures { out.new ≡ link_record answer }
{
    match answer {
        Err(e) => refused(out, e),
        Ok(link) => written::found(out, Place(0), [link.start.0 as u64, link.len as u64]),
    }
}

// The fallback of a link that is written.
#[tactic(auto, using(crate::proofs::Wholes::fallback_none, crate::proofs::Wholes::fallback_current, crate::proofs::Wholes::fallback_color))]
fn fallback(out: &mut [u64; 24], link: Part, f: Option<PaintFallback>)
    requires { out.old ≡ paint_row (Paint.FuncIRI link None) }
    ensures { out.new ≡ paint_row (Paint.FuncIRI link f) }
{
    match f {
        None => {}
        Some(PaintFallback::None) => out[12] = 1,
        Some(PaintFallback::CurrentColor) => out[12] = 2,
        Some(PaintFallback::Color(c)) => {
            written::color(out, 13, c);
            out[12] = 3;
        }
    }
}

#[tactic(auto, using(crate::proofs::Wholes::paint_refused, crate::proofs::Wholes::paint_value))]
pub fn write_paint(out: &mut [u64; 24], answer: Result<Paint, Refusal>)
    ensures { out.new ≡ paint_record answer }
{
    match answer {
        Err(e) => refused(out, e),
        Ok(paint) => write_paint_value(out, paint),
    }
}

#[tactic(auto, using(crate::proofs::Wholes::paint_none, crate::proofs::Wholes::paint_inherit, crate::proofs::Wholes::paint_current, crate::proofs::Wholes::paint_context_fill, crate::proofs::Wholes::paint_context_stroke, crate::proofs::Wholes::paint_color, crate::proofs::Wholes::paint_link))]
fn write_paint_value(out: &mut [u64; 24], paint: Paint)
    ensures { out.new ≡ paint_row paint }
{
    match paint {
        Paint::None => written::found(out, Place(0), [1]),
        Paint::Inherit => written::found(out, Place(0), [2]),
        Paint::CurrentColor => written::found(out, Place(0), [3]),
        Paint::ContextFill => written::found(out, Place(0), [4]),
        Paint::ContextStroke => written::found(out, Place(0), [5]),
        Paint::Color(c) => {
            written::found(out, Place(0), [6]);
            written::color(out, 13, c);
        }
        Paint::FuncIRI(link, f) => {
            written::found(out, Place(0), [7, link.start.0 as u64, link.len as u64]);
            fallback(out, link, f);
        }
    }
}

// Whose text it is stands in a refusal's record, too.
#[tactic(auto, using(crate::proofs::Wholes::inherited_refused, crate::proofs::Wholes::inherited_higher, crate::proofs::Wholes::inherited_chosen))]
pub fn write_inherited(out: &mut [u64; 24], answer: Result<Option<Chosen>, WhoseRefusal>)
    ensures { out.new ≡ inherited_record answer }
{
    match answer {
        Err(e) => {
            refused(out, e.refusal);
            out[9] = e.whose.number() as u64;
        }
        Ok(None) => written::found(out, Place(0), [3]),
        Ok(Some(a)) => {
            let whose = a.whose.number() as u64;
            let part = a.part;
            written::found(out, Place(0), [whose, part.start.0 as u64, part.len as u64]);
        }
    }
}
