// A value as one number, which C takes in a register. A text has at most 4,096 bytes, so that a link's start and length take 13 bits each.
#![tactic(auto)]

ghost use Rattle.std.specs.Prelude.{◌≡◌, ◌*◌, ◌<◌};
ghost use Rattle.paint.specs.Moves.{link_start};
ghost use Rattle.paint.specs.declared.Paint.TheVariants as Paint;
ghost use Rattle.packed.specs.Links.{link_len};
ghost use Rattle.packed.specs.Numbers.{no_color, no_paint, places, color_number, number_color, fallback_number, paint_number, decoded_fallback, decoded_link, decoded_paint, refusal_number};

use color::Color;
use paint::{Paint, PaintFallback};
use stream::Refusal;
use text_bytes::{Part, Place};

// No colour's number: the first number after them.
pub const NO_COLOR: u64 = 0x1_0000_0000;

// No paint's number: the first number after them.
pub const NO_PAINT: u64 = 0x8000_0000_0000_0000;

// Where the bits of a number's parts begin, above the three of its kind.
pub const START: u64 = 0x8;

pub const LEN: u64 = 0x1_0000;

pub const FALLBACK: u64 = 0x2000_0000;

pub const COLOR: u64 = 0x8000_0000;

// How many starts and lengths there are.
pub const PLACES: u64 = 0x2000;

// No `From`, here and below: a colour, a paint, a refusal and u64 are other crates' types.
#[tactic(auto, using(crate::proofs::Four::bytes_number))]
pub fn color_number(c: Color) -> u64
    ensures value { result ≡ color_number c }
    ensures upper_bound { result < no_color }
{
    u64::from(u32::from_le_bytes([c.red, c.green, c.blue, c.alpha]))
}

// The number of a paint in a number's colour.
#[tactic(auto, using(crate::proofs::Decoding::painted_is))]
pub fn painted(v: u64) -> u64
    requires { v < no_color }
    ensures { result ≡ paint_number (Paint.Color (number_color v)) }
{
    6 + v * COLOR
}

#[tactic(auto, unfolding(crate::specs::Numbers::number_color))]
pub fn number_color(v: u64) -> Color
    ensures { result ≡ number_color v }
{
    let [red, green, blue, alpha, ..] = v.to_le_bytes();
    Color {
        red,
        green,
        blue,
        alpha,
    }
}

#[tactic(auto, unfolding(crate::specs::Numbers::fallback_number))]
fn fallback_number(fallback: Option<PaintFallback>) -> u64
    ensures value { result ≡ fallback_number fallback }
    ensures upper_bound { result < no_paint }
{
    match fallback {
        None => 0,
        Some(PaintFallback::None) => FALLBACK,
        Some(PaintFallback::CurrentColor) => 2 * FALLBACK,
        Some(PaintFallback::Color(color)) => 3 * FALLBACK + color_number(color) * COLOR,
    }
}

#[tactic(auto, unfolding(crate::specs::Numbers::paint_number, paint::specs::Moves::link_start, crate::specs::Links::link_len))]
pub fn paint_number(paint: Paint) -> u64
    requires paint_bound { link_start paint < places }
    requires paint_bound_2 { link_len paint < places }
    ensures { result ≡ paint_number paint }
{
    match paint {
        Paint::None => 1,
        Paint::Inherit => 2,
        Paint::CurrentColor => 3,
        Paint::ContextFill => 4,
        Paint::ContextStroke => 5,
        Paint::Color(color) => 6 + color_number(color) * COLOR,
        Paint::FuncIRI(link, fallback) => {
            let start = link.start;
            7 + ((start.0 as u64) * START + ((link.len as u64) * LEN + fallback_number(fallback)))
        }
    }
}

fn number_link(v: u64) -> Part
    ensures { result ≡ decoded_link v }
{
    Part {
        start: Place((v / START % PLACES) as usize),
        len: (v / LEN % PLACES) as usize,
    }
}

#[tactic(auto, unfolding(crate::specs::Numbers::decoded_fallback))]
fn number_fallback(v: u64) -> Option<PaintFallback>
    ensures { result ≡ decoded_fallback v }
{
    match v / FALLBACK % 4 {
        0 => None,
        1 => Some(PaintFallback::None),
        2 => Some(PaintFallback::CurrentColor),
        _ => Some(PaintFallback::Color(number_color(v / COLOR))),
    }
}

#[tactic(auto, unfolding(crate::specs::Numbers::decoded_paint))]
pub fn number_paint(v: u64) -> Paint
    ensures { result ≡ decoded_paint v }
{
    match v % START {
        1 => Paint::None,
        2 => Paint::Inherit,
        3 => Paint::CurrentColor,
        4 => Paint::ContextFill,
        5 => Paint::ContextStroke,
        6 => Paint::Color(number_color(v / COLOR)),
        _ => Paint::FuncIRI(number_link(v), number_fallback(v)),
    }
}

// A refusal, told in the place of a colour or a paint: its own number, and where its stretch starts.
#[tactic(auto, unfolding(crate::specs::Numbers::stretch_start), using(crate::proofs::Decoding::number_small))]
pub fn refusal_number(e: Refusal) -> u64
    requires from_lt_places { e.from.0 < places }
    ensures value { result ≡ refusal_number e }
    ensures upper_bound { result < 32 * places }
{
    let number = e.reason.number();
    if number <= 3 {
        return (number as u64) * PLACES;
    }
    (number as u64) * PLACES + e.from.0 as u64
}
