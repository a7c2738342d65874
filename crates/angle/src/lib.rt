// An angle, and its degrees.
#![tactic(auto)]

ghost use Rattle.std.specs.Prelude.{◌≡◌, ◌≤◌};
ghost use Rattle.angle.specs.Angles.{to_degrees, parse_unit, parse_angle, parse_whole, from_str};
ghost use Rattle.angle.specs.Paper.{paper};

use numbers::Written;
use stream::{Fault, Read, Refusal};
use text_bytes::Place;

#[derive(Clone, Copy, Debug, PartialEq, Eq)]
pub enum AngleUnit {
    Degrees,
    Gradians,
    Radians,
    Turns,
}

#[derive(Clone, Copy, Debug, PartialEq)]
pub struct Angle {
    pub number: f64,
    pub unit: AngleUnit,
}

impl Angle {
    pub fn to_degrees(self) -> f64
        ensures { result ≡ to_degrees self }
    {
        match self.unit {
            AngleUnit::Degrees => self.number,
            AngleUnit::Gradians => self.number * 180.0 / 200.0,
            AngleUnit::Radians => self.number * 57.29577951308232,
            AngleUnit::Turns => self.number * 360.0,
        }
    }
}

// A whole text: leading spaces are allowed, trailing ones are not.
// As `length`'s and `color`'s but for the reader: two lines, and a function over a reader would want a closure's contract.
#[tactic(auto, unfolding(crate::specs::Angles::from_str), using(stream::proofs::Edges::admitted_utf8))]
pub fn from_str(text: &[u8]) -> Result<Written<Angle>, Refusal>
    ensures value { result ≡ from_str text.now }
    ensures result_value { paper result ≡ paper (from_str text.now) }
{
    stream::admit_text(text)?;
    parse_whole(text).map_err(|e| stream::refusal_of(text, e))
}

// An angle, and nothing after it.
#[tactic(auto, unfolding(crate::specs::Angles::parse_whole))]
fn parse_whole(text: &[u8]) -> Result<Written<Angle>, Fault>
    ensures { result ≡ parse_whole text.now }
{
    parse_angle(text, Place(0))?.whole(text)
}

// A number, and a unit directly after it, or degrees.
#[tactic(auto, unfolding(crate::specs::Angles::parse_angle))]
pub fn parse_angle(text: &[u8], at: Place) -> Result<Read<Written<Angle>>, Fault>
    ensures { result ≡ parse_angle text.now at.0 }
{
    let read = numbers::parse_number(text, at)?;
    let n = read.value;
    let unit = parse_unit(text, read.next).unwrap_or(Read {
        value: AngleUnit::Degrees,
        next: read.next,
    });
    Ok(Read {
        value: Written {
            value: Angle {
                number: n.value,
                unit: unit.value,
            },
            whole: n.whole,
            end: n.end,
        },
        next: unit.next,
    })
}

// The unit whose word stands at a place. Units are in lower case. An angle takes a missing one as degrees; a filter wants one.
#[tactic(auto, unfolding(crate::specs::Angles::parse_unit), using(text_bytes::proofs::Wording::word_ends))]
pub fn parse_unit(text: &[u8], at: Place) -> Option<Read<AngleUnit>>
    ensures { result ≡ parse_unit text.now at.0 }
{
    let (value, width) = if text_bytes::starts_with(text, at, b"deg") {
        (AngleUnit::Degrees, 3)
    } else if text_bytes::starts_with(text, at, b"grad") {
        (AngleUnit::Gradians, 4)
    } else if text_bytes::starts_with(text, at, b"rad") {
        (AngleUnit::Radians, 3)
    } else if text_bytes::starts_with(text, at, b"turn") {
        (AngleUnit::Turns, 4)
    } else {
        return None;
    };
    let next = Place(at.0 + width);
    Some(Read { value, next })
}
