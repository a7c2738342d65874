// A length, and a step of a list of lengths.
#![tactic(auto)]

ghost use Rattle.std.specs.Prelude.{◌≡◌, ◌≤◌, length, false};
ghost use Rattle.std.specs.Iterator.{at_most};
ghost use Rattle.length.specs.Lengths.{unit_at, unit_width, parse_length, parse_list_length, parse_step, parse_whole, from_str, next_length};
ghost use Rattle.length.specs.Lists.{StepsOn, left};
ghost use Rattle.length.specs.Paper.{paper, paper_step};

use numbers::Written;
use stream::{Fault, Read, Refusal, Step};
use text_bytes::Place;

#[derive(Clone, Copy, Debug, PartialEq, Eq)]
pub enum LengthUnit {
    None,
    Em,
    Ex,
    Px,
    In,
    Cm,
    Mm,
    Pt,
    Pc,
    Percent,
}

// svgtypes' own type, as `Angle` is: one over its unit would have fields of another name.
#[derive(Clone, Copy, Debug, PartialEq)]
pub struct Length {
    pub number: f64,
    pub unit: LengthUnit,
}

// A whole text: leading spaces are allowed, trailing ones are not.
// As `angle`'s and `color`'s but for the reader: two lines, and a function over a reader would want a closure's contract.
#[tactic(auto, unfolding(crate::specs::Lengths::from_str), using(stream::proofs::Edges::admitted_utf8))]
pub fn from_str(text: &[u8]) -> Result<Written<Length>, Refusal>
    ensures value { result ≡ from_str text.now }
    ensures result_value { paper result ≡ paper (from_str text.now) }
{
    stream::admit_text(text)?;
    parse_whole(text).map_err(|e| stream::refusal_of(text, e))
}

// A length, and nothing after it.
#[tactic(auto, unfolding(crate::specs::Lengths::parse_whole))]
fn parse_whole(text: &[u8]) -> Result<Written<Length>, Fault>
    ensures { result ≡ parse_whole text.now }
{
    parse_length(text, Place(0))?.whole(text)
}

// A number, and a unit directly after it.
#[tactic(auto, unfolding(crate::specs::Lengths::parse_length), using(crate::proofs::Units::unit_ends))]
pub fn parse_length(text: &[u8], at: Place) -> Result<Read<Written<Length>>, Fault>
    ensures { result ≡ parse_length text.now at.0 }
{
    let read = numbers::parse_number(text, at)?;
    let n = read.value;
    let unit = unit_at(text, read.next);
    Ok(Read {
        value: Written {
            value: Length {
                number: n.value,
                unit,
            },
            whole: n.whole,
            end: n.end,
        },
        next: Place(read.next.0 + unit_width(unit)),
    })
}

// The unit whose word stands at a place. Units are in lower case.
#[tactic(auto, unfolding(crate::specs::Lengths::unit_at))]
fn unit_at(text: &[u8], at: Place) -> LengthUnit
    ensures { result ≡ unit_at text.now at.0 }
{
    if text_bytes::starts_with(text, at, b"%") {
        return LengthUnit::Percent;
    }
    if text_bytes::starts_with(text, at, b"em") {
        return LengthUnit::Em;
    }
    if text_bytes::starts_with(text, at, b"ex") {
        return LengthUnit::Ex;
    }
    if text_bytes::starts_with(text, at, b"px") {
        return LengthUnit::Px;
    }
    if text_bytes::starts_with(text, at, b"in") {
        return LengthUnit::In;
    }
    if text_bytes::starts_with(text, at, b"cm") {
        return LengthUnit::Cm;
    }
    if text_bytes::starts_with(text, at, b"mm") {
        return LengthUnit::Mm;
    }
    if text_bytes::starts_with(text, at, b"pt") {
        return LengthUnit::Pt;
    }
    if text_bytes::starts_with(text, at, b"pc") {
        return LengthUnit::Pc;
    }
    LengthUnit::None
}

// How many bytes a unit's word has.
#[tactic(auto, unfolding(crate::specs::Lengths::unit_width))]
pub fn unit_width(unit: LengthUnit) -> usize
    ensures { result ≡ unit_width unit }
{
    match unit {
        LengthUnit::Percent => 1,
        LengthUnit::None => 0,
        _ => 2,
    }
}

// A length of a list. The end of the text is judged before spaces are skipped.
#[tactic(auto, unfolding(crate::specs::Lengths::parse_list_length))]
pub fn parse_list_length(text: &[u8], at: Place) -> Result<Read<Written<Length>>, Fault>
    ensures { result ≡ parse_list_length text.now at.0 }
{
    stream::goes_on(text, at)?;
    Ok(numbers::item(text, parse_length(text, at)?))
}

// What a list of lengths has at a place: a length, or its end.
#[tactic(auto, unfolding(crate::specs::Lengths::parse_step))]
fn parse_step(text: &[u8], at: Place) -> Result<Read<Option<Written<Length>>>, Fault>
    ensures { result ≡ parse_step text.now at.0 }
{
    if at.0 >= text.len() {
        return Ok(Read {
            value: None,
            next: Place(text.len()),
        });
    }
    Ok(parse_list_length(text, at)?.map(Some))
}

// One step of a list of lengths, from a list place.
// As `filter_functions::next` but for the reader, whose contract a function over a reader would want as a closure's.
#[tactic(auto, unfolding(crate::specs::Lengths::next_length), using(stream::proofs::Edges::placed_utf8))]
pub fn next(text: &[u8], place: Place) -> Step<Option<Written<Length>>>
    ensures value { result ≡ next_length text.now place.0 }
    ensures result_value { paper_step result ≡ paper_step (next_length text.now place.0) }
{
    if let Err(refusal) = stream::admit_place(text, place) {
        return Step::refused(refusal, place);
    }
    Step::edged(text, parse_step(text, place))
}

// A list of lengths, one by one: each call of `next` is one step, and a refusal is the last.
// As `FilterValueListParser`: a generic one would want the reader, its contract and its measure as ghost members of a trait, which is no shorter.
#[derive(Drop)]
pub struct LengthListParser<'a> {
    text: &'a [u8],
    place: Place,
    ended: bool,
}

impl<'a> LengthListParser<'a> {
    pub fn new(text: &'a [u8]) -> LengthListParser<'a>
        ensures text { result.text.now ≡ text.now }
        ensures place { result.place.0 ≡ 0 }
        ensures ended { result.ended ≡ false }
    {
        LengthListParser {
            text,
            place: Place(0),
            ended: false,
        }
    }
}

impl<'a> Iterator for LengthListParser<'a> {
    type Item = Result<Written<Length>, Refusal>;

    ghost next_gives = { StepsOn };

    ghost remaining = { λ s. at_most (left s) };

    #[tactic(auto, using(crate::proofs::Growing::step_grows))]
    fn next(&mut self) -> Option<Result<Written<Length>, Refusal>> {
        if self.ended {
            return None;
        }
        let step = next(self.text, self.place);
        self.place = step.place;
        match step.item {
            Ok(Some(length)) => Some(Ok(length)),
            Ok(None) => {
                self.ended = true;
                None
            }
            Err(refusal) => {
                self.ended = true;
                Some(Err(refusal))
            }
        }
    }
}
