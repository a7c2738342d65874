// An angle as a whole text, sooner: its number goes by no refusal.
#![tactic(auto)]

ghost use Rattle.std.specs.Prelude.{◌≡◌};
ghost use Rattle.std.specs.Result.{result_ok};
ghost use Rattle.angle.specs.Angles.{parse_whole, from_str};
ghost use Rattle.fast_angle.specs.Units.{last_unit, angled};

use angle::{Angle, AngleUnit};
use numbers::{Number, Written};
use stream::{LIMIT, Reason, Refusal};
use text_bytes::Place;

// The bytes of an angle are ASCII: one that fills the text is told before the text is tested for UTF-8.
#[tactic(auto, using(crate::proofs::Told::long, crate::proofs::Told::filled))]
pub fn from_str(text: &[u8]) -> Result<Written<Angle>, Refusal>
    ensures { result ≡ from_str text.now }
{
    if LIMIT < text.len() {
        return Err(stream::bare_refusal(Reason::TextTooLong));
    }
    match whole(text) {
        Some(angle) => Ok(angle),
        None => angle::from_str(text),
    }
}

// An angle, and nothing after it.
#[tactic(auto, using(crate::proofs::Told::none_told, crate::proofs::Told::angle_told))]
fn whole(text: &[u8]) -> Option<Written<Angle>>
    ensures { result ≡ result_ok (parse_whole text.now) }
{
    angled(text, fast_numbers::number(text, Place(0))?)
}

// A number as an angle in the unit that ends the text.
#[tactic(auto, unfolding(crate::specs::Units::angled))]
fn angled(text: &[u8], n: Number) -> Option<Written<Angle>>
    ensures { result ≡ angled text.now n }
{
    let unit = last_unit(text, n.end)?;
    let number = n.value;
    Some(Written {
        value: Angle { number, unit },
        whole: n.whole,
        end: n.end,
    })
}

// The unit that ends the text: where it has ended no word is looked for.
#[tactic(auto, unfolding(crate::specs::Units::last_unit))]
fn last_unit(text: &[u8], at: Place) -> Option<AngleUnit>
    ensures { result ≡ last_unit text.now at.0 }
{
    if at.0 == text.len() {
        return Some(AngleUnit::Degrees);
    }
    let read = angle::parse_unit(text, at)?;
    if read.next.0 < text.len() {
        return None;
    }
    Some(read.value)
}
