// The strict reading of a colour: CSS Color 3 as it is written, for new artwork.
#![tactic(auto)]

ghost use Rattle.std.specs.Prelude.{◌≡◌, ◌≤◌, length, get_or};
ghost use Rattle.text_bytes.specs.Words.{lower_of};
ghost use Rattle.color.specs.Paper.{paper};
ghost use Rattle.strict.specs.Answer.{furthest, shapes, marked, marked_at, is_shaped, strict_of, strict_from_str};

use color::Color;
use stream::{Reason, Refusal};
use text_bytes::Place;

mod lines;

pub use lines::{asked, is_enough};

// The eight shapes, by the codes of `shapes`: of three and six digits, of rgb() and rgba(), twice each, and of hsl() and hsla().
const SHAPES: [&[u8]; 8] = [
    b"\x01#\x02\x02\x02\x01",
    b"\x01#\x02\x02\x02\x02\x02\x02\x01",
    b"\x01rgb(\x01\x03\x01,\x01\x03\x01,\x01\x03\x01)\x01",
    b"\x01rgb(\x01\x04%\x01,\x01\x04%\x01,\x01\x04%\x01)\x01",
    b"\x01rgba(\x01\x03\x01,\x01\x03\x01,\x01\x03\x01,\x01\x04\x01)\x01",
    b"\x01rgba(\x01\x04%\x01,\x01\x04%\x01,\x01\x04%\x01,\x01\x04\x01)\x01",
    b"\x01hsl(\x01\x04\x01,\x01\x04%\x01,\x01\x04%\x01)\x01",
    b"\x01hsla(\x01\x04\x01,\x01\x04%\x01,\x01\x04%\x01,\x01\x04\x01)\x01",
];

// Whether a shape walks a text to its end, or else how far the furthest goes.
#[tactic(auto, unfolding(crate::specs::Answer::furthest, shapes::specs::Walk::atom_of))]
fn furthest_of(text: &[u8]) -> Result<(), Place>
    ensures { result ≡ furthest shapes text.now 0 }
{
    let mut far = Place(0);
    for shape in SHAPES {
        match shapes::walk(shape, text) {
            Ok(()) => return Ok(()),
            Err(at) => far = Place(far.0.max(at.0)),
        }
    }
    Err(far)
}

#[tactic(auto, unfolding(crate::specs::Answer::marked))]
fn is_marked(a: u8, b: u8, c: u8) -> bool
    ensures { result ≡ marked a b c }
{
    matches!(
        (a, b, c),
        (b'#', _, _) | (b'r', b'g', b'b') | (b'h', b's', b'l')
    )
}

fn low_at(text: &[u8], at: Place) -> u8
    ensures { result ≡ lower_of (get_or text.now at.0 0) }
{
    text_bytes::to_ascii_lowercase(text_bytes::byte_at(text, at))
}

// `at` lies inside, so that the places after it are usizes.
#[tactic(auto, unfolding(crate::specs::Answer::marked_at))]
fn marked_at(text: &[u8], at: Place) -> bool
    requires { at.0 ≤ length text.now }
    ensures { result ≡ marked_at text.now at.0 }
{
    let i = at.0;
    is_marked(
        low_at(text, at),
        low_at(text, Place(i + 1)),
        low_at(text, Place(i + 2)),
    )
}

// A hex colour or a function: what the loose reading accepts besides is a keyword.
#[tactic(auto, unfolding(crate::specs::Answer::is_shaped), using(text_bytes::proofs::Scans::scan_le))]
fn is_shaped(text: &[u8]) -> bool
    ensures { result ≡ is_shaped text.now }
{
    marked_at(text, text_bytes::skip_spaces(text, Place(0)))
}

#[tactic(auto, unfolding(crate::specs::Answer::strict_of))]
fn strict_of(text: &[u8]) -> Result<(), Place>
    ensures { result ≡ strict_of text.now }
{
    if is_shaped(text) {
        return furthest_of(text);
    }
    Ok(())
}

// A strict colour as a whole text: what `color::from_str` refuses is refused as there.
#[tactic(auto, unfolding(crate::specs::Answer::strict_from_str), using(crate::proofs::Answers::value_utf8))]
pub fn from_str(text: &[u8]) -> Result<Color, Refusal>
    ensures value { result ≡ strict_from_str text.now }
    ensures result_value { paper result ≡ paper (strict_from_str text.now) }
{
    let color = color::from_str(text)?;
    strict_of(text).map_err(|far| stream::refusal_at(text, Reason::NotStrict, far))?;
    Ok(color)
}
