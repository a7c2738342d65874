// Which reading is asked for: the strict one, unless a first line says otherwise.
ghost use Rattle.std.specs.Prelude.{◌≡◌, ◌≤◌, true, length};
ghost use Rattle.text_bytes.specs.Bytes.{is_other};
ghost use Rattle.text_bytes.specs.Scan.{scan};
ghost use Rattle.color.specs.Paper.{paper};
ghost use Rattle.strict.specs.Asked.{first_line, after_feed, next_line, asked_of, is_settled, is_choice, is_enough, Settled, OtherWord};

use crate::from_str;
use color::Color;
use stream::{LIMIT, Refusal};
use text_bytes::Place;

// Where the first line ends.
fn line_end(input: &[u8]) -> Place
    ensures { result.0 ≡ scan (is_other 10) input.now 0 }
{
    text_bytes::skip_to_quote(input, Place(0), b'\n')
}

#[tactic(auto, using(crate::proofs::Feeds::lined))]
fn first_line(input: &[u8]) -> &[u8]
    ensures { result.now ≡ first_line input.now }
{
    &input[..line_end(input).0]
}

#[tactic(auto, using(crate::proofs::Feeds::lined))]
fn after_feed(input: &[u8]) -> &[u8]
    ensures { result.now ≡ after_feed input.now }
{
    let end = line_end(input).0;
    if end < input.len() {
        return &input[end + 1..];
    }
    &input[..0]
}

#[tactic(auto, unfolding(crate::specs::Asked::next_line))]
fn next_line(input: &[u8]) -> &[u8]
    ensures { result.now ≡ next_line input.now }
{
    first_line(after_feed(input))
}

// A colour by the reading that the first line asks for.
#[tactic(auto, unfolding(crate::specs::Asked::asked_of), using(crate::proofs::Asking::other_word))]
pub fn asked(input: &[u8]) -> Result<Color, Refusal>
    ensures value { result ≡ asked_of input.now }
    ensures result_value { paper result ≡ paper (asked_of input.now) }
    ensures other_word { OtherWord input.now }
{
    let first = first_line(input);
    if text_bytes::equals(first, b"read=loose") {
        return color::from_str(next_line(input));
    }
    if text_bytes::equals(first, b"read=strict") {
        return from_str(next_line(input));
    }
    from_str(first)
}

#[tactic(auto, unfolding(crate::specs::Asked::is_choice))]
fn is_choice(line: &[u8]) -> bool
    ensures { result ≡ is_choice line.now }
{
    text_bytes::equals(line, b"read=loose") || text_bytes::equals(line, b"read=strict")
}

// Whether a first line is known: it has ended, or is refused however it goes on.
fn is_settled(input: &[u8]) -> bool
    ensures { result ≡ is_settled input.now }
{
    input.contains(&b'\n') || LIMIT < input.len()
}

// Whether the answer is known, whatever follows.
#[tactic(auto, unfolding(crate::specs::Asked::is_enough), using(crate::proofs::Asking::enough, crate::proofs::Asking::full_next, crate::proofs::Asking::full_first))]
pub fn is_enough(input: &[u8]) -> bool
    ensures value { result ≡ is_enough input.now }
    ensures settled { result ≡ true → Settled input.now }
    ensures full { 4109 ≤ length input.now → result ≡ true }
{
    if is_choice(first_line(input)) {
        return is_settled(after_feed(input));
    }
    is_settled(input)
}
