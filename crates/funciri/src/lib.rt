// Links: `#name`, and `url(#name)` with or without quotes.
#![tactic(auto)]

ghost use Rattle.std.specs.Prelude.{◌≡◌};
ghost use Rattle.funciri.specs.Link.{is_quote, has_quote, is_link, close_quote, quoted_link, plain_link, parse_iri, parse_func_iri, link_bytes};
ghost use Rattle.funciri.specs.Answers.{whole_link, iri_from_str, func_iri_from_str};
ghost use Rattle.funciri.specs.Paper.{paper};

use stream::{Fault, Read, Refusal};
use text_bytes::{Part, Place};

// As `func_iri_from_str` but for the reader: two lines, and a function over a reader would want a closure's contract.
#[tactic(auto, unfolding(crate::specs::Answers::iri_from_str), using(stream::proofs::Edges::admitted_utf8))]
pub fn iri_from_str(text: &[u8]) -> Result<Part, Refusal>
    ensures value { result ≡ iri_from_str text.now }
    ensures result_value { paper result ≡ paper (iri_from_str text.now) }
{
    stream::admit_text(text)?;
    whole_link(text, parse_iri(text, Place(0))).map_err(|e| stream::refusal_of(text, e))
}

#[tactic(auto, unfolding(crate::specs::Answers::func_iri_from_str), using(stream::proofs::Edges::admitted_utf8))]
pub fn func_iri_from_str(text: &[u8]) -> Result<Part, Refusal>
    ensures value { result ≡ func_iri_from_str text.now }
    ensures result_value { paper result ≡ paper (func_iri_from_str text.now) }
{
    stream::admit_text(text)?;
    whole_link(text, parse_func_iri(text, Place(0))).map_err(|e| stream::refusal_of(text, e))
}

// What follows a link in a whole text: spaces alone.
#[tactic(auto, unfolding(crate::specs::Answers::whole_link))]
fn whole_link(text: &[u8], read: Result<Read<Part>, Fault>) -> Result<Part, Fault>
    ensures { result ≡ whole_link text.now read }
{
    read?.spaced(text).whole(text)
}

#[tactic(auto, unfolding(crate::specs::Link::parse_iri))]
pub fn parse_iri(text: &[u8], at: Place) -> Result<Read<Part>, Fault>
    ensures { result ≡ parse_iri text.now at.0 }
{
    let at = text_bytes::skip_spaces(text, at);
    let start = stream::consume_byte(text, at, b'#')?;
    let next = text_bytes::skip_to_space(text, start);
    if next.0 <= start.0 {
        return Err(stream::invalid_value(start));
    }
    let value = Part {
        start,
        len: next.0 - start.0,
    };
    Ok(Read { value, next })
}

#[tactic(auto, unfolding(crate::specs::Link::parse_func_iri), using(crate::proofs::Quotes::quote_inside))]
pub fn parse_func_iri(text: &[u8], at: Place) -> Result<Read<Part>, Fault>
    ensures { result ≡ parse_func_iri text.now at.0 }
{
    let at = text_bytes::skip_spaces(text, at);
    let at = stream::consume_string(text, at, b"url(")?;
    let at = text_bytes::skip_spaces(text, at);
    let b = text_bytes::byte_at(text, at);
    if is_quote(b) {
        return quoted_link(text, Place(at.0 + 1), b);
    }
    plain_link(text, at)
}

// What follows the opening quote, which is the text's own byte: no part of a place.
#[tactic(auto, unfolding(crate::specs::Link::quoted_link, text_bytes::specs::Words::part), using(crate::proofs::Spans::run_end, crate::proofs::Spans::trim_taken))]
fn quoted_link(text: &[u8], at: Place, quote: u8) -> Result<Read<Part>, Fault>
    ensures { result ≡ quoted_link text.now at.0 quote }
{
    let at = text_bytes::skip_spaces(text, at);
    let start = stream::consume_byte(text, at, b'#')?;
    let end = text_bytes::skip_to_quote(text, start, quote);
    let run = &text[start.0..end.0];
    let len = utf8::trim_end(run).0;
    if !is_link(&run[..len]) {
        return Err(stream::invalid_value(end));
    }
    close_quote(text, end, quote, Part { start, len })
}

// What follows `url(` where no quote does.
#[tactic(auto, unfolding(crate::specs::Link::plain_link, crate::specs::Link::close_link, text_bytes::specs::Words::part), using(crate::proofs::Spans::run_end))]
fn plain_link(text: &[u8], at: Place) -> Result<Read<Part>, Fault>
    ensures { result ≡ plain_link text.now at.0 }
{
    let start = stream::consume_byte(text, at, b'#')?;
    let end = text_bytes::skip_to_space_or_bracket(text, start);
    if !is_link(&text[start.0..end.0]) {
        return Err(stream::invalid_value(end));
    }
    let link = Part {
        start,
        len: end.0 - start.0,
    };
    stream::close(text, end, b')', link)
}

fn is_quote(b: u8) -> bool
    ensures { result ≡ is_quote b }
{
    matches!(b, b'\'' | b'"')
}

fn contains_quote(link: &[u8]) -> bool
    ensures { result ≡ has_quote link.now }
{
    link.contains(&b'\'') || link.contains(&b'"')
}

// Neither empty nor with a quote in it: a quote that is not one of a pair is an error.
#[tactic(auto, unfolding(crate::specs::Link::is_link))]
fn is_link(link: &[u8]) -> bool
    ensures { result ≡ is_link link.now }
{
    !link.is_empty() && !contains_quote(link)
}

// The closing quote, and the closing bracket.
#[tactic(auto, unfolding(crate::specs::Link::close_quote, crate::specs::Link::close_link))]
fn close_quote(text: &[u8], at: Place, quote: u8, link: Part) -> Result<Read<Part>, Fault>
    ensures { result ≡ close_quote text.now at.0 quote link }
{
    let quoted = stream::close(text, at, quote, link)?;
    stream::close(text, quoted.next, b')', link)
}

// The bytes of a link, none where it does not lie inside the text: an empty slice, as docs/PROMISES.md has it.
#[tactic(auto, unfolding(crate::specs::Link::link_bytes, text_bytes::specs::Words::part_bytes))]
pub fn link(text: &[u8], part: Part) -> &[u8]
    ensures { result.now ≡ link_bytes text.now part }
{
    text_bytes::part_of(text, part)
}
