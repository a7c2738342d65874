// The lent text as bytes: places and parts, classes of bytes, scans and words.
#![tactic(auto)]

ghost use Rattle.std.specs.Prelude.{◌≡◌, drop, get_or, ℕ, Bool};
ghost use Rattle.text_bytes.specs.Bytes.{is_sign, is_digit, within, is_hex_digit, is_space, is_ascii_ident, is_tail, is_link_byte, is_url_byte, is_other};
ghost use Rattle.text_bytes.specs.Scan.{scan};
ghost use Rattle.text_bytes.specs.Words.{starts_with, is_curr_byte_eq, part_bytes, same, lower_of, lowered};

// A byte offset, from 0. It stands beside the text that it is in, and not in one struct with it: a reader is a function of both,
// and such a struct would be taken apart and built anew at each step.
#[derive(Clone, Copy, Debug, PartialEq, Eq)]
pub struct Place(pub usize);

// A part of a lent text. No slice: C is told a start and a length, and what is moved behind another text is a number.
#[derive(Clone, Copy, Debug, PartialEq, Eq)]
pub struct Part {
    pub start: Place,
    pub len: usize,
}

pub fn is_sign(b: u8) -> bool
    ensures { result ≡ is_sign b }
{
    matches!(b, b'+' | b'-')
}

#[tactic(auto, unfolding(crate::specs::Bytes::within))]
pub fn is_digit(b: u8) -> bool
    ensures { result ≡ is_digit b }
{
    matches!(b, b'0'..=b'9')
}

#[tactic(auto, unfolding(crate::specs::Bytes::within))]
pub fn in_range(b: u8, lo: u8, hi: u8) -> bool
    ensures { result ≡ within lo hi b }
{
    (lo..=hi).contains(&b)
}

#[tactic(auto, unfolding(crate::specs::Bytes::within))]
pub fn is_hex_digit(b: u8) -> bool
    ensures { result ≡ is_hex_digit b }
{
    matches!(b, b'0'..=b'9' | b'a'..=b'f' | b'A'..=b'F')
}

// By `||`, which LLVM makes one test of; of `matches!` it makes three, which each skip of spaces would take.
pub fn is_space(b: u8) -> bool
    ensures { result ≡ is_space b }
{
    b == b' ' || b == b'\t' || b == b'\n' || b == b'\r'
}

// A byte of a word. Small letters, which most of them are, are seen first: one `matches!` of all is compiled in an order of its own.
#[tactic(auto, unfolding(crate::specs::Bytes::within))]
pub fn is_ascii_ident(b: u8) -> bool
    ensures { result ≡ is_ascii_ident b }
{
    b.is_ascii_lowercase() || matches!(b, b'0'..=b'9' | b'A'..=b'Z' | b'-' | b'_')
}

// A byte that continues a character.
#[tactic(auto, unfolding(crate::specs::Bytes::within))]
pub fn is_tail(b: u8) -> bool
    ensures { result ≡ is_tail b }
{
    matches!(b, 0x80..=0xbf)
}

// The bytes of a part, none where it does not lie inside the text: an empty slice, as `funciri::link` promises it.
#[tactic(auto, unfolding(crate::specs::Words::part_bytes))]
pub fn part_of(text: &[u8], part: Part) -> &[u8]
    ensures { result.now ≡ part_bytes text.now part }
{
    rest(text, part.start).get(..part.len).unwrap_or(&text[..0])
}

// The bytes from a place on, none past the end.
#[tactic(auto, using(crate::proofs::Parts::rest_past, crate::proofs::Parts::rest_part))]
pub fn rest(text: &[u8], at: Place) -> &[u8]
    ensures { result.now ≡ drop at.0 text.now }
{
    text.get(at.0..).unwrap_or(&text[..0])
}

// The byte at a place, 0 past the end: no class that is asked for has the 0. So docs/PROMISES.md has it.
pub fn byte_at(text: &[u8], at: Place) -> u8
    ensures { result ≡ get_or text.now at.0 0 }
{
    text.get(at.0).copied().unwrap_or(0)
}

// Whether a byte stands at a place and is `c`.
#[tactic(auto, unfolding(crate::specs::Words::is_curr_byte_eq))]
pub fn is_curr_byte_eq(text: &[u8], at: Place, c: u8) -> bool
    ensures { result ≡ is_curr_byte_eq text.now at.0 c }
{
    text.get(at.0) == Some(&c)
}

// A class of bytes, for a scan.
pub trait ByteClass {
    ghost class: { Self → ℕ → Bool };

    fn contains(&self, b: u8) -> bool
        ensures { result ≡ class self.now b };
}

#[derive(Clone, Copy)]
pub struct Space;

impl ByteClass for Space {
    ghost class = { λ _. is_space };

    fn contains(&self, b: u8) -> bool {
        is_space(b)
    }
}

#[derive(Clone, Copy)]
pub struct Digit;

impl ByteClass for Digit {
    ghost class = { λ _. is_digit };

    fn contains(&self, b: u8) -> bool {
        is_digit(b)
    }
}

#[derive(Clone, Copy)]
pub struct HexDigit;

impl ByteClass for HexDigit {
    ghost class = { λ _. is_hex_digit };

    fn contains(&self, b: u8) -> bool {
        is_hex_digit(b)
    }
}

// A byte of a word.
#[derive(Clone, Copy)]
pub struct Ident;

impl ByteClass for Ident {
    ghost class = { λ _. is_ascii_ident };

    fn contains(&self, b: u8) -> bool {
        is_ascii_ident(b)
    }
}

// A byte of the link that `#` begins.
#[derive(Clone, Copy)]
pub struct LinkByte;

impl ByteClass for LinkByte {
    ghost class = { λ _. is_link_byte };

    fn contains(&self, b: u8) -> bool {
        b != b' '
    }
}

// A byte of an unquoted link in `url(`.
#[derive(Clone, Copy)]
pub struct UrlByte;

impl ByteClass for UrlByte {
    ghost class = { λ _. is_url_byte };

    fn contains(&self, b: u8) -> bool {
        !matches!(b, b' ' | b')')
    }
}

// Any byte but one: of a quoted link, any but its quote.
#[derive(Clone, Copy)]
pub struct Other(pub u8);

impl ByteClass for Other {
    ghost class = { λ c. is_other c.0 };

    fn contains(&self, b: u8) -> bool {
        b != self.0
    }
}

// The first place at or after `at` whose byte is not of the class, or the end.
// A loop: `take_while(..).count()` was proved too, but took half as long again on words, and each bar of speed is over these scans.
#[tactic(auto, using(crate::proofs::Scans::scan_on, crate::proofs::Scans::scan_off, crate::proofs::Scans::scan_past))]
pub fn scan<C: ByteClass>(text: &[u8], at: Place, class: &C) -> Place
    ensures { result.0 ≡ scan (C.class class.now) text.now at.0 }
{
    let mut i = at.0;
    while i < text.len() && class.contains(text[i]) {
        i += 1;
    }
    Place(i)
}

pub fn skip_spaces(text: &[u8], at: Place) -> Place
    ensures { result.0 ≡ scan is_space text.now at.0 }
{
    scan(text, at, &Space)
}

// The end of the word that starts at `at`.
pub fn consume_ascii_ident(text: &[u8], at: Place) -> Place
    ensures { result.0 ≡ scan is_ascii_ident text.now at.0 }
{
    scan(text, at, &Ident)
}

pub fn skip_digits(text: &[u8], at: Place) -> Place
    ensures { result.0 ≡ scan is_digit text.now at.0 }
{
    scan(text, at, &Digit)
}

pub fn skip_hex_digits(text: &[u8], at: Place) -> Place
    ensures { result.0 ≡ scan is_hex_digit text.now at.0 }
{
    scan(text, at, &HexDigit)
}

// The first space at or after `at`, or the end.
pub fn skip_to_space(text: &[u8], at: Place) -> Place
    ensures { result.0 ≡ scan is_link_byte text.now at.0 }
{
    scan(text, at, &LinkByte)
}

// The first space or `)` at or after `at`, or the end.
pub fn skip_to_space_or_bracket(text: &[u8], at: Place) -> Place
    ensures { result.0 ≡ scan is_url_byte text.now at.0 }
{
    scan(text, at, &UrlByte)
}

// The first `quote` at or after `at`, or the end.
pub fn skip_to_quote(text: &[u8], at: Place, quote: u8) -> Place
    ensures { result.0 ≡ scan (is_other quote) text.now at.0 }
{
    scan(text, at, &Other(quote))
}

// Whether `text` begins with `word`: two operands, here and below, and no pair that goes on together.
#[tactic(auto, using(crate::proofs::Wording::starts_std))]
pub fn begins(text: &[u8], word: &[u8]) -> bool
    ensures { result ≡ starts_with word.now text.now }
{
    text.starts_with(word)
}

// Whether `word` stands at `at`.
pub fn starts_with(text: &[u8], at: Place, word: &[u8]) -> bool
    ensures { result ≡ starts_with word.now (drop at.0 text.now) }
{
    begins(rest(text, at), word)
}

// Whether two texts are the same bytes.
#[tactic(auto, unfolding(crate::specs::Words::same))]
pub fn equals(text: &[u8], word: &[u8]) -> bool
    ensures { result ≡ same text.now word.now }
{
    text == word
}

#[tactic(auto, unfolding(crate::specs::Words::lower_of, crate::specs::Bytes::within))]
pub fn to_ascii_lowercase(b: u8) -> u8
    ensures { result ≡ lower_of b }
{
    b.to_ascii_lowercase()
}

// Whether `text`, letter case ignored, is `word`, which is in lower case.
#[tactic(auto, using(crate::proofs::Wording::lower_other))]
pub fn equals_lowered(text: &[u8], word: &[u8]) -> bool
    ensures { result ≡ same (lowered text.now) word.now }
{
    text.len() == word.len()
        && text
            .iter()
            .zip(word)
            .all(|(a, b)| to_ascii_lowercase(*a) == *b)
}
