// Trimming: the 25 characters of Unicode's White_Space, off both ends of a text.
ghost use Rattle.std.specs.Prelude.{◌≡◌, ◌≤◌, ◌<◌, length};
ghost use Rattle.text_bytes.specs.Bytes.{within};
ghost use Rattle.utf8.specs.Blanks.{blank1, blank2, blank3, blank_len, blank_end, blank_at, blank_before, byte_before, trim_start, trim_end, trim_part, trim_of};

use text_bytes::{Part, Place, byte_at};

// U+0009 to 000D, 0020.
#[tactic(auto, unfolding(crate::specs::Blanks::blank1))]
fn is_blank1(a: u8) -> bool
    ensures { result ≡ blank1 a }
{
    matches!(a, 9..=13 | 32)
}

// U+0085, 00A0.
#[tactic(auto, unfolding(crate::specs::Blanks::blank2))]
fn is_blank2(a: u8, b: u8) -> bool
    ensures { result ≡ blank2 a b }
{
    matches!((a, b), (0xc2, 0x85 | 0xa0))
}

// U+1680, 2000 to 200A, 2028, 2029, 202F, 205F, 3000. Three bytes and no array, as the definitions take them.
#[tactic(auto, unfolding(crate::specs::Blanks::blank3))]
fn is_blank3(a: u8, b: u8, c: u8) -> bool
    ensures { result ≡ blank3 a b c }
{
    matches!(
        (a, b, c),
        (0xe1, 0x9a, 0x80)
            | (0xe2, 0x80, 0x80..=0x8a | 0xa8 | 0xa9 | 0xaf)
            | (0xe2, 0x81, 0x9f)
            | (0xe3, 0x80, 0x80)
    )
}

// An ASCII byte after the space is no white space, nor part of one.
#[tactic(auto, unfolding(text_bytes::specs::Bytes::within))]
fn is_plain(a: u8) -> bool
    ensures { result ≡ within 33 127 a }
{
    matches!(a, 33..=127)
}

// The bytes of the white space that starts with these, 0 for none: a number, as the definitions of trimming count by it.
#[tactic(auto, unfolding(crate::specs::Blanks::blank_len))]
fn blank_len(a: u8, b: u8, c: u8) -> usize
    ensures value { result ≡ blank_len a b c }
    ensures upper_bound { result ≤ 3 }
{
    if is_blank1(a) {
        1
    } else if is_blank2(a, b) {
        2
    } else if is_blank3(a, b, c) {
        3
    } else {
        0
    }
}

// The same, of the bytes that it ends with, the last first. Two: the bytes of a character come in the other order.
#[tactic(auto, unfolding(crate::specs::Blanks::blank_end))]
fn blank_end(a: u8, b: u8, c: u8) -> usize
    ensures { result ≡ blank_end a b c }
{
    if is_blank1(a) {
        1
    } else if is_blank2(b, a) {
        2
    } else if is_blank3(c, b, a) {
        3
    } else {
        0
    }
}

// The bytes of the white space that starts at a place, 0 for none likewise.
#[tactic(auto, unfolding(crate::specs::Blanks::blank_at), using(crate::proofs::Trimming::plain_len))]
fn blank_at(text: &[u8], at: Place) -> usize
    requires { at.0 < length text.now }
    ensures value { result ≡ blank_at text.now at.0 }
    ensures upper_bound { result ≤ 3 }
{
    let i = at.0;
    let a = text[i];
    if is_plain(a) {
        return 0;
    }
    blank_len(a, byte_at(text, Place(i + 1)), byte_at(text, Place(i + 2)))
}

// The byte that stands so many before a place, 0 for none, as `byte_at` has it past the end.
#[tactic(auto, unfolding(crate::specs::Blanks::byte_before))]
fn byte_before(text: &[u8], end: Place, k: usize) -> u8
    ensures { result ≡ byte_before text.now end.0 k }
{
    let e = end.0;
    if k <= e {
        byte_at(text, Place(e - k))
    } else {
        0
    }
}

// The bytes of the white space that ends at a place, 0 for none likewise. No walk: the first byte of a character is no later byte of one.
#[tactic(auto, unfolding(crate::specs::Blanks::blank_before), using(crate::proofs::Trimming::plain_end))]
fn blank_before(text: &[u8], end: Place) -> usize
    ensures { result ≡ blank_before text.now end.0 }
{
    let a = byte_before(text, end, 1);
    if is_plain(a) {
        return 0;
    }
    blank_end(a, byte_before(text, end, 2), byte_before(text, end, 3))
}

// Where a text starts without its leading white space. A loop, no iterator of bytes: a turn is a whole character.
#[tactic(auto, using(crate::proofs::Trimming::fronted))]
pub fn trim_start(text: &[u8]) -> Place
    ensures { result.0 ≡ trim_start text.now }
{
    let mut i = 0;
    while i < text.len() {
        match blank_at(text, Place(i)) {
            0 => break,
            n => i += n,
        }
    }
    Place(i)
}

// Where it ends without its trailing white space, by a like loop. A link's `trim_end` is this on the link's part.
#[tactic(auto, using(crate::proofs::Trimming::backed, crate::proofs::Trimming::blank_before_le))]
pub fn trim_end(text: &[u8]) -> Place
    ensures { result.0 ≡ trim_end text.now }
{
    let mut end = text.len();
    while 0 < end {
        match blank_before(text, Place(end)) {
            0 => break,
            n => end -= n,
        }
    }
    Place(end)
}

// A text without the white space at its ends, as a place and a length.
#[tactic(auto, unfolding(crate::specs::Blanks::trim_part))]
pub fn trim(text: &[u8]) -> Part
    ensures { result ≡ trim_part text.now }
{
    let start = trim_start(text);
    let end = trim_end(text_bytes::rest(text, start));
    Part { start, len: end.0 }
}

// The same, as a part of the lent text.
#[tactic(auto, using(crate::proofs::Trimming::part_trimmed))]
pub fn trimmed(text: &[u8]) -> &[u8]
    ensures { result.now ≡ trim_of text.now }
{
    text_bytes::part_of(text, trim(text))
}
