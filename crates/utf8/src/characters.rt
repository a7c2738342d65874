// UTF-8 by RFC 3629, and the characters of a text.
ghost use Rattle.std.specs.Prelude.{◌≡◌, Ok, true, cond, ◌∷◌, [], ◌+◌, ◌<◌, ◌≤◌, max, length, take, drop};
ghost use Rattle.utf8.specs.Characters.{table, row_of, len_at, char_len, is_ascii, walk, utf8_of, calc_char_pos_at, skip_chars};

use crate::Position;
use text_bytes::{Place, byte_at, is_tail};

// The octets of the sequence that begins so, 0 where none is well formed, as the definition counts: RFC 3629's table, row by row.
#[tactic(auto, unfolding(crate::specs::Characters::len_at, crate::specs::Characters::row_of, crate::specs::Characters::keeps, text_bytes::specs::Bytes::within))]
fn sequence_len(b0: u8, b1: u8, b2: u8, b3: u8) -> usize
    ensures { result ≡ len_at table (row_of table b0) (b1 ∷ b2 ∷ b3 ∷ []) }
{
    match (b0, b1, b2, b3) {
        (0x00..=0x7f, _, _, _) => 1,
        (0xc2..=0xdf, 0x80..=0xbf, _, _) => 2,
        (0xe0, 0xa0..=0xbf, 0x80..=0xbf, _) => 3,
        (0xe1..=0xec, 0x80..=0xbf, 0x80..=0xbf, _) => 3,
        (0xed, 0x80..=0x9f, 0x80..=0xbf, _) => 3,
        (0xee..=0xef, 0x80..=0xbf, 0x80..=0xbf, _) => 3,
        (0xf0, 0x90..=0xbf, 0x80..=0xbf, 0x80..=0xbf) => 4,
        (0xf1..=0xf3, 0x80..=0xbf, 0x80..=0xbf, 0x80..=0xbf) => 4,
        (0xf4, 0x80..=0x8f, 0x80..=0xbf, 0x80..=0xbf) => 4,
        _ => 0,
    }
}

// The octets of the character at a place, 0 where none is well formed.
#[tactic(auto, using(crate::proofs::Octets::char_at))]
fn char_len(text: &[u8], at: Place) -> usize
    requires { at.0 < length text.now }
    ensures { result ≡ char_len (drop at.0 text.now) }
{
    let i = at.0;
    sequence_len(
        text[i],
        byte_at(text, Place(i + 1)),
        byte_at(text, Place(i + 2)),
        byte_at(text, Place(i + 3)),
    )
}

// Whether the four bytes from a place on are ASCII. No test waits for another, so that the four are compared at once.
#[tactic(auto, using(crate::proofs::Walks::four_ascii))]
fn four(text: &[u8], at: usize) -> bool
    requires { at + 4 ≤ length text.now }
    ensures { result ≡ is_ascii (take 4 (drop at text.now)) }
{
    (text[at] < 128) & ((text[at + 1] < 128) & ((text[at + 2] < 128) & (text[at + 3] < 128)))
}

// A place that ASCII alone stands before: gone to by eights, each tested as one word.
#[tactic(auto, unfolding(crate::specs::Characters::utf8_of), using(crate::proofs::Walks::walk_eight))]
fn ascii_eights(text: &[u8]) -> usize
    ensures inside { result ≤ length text.now }
    ensures begins { walk result 0 (drop result text.now) ≡ utf8_of text.now }
{
    let mut i = 0;
    while 8 <= text.len() - i && text[i..i + 8].is_ascii() {
        i += 8;
    }
    i
}

// A place that ASCII alone stands before, where the walk may begin: by eights, then by fours, as most texts are short.
#[tactic(auto, using(crate::proofs::Walks::walk_four))]
fn ascii_front(text: &[u8]) -> usize
    ensures { walk result 0 (drop result text.now) ≡ utf8_of text.now }
{
    let mut i = ascii_eights(text);
    while 4 <= text.len() - i && four(text, i) {
        i += 4;
    }
    i
}

// The walk from a place on, where a character begins: a turn is a whole character.
#[tactic(auto, using(crate::proofs::Walks::walk_past, crate::proofs::Walks::walk_ill, crate::proofs::Walks::walk_on, crate::proofs::Walks::char_ends, crate::proofs::Walks::char_one))]
fn walk(text: &[u8], from: usize) -> Result<(), Place>
    ensures { result ≡ walk from 0 (drop from text.now) }
{
    let mut i = from;
    while i < text.len() {
        // Of a run of ASCII no byte further on is looked at.
        let n = if text[i] < 128 {
            1
        } else {
            char_len(text, Place(i))
        };
        if n == 0 {
            return Err(Place(i));
        }
        i += n;
    }
    Ok(())
}

// Whether a text is UTF-8, and where not: the place of the first sequence that is ill formed. Compiled into its callers, whose texts are short.
#[inline(always)]
#[tactic(auto, using(crate::proofs::Walks::std_ascii))]
pub fn utf8_test(text: &[u8]) -> Result<(), Place>
    ensures { result ≡ utf8_of text.now }
{
    // A short text is through the walk as soon.
    if 8 <= text.len() && text.is_ascii() {
        return Ok(());
    }
    walk(text, ascii_front(text))
}

// The position of a place in a UTF-8 text, as the manual counts: from 1, "count every byte that does not continue a character" before it.
#[tactic(auto, using(crate::proofs::Counting::counted_none, crate::proofs::Counting::counted_head, crate::proofs::Counting::counted_tail, crate::proofs::Counting::counted_all, crate::proofs::Counting::before_end, crate::proofs::Counting::manual_counts))]
pub fn calc_char_pos_at(text: &[u8], place: Place) -> Position
    requires { utf8_of text.now ≡ Ok tt }
    ensures { result.0 ≡ calc_char_pos_at text.now place.0 }
{
    // A loop: `take` and `filter` look twice for the end at each byte, and every refusal counts its position.
    let mut n = 1;
    for &b in &text[..place.0.min(text.len())] {
        if !is_tail(b) {
            n += 1;
        }
    }
    Position(n)
}

// The place `count` characters after `at`, or the end of the text.
#[tactic(auto, using(crate::proofs::Walks::skipped, crate::proofs::Walks::char_add))]
pub fn skip_chars(text: &[u8], at: Place, count: usize) -> Place
    requires { at.0 ≤ length text.now }
    ensures { result.0 ≡ skip_chars count text.now at.0 }
{
    let mut i = at.0;
    for _ in 0..count {
        if text.len() <= i {
            break;
        }
        i += char_len(text, Place(i));
    }
    Place(i)
}
