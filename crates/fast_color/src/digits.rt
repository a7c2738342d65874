// Hex digits, each read once.
ghost use Rattle.std.specs.Prelude.{◌≡◌, false};
ghost use Rattle.text_bytes.specs.Bytes.{within};
ghost use Rattle.fast_color.specs.Digits.{value, color_of, digits_alone};

use color::Color;

// The number of a colour whose text is `#` and six, three, eight or four digits; None for any other text.
#[tactic(auto, unfolding(crate::specs::Digits::digits_alone))]
pub fn digits_alone(text: &[u8]) -> Option<u64>
    ensures { result ≡ digits_alone text.now }
{
    match text {
        [_, a, b, c, d, e, f] => color_of([*a, *b, *c, *d, *e, *f, b'f', b'f']),
        [_, a, b, c] => color_of([*a, *a, *b, *b, *c, *c, b'f', b'f']),
        [_, a, b, c, d, e, f, g, h] => color_of([*a, *b, *c, *d, *e, *f, *g, *h]),
        [_, a, b, c, d] => color_of([*a, *a, *b, *b, *c, *c, *d, *d]),
        _ => None,
    }
}

// The number of a colour by its eight digits, all tested together; compiled into each arm above, where an absent alpha is a constant.
#[inline(always)]
#[tactic(auto, using(crate::proofs::Eight::color_by))]
fn color_of(digits: [u8; 8]) -> Option<u64>
    ensures { result ≡ color_of digits }
{
    let [a, b, c, d, e, f, g, h] = digits;
    let (a, b, c, d) = (value(a), value(b), value(c), value(d));
    let (e, f, g, h) = (value(e), value(f), value(g), value(h));
    let first = (a < 16) & (b < 16) & (c < 16) & (d < 16);
    if first & (e < 16) & (f < 16) & (g < 16) & (h < 16) {
        return Some(packed::color_number(Color {
            red: a * 16 + b,
            green: c * 16 + d,
            blue: e * 16 + f,
            alpha: g * 16 + h,
        }));
    }
    None
}

// 16 for a byte that is no digit: with an Option each digit costs a branch, which texts from files seldom foretell.
// One range in each function: of several in one `match` each costs two comparisons.
#[inline(always)]
#[tactic(auto, unfolding(crate::specs::Digits::value, color::specs::Hex::from_hex, text_bytes::specs::Bytes::within))]
fn value(c: u8) -> u8
    ensures { result ≡ value c }
{
    match c {
        b'0'..=b'9' => c - b'0',
        _ => letter(c),
    }
}

#[inline(always)]
#[tactic(auto, unfolding(crate::specs::Digits::value, color::specs::Hex::from_hex, text_bytes::specs::Bytes::within))]
fn letter(c: u8) -> u8
    requires { within 48 57 c ≡ false }
    ensures { result ≡ value c }
{
    match c {
        b'a'..=b'f' => c - b'a' + 10,
        _ => capital(c),
    }
}

#[inline(always)]
#[tactic(auto, unfolding(crate::specs::Digits::value, color::specs::Hex::from_hex, text_bytes::specs::Bytes::within))]
fn capital(c: u8) -> u8
    requires digit { within 48 57 c ≡ false }
    requires letter { within 97 102 c ≡ false }
    ensures { result ≡ value c }
{
    match c {
        b'A'..=b'F' => c - b'A' + 10,
        _ => 16,
    }
}
