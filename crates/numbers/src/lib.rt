// Decimal text to f64: a number, a number of a list, and either with a `%`.
#![tactic(auto)]

ghost use Rattle.std.specs.Prelude.{◌≡◌, cond, ◌+◌, ◌-◌, ◌*◌, ◌≤◌, ◌<◌, min, drop};
ghost use Rattle.std.specs.Float.Ieee.{neg};
ghost use Rattle.text_bytes.specs.Bytes.{is_digit};
ghost use Rattle.text_bytes.specs.Scan.{scan};
ghost use Rattle.numbers.specs.Digits.{cap, value};
ghost use Rattle.numbers.specs.Powers.{power_of};
ghost use Rattle.numbers.specs.Held.{held_mantissa, held_exponent, held_scale};
ghost use Rattle.numbers.specs.Number.{starts_number, after_sign, mantissa_at, exponent_from, no_exponent, exponent_at, scale_of, signed, value_of, refused_at, number_from, parse_number, parse_number_or_percent, after_item, item, parse_list_number, parse_list_number_or_percent};

use stream::{Fault, Read, Trouble};
use text_bytes::Place;

// What a number makes, and how the number was written: whether with neither dot nor exponent, and where its own text ended.
#[derive(Clone, Copy, Debug, PartialEq)]
pub struct Written<T> {
    pub value: T,
    pub whole: bool,
    pub end: Place,
}

pub type Number = Written<f64>;

// The digits before an exponent, and how many of them are a fraction. `dotted` is told apart, as in the definition, of
// which theorems of standards speak.
#[derive(Clone, Copy)]
struct Mantissa {
    value: u64,
    fraction: usize,
    dotted: bool,
    end: Place,
}

// The flags are the definition's likewise: `1e0` is written with an exponent, `1` is not, and both have 0.
#[derive(Clone, Copy)]
struct Exponent {
    minus: bool,
    value: u64,
    written: bool,
    end: Place,
}

// By how many places the point moves, and whether down: theorems of standards speak of both, so they are no enum.
#[derive(Clone, Copy)]
struct Scale {
    down: bool,
    by: u64,
}

// 2^53, which M stays below.
pub const LIMIT: u64 = 9_007_199_254_740_992;

// The powers of ten that an f64 holds exactly.
const POWERS: [f64; 23] = [
    1.0, 1e1, 1e2, 1e3, 1e4, 1e5, 1e6, 1e7, 1e8, 1e9, 1e10, 1e11, 1e12, 1e13, 1e14, 1e15, 1e16,
    1e17, 1e18, 1e19, 1e20, 1e21, 1e22,
];

// A clause says that k is in the table, and no type: its callers know it of a sum that they have just tested.
#[tactic(auto, unfolding(crate::specs::Powers::power_of, crate::specs::Powers::power_bits))]
pub fn power(k: usize) -> f64
    requires { k < 23 }
    ensures { result ≡ power_of k }
{
    POWERS[k]
}

// One digit more, held at the most that is asked for.
pub fn push_digit(a: u64, b: u8, most: u64) -> u64
    ensures { result ≡ min most (a * 10 + (b - 48)) }
{
    let digit = b.saturating_sub(b'0') as u64;
    let n = a.saturating_mul(10).saturating_add(digit);
    n.min(most)
}

// The digits at a place, read on after the value a; they are held at the most that is asked for, so that no run overflows.
// One loop for place and value: a scan and then a fold over the digits took a third longer.
#[tactic(auto, using(crate::proofs::Sums::summed))]
fn read_held(text: &[u8], at: Place, a: u64, most: u64) -> Read<u64>
    requires { a ≤ most }
    ensures next { result.next.0 ≡ scan is_digit text.now at.0 }
    ensures value { result.value ≡ min most (value a (drop at.0 text.now)) }
{
    let mut i = at.0;
    let mut n = a;
    while i < text.len() && text_bytes::is_digit(text[i]) {
        n = push_digit(n, text[i], most);
        i += 1;
    }
    Read {
        value: n,
        next: Place(i),
    }
}

// The digits at a place, held at 2^53. A loop of its own: below 2^53 no product overflows, and at it the digits that are left only
// end the run, where `read_held` looks for both at each digit.
#[tactic(auto, unfolding(text_bytes::specs::Bytes::within), using(crate::proofs::Sums::summed))]
pub fn read_digits(text: &[u8], at: Place, a: u64) -> Read<u64>
    requires { a ≤ cap }
    ensures next { result.next.0 ≡ scan is_digit text.now at.0 }
    ensures value { result.value ≡ min cap (value a (drop at.0 text.now)) }
{
    let mut i = at.0;
    let mut n = a;
    while i < text.len() && text_bytes::is_digit(text[i]) {
        let more = n * 10 + (text[i] - b'0') as u64;
        i += 1;
        if LIMIT <= more {
            let next = text_bytes::skip_digits(text, Place(i));
            return Read { value: LIMIT, next };
        }
        n = more;
    }
    Read {
        value: n,
        next: Place(i),
    }
}

// Whether a number may start with a byte.
pub fn starts_number(b: u8) -> bool
    ensures { result ≡ starts_number b }
{
    text_bytes::is_digit(b) || text_bytes::is_sign(b) || b == b'.'
}

// The place after an optional sign.
#[tactic(auto, unfolding(crate::specs::Number::after_sign))]
pub fn after_sign(text: &[u8], at: Place) -> Place
    ensures { result.0 ≡ after_sign text.now at.0 }
{
    let i = at.0;
    if i < text.len() && text_bytes::is_sign(text[i]) {
        return Place(i + 1);
    }
    at
}

// Refused is the place where the form's longest beginning ends.
#[tactic(auto, unfolding(crate::specs::Number::mantissa_at, crate::specs::Number::mantissa_dot), using(crate::proofs::Sums::capped, text_bytes::proofs::Parts::byte_there, text_bytes::proofs::Scans::scan_ge))]
fn mantissa_at(text: &[u8], at: Place) -> Result<Mantissa, Place>
    ensures { result ≡ held_mantissa (mantissa_at text.now at.0) }
{
    let whole = read_digits(text, at, 0);
    let dot = whole.next;
    if text_bytes::byte_at(text, dot) != b'.' {
        if dot.0 <= at.0 {
            return Err(dot);
        }
        return Ok(Mantissa {
            value: whole.value,
            fraction: 0,
            dotted: false,
            end: dot,
        });
    }
    let from = Place(dot.0 + 1);
    let part = read_digits(text, from, whole.value);
    if part.next.0 <= from.0 {
        return Err(part.next);
    }
    Ok(Mantissa {
        value: part.value,
        fraction: part.next.0 - from.0,
        dotted: true,
        end: part.next,
    })
}

// At u64::MAX an exponent is out of range still, whatever the fraction: that is shorter than 2^63.
#[tactic(auto, unfolding(crate::specs::Number::exponent_from))]
fn exponent_from(text: &[u8], from: Place, minus: bool) -> Result<Exponent, Place>
    ensures { result ≡ held_exponent (exponent_from text.now from.0 minus) }
{
    let digits = read_held(text, from, 0, u64::MAX);
    if digits.next.0 <= from.0 {
        return Err(digits.next);
    }
    Ok(Exponent {
        minus,
        value: digits.value,
        written: true,
        end: digits.next,
    })
}

fn no_exponent(at: Place) -> Result<Exponent, Place>
    ensures { result ≡ held_exponent (no_exponent at.0) }
{
    Ok(Exponent {
        minus: false,
        value: 0,
        written: false,
        end: at,
    })
}

#[tactic(auto, unfolding(crate::specs::Number::exponent_at))]
fn exponent_at(text: &[u8], at: Place) -> Result<Exponent, Place>
    ensures { result ≡ held_exponent (exponent_at text.now at.0) }
{
    let i = at.0;
    if i >= text.len() || !matches!(text[i], b'e' | b'E') {
        return no_exponent(at);
    }
    let next = Place(i + 1);
    let c = text_bytes::byte_at(text, next);
    // `em` and `ex` are units
    if matches!(c, b'm' | b'x') {
        return no_exponent(at);
    }
    exponent_from(text, after_sign(text, next), c == b'-')
}

#[tactic(auto, unfolding(crate::specs::Number::signed))]
pub fn signed(minus: bool, y: f64) -> f64
    ensures { result ≡ signed minus y }
{
    if minus { -y } else { y }
}

impl Scale {
    // Exponent minus fraction digits.
    #[tactic(auto, unfolding(crate::specs::Number::scale_of))]
    fn of(e: Exponent, fraction: u64) -> Scale
        ensures { result ≡ held_scale (scale_of e.minus e.value fraction) }
    {
        if e.minus {
            return Scale {
                down: true,
                by: e.value.saturating_add(fraction),
            };
        }
        Scale {
            down: e.value < fraction,
            by: e.value.abs_diff(fraction),
        }
    }

    // Both operands are exact, so that the one operation rounds the decimal itself.
    #[tactic(auto, unfolding(crate::specs::Number::value_of), using(crate::proofs::Steps::whole_in_float))]
    fn value_of(self, minus: bool, m: u64) -> f64
        requires { (m < cap) × (self.by < 23) }
        ensures { result ≡ value_of minus m self.down self.by }
    {
        let x = m as f64;
        let p = power(self.by as usize);
        if self.down {
            return signed(minus, x / p);
        }
        signed(minus, x * p)
    }
}

fn refused_at(trouble: Trouble, start: Place, to: Place) -> Fault
    ensures { result ≡ refused_at trouble start.0 to.0 }
{
    stream::trouble_at(trouble, start, start, to)
}

// The form is judged first, then M, then the scale.
#[tactic(auto, unfolding(crate::specs::Number::number_from, crate::specs::Number::finished, crate::specs::Number::scaled), using(crate::proofs::Steps::far, crate::proofs::Steps::near, crate::proofs::Steps::fraction_le))]
fn number_from(text: &[u8], start: Place) -> Result<Read<Number>, Fault>
    ensures { result ≡ number_from text.now start.0 }
{
    let minus = text_bytes::byte_at(text, start) == b'-';
    let wrong_form = |to| refused_at(Trouble::WrongForm, start, to);
    let m = mantissa_at(text, after_sign(text, start)).map_err(wrong_form)?;
    let e = exponent_at(text, m.end).map_err(wrong_form)?;
    if m.value >= LIMIT {
        return Err(refused_at(Trouble::TooLarge, start, e.end));
    }
    let scale = Scale::of(e, m.fraction as u64);
    if scale.by > 22 {
        return Err(refused_at(Trouble::ScaleOutOfRange, start, e.end));
    }
    Ok(Read {
        value: Written {
            value: scale.value_of(minus, m.value),
            whole: !(m.dotted || e.written),
            end: e.end,
        },
        next: e.end,
    })
}

// A number, spaces before it skipped.
#[tactic(auto, unfolding(crate::specs::Number::parse_number))]
pub fn parse_number(text: &[u8], at: Place) -> Result<Read<Number>, Fault>
    ensures { result ≡ parse_number text.now at.0 }
{
    let start = text_bytes::skip_spaces(text, at);
    let i = start.0;
    if i >= text.len() {
        return Err(refused_at(Trouble::TextEnded, start, start));
    }
    if !starts_number(text[i]) {
        return Err(refused_at(Trouble::WrongByte, start, start));
    }
    number_from(text, start)
}

// A number, and a `%` directly after it: its hundredth then.
#[tactic(auto, unfolding(crate::specs::Number::parse_number_or_percent), using(text_bytes::proofs::Wording::curr_ends))]
pub fn parse_number_or_percent(text: &[u8], at: Place) -> Result<Read<Number>, Fault>
    ensures { result ≡ parse_number_or_percent text.now at.0 }
{
    let read = parse_number(text, at)?;
    let n = read.value;
    if text_bytes::is_curr_byte_eq(text, read.next, b'%') {
        return Ok(Read {
            value: Written {
                value: n.value / 100.0,
                ..n
            },
            next: Place(read.next.0 + 1),
        });
    }
    Ok(read)
}

// The place after spaces and one optional comma, which end an item of a list.
pub fn after_item(text: &[u8], at: Place) -> Place
    ensures { result.0 ≡ after_item text.now at.0 }
{
    stream::parse_list_separator(text, text_bytes::skip_spaces(text, at))
}

// An item of a list: what was read, and what ends it passed.
pub fn item<T: Drop>(text: &[u8], read: Read<T>) -> Read<T>
    ensures { result ≡ item text.now read }
{
    Read {
        value: read.value,
        next: after_item(text, read.next),
    }
}

// A number of a list. The end of the text is judged before spaces are skipped. Two calls, as of the one below: a reader as a parameter
// would want its contract there.
#[tactic(auto, unfolding(crate::specs::Number::parse_list_number))]
pub fn parse_list_number(text: &[u8], at: Place) -> Result<Read<Number>, Fault>
    ensures { result ≡ parse_list_number text.now at.0 }
{
    stream::goes_on(text, at)?;
    Ok(item(text, parse_number(text, at)?))
}

#[tactic(auto, unfolding(crate::specs::Number::parse_list_number_or_percent))]
pub fn parse_list_number_or_percent(text: &[u8], at: Place) -> Result<Read<Number>, Fault>
    ensures { result ≡ parse_list_number_or_percent text.now at.0 }
{
    stream::goes_on(text, at)?;
    Ok(item(text, parse_number_or_percent(text, at)?))
}
