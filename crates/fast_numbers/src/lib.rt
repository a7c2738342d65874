// A number without its refusal, sooner. Most are digits with a short fraction or none, and start with a digit.
#![tactic(auto)]

ghost use Rattle.std.specs.Prelude.{◌≡◌, true, false, ◌<◌};
ghost use Rattle.numbers.specs.Digits.{cap};
ghost use Rattle.numbers.specs.Powers.{power_of};
ghost use Rattle.numbers.specs.Number.{exponent_at, value_of, parse_number};
ghost use Rattle.fast_numbers.specs.Leads.{lead_at};
ghost use Rattle.fast_numbers.specs.Told.{told_number};

use numbers::{LIMIT, Number, Written};
use text_bytes::Place;

// Where a number's first digit or dot is, and whether a minus stands before it.
#[derive(Clone, Copy)]
struct Lead {
    from: Place,
    minus: bool,
}

// A number, spaces before it skipped: reading goes on where its text ends. None where the plain reader reads none.
#[tactic(auto, using(crate::proofs::Steps::whole_told, crate::proofs::Steps::fraction_told, text_bytes::proofs::Parts::byte_there, text_bytes::proofs::Scans::scan_ge))]
pub fn number(text: &[u8], at: Place) -> Option<Number>
    ensures { result ≡ told_number (parse_number text.now at.0) }
{
    let lead = lead_at(text, at);
    let digits = numbers::read_digits(text, lead.from, 0);
    let dot = digits.next;
    if text_bytes::byte_at(text, dot) == b'.' {
        let next = Place(dot.0 + 1);
        let part = numbers::read_digits(text, next, digits.value);
        let end = part.next;
        if has_exponent(text, end) {
            return told_plainly(text, at);
        }
        let fraction = end.0 - next.0;
        if next.0 < end.0 && part.value < LIMIT && fraction <= 22 {
            return Some(Written {
                value: fraction_value(lead.minus, part.value, fraction),
                whole: false,
                end,
            });
        }
        return None;
    }
    if has_exponent(text, dot) {
        return told_plainly(text, at);
    }
    if lead.from.0 < dot.0 && digits.value < LIMIT {
        return Some(Written {
            value: whole_value(lead.minus, digits.value),
            whole: true,
            end: dot,
        });
    }
    None
}

// At a digit there is neither a space nor a sign to look for.
#[tactic(auto, unfolding(crate::specs::Leads::lead_at), using(crate::proofs::Steps::lead_digit))]
fn lead_at(text: &[u8], at: Place) -> Lead
    ensures { result ≡ lead_at text.now at.0 }
{
    if text_bytes::is_digit(text_bytes::byte_at(text, at)) {
        return Lead {
            from: at,
            minus: false,
        };
    }
    let start = text_bytes::skip_spaces(text, at);
    Lead {
        from: numbers::after_sign(text, start),
        minus: text_bytes::byte_at(text, start) == b'-',
    }
}

// Whether an exponent follows a number's digits: `em` and `ex` are units.
#[tactic(auto, unfolding(numbers::specs::Number::exponent_at, numbers::specs::Number::exponent_from), using(text_bytes::proofs::Parts::byte_there))]
fn has_exponent(text: &[u8], at: Place) -> bool
    ensures { result ≡ (exponent_at text.now at.0).written }
{
    matches!(text_bytes::byte_at(text, at), b'e' | b'E')
        && !matches!(text_bytes::byte_at(text, Place(at.0 + 1)), b'm' | b'x')
}

// Exponents are rare.
#[tactic(auto, unfolding(crate::specs::Told::told_number))]
fn told_plainly(text: &[u8], at: Place) -> Option<Number>
    ensures { result ≡ told_number (parse_number text.now at.0) }
{
    let read = numbers::parse_number(text, at).ok()?;
    Some(Written {
        end: read.next,
        ..read.value
    })
}

// Sign and magnitude go apart, as `numbers::signed` takes them.
#[tactic(auto, unfolding(numbers::specs::Number::value_of, numbers::specs::Powers::power_of, numbers::specs::Powers::power_bits), using(numbers::proofs::Steps::whole_in_float))]
pub fn whole_value(minus: bool, m: u64) -> f64
    requires { m < cap }
    ensures { result ≡ value_of minus m false 0 }
{
    numbers::signed(minus, (m as f64) * 1.0)
}

#[tactic(auto, unfolding(numbers::specs::Number::value_of), using(numbers::proofs::Steps::whole_in_float))]
fn fraction_value(minus: bool, m: u64, fraction: usize) -> f64
    requires { (m < cap) × (fraction < 23) }
    ensures { result ≡ value_of minus m true fraction }
{
    numbers::signed(minus, (m as f64) / small_power(fraction))
}

// Most fractions are short: their powers are told without the table.
#[tactic(auto, unfolding(numbers::specs::Powers::power_of, numbers::specs::Powers::power_bits))]
fn small_power(k: usize) -> f64
    requires { k < 23 }
    ensures { result ≡ power_of k }
{
    match k {
        1 => 10.0,
        2 => 100.0,
        3 => 1000.0,
        4 => 10000.0,
        5 => 100000.0,
        6 => 1000000.0,
        _ => numbers::power(k),
    }
}
