// A colour set back as text: hex digits, or its keyword. No text is read here, so none is tested.
#![tactic(auto)]

ghost use Rattle.std.specs.Prelude.{◌≡◌, ◌/◌, ◌%◌, ◌<◌, length, Some};
ghost use Rattle.lent.specs.Texts.{written};
ghost use Rattle.names.specs.Back.{name_over};
ghost use Rattle.set_back.specs.Texts.{digit, all_doubled, short_text, long_text, hex_text};
ghost use Rattle.set_back.specs.Answers.{settled, hex_answer, keyword_of, keyword_answer, ReadsBack};
ghost use Rattle.set_back.specs.Paper.{paper};

use color::Color;
use names::Rgb;
use stream::{Reason, Refusal};

// By hand, though std has `{:02x}`: its `write!` into lent bytes says nothing of what they hold then.
#[tactic(auto, unfolding(crate::specs::Texts::digit))]
fn digit_byte(n: u8) -> u8
    requires { n < 16 }
    ensures { result ≡ digit n }
{
    if n < 10 {
        return b'0' + n;
    }
    b'a' + (n - 10)
}

fn high(channel: u8) -> u8
    ensures { result ≡ digit (channel / 16) }
{
    digit_byte(channel / 16)
}

fn low(channel: u8) -> u8
    ensures { result ≡ digit (channel % 16) }
{
    digit_byte(channel % 16)
}

// Whether each channel, alpha too, is one digit twice.
#[tactic(auto, unfolding(crate::specs::Texts::all_doubled))]
fn is_doubled(c: Color) -> bool
    ensures { result ≡ all_doubled c }
{
    [c.red, c.green, c.blue, c.alpha]
        .iter()
        .all(|n| n / 16 == n % 16)
}

// A text, where there is room for it.
#[tactic(auto, unfolding(crate::specs::Answers::settled, names::specs::Back::name_answer), using(lent::proofs::Fronts::written_none, crate::proofs::Settling::put_written))]
fn settle(text: &[u8], out: &mut [u8]) -> Result<usize, Refusal>
    ensures value { result ≡ settled (Some text.now) (length out.old) }
    ensures out_after { out.new ≡ written text.now out.old }
{
    if out.len() < text.len() {
        return Err(stream::bare_refusal(Reason::BufferTooShort));
    }
    lent::put(out, 0, text);
    Ok(text.len())
}

#[tactic(auto, unfolding(crate::specs::Texts::short_text))]
fn short_hex(c: Color, out: &mut [u8]) -> Result<usize, Refusal>
    ensures value { result ≡ settled (Some (short_text c)) (length out.old) }
    ensures out_after { out.new ≡ written (short_text c) out.old }
{
    let text = [b'#', low(c.red), low(c.green), low(c.blue), low(c.alpha)];
    if c.alpha == 255 {
        return settle(&text[..4], out);
    }
    settle(&text, out)
}

// Beside `short_hex`: two literals show the two forms, and a loop over the channels would cut each digit's place by an index.
#[tactic(auto, unfolding(crate::specs::Texts::long_text))]
fn long_hex(c: Color, out: &mut [u8]) -> Result<usize, Refusal>
    ensures value { result ≡ settled (Some (long_text c)) (length out.old) }
    ensures out_after { out.new ≡ written (long_text c) out.old }
{
    let text = [
        b'#',
        high(c.red),
        low(c.red),
        high(c.green),
        low(c.green),
        high(c.blue),
        low(c.blue),
        high(c.alpha),
        low(c.alpha),
    ];
    if c.alpha == 255 {
        return settle(&text[..7], out);
    }
    settle(&text, out)
}

// A colour as `#` and hex digits, two to a channel; with `short` one, where each channel is one digit twice. An alpha of 255 is left out.
#[tactic(auto, unfolding(crate::specs::Answers::hex_answer, crate::specs::Texts::hex_text))]
pub fn hex(color: Color, short: bool, out: &mut [u8]) -> Result<usize, Refusal>
    ensures value { result ≡ hex_answer color short (length out.old) }
    ensures result_value { paper result ≡ paper (hex_answer color short (length out.old)) }
    ensures out_after { out.new ≡ written (hex_text color short) out.old }
    ensures reads_back { ReadsBack result out.new color }
{
    if short && is_doubled(color) {
        return short_hex(color, out);
    }
    long_hex(color, out)
}

// A colour as the first keyword that has it, for alpha 255 alone.
#[tactic(auto, unfolding(crate::specs::Answers::keyword_answer, crate::specs::Answers::keyword_of, crate::specs::Answers::settled, names::specs::Back::name_answer, names::specs::Back::name_over))]
pub fn keyword(color: Color, out: &mut [u8]) -> Result<usize, Refusal>
    ensures value { result ≡ keyword_answer color (length out.old) }
    ensures result_value { paper result ≡ paper (keyword_answer color (length out.old)) }
    ensures out_after { out.new ≡ name_over (keyword_of color) out.old }
    ensures reads_back { ReadsBack result out.new color }
{
    if color.alpha != 255 {
        return Err(stream::bare_refusal(Reason::NoKeyword));
    }
    // A closure: a function of another crate has no proof as a value.
    names::write_name(Rgb::from(color), out).map_err(|reason| stream::bare_refusal(reason))
}
