// A colour's answer as one number, which comes back in a register: the record is filled for a refusal alone.
ghost use Rattle.std.specs.Prelude.{◌≡◌, [], Err};
ghost use Rattle.color.specs.Answer.{from_str};
ghost use Rattle.packed.specs.Numbers.{color_answer_number};
ghost use Rattle.records.specs.Records.{color_record, record_for};

use crate::{invalid_value, told_text};
use paint::Paint;
use stream::Refusal;

// Beside `fast_paint::number`, which tells other values: one for both would want the reader of each, and its laws, as a trait.
#[tactic(auto, unfolding(packed::specs::Numbers::color_answer_number, packed::specs::Numbers::paint_number), using(fast_numbers::proofs::Told::all_text, crate::proofs::Told::color_told, crate::proofs::Told::color_small, crate::proofs::Told::color_refused))]
pub fn number(text: &[u8], answer: &mut [u64; 24]) -> u64
    ensures value { result ≡ color_answer_number (from_str text.now) }
    ensures answer_after { answer.new ≡ record_for result (color_record (from_str text.now)) answer.old }
{
    match told_text(&text[0..]) {
        Some(Ok(v)) => packed::painted(v),
        Some(Err(at)) => refused(answer, invalid_value(at)),
        None => plain_number(text, answer),
    }
}

// What the plain reader reads.
#[tactic(auto, unfolding(packed::specs::Numbers::color_answer_number, packed::specs::Numbers::paint_number, paint::specs::Moves::link_start, packed::specs::Links::link_len))]
fn plain_number(text: &[u8], answer: &mut [u64; 24]) -> u64
    ensures value { result ≡ color_answer_number (from_str text.now) }
    ensures answer_after { answer.new ≡ record_for result (color_record (from_str text.now)) answer.old }
{
    match color::from_str(text) {
        Ok(c) => packed::paint_number(Paint::Color(c)),
        Err(e) => refused(answer, e),
    }
}

#[tactic(auto, using(records::proofs::Wholes::color_refused))]
fn refused(answer: &mut [u64; 24], e: Refusal) -> u64
    ensures value { result ≡ 0 }
    ensures answer_after { answer.new ≡ color_record (Err e) }
{
    records::refused(answer, e);
    0
}
