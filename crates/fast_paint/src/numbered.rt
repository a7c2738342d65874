// A paint's answer as one number, which comes back in a register: the record is filled for a refusal alone.
ghost use Rattle.std.specs.Prelude.{◌≡◌, Err};
ghost use Rattle.paint.specs.Answers.{from_str};
ghost use Rattle.packed.specs.Numbers.{paint_answer_number};
ghost use Rattle.records.specs.Records.{paint_record, record_for};

use crate::told;
use stream::{Reason, Refusal, Trouble};

// The slice is taken anew on its way: handed on whole it is copied by 16 bytes, which wait for the stores of its two halves.
#[tactic(auto, unfolding(fast_color::specs::Told::told_or), using(fast_numbers::proofs::Told::all_text, crate::proofs::Numbers::answer_is, crate::proofs::Numbers::paint_told, crate::proofs::Numbers::paint_refused))]
pub fn number(text: &[u8], answer: &mut [u64; 24]) -> u64
    ensures value { result ≡ paint_answer_number (from_str text.now) }
    ensures answer_after { answer.new ≡ record_for result (paint_record (from_str text.now)) answer.old }
{
    match told(&text[0..]) {
        Some(Ok(v)) => v,
        Some(Err(at)) => {
            let reason = Reason::Unread(Trouble::InvalidValue);
            refused(answer, stream::empty_refusal(reason, at))
        }
        None => plain_number(text, answer),
    }
}

// What the plain reader reads.
#[tactic(auto, unfolding(packed::specs::Numbers::paint_answer_number), using(packed::proofs::Readings::read_start, packed::proofs::Readings::read_len, crate::proofs::Numbers::some_number))]
fn plain_number(text: &[u8], answer: &mut [u64; 24]) -> u64
    ensures value { result ≡ paint_answer_number (from_str text.now) }
    ensures answer_after { answer.new ≡ record_for result (paint_record (from_str text.now)) answer.old }
{
    match paint::from_str(text) {
        Ok(paint) => packed::paint_number(paint),
        Err(e) => refused(answer, e),
    }
}

#[tactic(auto, using(records::proofs::Wholes::paint_refused))]
fn refused(answer: &mut [u64; 24], e: Refusal) -> u64
    ensures value { result ≡ 0 }
    ensures answer_after { answer.new ≡ paint_record (Err e) }
{
    records::refused(answer, e);
    0
}
