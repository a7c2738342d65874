// The record of an answer that counts what was written into lent bytes.
#![tactic(auto)]

ghost use Rattle.std.specs.Prelude.{◌≡◌};
ghost use Rattle.counts.specs.Counts.{set_back_record};

use stream::Refusal;
use text_bytes::Place;

#[tactic(auto, using(crate::proofs::Rows::count_refused, crate::proofs::Rows::count_written))]
pub fn write_set_back(out: &mut [u64; 24], answer: Result<usize, Refusal>)
    ensures { out.new ≡ set_back_record answer }
{
    match answer {
        Err(e) => records::refused(out, e),
        Ok(n) => records::written::found(out, Place(0), [n as u64]),
    }
}
