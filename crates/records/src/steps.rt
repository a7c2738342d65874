// The record of a step of a list.
ghost use Rattle.std.specs.Prelude.{◌≡◌};
ghost use Rattle.records.specs.Records.{length_step_record, filter_record};

use crate::{State, entries, filters, written};
use filter_functions::Listed;
use length::Length;
use numbers::Written;
use stream::Step;

#[tactic(auto, using(crate::proofs::Listing::length_refused, crate::proofs::Listing::length_end, crate::proofs::Listing::length_value))]
pub fn write_length_step(out: &mut [u64; 24], step: Step<Option<Written<Length>>>)
    ensures { out.new ≡ length_step_record step }
{
    match step.item {
        Err(e) => written::refused(out, e, State::Refused.number(), step.place),
        Ok(None) => written::ended(out, State::End.number(), step.place),
        Ok(Some(w)) => {
            let bits = entries::bits_of(w.value.number);
            let unit = entries::length_unit(w.value.unit);
            written::found(
                out,
                step.place,
                [bits, unit, u64::from(w.whole), w.end.0 as u64],
            );
        }
    }
}

#[tactic(auto, using(crate::proofs::Listing::filter_refused, crate::proofs::Listing::filter_end, crate::proofs::Listing::filter_none, crate::proofs::Listing::filter_value))]
pub fn write_filter(out: &mut [u64; 24], step: Step<Listed>)
    ensures { out.new ≡ filter_record step }
{
    match step.item {
        Err(e) => written::refused(out, e, State::Refused.number(), step.place),
        Ok(Listed::End) => written::ended(out, State::End.number(), step.place),
        Ok(Listed::NoneWord) => written::ended(out, State::NoneWord.number(), step.place),
        Ok(Listed::Value(value)) => filters::write_value(out, value, step.place),
    }
}
