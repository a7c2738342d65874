// How a step of a list is made.
ghost use Rattle.std.specs.Prelude.{◌≡◌, Ok};
ghost use Rattle.utf8.specs.Characters.{utf8_of};
ghost use Rattle.stream.specs.Steps.{refused_step, edged};

use crate::{Fault, Read, Refusal, Step, refusal_of};
use text_bytes::Place;

impl<T> Step<T> {
    pub fn refused(refusal: Refusal, place: Place) -> Step<T>
        ensures { result ≡ refused_step refusal place }
    {
        Step {
            item: Err(refusal),
            place,
        }
    }

    // The step that a reading of a list is: what is refused gives the end of the text.
    #[tactic(auto, unfolding(crate::specs::Steps::edged))]
    pub fn edged(text: &[u8], read: Result<Read<T>, Fault>) -> Step<T>
        requires { utf8_of text.now ≡ Ok tt }
        ensures { result ≡ edged text.now read }
    {
        match read {
            Ok(read) => Step {
                item: Ok(read.value),
                place: read.next,
            },
            Err(fault) => Step::refused(refusal_of(text, fault), Place(text.len())),
        }
    }
}
