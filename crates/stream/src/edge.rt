// The edge: which text may be read, and the refusal that a fault is.
ghost use Rattle.std.specs.Prelude.{◌≡◌, Ok};
ghost use Rattle.utf8.specs.Characters.{utf8_of, on_character};
ghost use Rattle.stream.specs.Refusals.{bare_refusal, empty_refusal, refusal_at, refusal_of, admit_text, admit_place};

use crate::{Fault, LIMIT, Reason, Refusal, Trouble};
use text_bytes::{Place, is_tail};
use utf8::{calc_char_pos_at, utf8_test};

// Nothing but the reason and an empty stretch.
pub fn empty_refusal(reason: Reason, at: Place) -> Refusal
    ensures { result ≡ empty_refusal reason at.0 }
{
    Refusal {
        reason,
        position: None,
        from: at,
        to: at,
    }
}

// Nothing but the reason.
pub fn bare_refusal(reason: Reason) -> Refusal
    ensures { result ≡ bare_refusal reason }
{
    empty_refusal(reason, Place(0))
}

// A refusal at a place of the text: its position, and an empty stretch there.
pub fn refusal_at(text: &[u8], reason: Reason, at: Place) -> Refusal
    requires { utf8_of text.now ≡ Ok tt }
    ensures { result ≡ refusal_at text.now reason at.0 }
{
    Refusal {
        reason,
        position: Some(calc_char_pos_at(text, at)),
        from: at,
        to: at,
    }
}

// The refusal that a fault is. Here alone characters are counted, once a refusal.
#[tactic(auto, unfolding(crate::specs::Refusals::refusal_of, crate::specs::Refusals::number_of))]
pub fn refusal_of(text: &[u8], fault: Fault) -> Refusal
    requires { utf8_of text.now ≡ Ok tt }
    ensures { result ≡ refusal_of text.now fault }
{
    let position = if matches!(
        fault.trouble,
        Trouble::UnexpectedEndOfStream | Trouble::InvalidValue
    ) {
        None
    } else {
        Some(calc_char_pos_at(text, fault.at))
    };
    Refusal {
        reason: Reason::Unread(fault.trouble),
        position,
        from: fault.from,
        to: fault.to,
    }
}

// Whether a UTF-8 text has a character's first byte, or its end, at a place.
#[tactic(auto, using(crate::proofs::Edges::on_first, crate::proofs::Edges::on_last))]
fn on_character(text: &[u8], place: Place) -> bool
    requires { utf8_of text.now ≡ Ok tt }
    ensures { result ≡ on_character text.now place.0 }
{
    let i = place.0;
    if i < text.len() {
        return !is_tail(text[i]);
    }
    i == text.len()
}

// Whether a text may be read: 1, then 2. Compiled into its callers, so that an admitted text makes no refusal in memory.
#[inline(always)]
#[tactic(auto, unfolding(crate::specs::Refusals::admit_text, crate::specs::Refusals::admit_utf8))]
pub fn admit_text(text: &[u8]) -> Result<(), Refusal>
    ensures { result ≡ admit_text text.now }
{
    if LIMIT < text.len() {
        return Err(bare_refusal(Reason::TextTooLong));
    }
    utf8_test(text).map_err(|place| empty_refusal(Reason::IllFormed, place))
}

// Whether a list may be read from a place of a text whose admission is known. That it is known stands in a clause: a type with an
// invariant would ask more of the callers of this and of `refusal_of`, which are public.
#[tactic(auto, unfolding(crate::specs::Refusals::admit_place), using(crate::proofs::Edges::admitted_utf8))]
pub fn admit_from(text: &[u8], admission: Result<(), Refusal>, place: Place) -> Result<(), Refusal>
    requires { admission ≡ admit_text text.now }
    ensures { result ≡ admit_place text.now place.0 }
{
    admission?;
    if !on_character(text, place) {
        return Err(bare_refusal(Reason::BadListPlace));
    }
    Ok(())
}

// Whether a list in a text may be read from a place: 1, 2, then 3.
pub fn admit_place(text: &[u8], place: Place) -> Result<(), Refusal>
    ensures { result ≡ admit_place text.now place.0 }
{
    admit_from(text, admit_text(text), place)
}
