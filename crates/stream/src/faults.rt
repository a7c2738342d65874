// Faults, made in places alone.
ghost use Rattle.std.specs.Prelude.{◌≡◌};
ghost use Rattle.stream.specs.Faults.{trouble_at, unexpected_end, invalid_value, unexpected_data};
ghost use Rattle.stream.specs.Refusals.{is_outside_domain};

use crate::{Fault, Trouble};
use text_bytes::Place;

pub fn trouble_at(trouble: Trouble, at: Place, from: Place, to: Place) -> Fault
    ensures { result ≡ trouble_at trouble at.0 from.0 to.0 }
{
    Fault {
        trouble,
        at,
        from,
        to,
    }
}

pub fn unexpected_end(text: &[u8]) -> Fault
    ensures { result ≡ unexpected_end text.now }
{
    let end = Place(text.len());
    trouble_at(Trouble::UnexpectedEndOfStream, end, end, end)
}

pub fn invalid_value(at: Place) -> Fault
    ensures { result ≡ invalid_value at.0 }
{
    trouble_at(Trouble::InvalidValue, at, at, at)
}

pub fn unexpected_data(text: &[u8], at: Place) -> Fault
    ensures { result ≡ unexpected_data text.now at.0 }
{
    trouble_at(Trouble::UnexpectedData, at, at, Place(text.len()))
}

// Whether a fault is a number outside the domain, which nothing swallows.
#[tactic(auto, unfolding(crate::specs::Refusals::is_outside_domain))]
pub fn is_outside_domain(fault: Fault) -> bool
    ensures { result ≡ is_outside_domain fault }
{
    matches!(
        fault.trouble,
        Trouble::WrongForm | Trouble::TooLarge | Trouble::ScaleOutOfRange
    )
}
