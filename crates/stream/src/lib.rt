// Reading a lent text: bytes wanted, faults, refusals, and which text may be read.
#![tactic(auto)]

ghost use Rattle.std.specs.Prelude.{◌≡◌};
ghost use Rattle.stream.specs.Ends.{goes_on, whole, spaced, close};
ghost use Rattle.stream.specs.Faults.{consume_byte, consume_string, parse_list_separator};
ghost use Rattle.stream.specs.Refusals.{number_of, reason_number};

use text_bytes::Place;
use utf8::Position;

mod edge;
mod faults;
mod steps;

pub use edge::{
    admit_from, admit_place, admit_text, bare_refusal, empty_refusal, refusal_at, refusal_of,
};
pub use faults::{invalid_value, is_outside_domain, trouble_at, unexpected_data, unexpected_end};

// The most bytes of a text that may be read.
pub const LIMIT: usize = 4096;

// A value that was read, and the place where reading goes on.
#[derive(Clone, Copy)]
pub struct Read<T> {
    pub value: T,
    pub next: Place,
}

// What a reader meets, by svgtypes' names; its InvalidNumber is told apart into five.
#[derive(Clone, Copy, Debug, PartialEq, Eq)]
pub enum Trouble {
    UnexpectedEndOfStream,
    InvalidValue,
    UnexpectedData,
    InvalidChar { found: u8, wanted: u8 },
    InvalidString,
    WrongByte,
    TextEnded,
    WrongForm,
    TooLarge,
    ScaleOutOfRange,
    PercentageValue,
    NegativeValue,
    InvalidAngle,
    MissingDropShadowOffset,
    InvalidUrl,
}

impl Trouble {
    #[tactic(auto, unfolding(crate::specs::Refusals::number_of))]
    pub fn number(self) -> u8
        ensures { result ≡ number_of self }
    {
        match self {
            Trouble::UnexpectedEndOfStream => 4,
            Trouble::InvalidValue => 5,
            Trouble::UnexpectedData => 6,
            Trouble::InvalidChar { .. } => 7,
            Trouble::InvalidString => 8,
            Trouble::WrongByte => 9,
            Trouble::WrongForm => 10,
            Trouble::PercentageValue => 11,
            Trouble::NegativeValue => 12,
            Trouble::InvalidAngle => 13,
            Trouble::MissingDropShadowOffset => 14,
            Trouble::InvalidUrl => 15,
            Trouble::TextEnded => 22,
            Trouble::TooLarge => 23,
            Trouble::ScaleOutOfRange => 24,
        }
    }
}

// Why a call refuses: what the edge judges itself, what a reader met, or what a writer or the strict reading has against it.
#[derive(Clone, Copy, Debug, PartialEq, Eq)]
pub enum Reason {
    TextTooLong,
    IllFormed,
    BadListPlace,
    Unread(Trouble),
    BufferTooShort,
    NoKeyword,
    NotStrict,
}

impl Reason {
    #[tactic(auto, unfolding(crate::specs::Refusals::reason_number))]
    pub fn number(self) -> u8
        ensures { result ≡ reason_number self }
    {
        match self {
            Reason::TextTooLong => 1,
            Reason::IllFormed => 2,
            Reason::BadListPlace => 3,
            Reason::Unread(trouble) => trouble.number(),
            Reason::BufferTooShort => 16,
            Reason::NoKeyword => 17,
            Reason::NotStrict => 18,
        }
    }
}

// What an inside reader refuses, in places alone: `at` is where the position is taken from, `from` and
// `to` are the ends of the refused piece.
#[derive(Clone, Copy)]
pub struct Fault {
    pub trouble: Trouble,
    pub at: Place,
    pub from: Place,
    pub to: Place,
}

// What a caller is told: the reason, its position where one is listed, and the stretch that is refused.
#[derive(Clone, Copy, Debug, PartialEq, Eq)]
pub struct Refusal {
    pub reason: Reason,
    pub position: Option<Position>,
    pub from: Place,
    pub to: Place,
}

// A step of a list: what the list has at a place, or why it is refused; and the list place to go on from.
#[derive(Clone, Copy)]
pub struct Step<T> {
    pub item: Result<T, Refusal>,
    pub place: Place,
}

impl<T: Drop> Read<T> {
    // What was read, where no text is left after it.
    pub fn whole(self, text: &[u8]) -> Result<T, Fault>
        ensures { result ≡ whole text.now self }
    {
        if self.next.0 < text.len() {
            return Err(unexpected_data(text, self.next));
        }
        Ok(self.value)
    }

    // The same value, and the spaces after it passed.
    pub fn spaced(self, text: &[u8]) -> Read<T>
        ensures { result ≡ spaced text.now self }
    {
        Read {
            value: self.value,
            next: text_bytes::skip_spaces(text, self.next),
        }
    }

    // What a value that was read makes.
    pub fn map<U, F: FnOnce(T) -> U>(self, make: F) -> Read<U>
        requires { F.IsAlwaysCallable make }
        ensures value { F.post make self.value result.value }
        ensures next { result.next ≡ self.next }
    {
        Read {
            value: make(self.value),
            next: self.next,
        }
    }
}

// Whether text is left at a place.
pub fn goes_on(text: &[u8], at: Place) -> Result<(), Fault>
    ensures { result ≡ goes_on text.now at.0 }
{
    if at.0 >= text.len() {
        return Err(unexpected_end(text));
    }
    Ok(())
}

// The place after the byte `c`, which is wanted at `at`.
#[tactic(auto, unfolding(crate::specs::Faults::consume_byte))]
pub fn consume_byte(text: &[u8], at: Place, c: u8) -> Result<Place, Fault>
    ensures { result ≡ consume_byte text.now at.0 c }
{
    goes_on(text, at)?;
    let i = at.0;
    let found = text[i];
    if found != c {
        let trouble = Trouble::InvalidChar { found, wanted: c };
        return Err(trouble_at(trouble, at, at, Place(i + 1)));
    }
    Ok(Place(i + 1))
}

// The place after `word`, which is wanted at `at`.
#[tactic(auto, unfolding(crate::specs::Faults::consume_string), using(text_bytes::proofs::Wording::word_ends))]
pub fn consume_string(text: &[u8], at: Place, word: &[u8]) -> Result<Place, Fault>
    ensures { result ≡ consume_string text.now at.0 word.now }
{
    goes_on(text, at)?;
    let i = at.0;
    if text_bytes::starts_with(text, at, word) {
        return Ok(Place(i + word.len()));
    }
    let end = utf8::skip_chars(text, at, word.len().min(text.len() - i));
    Err(trouble_at(Trouble::InvalidString, at, at, end))
}

// The place after one optional comma.
#[tactic(auto, unfolding(crate::specs::Faults::parse_list_separator), using(text_bytes::proofs::Wording::curr_ends))]
pub fn parse_list_separator(text: &[u8], at: Place) -> Place
    ensures { result.0 ≡ parse_list_separator text.now at.0 }
{
    if text_bytes::is_curr_byte_eq(text, at, b',') {
        return Place(at.0 + 1);
    }
    at
}

// A value that was read, and the byte that closes it, spaces before it skipped.
pub fn close<T: Drop>(text: &[u8], at: Place, c: u8, value: T) -> Result<Read<T>, Fault>
    ensures { result ≡ close text.now at.0 c value }
{
    let next = consume_byte(text, text_bytes::skip_spaces(text, at), c)?;
    Ok(Read { value, next })
}
