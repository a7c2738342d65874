// An answer as C's row of 24 numbers, laid out alike for every call, and written straight into the entries that are lent.
#![tactic(auto)]

ghost use Rattle.std.specs.Prelude.{◌≡◌};
ghost use Rattle.records.specs.Records.{state_number};

mod answers;
mod entries;
mod filters;
mod steps;
pub mod written;

pub use answers::{
    refused, write_angle, write_color, write_inherited, write_length, write_link, write_paint,
};
pub use entries::{angle_unit, bits_of, length_unit};
pub use filters::{shadow, write_value};
pub use steps::{write_filter, write_length_step};

// What a row tells of a list. No list has a row with the state of a value, too.
#[derive(Clone, Copy, Debug, PartialEq, Eq)]
pub enum State {
    Value,
    End,
    NoneWord,
    Refused,
}

impl State {
    #[tactic(auto, unfolding(crate::specs::Records::state_number))]
    pub fn number(self) -> u64
        ensures { result ≡ state_number self }
    {
        match self {
            State::Value => 0,
            State::End => 1,
            State::NoneWord => 2,
            State::Refused => 3,
        }
    }
}
