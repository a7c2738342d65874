// The lent text as characters: UTF-8 by RFC 3629, positions, and trimming.
#![tactic(auto)]

mod blanks;
mod characters;

pub use blanks::{trim, trim_end, trimmed};
pub use characters::{calc_char_pos_at, skip_chars, utf8_test};

// A count of characters, from 1.
#[derive(Clone, Copy, Debug, PartialEq, Eq)]
pub struct Position(pub usize);
