// The fields of a case line: a place, a text in hex.
use hex::FromHexError;
use std::fmt;
use text_bytes::Place;

// No text is longer.
pub const TEXT: usize = 8192;

// The room of a text.
pub type Text = [u8; TEXT];

// Why a line has no answer.
#[derive(Clone, Copy, Debug, PartialEq, Eq)]
pub enum Unanswered {
    NoCase,
    NoRoom,
}

impl From<fmt::Error> for Unanswered {
    fn from(_: fmt::Error) -> Unanswered {
        Unanswered::NoRoom
    }
}

impl From<FromHexError> for Unanswered {
    fn from(_: FromHexError) -> Unanswered {
        Unanswered::NoCase
    }
}

// The first field and what stands after the space behind it.
pub fn split_field(fields: &str) -> Result<(&str, &str), Unanswered> {
    fields.split_once(' ').ok_or(Unanswered::NoCase)
}

// A place: decimal digits alone, where `parse` takes a sign.
pub fn place(field: &str) -> Result<Place, Unanswered> {
    if field.starts_with('+') {
        return Err(Unanswered::NoCase);
    }
    field.parse().map(Place).map_err(|_| Unanswered::NoCase)
}

// A text, at the start of its room: hex in small letters alone, where `decode_to_slice` takes capitals, `-` for no byte.
pub fn text<'a>(room: &'a mut Text, field: &str) -> Result<&'a [u8], Unanswered> {
    if field == "-" {
        return Ok(&room[..0]);
    }
    if field.is_empty() || 2 * TEXT < field.len() || field.bytes().any(|b| b.is_ascii_uppercase()) {
        return Err(Unanswered::NoCase);
    }
    let text = &mut room[..field.len() / 2];
    hex::decode_to_slice(field, text)?;
    Ok(text)
}
