// A case line, taken apart, and its answer.
use crate::fields::{Text, Unanswered, place, split_field, text};
use crate::lines::Answer;
use crate::out::Line;
use inherit::Whose;
use records::State;
use std::fmt;
use text_bytes::Place;

// A call, and what it is made on: a text, with a place where it is a step of a list; of the inherit rule the own text and the parent's.
#[derive(Clone, Copy)]
pub enum Case<'a> {
    Color(&'a [u8]),
    Length(&'a [u8]),
    Lengths(&'a [u8], Place),
    Angle(&'a [u8]),
    Iri(&'a [u8]),
    FuncIri(&'a [u8]),
    Paint(&'a [u8]),
    Inherit(&'a [u8], &'a [u8]),
    Filter(&'a [u8], Place),
}

// Two fields: the place stands before the text.
fn placed<'a>(room: &'a mut Text, fields: &str) -> Result<(&'a [u8], Place), Unanswered> {
    let (before, field) = split_field(fields)?;
    Ok((text(room, field)?, place(before)?))
}

impl<'a> Case<'a> {
    // Each text stands in a room, the parent's of the inherit rule in the second.
    pub fn parse(
        line: &[u8],
        first: &'a mut Text,
        second: &'a mut Text,
    ) -> Result<Case<'a>, Unanswered> {
        let line = str::from_utf8(line).map_err(|_| Unanswered::NoCase)?;
        let (call, fields) = split_field(line)?;
        match call {
            "color" => Ok(Case::Color(text(first, fields)?)),
            "length" => Ok(Case::Length(text(first, fields)?)),
            "lengths" => {
                let (list, at) = placed(first, fields)?;
                Ok(Case::Lengths(list, at))
            }
            "angle" => Ok(Case::Angle(text(first, fields)?)),
            "iri" => Ok(Case::Iri(text(first, fields)?)),
            "funciri" => Ok(Case::FuncIri(text(first, fields)?)),
            "paint" => Ok(Case::Paint(text(first, fields)?)),
            "inherit" => {
                let (own, parent) = split_field(fields)?;
                Ok(Case::Inherit(text(first, own)?, text(second, parent)?))
            }
            "filter" => {
                let (list, at) = placed(first, fields)?;
                Ok(Case::Filter(list, at))
            }
            _ => Err(Unanswered::NoCase),
        }
    }

    fn row(&self) -> [u64; 24] {
        let mut row = [0; 24];
        match self {
            Case::Color(text) => records::write_color(&mut row, color::from_str(text)),
            Case::Length(text) => records::write_length(&mut row, length::from_str(text)),
            Case::Lengths(list, at) => {
                records::write_length_step(&mut row, length::next(list, *at));
            }
            Case::Angle(text) => records::write_angle(&mut row, angle::from_str(text)),
            Case::Iri(text) => records::write_link(&mut row, funciri::iri_from_str(text)),
            Case::FuncIri(text) => records::write_link(&mut row, funciri::func_iri_from_str(text)),
            Case::Paint(text) => records::write_paint(&mut row, paint::from_str(text)),
            Case::Inherit(own, parent) => {
                records::write_inherited(&mut row, inherit::inherited(own, parent));
            }
            Case::Filter(list, at) => {
                records::write_filter(&mut row, filter_functions::next(list, *at));
            }
        }
        row
    }

    // The text that the row speaks of: the inherit rule's row says whose, in its tenth entry.
    fn text(&self, row: &[u64; 24]) -> &[u8] {
        match self {
            Case::Inherit(_, parent) if row[9] == u64::from(Whose::Parent.number()) => parent,
            Case::Inherit(text, _) | Case::Lengths(text, _) | Case::Filter(text, _) => text,
            Case::Color(text) | Case::Length(text) | Case::Angle(text) => text,
            Case::Iri(text) | Case::FuncIri(text) | Case::Paint(text) => text,
        }
    }

    // Puts the answer into a line.
    pub fn answer(&self, line: &mut Line) -> fmt::Result {
        let row = self.row();
        let text = self.text(&row);
        let mut answer = Answer::new(line, &row, text)?;
        let [_, _, _, _, _, _, _, state, place, ..] = row;
        match self {
            Case::Color(_) => answer.put_color(),
            Case::Length(_) => answer.put_length(),
            Case::Lengths(..) => {
                answer.put_step(state, place)?;
                answer.put_length()
            }
            Case::Angle(_) => answer.put_angle(),
            Case::Iri(_) | Case::FuncIri(_) => answer.put_link(text),
            Case::Paint(_) => answer.put_paint(),
            Case::Inherit(..) => answer.put_inherited(text),
            Case::Filter(..) => {
                answer.put_step(state, place)?;
                // Only a value has a result.
                if state == State::Value.number() {
                    answer.put_filter()?;
                }
                Ok(())
            }
        }
    }
}
