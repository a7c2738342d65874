// A call's row of numbers, as the crate `records` lays it out, written as an answer of the line protocol.
use crate::out::Line;
use std::fmt;
use std::fmt::Write;
use text_bytes::{Part, Place};

// The entries that a result has.
type Entries = [u64; 15];

// The names of what a row has as numbers.
const STATES: [&str; 4] = ["value", "end", "end", "refused"];

const LENGTH_UNITS: [&str; 10] = ["none", "em", "ex", "px", "in", "cm", "mm", "pt", "pc", "%"];

const ANGLE_UNITS: [&str; 4] = ["deg", "grad", "rad", "turn"];

const WHOSE: [&str; 4] = ["-", "own", "parent", "higher"];

const PAINTS: [&str; 8] = [
    "-",
    "none",
    "inherit",
    "currentColor",
    "context-fill",
    "context-stroke",
    "color",
    "url",
];

const FALLBACKS: [&str; 4] = ["-", "none", "currentColor", "color"];

const FILTERS: [&str; 12] = [
    "-",
    "blur",
    "drop-shadow",
    "brightness",
    "contrast",
    "grayscale",
    "hue-rotate",
    "invert",
    "opacity",
    "sepia",
    "saturate",
    "url",
];

fn name(names: &[&'static str], n: u64) -> &'static str {
    names.get(n as usize).copied().unwrap_or("")
}

// So many bytes are written at once.
const PIECE: usize = 64;

// Bytes in hex, `-` for none.
#[derive(Clone, Copy)]
struct Hex<'a>(&'a [u8]);

impl fmt::Display for Hex<'_> {
    fn fmt<W: fmt::Write>(&self, f: &mut fmt::Formatter<W>) -> fmt::Result {
        if self.0.is_empty() {
            return f.write_str("-");
        }
        let mut room = [0; 2 * PIECE];
        for piece in self.0.chunks(PIECE) {
            let digits = room.get_mut(..2 * piece.len()).ok_or(fmt::Error)?;
            hex::encode_to_slice(piece, digits).map_err(|_| fmt::Error)?;
            f.write_str(str::from_utf8(digits).map_err(|_| fmt::Error)?)?;
        }
        Ok(())
    }
}

// The bytes of a part of the text.
fn part(text: &[u8], start: u64, len: u64) -> Hex<'_> {
    let part = Part {
        start: Place(start as usize),
        len: len as usize,
    };
    Hex(text_bytes::part_of(text, part))
}

// A row has a refusal's number and no enum, and the runs split neither 9 nor 10.
fn base_number(number: u64) -> u64 {
    match number {
        22 => 9,
        23 | 24 => 10,
        _ => number,
    }
}

// An answer line, and the result's entries, which stand in the row behind the refusal's and a list's.
#[derive(Drop)]
pub struct Answer<'a> {
    line: &'a mut Line,
    entries: Entries,
}

impl<'a> Answer<'a> {
    // A line that has the refusal, as each begins.
    pub fn new(line: &'a mut Line, row: &[u64; 24], text: &[u8]) -> Result<Answer<'a>, fmt::Error> {
        let [number, position, place, found, wanted, start, len, ..] = *row;
        let base = base_number(number);
        let string = part(text, start, len);
        write!(line, "{base} {position} {place} {found} {wanted} {string}")?;
        let mut entries = [0; 15];
        entries.copy_from_slice(&row[9..]);
        Ok(Answer { line, entries })
    }

    // A list's state and place.
    pub fn put_step(&mut self, state: u64, place: u64) -> fmt::Result {
        write!(self.line, " {} {place}", name(&STATES, state))
    }

    pub fn put_color(&mut self) -> fmt::Result {
        let [red, green, blue, alpha, ..] = self.entries;
        write!(self.line, " {red} {green} {blue} {alpha}")
    }

    pub fn put_length(&mut self) -> fmt::Result {
        let [bits, unit, ..] = self.entries;
        write!(self.line, " {bits:016x} {}", name(&LENGTH_UNITS, unit))
    }

    pub fn put_angle(&mut self) -> fmt::Result {
        let [bits, unit, degrees, ..] = self.entries;
        write!(
            self.line,
            " {bits:016x} {} {degrees:016x}",
            name(&ANGLE_UNITS, unit)
        )
    }

    // A link's start and length, and its bytes.
    pub fn put_link(&mut self, text: &[u8]) -> fmt::Result {
        let [start, len, ..] = self.entries;
        write!(self.line, " {start} {len} {}", part(text, start, len))
    }

    pub fn put_inherited(&mut self, text: &[u8]) -> fmt::Result {
        let [whose, start, len, ..] = self.entries;
        let whose = name(&WHOSE, whose);
        write!(
            self.line,
            " {whose} {start} {len} {}",
            part(text, start, len)
        )
    }

    pub fn put_paint(&mut self) -> fmt::Result {
        let [kind, start, len, fallback, red, green, blue, alpha, ..] = self.entries;
        let kind = name(&PAINTS, kind);
        let fallback = name(&FALLBACKS, fallback);
        write!(
            self.line,
            " {kind} {start} {len} {fallback} {red} {green} {blue} {alpha}"
        )
    }

    // A shadow's lengths, and its colour as one field.
    fn put_shadow(&mut self) -> fmt::Result {
        let [
            _,
            dx,
            x,
            dy,
            y,
            deviation,
            d,
            colored,
            red,
            green,
            blue,
            alpha,
            ..
        ] = self.entries;
        for (bits, unit) in [(dx, x), (dy, y), (deviation, d)] {
            write!(self.line, " {bits:016x} {}", name(&LENGTH_UNITS, unit))?;
        }
        if colored == 0 {
            return write!(self.line, " -");
        }
        write!(self.line, " {red},{green},{blue},{alpha}")
    }

    pub fn put_filter(&mut self) -> fmt::Result {
        let [kind, a, b, ..] = self.entries;
        let kind = name(&FILTERS, kind);
        write!(self.line, " {kind}")?;
        match kind {
            "drop-shadow" => self.put_shadow(),
            "blur" => write!(self.line, " {a:016x} {}", name(&LENGTH_UNITS, b)),
            "hue-rotate" => write!(self.line, " {a:016x} {}", name(&ANGLE_UNITS, b)),
            "url" => write!(self.line, " {a} {b}"),
            _ => write!(self.line, " {a:016x}"),
        }
    }
}
