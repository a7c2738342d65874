// Answers cases: one line in, one line out, by the line protocol of the runs.
// A test program: what it writes is held to the file `stdout`. Proved is that it is safe and that it ends.
#![tactic(auto)]

mod cases;
mod fields;
mod lines;
mod out;

use cases::Case;
use fields::{TEXT, Text, Unanswered};
use out::Line;
use std::io;
use std::io::Read;

// What one read takes at most.
const CHUNK: usize = 65536;

// The rooms that each line is answered in.
#[derive(Drop)]
struct Rooms {
    first: Text,
    second: Text,
    answer: Line,
}

// Puts a case's answer into its room.
fn put_answer(rooms: &mut Rooms, line: &[u8]) -> Result<(), Unanswered> {
    rooms.answer.clear();
    let case = Case::parse(line, &mut rooms.first, &mut rooms.second)?;
    case.answer(&mut rooms.answer)?;
    rooms.answer.put(b"\n");
    Ok(())
}

// A case's answer, written at once.
fn answer(rt: &impl Print, rooms: &mut Rooms, line: &[u8]) -> io::Result<()> {
    match put_answer(rooms, line) {
        Ok(()) => rt.write_all(rooms.answer.as_bytes()),
        Err(_) => rt.write_all(b"?\n"),
    }
}

// Answers each line that ends in what was read, and begins the next. What goes past the room for a line is dropped.
fn feed(rt: &impl Print, rooms: &mut Rooms, line: &mut Line, chunk: &[u8]) -> io::Result<()> {
    for piece in chunk.split_inclusive(|b| *b == b'\n') {
        match piece.strip_suffix(b"\n") {
            Some(end) => {
                line.put(end);
                answer(rt, rooms, line.as_bytes())?;
                line.clear();
            }
            None => line.put(piece),
        }
    }
    Ok(())
}

// One read, answered; whether the input goes on.
fn turn(
    rt: &impl Print,
    input: &mut impl Read,
    rooms: &mut Rooms,
    line: &mut Line,
) -> io::Result<bool> {
    let mut chunk = [0; CHUNK];
    let n = input.read(&mut chunk)?;
    feed(rt, rooms, line, &chunk[..n])?;
    Ok(0 < n)
}

fn main(rt: HostRuntime) -> io::Result<()> {
    let mut input = rt.stdin();
    let mut line = Line::new();
    let mut rooms = Rooms {
        first: [0; TEXT],
        second: [0; TEXT],
        answer: Line::new(),
    };
    // The turns are counted to a number that no run uses up: a proved loop ends.
    for _ in 0..u64::MAX {
        if !turn(&rt, &mut input, &mut rooms, &mut line)? {
            break;
        }
    }
    if line.is_empty() {
        return Ok(());
    }
    answer(&rt, &mut rooms, line.as_bytes())
}
