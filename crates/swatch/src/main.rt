// Reads one colour text by the reading that a first line asks for, and prints what it reads as. It answers once the text's line has come.
#![tactic(auto)]

ghost use Rattle.std.specs.Prelude.{◌≡◌, ◌≤◌, length};

use color::Color;
use std::io;
use std::io::Read;
use stream::{LIMIT, Reason, Refusal};
use text_bytes::Place;

fn print_answer(rt: &impl Print, code: u8, at: usize, c: Color) -> io::Result<()> {
    println!(rt;
        "code={code}\nat={at}\nrgba={},{},{},{}",
        c.red, c.green, c.blue, c.alpha
    )
}

// Where a refusal is: its position, but for 2 its place.
fn refused_at(r: Refusal) -> usize {
    match (r.reason, r.position) {
        (Reason::IllFormed, _) => r.from.0,
        (_, Some(position)) => position.0,
        _ => 0,
    }
}

fn print_refusal(rt: &impl Print, r: Refusal) -> io::Result<()> {
    let zeros = Color {
        red: 0,
        green: 0,
        blue: 0,
        alpha: 0,
    };
    print_answer(rt, r.reason.number(), refused_at(r), zeros)
}

// What is there already, at most a piece; how many bytes that is. 0: the input has ended, or cannot be read,
// which is the same to this program.
fn read_some(input: &mut impl Read, piece: &mut [u8]) -> usize
    ensures result_in_bounds { result ≤ length piece.new }
    ensures piece_len_unchanged { length piece.new ≡ length piece.old }
{
    input.read(piece).unwrap_or(0)
}

// Reads until what has come is enough, or the input ends; how many bytes have come. 4,109 are always enough (strict's `full`): the space does not fill.
// The bytes are counted, as a read may bring fewer than a piece holds.
fn read_enough(input: &mut impl Read, space: &mut [u8]) -> usize
    ensures { result ≤ length space.new }
{
    let mut n: usize = 0;
    while LIMIT <= space.len() - n && !strict::is_enough(&space[..n]) {
        match read_some(input, &mut space[n..n + LIMIT]) {
            0 => return n,
            more => n += more,
        }
    }
    n
}

// Whether there may be more of a line.
fn read_past(input: &mut impl Read) -> bool {
    // one read takes at most what a text may have
    let mut piece = [0; LIMIT];
    let n = read_some(input, &mut piece);
    let end = text_bytes::skip_to_quote(&piece[..n], Place(0), b'\n');
    0 < n && n <= end.0
}

// The turns are counted to a number that no run uses up: a proved loop ends.
fn read_past_all(input: &mut impl Read) {
    for _ in 0..u64::MAX {
        if !read_past(input) {
            return;
        }
    }
}

// A line over the limit is answered before it has ended, and then read past: who writes it can write it to its end.
fn show(rt: &impl Print, input: &mut impl Read, text: &[u8]) -> io::Result<()> {
    match strict::asked(text) {
        Ok(c) => print_answer(rt, 0, 0, c),
        Err(r) => {
            print_refusal(rt, r)?;
            let end = text_bytes::skip_to_quote(text, Place(LIMIT), b'\n');
            if r.reason == Reason::TextTooLong && text.len() <= end.0 {
                read_past_all(input);
            }
            Ok(())
        }
    }
}

fn main(rt: HostRuntime) -> io::Result<()> {
    let mut space = [0; 65536];
    let mut input = rt.stdin();
    let n = read_enough(&mut input, &mut space);
    show(&rt, &mut input, &space[..n])
}
