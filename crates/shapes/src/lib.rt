// A shape is a list of atoms, and a text is walked by it, atom by atom: to its end, or how far it goes.
#![tactic(auto)]

ghost use Rattle.std.specs.Prelude.{◌≡◌, map, ◌-◌};
ghost use Rattle.shapes.specs.Walk.{push, below, signed, digits, dot, fraction, act, ends, atom_of, walk};
ghost use Rattle.shapes.specs.Consume.{consume};

use numbers::LIMIT;
use text_bytes::Place;

// What may come next. A number has five, by what came of it: whether a dot may come, what its digits say, how many came after the dot.
// `dots` is a flag: the definition tests it by `if`, and an enum of two would be turned into one there.
#[derive(Clone, Copy)]
pub enum Atom {
    Spaces,
    Hex,
    Byte(u8),
    Number { dots: bool },
    Signed { dots: bool },
    Digits { dots: bool, m: u64 },
    Dot { m: u64 },
    Fraction { m: u64, k: u64 },
}

// What an atom does with a byte: hands it on to the next, takes it and stays, takes it and is done, or is lost.
#[derive(Clone, Copy)]
pub enum Act {
    Pass,
    Stay(Atom),
    Next,
    Lost,
}

impl Atom {
    // What comes of an atom at a byte.
    #[tactic(auto, unfolding(crate::specs::Walk::act))]
    fn act(self, b: u8) -> Act
        ensures { result ≡ act self b }
    {
        match self {
            Atom::Spaces if text_bytes::is_space(b) => Act::Stay(Atom::Spaces),
            Atom::Spaces => Act::Pass,
            Atom::Hex if text_bytes::is_hex_digit(b) => Act::Next,
            Atom::Hex => Act::Lost,
            Atom::Byte(c) if text_bytes::to_ascii_lowercase(b) == c => Act::Next,
            Atom::Byte(_) => Act::Lost,
            Atom::Number { dots } if text_bytes::is_sign(b) => Act::Stay(Atom::Signed { dots }),
            Atom::Number { dots } => signed(dots, b),
            Atom::Signed { dots } => signed(dots, b),
            Atom::Digits { dots, m } => digits(dots, m, b),
            Atom::Dot { m } => dot(m, b),
            Atom::Fraction { m, k } => fraction(m, k, b),
        }
    }

    // Whether an atom may end where it stands.
    #[tactic(auto, unfolding(crate::specs::Walk::ends))]
    fn ends(self) -> bool
        ensures { result ≡ ends self }
    {
        matches!(
            self,
            Atom::Spaces | Atom::Digits { .. } | Atom::Fraction { .. }
        )
    }
}

// One digit more, held at 2^53.
fn push(m: u64, b: u8) -> u64
    ensures { result ≡ push m b }
{
    numbers::push_digit(m, b, LIMIT)
}

// A number goes on while its digits stay below 2^53.
fn below(n: u64, a: Atom) -> Act
    ensures { result ≡ below n a }
{
    if n < LIMIT { Act::Stay(a) } else { Act::Lost }
}

// Nothing but a sign came, if that.
#[tactic(auto, unfolding(crate::specs::Walk::signed))]
fn signed(dots: bool, b: u8) -> Act
    ensures { result ≡ signed dots b }
{
    if text_bytes::is_digit(b) {
        return Act::Stay(Atom::Digits {
            dots,
            m: push(0, b),
        });
    }
    if dots && b == b'.' {
        return Act::Stay(Atom::Dot { m: 0 });
    }
    Act::Lost
}

// Digits came. A dot is taken only where a 0 can follow it.
#[tactic(auto, unfolding(crate::specs::Walk::digits))]
fn digits(dots: bool, m: u64, b: u8) -> Act
    ensures { result ≡ digits dots m b }
{
    if text_bytes::is_digit(b) {
        let m = push(m, b);
        return below(m, Atom::Digits { dots, m });
    }
    if dots && b == b'.' {
        return below(push(m, b'0'), Atom::Dot { m });
    }
    Act::Pass
}

// A dot came.
#[tactic(auto, unfolding(crate::specs::Walk::dot))]
fn dot(m: u64, b: u8) -> Act
    ensures { result ≡ dot m b }
{
    if text_bytes::is_digit(b) {
        let m = push(m, b);
        return below(m, Atom::Fraction { m, k: 1 });
    }
    Act::Lost
}

// So many digits came after the dot.
#[tactic(auto, unfolding(crate::specs::Walk::fraction))]
fn fraction(m: u64, k: u64, b: u8) -> Act
    ensures { result ≡ fraction m k b }
{
    if !text_bytes::is_digit(b) {
        return Act::Pass;
    }
    if k < 22 {
        let m = push(m, b);
        return below(m, Atom::Fraction { m, k: k + 1 });
    }
    Act::Lost
}

// How a shape is written: 1, 2, 3 and 4 for white space, a hex digit, a whole number and a number, any other byte for itself.
// Codes and no enum: `walk` promises what it does of any bytes (docs/PROMISES.md).
#[tactic(auto, unfolding(crate::specs::Walk::atom_of))]
fn atom_of(code: u8) -> Atom
    ensures { result ≡ atom_of code }
{
    match code {
        1 => Atom::Spaces,
        2 => Atom::Hex,
        3 => Atom::Number { dots: false },
        4 => Atom::Number { dots: true },
        c => Atom::Byte(c),
    }
}

// The place where an atom has come to its end, or else where it is lost. The place is the answer: an iterator's count would have to be turned back into it at each exit.
#[tactic(auto, using(crate::proofs::Walks::consume_pass, crate::proofs::Walks::consume_stay, crate::proofs::Walks::consume_next, crate::proofs::Walks::consume_lost, crate::proofs::Walks::consume_end))]
fn consume(atom: Atom, text: &[u8], at: Place) -> Result<Place, Place>
    ensures { result ≡ consume atom text.now at.0 }
{
    let mut i = at.0;
    let mut a = atom;
    while i < text.len() {
        match a.act(text[i]) {
            Act::Pass => return Ok(Place(i)),
            Act::Stay(next) => {
                i += 1;
                a = next;
            }
            Act::Next => return Ok(Place(i + 1)),
            Act::Lost => return Err(Place(i)),
        }
    }
    if a.ends() {
        Ok(Place(i))
    } else {
        Err(Place(i))
    }
}

// Whether a text is walked to its end, or else how far.
#[tactic(auto, using(crate::proofs::Walks::walked))]
pub fn walk(shape: &[u8], text: &[u8]) -> Result<(), Place>
    ensures { result ≡ walk 0 (map atom_of shape.now) text.now }
{
    let mut at = Place(0);
    for code in shape {
        at = consume(atom_of(*code), text, at)?;
    }
    if at.0 < text.len() {
        return Err(at);
    }
    Ok(())
}
