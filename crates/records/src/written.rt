// A row, written straight into the entries that are lent, case by case.
// Built beside them and then copied, all of its values would be live at one place, and most would be spilled there.
ghost use Rattle.std.specs.Prelude.{◌≡◌, [], ◌∷◌, ◌+◌, ◌≤◌, length};
ghost use Rattle.std.proofs.Math.Seq.{paste};
ghost use Rattle.stream.specs.Paper.{paper_refusal};
ghost use Rattle.records.specs.Records.{row, found_row, end_row, color_entries};

use color::Color;
use stream::{Reason, Refusal, Trouble};
use text_bytes::Place;

// A third of a row. Entry by entry, since a loop is compiled to a call that fills or copies memory.
#[tactic(auto, using(crate::proofs::Stores::eight_stored))]
fn eight(
    out: &mut [u64; 24],
    at: usize,
    a: u64,
    b: u64,
    c: u64,
    d: u64,
    e: u64,
    f: u64,
    g: u64,
    h: u64,
)
    requires { at + 8 ≤ 24 }
    ensures { out.new ≡ paste out.old at (a ∷ b ∷ c ∷ d ∷ e ∷ f ∷ g ∷ h ∷ []) 8 }
{
    out[at] = a;
    out[at + 1] = b;
    out[at + 2] = c;
    out[at + 3] = d;
    out[at + 4] = e;
    out[at + 5] = f;
    out[at + 6] = g;
    out[at + 7] = h;
}

// The columns that not every refusal tells are nought in the others.
#[tactic(auto, unfolding(stream::specs::Paper::paper_refusal))]
fn position_of(e: Refusal) -> u64
    ensures { result ≡ (paper_refusal e).position }
{
    match e.position {
        Some(position) => position.0 as u64,
        None => 0,
    }
}

// What one reason alone tells: a place, the bytes found and wanted, and where a part starts and how long it is.
#[tactic(auto, unfolding(stream::specs::Paper::paper_refusal))]
fn told_by(e: Refusal) -> [u64; 5]
    ensures { result ≡ (paper_refusal e).place.0 ∷ (paper_refusal e).found ∷ (paper_refusal e).wanted ∷ (paper_refusal e).part.start.0 ∷ (paper_refusal e).part.len ∷ [] }
{
    let from = e.from.0 as u64;
    match e.reason {
        Reason::IllFormed => [from, 0, 0, 0, 0],
        Reason::Unread(Trouble::InvalidChar { found, wanted }) => {
            [0, found as u64, wanted as u64, 0, 0]
        }
        Reason::Unread(Trouble::InvalidString) => {
            [0, 0, 0, from, e.to.0.saturating_sub(e.from.0) as u64]
        }
        _ => [0, 0, 0, 0, 0],
    }
}

// A refusal, with a list's state and place. The state is a number here: the row of a whole text, which is no step, has 0 there.
#[tactic(auto, using(crate::proofs::Laid::refused_row))]
pub fn refused(out: &mut [u64; 24], e: Refusal, state: u64, place: Place)
    ensures { out.new ≡ row (paper_refusal e) state place.0 [] }
{
    let [at, found, wanted, start, len] = told_by(e);
    let from = e.from.0 as u64;
    let to = e.to.0 as u64;
    eight(
        out,
        0,
        e.reason.number() as u64,
        position_of(e),
        at,
        found,
        wanted,
        start,
        len,
        state,
    );
    eight(out, 8, place.0 as u64, 0, 0, 0, 0, 0, 0, 0);
    eight(out, 16, 0, 0, 0, 0, 0, from, to, 0);
}

// A result of a few numbers, with a list's place or 0.
#[tactic(auto, using(crate::proofs::Laid::found_stored))]
pub fn found<const N: usize>(out: &mut [u64; 24], place: Place, numbers: [u64; N])
    requires { N ≤ 12 }
    ensures { out.new ≡ found_row place.0 numbers.entry }
{
    eight(out, 0, 0, 0, 0, 0, 0, 0, 0, 0);
    eight(out, 8, place.0 as u64, 0, 0, 0, 0, 0, 0, 0);
    eight(out, 16, 0, 0, 0, 0, 0, 0, 0, 0);
    out[9..9 + N].copy_from_slice(&numbers);
}

// The end of a list, which has no result.
#[tactic(auto, using(crate::proofs::Laid::ended_row))]
pub fn ended(out: &mut [u64; 24], state: u64, place: Place)
    ensures { out.new ≡ end_row state place.0 }
{
    found(out, place, []);
    out[7] = state;
}

// A colour in a row.
#[tactic(auto, using(crate::proofs::Stores::four_stored))]
pub fn color(out: &mut [u64], at: usize, c: Color)
    requires { at + 4 ≤ length out.old }
    ensures { out.new ≡ paste out.old at (color_entries c) 4 }
{
    out[at] = c.red as u64;
    out[at + 1] = c.green as u64;
    out[at + 2] = c.blue as u64;
    out[at + 3] = c.alpha as u64;
}
