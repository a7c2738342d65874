// Many steps of a list at once: each from the list place of the one before it. The text is admitted once.
ghost use Rattle.std.specs.Prelude.{◌≡◌, ℕ, List, length};
ghost use Rattle.stream.specs.Refusals.{admit_text};
ghost use Rattle.records.specs.Many.{fitting, filled, told_of, filter_at, length_at};

use stream::Refusal;
use text_bytes::Place;

// A list whose steps are handed out as rows.
pub trait StepRows {
    // The row of the step at a place of a text.
    ghost row_at: { List ℕ → ℕ → List ℕ };

    fn write_step(
        &self,
        row: &mut [u64; 24],
        text: &[u8],
        admission: Result<(), Refusal>,
        place: Place,
    )
        requires { admission ≡ admit_text text.now }
        ensures { row.new ≡ row_at text.now place.0 };
}

#[derive(Clone, Copy)]
pub struct Filters;

impl StepRows for Filters {
    ghost row_at = { filter_at };

    fn write_step(
        &self,
        row: &mut [u64; 24],
        text: &[u8],
        admission: Result<(), Refusal>,
        place: Place,
    ) {
        fast_filter_functions::write_step(row, text, admission, place);
    }
}

#[derive(Clone, Copy)]
pub struct Lengths;

impl StepRows for Lengths {
    ghost row_at = { length_at };

    fn write_step(
        &self,
        row: &mut [u64; 24],
        text: &[u8],
        admission: Result<(), Refusal>,
        place: Place,
    ) {
        fast_length::write_step(row, text, admission, place);
    }
}

// A step in the part of the entries that a row takes.
fn write_row<S: StepRows>(
    list: &S,
    out: &mut [u64],
    text: &[u8],
    admission: Result<(), Refusal>,
    place: Place,
)
    requires admission { admission ≡ admit_text text.now }
    requires length { length out.old ≡ 24 }
    ensures row { out.new ≡ S.row_at text.now place.0 }
    ensures entries { length out.new ≡ 24 }
{
    if let Some(row) = out.as_mut_array::<24>() {
        list.write_step(row, text, admission, place);
    }
}

// Whole rows, one after the other, up to and with the first that is no value, as many as fit.
pub fn write_steps<S: StepRows>(
    list: &S,
    text: &[u8],
    place: Place,
    answers: &mut [u64],
    told: &mut [u64; 2],
)
    ensures answers_after { answers.new ≡ filled (fitting (S.row_at text.now) answers.old place.0) answers.old }
    ensures told_after { told.new ≡ told_of place.0 (fitting (S.row_at text.now) answers.old place.0) }
{
    let admission = stream::admit_text(text);
    let room = answers.len() / 24;
    let mut at = place.0;
    // By index: std's `as_chunks_mut` and `chunks_exact_mut` say nothing of what the slice ends as.
    for n in 0..room {
        let k = n * 24;
        write_row(list, &mut answers[k..k + 24], text, admission, Place(at));
        at = answers[k + 8] as usize;
        if answers[k + 7] != 0 {
            *told = [(n + 1) as u64, at as u64];
            return;
        }
    }
    *told = [room as u64, at as u64];
}
