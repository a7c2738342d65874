// The C boundary: every outside call. A text is lent as (pointer, length); the answer is written into a record of 24 numbers.
#![tactic(auto)]

ghost use Rattle.std.specs.Prelude.{◌≡◌, length};
ghost use Rattle.records.specs.Many.{fitting, filled, told_of, filter_at, length_at};
ghost use Rattle.records.specs.Records.{color_record, length_record, length_step_record, angle_record, link_record, paint_record, inherited_record, filter_record, record_for};
ghost use Rattle.counts.specs.Counts.{set_back_record};
ghost use Rattle.packed.specs.Numbers.{color_answer_number, paint_answer_number};
ghost use Rattle.angle.specs.Angles as angles;
ghost use Rattle.color.specs.Answer as colors;
ghost use Rattle.color.specs.Hex.{rgba};
ghost use Rattle.filter_functions.specs.Filters.{next_filter};
ghost use Rattle.inherit.specs.Rule.{inherited_of};
ghost use Rattle.funciri.specs.Answers.{iri_from_str, func_iri_from_str};
ghost use Rattle.length.specs.Lengths as lengths;
ghost use Rattle.lent.specs.Texts.{written};
ghost use Rattle.names.specs.Back.{name_over};
ghost use Rattle.paint.specs.Answers as paints;
ghost use Rattle.set_back.specs.Answers.{hex_answer, keyword_of, keyword_answer};
ghost use Rattle.set_back.specs.Texts.{hex_text};
ghost use Rattle.strict.specs.Answer.{strict_from_str};
ghost use Rattle.strict.specs.Asked.{asked_of};

use color::Color;
use text_bytes::Place;

mod many;

use many::{Filters, Lengths};

#[unsafe(no_mangle)]
pub extern "C" fn homeludaf_color(text: &[u8], answer: &mut [u64; 24])
    ensures { answer.new ≡ color_record (colors.from_str text.now) }
{
    records::write_color(answer, fast_color::from_str(text));
}

// The strict reading.
#[unsafe(no_mangle)]
pub extern "C" fn homeludaf_strict(text: &[u8], answer: &mut [u64; 24])
    ensures { answer.new ≡ color_record (strict_from_str text.now) }
{
    records::write_color(answer, strict::from_str(text));
}

// The reading that a first line asks for: what the program swatch reads.
#[unsafe(no_mangle)]
pub extern "C" fn homeludaf_asked(input: &[u8], answer: &mut [u64; 24])
    ensures { answer.new ≡ color_record (asked_of input.now) }
{
    records::write_color(answer, strict::asked(input));
}

// A colour as one number. It comes back in a register, and the record is filled for a refusal alone.
#[unsafe(no_mangle)]
pub extern "C" fn homeludaf_color_packed(text: &[u8], answer: &mut [u64; 24]) -> u64
    ensures value { result ≡ color_answer_number (colors.from_str text.now) }
    ensures answer_after { answer.new ≡ record_for result (color_record (colors.from_str text.now)) answer.old }
{
    fast_color::number(text, answer)
}

#[unsafe(no_mangle)]
pub extern "C" fn homeludaf_length(text: &[u8], answer: &mut [u64; 24])
    ensures { answer.new ≡ length_record (lengths.from_str text.now) }
{
    records::write_length(answer, fast_length::from_str(text));
}

// One step of a list of lengths, from a list place: the walk with room for one record, so that the reader has one caller, and is compiled into it.
#[unsafe(no_mangle)]
#[tactic(auto, using(crate::proofs::Single::length_single))]
pub extern "C" fn homeludaf_length_next(text: &[u8], place: usize, answer: &mut [u64; 24])
    ensures { answer.new ≡ length_step_record (lengths.next_length text.now place) }
{
    let mut t = [0; 2];
    many::write_steps(&Lengths, text, Place(place), answer, &mut t);
}

// An angle, with its degrees.
#[unsafe(no_mangle)]
pub extern "C" fn homeludaf_angle(text: &[u8], answer: &mut [u64; 24])
    ensures { answer.new ≡ angle_record (angles.from_str text.now) }
{
    records::write_angle(answer, fast_angle::from_str(text));
}

#[unsafe(no_mangle)]
pub extern "C" fn homeludaf_iri(text: &[u8], answer: &mut [u64; 24])
    ensures { answer.new ≡ link_record (iri_from_str text.now) }
{
    records::write_link(answer, fast_funciri::iri_from_str(text));
}

#[unsafe(no_mangle)]
pub extern "C" fn homeludaf_func_iri(text: &[u8], answer: &mut [u64; 24])
    ensures { answer.new ≡ link_record (func_iri_from_str text.now) }
{
    records::write_link(answer, fast_funciri::func_iri_from_str(text));
}

// The value's number, taken apart: so the reader has one caller, and is compiled into it.
#[unsafe(no_mangle)]
#[tactic(auto, using(crate::proofs::Packed::paint_none, crate::proofs::Packed::paint_some))]
pub extern "C" fn homeludaf_paint(text: &[u8], answer: &mut [u64; 24])
    ensures { answer.new ≡ paint_record (paints.from_str text.now) }
{
    let n = homeludaf_paint_packed(text, answer);
    if n == 0 {
        return;
    }
    records::write_paint(answer, Ok(packed::number_paint(n)));
}

// A paint as one number, likewise. The slice is taken anew: handed on whole it would be copied through memory.
#[unsafe(no_mangle)]
#[tactic(auto, using(fast_numbers::proofs::Told::all_text))]
pub extern "C" fn homeludaf_paint_packed(text: &[u8], answer: &mut [u64; 24]) -> u64
    ensures value { result ≡ paint_answer_number (paints.from_str text.now) }
    ensures answer_after { answer.new ≡ record_for result (paint_record (paints.from_str text.now)) answer.old }
{
    fast_paint::number(&text[0..], answer)
}

// The inherit rule, over an element's own text and its parent's.
#[unsafe(no_mangle)]
pub extern "C" fn homeludaf_inherited(own: &[u8], parent: &[u8], answer: &mut [u64; 24])
    ensures { answer.new ≡ inherited_record (inherited_of own.now parent.now) }
{
    records::write_inherited(answer, inherit::inherited(own, parent));
}

// One step of a list of filter values, from a list place: likewise.
#[unsafe(no_mangle)]
#[tactic(auto, using(crate::proofs::Single::filter_single))]
pub extern "C" fn homeludaf_filter_next(text: &[u8], place: usize, answer: &mut [u64; 24])
    ensures { answer.new ≡ filter_record (next_filter text.now place) }
{
    let mut t = [0; 2];
    many::write_steps(&Filters, text, Place(place), answer, &mut t);
}

// The steps of a list of filter values from a list place on: whole records, one after the other, up to and with the first that is no value, as many as fit.
// Told are how many there are, and the list place to go on from.
#[unsafe(no_mangle)]
pub extern "C" fn homeludaf_filter_all(
    text: &[u8],
    place: usize,
    answers: &mut [u64],
    told: &mut [u64; 2],
)
    ensures answers_after { answers.new ≡ filled (fitting (filter_at text.now) answers.old place) answers.old }
    ensures told_after { told.new ≡ told_of place (fitting (filter_at text.now) answers.old place) }
{
    many::write_steps(&Filters, text, Place(place), answers, told);
}

// The same of a list of lengths.
#[unsafe(no_mangle)]
pub extern "C" fn homeludaf_length_all(
    text: &[u8],
    place: usize,
    answers: &mut [u64],
    told: &mut [u64; 2],
)
    ensures answers_after { answers.new ≡ filled (fitting (length_at text.now) answers.old place) answers.old }
    ensures told_after { told.new ≡ told_of place (fitting (length_at text.now) answers.old place) }
{
    many::write_steps(&Lengths, text, Place(place), answers, told);
}

// A colour as hex digits, written into lent bytes.
#[unsafe(no_mangle)]
pub extern "C" fn homeludaf_hex(
    red: u8,
    green: u8,
    blue: u8,
    alpha: u8,
    short: bool,
    out: &mut [u8],
    answer: &mut [u64; 24],
)
    ensures answer_after { answer.new ≡ set_back_record (hex_answer (rgba red green blue alpha) short (length out.old)) }
    ensures out_after { out.new ≡ written (hex_text (rgba red green blue alpha) short) out.old }
{
    let color = Color {
        red,
        green,
        blue,
        alpha,
    };
    counts::write_set_back(answer, set_back::hex(color, short, out));
}

// A colour as its keyword, likewise.
#[unsafe(no_mangle)]
pub extern "C" fn homeludaf_keyword(
    red: u8,
    green: u8,
    blue: u8,
    alpha: u8,
    out: &mut [u8],
    answer: &mut [u64; 24],
)
    ensures answer_after { answer.new ≡ set_back_record (keyword_answer (rgba red green blue alpha) (length out.old)) }
    ensures out_after { out.new ≡ name_over (keyword_of (rgba red green blue alpha)) out.old }
{
    let color = Color {
        red,
        green,
        blue,
        alpha,
    };
    counts::write_set_back(answer, set_back::keyword(color, out));
}
