// Links as whole texts, sooner: most are `url(#name)` or `#name` of ASCII bytes that no reader has to judge, and nothing else.
#![tactic(auto)]

ghost use Rattle.std.specs.Prelude.{◌≡◌, ◌+◌, ◌≤◌, leb, length};
ghost use Rattle.text_bytes.specs.Scan.{scan};
ghost use Rattle.funciri.specs.Answers.{iri_from_str, func_iri_from_str};
ghost use Rattle.fast_funciri.specs.Bare.{is_bare_byte};

use stream::{LIMIT, Refusal};
use text_bytes::{ByteClass, Part, Place};

struct BareByte;

impl ByteClass for BareByte {
    ghost class = { λ _. is_bare_byte };

    fn contains(&self, b: u8) -> bool {
        is_bare(b)
    }
}

#[tactic(auto, unfolding(text_bytes::specs::Bytes::within))]
fn is_bare(b: u8) -> bool
    ensures { result ≡ is_bare_byte b }
{
    matches!(b, 42..=127)
}

// Whether the run at `at` has four bytes. No test waits for another, so that two fours are compared at once.
#[tactic(auto, using(crate::proofs::Runs::four_run))]
fn four_bare(text: &[u8], at: Place) -> bool
    requires { at.0 + 4 ≤ length text.now }
    ensures { result ≡ leb (at.0 + 4) (scan is_bare_byte text.now at.0) }
{
    let i = at.0;
    is_bare(text[i]) & (is_bare(text[i + 1]) & (is_bare(text[i + 2]) & is_bare(text[i + 3])))
}

// A place that is inside the run at `at` or ends it, gone to by eights. A loop: byte by byte, as `scan` goes, is what this is to be sooner than.
#[tactic(auto, using(crate::proofs::Runs::stride))]
fn eights(text: &[u8], at: Place) -> Place
    requires { at.0 ≤ length text.now }
    ensures { scan is_bare_byte text.now result.0 ≡ scan is_bare_byte text.now at.0 }
{
    let mut i = at.0;
    while i + 8 <= text.len() && four_bare(text, Place(i)) & four_bare(text, Place(i + 4)) {
        i += 8;
    }
    Place(i)
}

// The end of the run at `at` of bytes that no reader of a link has to judge: most links are such a run.
pub fn skip_bare(text: &[u8], at: Place) -> Place
    requires { at.0 ≤ length text.now }
    ensures { result.0 ≡ scan is_bare_byte text.now at.0 }
{
    text_bytes::scan(text, eights(text, at), &BareByte)
}

#[tactic(auto, using(crate::proofs::Links::iri_link, crate::proofs::Links::hash_inside))]
pub fn iri_from_str(text: &[u8]) -> Result<Part, Refusal>
    ensures { result ≡ iri_from_str text.now }
{
    if text.len() <= LIMIT && text_bytes::is_curr_byte_eq(text, Place(0), b'#') {
        let end = skip_bare(text, Place(1)).0;
        if 1 < end && end == text.len() {
            return Ok(Part {
                start: Place(1),
                len: end - 1,
            });
        }
    }
    funciri::iri_from_str(text)
}

#[tactic(auto, using(crate::proofs::Links::url_link, crate::proofs::Links::url_inside))]
pub fn func_iri_from_str(text: &[u8]) -> Result<Part, Refusal>
    ensures { result ≡ func_iri_from_str text.now }
{
    if text.len() <= LIMIT && text_bytes::begins(text, b"url(#") {
        let end = skip_bare(text, Place(5)).0;
        if 5 < end && end < text.len() && text[end] == b')' && end + 1 == text.len() {
            return Ok(Part {
                start: Place(5),
                len: end - 5,
            });
        }
    }
    funciri::func_iri_from_str(text)
}
