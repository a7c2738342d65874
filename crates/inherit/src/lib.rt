// The inherit rule (ours): whose text paints an element, its own or its parent's, and which part of it.
#![tactic(auto)]

ghost use Rattle.std.specs.Prelude.{◌≡◌};
ghost use Rattle.inherit.specs.Rule.{is_inherit, says, asked, inherited_of, theirs, inherited_part};
ghost use Rattle.inherit.specs.Paper.{whose_number, paper_inherited};

use paint::Paint;
use stream::Refusal;
use text_bytes::Part;

// Whose text it is: an element's own or its parent's.
#[derive(Clone, Copy, Debug, PartialEq, Eq)]
pub enum Whose {
    Own,
    Parent,
}

impl Whose {
    #[tactic(auto, unfolding(crate::specs::Paper::whose_number))]
    pub fn number(self) -> u8
        ensures { result ≡ whose_number self }
    {
        match self {
            Whose::Own => 1,
            Whose::Parent => 2,
        }
    }
}

// Whose text paints an element, and which part of it.
#[derive(Clone, Copy, Debug, PartialEq, Eq)]
pub struct Chosen {
    pub whose: Whose,
    pub part: Part,
}

// Why a text that was judged is no paint.
#[derive(Clone, Copy, Debug, PartialEq, Eq)]
pub struct WhoseRefusal {
    pub whose: Whose,
    pub refusal: Refusal,
}

#[tactic(auto, unfolding(crate::specs::Rule::is_inherit))]
fn is_inherit(paint: Paint) -> bool
    ensures { result ≡ is_inherit paint }
{
    matches!(paint, Paint::Inherit)
}

// The part of a text that paints; none where it is empty or reads `inherit`. A paint refuses an empty text, so it is asked only after that.
#[tactic(auto, using(crate::proofs::Said::says_refused, crate::proofs::Said::says_empty, crate::proofs::Said::says_unread, crate::proofs::Said::says_inherit, crate::proofs::Said::says_part, stream::proofs::Edges::admitted_small, stream::proofs::Edges::admitted_utf8))]
fn says(text: &[u8]) -> Result<Option<Part>, Refusal>
    ensures { result ≡ says text.now }
{
    stream::admit_text(text)?;
    let part = utf8::trim(text);
    if part.len == 0 {
        return Ok(None);
    }
    let paint = paint::parse_trimmed(text, part)?;
    if is_inherit(paint) {
        return Ok(None);
    }
    Ok(Some(part))
}

// What a text says for the one whose it is; none tells to ask higher up.
#[tactic(auto, unfolding(crate::specs::Rule::asked))]
fn asked(whose: Whose, text: &[u8]) -> Result<Option<Chosen>, WhoseRefusal>
    ensures { result ≡ asked whose text.now }
{
    let part = says(text).map_err(|refusal| WhoseRefusal { whose, refusal })?;
    Ok(part.map(|part| Chosen { whose, part }))
}

// Whose text paints an element, and which part of it; none where the one higher up is to be asked. A parent that is not chosen is not looked at.
#[tactic(auto, unfolding(crate::specs::Rule::inherited_of))]
pub fn inherited(own: &[u8], parent: &[u8]) -> Result<Option<Chosen>, WhoseRefusal>
    ensures value { result ≡ inherited_of own.now parent.now }
    ensures result_value { paper_inherited result ≡ paper_inherited (inherited_of own.now parent.now) }
{
    match asked(Whose::Own, own)? {
        None => asked(Whose::Parent, parent),
        told => Ok(told),
    }
}

// The text that is meant.
fn theirs<'a>(own: &'a [u8], parent: &'a [u8], whose: Whose) -> &'a [u8]
    ensures { result.now ≡ theirs own.now parent.now whose }
{
    match whose {
        Whose::Own => own,
        Whose::Parent => parent,
    }
}

// The bytes of the part that paints, an empty slice where there is no part, as docs/PROMISES.md has it. The two texts are lent by C apart.
#[tactic(auto, unfolding(crate::specs::Rule::inherited_part, crate::specs::Rule::bytes_of), using(crate::proofs::Holds::part_inside))]
pub fn inherited_part<'a>(own: &'a [u8], parent: &'a [u8]) -> &'a [u8]
    ensures { result.now ≡ inherited_part own.now parent.now }
{
    match inherited(own, parent) {
        Ok(Some(Chosen { whose, part })) => text_bytes::part_of(theirs(own, parent, whose), part),
        _ => &own[..0],
    }
}
