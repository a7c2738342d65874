#![tactic(auto)]

// Theorems alone: the readers, held to the public documents. Each function's contract is a theorem, and it does nothing.

ghost use Rattle.standards.specs.Documents.{Documents};
ghost use Rattle.standards.specs.Readers.{Readers};
ghost use Rattle.standards.specs.Texts.{Utf8Texts, Trimming};
ghost use Rattle.standards.specs.Arithmetic.{Arithmetic};
ghost use Rattle.standards.specs.Notations.{WrittenNumbers, HexColors, ColourNames, NearestChannels, HslScales};
ghost use Rattle.standards.specs.Worked.{Examples, Algorithm, Sharp};

// Numbers, lengths, angles, colours, paints and filter lists: what each tree of the grammars is read as.
#[tactic(auto, using(crate::proofs::Whole::documents))]
pub fn documents()
    ensures { Documents }
{}

// Lists of lengths, links as whole texts, and what is left of filter lists.
#[tactic(auto, using(crate::proofs::Readers::readers))]
pub fn lists_and_links()
    ensures { Readers }
{}

// RFC 3629.
#[tactic(auto, using(crate::proofs::Proved::utf8_texts))]
pub fn utf8_texts()
    ensures { Utf8Texts }
{}

// Unicode's White_Space.
#[tactic(auto, using(crate::proofs::Proved::trimming))]
pub fn trimming()
    ensures { Trimming }
{}

// IEEE 754.
#[tactic(auto, using(crate::proofs::Proved::arithmetic))]
pub fn arithmetic()
    ensures { Arithmetic }
{}

// CSS Values 3: numbers, whatever stands about them.
#[tactic(auto, using(crate::proofs::Proved::written_numbers))]
pub fn written_numbers()
    ensures { WrittenNumbers }
{}

// CSS Color 4: the hex notations.
#[tactic(auto, using(crate::proofs::Proved::hex_colors))]
pub fn hex_colors()
    ensures { HexColors }
{}

// CSS Color 3: names.
#[tactic(auto, using(crate::proofs::Proved::colour_names))]
pub fn colour_names()
    ensures { ColourNames }
{}

// CSS Color 3: the channels of rgb() and rgba().
#[tactic(auto, using(crate::proofs::Proved::nearest_channels))]
pub fn nearest_channels()
    ensures { NearestChannels }
{}

// CSS Color 3: the channels of hsl() and hsla(), as far as they are fixed.
#[tactic(auto, using(crate::proofs::Proved::hsl_scales))]
pub fn hsl_scales()
    ensures { HslScales }
{}

// CSS Color 3: the examples that it shows.
#[tactic(auto, using(crate::proofs::Proved::worked_examples, crate::proofs::Proved::worked_algorithm))]
pub fn worked_examples()
    ensures reader { Examples }
    ensures algorithm { Algorithm }
{}

// Where "nearest" ends.
#[tactic(auto, using(crate::proofs::Proved::limits))]
pub fn limits()
    ensures { Sharp }
{}
