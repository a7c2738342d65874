// The colour keywords of CSS Color 3, section 4.3, and the look-up of a word among them.
#![tactic(auto)]

ghost use Rattle.std.specs.Prelude.{◌≡◌, length, map, option_map};
ghost use Rattle.text_bytes.specs.Words.{lowered};
ghost use Rattle.names.specs.Look.{channels, named_of};
ghost use Rattle.names.specs.Order.{order};
ghost use Rattle.names.specs.Search.{entry_of};
ghost use Rattle.names.specs.Back.{same_colour, first_named, name_answer, name_over};
ghost use Rattle.names.specs.Keywords.{keywords};

use std::cmp::Ordering;
use stream::Reason;

#[derive(Clone, Copy, Debug, PartialEq, Eq)]
pub struct Rgb {
    pub red: u8,
    pub green: u8,
    pub blue: u8,
}

// `transparent` is no keyword of the standard; svgtypes reads it as 0, 0, 0 with alpha 0.
#[derive(Clone, Copy, Debug, PartialEq, Eq)]
pub enum Named {
    Keyword(Rgb),
    Transparent,
}

// A name, and its red, green and blue.
type Keyword = (&'static [u8], u8, u8, u8);

// In the order of the alphabet; a static, as a constant array is copied where it is named.
static KEYWORDS: [Keyword; 147] = [
    (b"aliceblue", 240, 248, 255),
    (b"antiquewhite", 250, 235, 215),
    (b"aqua", 0, 255, 255),
    (b"aquamarine", 127, 255, 212),
    (b"azure", 240, 255, 255),
    (b"beige", 245, 245, 220),
    (b"bisque", 255, 228, 196),
    (b"black", 0, 0, 0),
    (b"blanchedalmond", 255, 235, 205),
    (b"blue", 0, 0, 255),
    (b"blueviolet", 138, 43, 226),
    (b"brown", 165, 42, 42),
    (b"burlywood", 222, 184, 135),
    (b"cadetblue", 95, 158, 160),
    (b"chartreuse", 127, 255, 0),
    (b"chocolate", 210, 105, 30),
    (b"coral", 255, 127, 80),
    (b"cornflowerblue", 100, 149, 237),
    (b"cornsilk", 255, 248, 220),
    (b"crimson", 220, 20, 60),
    (b"cyan", 0, 255, 255),
    (b"darkblue", 0, 0, 139),
    (b"darkcyan", 0, 139, 139),
    (b"darkgoldenrod", 184, 134, 11),
    (b"darkgray", 169, 169, 169),
    (b"darkgreen", 0, 100, 0),
    (b"darkgrey", 169, 169, 169),
    (b"darkkhaki", 189, 183, 107),
    (b"darkmagenta", 139, 0, 139),
    (b"darkolivegreen", 85, 107, 47),
    (b"darkorange", 255, 140, 0),
    (b"darkorchid", 153, 50, 204),
    (b"darkred", 139, 0, 0),
    (b"darksalmon", 233, 150, 122),
    (b"darkseagreen", 143, 188, 143),
    (b"darkslateblue", 72, 61, 139),
    (b"darkslategray", 47, 79, 79),
    (b"darkslategrey", 47, 79, 79),
    (b"darkturquoise", 0, 206, 209),
    (b"darkviolet", 148, 0, 211),
    (b"deeppink", 255, 20, 147),
    (b"deepskyblue", 0, 191, 255),
    (b"dimgray", 105, 105, 105),
    (b"dimgrey", 105, 105, 105),
    (b"dodgerblue", 30, 144, 255),
    (b"firebrick", 178, 34, 34),
    (b"floralwhite", 255, 250, 240),
    (b"forestgreen", 34, 139, 34),
    (b"fuchsia", 255, 0, 255),
    (b"gainsboro", 220, 220, 220),
    (b"ghostwhite", 248, 248, 255),
    (b"gold", 255, 215, 0),
    (b"goldenrod", 218, 165, 32),
    (b"gray", 128, 128, 128),
    (b"green", 0, 128, 0),
    (b"greenyellow", 173, 255, 47),
    (b"grey", 128, 128, 128),
    (b"honeydew", 240, 255, 240),
    (b"hotpink", 255, 105, 180),
    (b"indianred", 205, 92, 92),
    (b"indigo", 75, 0, 130),
    (b"ivory", 255, 255, 240),
    (b"khaki", 240, 230, 140),
    (b"lavender", 230, 230, 250),
    (b"lavenderblush", 255, 240, 245),
    (b"lawngreen", 124, 252, 0),
    (b"lemonchiffon", 255, 250, 205),
    (b"lightblue", 173, 216, 230),
    (b"lightcoral", 240, 128, 128),
    (b"lightcyan", 224, 255, 255),
    (b"lightgoldenrodyellow", 250, 250, 210),
    (b"lightgray", 211, 211, 211),
    (b"lightgreen", 144, 238, 144),
    (b"lightgrey", 211, 211, 211),
    (b"lightpink", 255, 182, 193),
    (b"lightsalmon", 255, 160, 122),
    (b"lightseagreen", 32, 178, 170),
    (b"lightskyblue", 135, 206, 250),
    (b"lightslategray", 119, 136, 153),
    (b"lightslategrey", 119, 136, 153),
    (b"lightsteelblue", 176, 196, 222),
    (b"lightyellow", 255, 255, 224),
    (b"lime", 0, 255, 0),
    (b"limegreen", 50, 205, 50),
    (b"linen", 250, 240, 230),
    (b"magenta", 255, 0, 255),
    (b"maroon", 128, 0, 0),
    (b"mediumaquamarine", 102, 205, 170),
    (b"mediumblue", 0, 0, 205),
    (b"mediumorchid", 186, 85, 211),
    (b"mediumpurple", 147, 112, 219),
    (b"mediumseagreen", 60, 179, 113),
    (b"mediumslateblue", 123, 104, 238),
    (b"mediumspringgreen", 0, 250, 154),
    (b"mediumturquoise", 72, 209, 204),
    (b"mediumvioletred", 199, 21, 133),
    (b"midnightblue", 25, 25, 112),
    (b"mintcream", 245, 255, 250),
    (b"mistyrose", 255, 228, 225),
    (b"moccasin", 255, 228, 181),
    (b"navajowhite", 255, 222, 173),
    (b"navy", 0, 0, 128),
    (b"oldlace", 253, 245, 230),
    (b"olive", 128, 128, 0),
    (b"olivedrab", 107, 142, 35),
    (b"orange", 255, 165, 0),
    (b"orangered", 255, 69, 0),
    (b"orchid", 218, 112, 214),
    (b"palegoldenrod", 238, 232, 170),
    (b"palegreen", 152, 251, 152),
    (b"paleturquoise", 175, 238, 238),
    (b"palevioletred", 219, 112, 147),
    (b"papayawhip", 255, 239, 213),
    (b"peachpuff", 255, 218, 185),
    (b"peru", 205, 133, 63),
    (b"pink", 255, 192, 203),
    (b"plum", 221, 160, 221),
    (b"powderblue", 176, 224, 230),
    (b"purple", 128, 0, 128),
    (b"red", 255, 0, 0),
    (b"rosybrown", 188, 143, 143),
    (b"royalblue", 65, 105, 225),
    (b"saddlebrown", 139, 69, 19),
    (b"salmon", 250, 128, 114),
    (b"sandybrown", 244, 164, 96),
    (b"seagreen", 46, 139, 87),
    (b"seashell", 255, 245, 238),
    (b"sienna", 160, 82, 45),
    (b"silver", 192, 192, 192),
    (b"skyblue", 135, 206, 235),
    (b"slateblue", 106, 90, 205),
    (b"slategray", 112, 128, 144),
    (b"slategrey", 112, 128, 144),
    (b"snow", 255, 250, 250),
    (b"springgreen", 0, 255, 127),
    (b"steelblue", 70, 130, 180),
    (b"tan", 210, 180, 140),
    (b"teal", 0, 128, 128),
    (b"thistle", 216, 191, 216),
    (b"tomato", 255, 99, 71),
    (b"turquoise", 64, 224, 208),
    (b"violet", 238, 130, 238),
    (b"wheat", 245, 222, 179),
    (b"white", 255, 255, 255),
    (b"whitesmoke", 245, 245, 245),
    (b"yellow", 255, 255, 0),
    (b"yellowgreen", 154, 205, 50),
];

#[tactic(auto, unfolding(crate::specs::Keywords::keywords))]
fn table() -> &'static [Keyword]
    ensures { map entry_of result.now ≡ keywords }
{
    &KEYWORDS
}

fn colour_of(entry: &Keyword) -> Rgb
    ensures { result ≡ channels (entry_of entry.now) }
{
    Rgb {
        red: entry.1,
        green: entry.2,
        blue: entry.3,
    }
}

// How a name stands to a word, whose letters count as lower case. No library's order ignores the case of one side.
fn compare(name: &[u8], word: &[u8]) -> Ordering
    ensures { result ≡ order name.now (lowered word.now) }
{
    for (n, b) in name.iter().zip(word) {
        let stand = n.cmp(&text_bytes::to_ascii_lowercase(*b));
        if stand.is_ne() {
            return stand;
        }
    }
    name.len().cmp(&word.len())
}

// The colour that a word names, letter case ignored.
pub fn from_str(word: &[u8]) -> Option<Named>
    ensures { result ≡ named_of word.now }
{
    let keywords = table();
    match keywords.binary_search_by(|entry| compare(entry.0, word)) {
        Ok(k) => Some(Named::Keyword(colour_of(&keywords[k]))),
        Err(_) if text_bytes::equals_lowered(word, b"transparent") => Some(Named::Transparent),
        Err(_) => None,
    }
}

#[tactic(auto, unfolding(crate::specs::Back::same_colour))]
fn has_colour(entry: &Keyword, color: Rgb) -> bool
    ensures { result ≡ same_colour (channels (entry_of entry.now)) color }
{
    colour_of(entry) == color
}

// The first name with a colour.
fn name_of(color: Rgb) -> Option<&'static [u8]>
    ensures { option_map (λ w. w.now) result ≡ first_named keywords color }
{
    let entry = table().iter().find(|entry| has_colour(entry, color))?;
    Some(entry.0)
}

// A colour's keyword, the first in the alphabet that has its channels: how many bytes were written. Nothing is where it is refused.
#[tactic(auto, unfolding(crate::specs::Back::name_answer, crate::specs::Back::name_over), using(crate::proofs::Backs::put_over, lent::proofs::Fronts::written_none))]
pub fn write_name(color: Rgb, out: &mut [u8]) -> Result<usize, Reason>
    ensures value { result ≡ name_answer (first_named keywords color) (length out.old) }
    ensures out_after { out.new ≡ name_over (first_named keywords color) out.old }
{
    let name = name_of(color).ok_or(Reason::NoKeyword)?;
    if out.len() < name.len() {
        return Err(Reason::BufferTooShort);
    }
    lent::put(out, 0, name);
    Ok(name.len())
}
