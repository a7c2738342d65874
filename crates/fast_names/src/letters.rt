// Names as they are written in small letters, by their letters as numbers.
#![tactic(auto, using(crate::proofs::Arms::arms), unfolding(crate::specs::Letters::four, crate::specs::Letters::short, crate::specs::Letters::head, crate::specs::Letters::tail, crate::specs::Letters::found, crate::specs::Letters::of_length, crate::specs::Letters::of_three, crate::specs::Letters::of_short, crate::specs::Letters::of_long, crate::specs::Letters::three, names::specs::Keywords::keywords, crate::specs::Named::named_number, packed::specs::Numbers::color_number))]

ghost use Rattle.std.specs.Prelude.{if◌then◌else◌, ◌≡◌, ◌+◌, ◌^◌, ◌≤◌, ◌<◌, eqb, length, Some, None};
ghost use Rattle.text_bytes.specs.Words.{same};
ghost use Rattle.names.specs.Keywords.{keywords};
ghost use Rattle.names.specs.Look.{look_up};
ghost use Rattle.fast_names.specs.Named.{named_number};
ghost use Rattle.fast_names.specs.Letters.{three, four, short, head, tail, of_three, of_short, of_long};

// How many numbers four bytes make.
const FOURS: u64 = 0x1_0000_0000;

// Four bytes of a word as one number, the first the least: one load.
fn four(word: &[u8], at: usize) -> u32
    requires { at + 4 ≤ length word.now }
    ensures { result ≡ four word.now at }
{
    u32::from_le_bytes([word[at], word[at + 1], word[at + 2], word[at + 3]])
}

// A word of three letters.
fn three(word: &[u8]) -> u64
    requires { 3 ≤ length word.now }
    ensures { result ≡ three word.now }
{
    u32::from_le_bytes([word[0], word[1], word[2], 0]) as u64
}

// A word of four to eight letters: its first four and its last four, which may overlap.
fn short(word: &[u8]) -> u64
    requires { 4 ≤ length word.now }
    ensures { result ≡ short word.now }
{
    four(word, 0) as u64 + four(word, word.len() - 4) as u64 * FOURS
}

// A word of nine to sixteen letters: its first eight, and its last eight.
fn head(word: &[u8]) -> u64
    requires { 8 ≤ length word.now }
    ensures { result ≡ head word.now }
{
    four(word, 0) as u64 + four(word, 4) as u64 * FOURS
}

fn tail(word: &[u8]) -> u64
    requires { 8 ≤ length word.now }
    ensures { result ≡ tail word.now }
{
    four(word, word.len() - 8) as u64 + four(word, word.len() - 4) as u64 * FOURS
}

// The colour, where the last letters are the name's.
fn if_tail(l: u64, name: u64, color: u64) -> Option<u64>
    ensures { result ≡ if eqb l name then Some color else None }
{
    (l == name).then_some(color)
}

// The colour, where the word is the name.
fn if_word(word: &[u8], name: &[u8], color: u64) -> Option<u64>
    ensures { result ≡ if same word.now name.now then Some color else None }
{
    text_bytes::equals(word, name).then_some(color)
}

// The names of one length, by their letters as numbers. A function for each length: `names` has the one table and its search, and
// these are to be sooner.
fn of_three(k: u64) -> Option<u64>
    ensures { result ≡ of_three k }
{
    match k {
        0x64_6572 => Some(0xff00_00ff), // red
        0x6e_6174 => Some(0xff8c_b4d2), // tan
        _ => None,
    }
}

fn of_four(k: u64) -> Option<u64>
    ensures { result ≡ of_short 4 k }
{
    match k {
        0x6175_7161_6175_7161 => Some(0xffff_ff00), // aqua
        0x6575_6c62_6575_6c62 => Some(0xffff_0000), // blue
        0x6e61_7963_6e61_7963 => Some(0xffff_ff00), // cyan
        0x646c_6f67_646c_6f67 => Some(0xff00_d7ff), // gold
        0x7961_7267_7961_7267 => Some(0xff80_8080), // gray
        0x7965_7267_7965_7267 => Some(0xff80_8080), // grey
        0x656d_696c_656d_696c => Some(0xff00_ff00), // lime
        0x7976_616e_7976_616e => Some(0xff80_0000), // navy
        0x7572_6570_7572_6570 => Some(0xff3f_85cd), // peru
        0x6b6e_6970_6b6e_6970 => Some(0xffcb_c0ff), // pink
        0x6d75_6c70_6d75_6c70 => Some(0xffdd_a0dd), // plum
        0x776f_6e73_776f_6e73 => Some(0xfffa_faff), // snow
        0x6c61_6574_6c61_6574 => Some(0xff80_8000), // teal
        _ => None,
    }
}

fn of_five(k: u64) -> Option<u64>
    ensures { result ≡ of_short 5 k }
{
    match k {
        0x6572_757a_7275_7a61 => Some(0xffff_fff0), // azure
        0x6567_6965_6769_6562 => Some(0xffdc_f5f5), // beige
        0x6b63_616c_6361_6c62 => Some(0xff00_0000), // black
        0x6e77_6f72_776f_7262 => Some(0xff2a_2aa5), // brown
        0x6c61_726f_6172_6f63 => Some(0xff50_7fff), // coral
        0x6e65_6572_6565_7267 => Some(0xff00_8000), // green
        0x7972_6f76_726f_7669 => Some(0xfff0_ffff), // ivory
        0x696b_6168_6b61_686b => Some(0xff8c_e6f0), // khaki
        0x6e65_6e69_656e_696c => Some(0xffe6_f0fa), // linen
        0x6576_696c_7669_6c6f => Some(0xff00_8080), // olive
        0x7461_6568_6165_6877 => Some(0xffb3_def5), // wheat
        0x6574_6968_7469_6877 => Some(0xffff_ffff), // white
        _ => None,
    }
}

fn of_six(k: u64) -> Option<u64>
    ensures { result ≡ of_short 6 k }
{
    match k {
        0x6575_7173_7173_6962 => Some(0xffc4_e4ff), // bisque
        0x6f67_6964_6964_6e69 => Some(0xff82_004b), // indigo
        0x6e6f_6f72_6f72_616d => Some(0xff00_0080), // maroon
        0x6567_6e61_6e61_726f => Some(0xff00_a5ff), // orange
        0x6469_6863_6863_726f => Some(0xffd6_70da), // orchid
        0x656c_7072_7072_7570 => Some(0xff80_0080), // purple
        0x6e6f_6d6c_6d6c_6173 => Some(0xff72_80fa), // salmon
        0x616e_6e65_6e65_6973 => Some(0xff2d_52a0), // sienna
        0x7265_766c_766c_6973 => Some(0xffc0_c0c0), // silver
        0x6f74_616d_616d_6f74 => Some(0xff47_63ff), // tomato
        0x7465_6c6f_6c6f_6976 => Some(0xffee_82ee), // violet
        0x776f_6c6c_6c6c_6579 => Some(0xff00_ffff), // yellow
        _ => None,
    }
}

fn of_seven(k: u64) -> Option<u64>
    ensures { result ≡ of_short 7 k }
{
    match k {
        0x6e6f_736d_6d69_7263 => Some(0xff3c_14dc), // crimson
        0x6465_726b_6b72_6164 => Some(0xff00_008b), // darkred
        0x7961_7267_676d_6964 => Some(0xff69_6969), // dimgray
        0x7965_7267_676d_6964 => Some(0xff69_6969), // dimgrey
        0x6169_7368_6863_7566 => Some(0xffff_00ff), // fuchsia
        0x6b6e_6970_7074_6f68 => Some(0xffb4_69ff), // hotpink
        0x6174_6e65_6567_616d => Some(0xffff_00ff), // magenta
        0x6563_616c_6c64_6c6f => Some(0xffe6_f5fd), // oldlace
        0x6575_6c62_6279_6b73 => Some(0xffeb_ce87), // skyblue
        0x656c_7473_7369_6874 => Some(0xffd8_bfd8), // thistle
        _ => None,
    }
}

fn of_eight(k: u64) -> Option<u64>
    ensures { result ≡ of_short 8 k }
{
    match k {
        0x6b6c_6973_6e72_6f63 => Some(0xffdc_f8ff), // cornsilk
        0x6575_6c62_6b72_6164 => Some(0xff8b_0000), // darkblue
        0x6e61_7963_6b72_6164 => Some(0xff8b_8b00), // darkcyan
        0x7961_7267_6b72_6164 => Some(0xffa9_a9a9), // darkgray
        0x7965_7267_6b72_6164 => Some(0xffa9_a9a9), // darkgrey
        0x6b6e_6970_7065_6564 => Some(0xff93_14ff), // deeppink
        0x7765_6479_656e_6f68 => Some(0xfff0_fff0), // honeydew
        0x7265_646e_6576_616c => Some(0xfffa_e6e6), // lavender
        0x6e69_7361_6363_6f6d => Some(0xffb5_e4ff), // moccasin
        0x6e65_6572_6761_6573 => Some(0xff57_8b2e), // seagreen
        0x6c6c_6568_7361_6573 => Some(0xffee_f5ff), // seashell
        _ => None,
    }
}

// k has the first eight letters and l the last eight, as two numbers that are matched one after the other.
fn of_nine(k: u64, l: u64) -> Option<u64>
    ensures { result ≡ of_long 9 k l }
{
    match k {
        0x756c_6265_6369_6c61 => if_tail(l, 0x6575_6c62_6563_696c, 0xffff_f8f0), // aliceblue
        0x6f6f_7779_6c72_7562 => if_tail(l, 0x646f_6f77_796c_7275, 0xff87_b8de), // burlywood
        0x756c_6274_6564_6163 => if_tail(l, 0x6575_6c62_7465_6461, 0xffa0_9e5f), // cadetblue
        0x7461_6c6f_636f_6863 => if_tail(l, 0x6574_616c_6f63_6f68, 0xff1e_69d2), // chocolate
        0x6565_7267_6b72_6164 => if_tail(l, 0x6e65_6572_676b_7261, 0xff00_6400), // darkgreen
        0x6b61_686b_6b72_6164 => if_tail(l, 0x696b_6168_6b6b_7261, 0xff6b_b7bd), // darkkhaki
        0x6369_7262_6572_6966 => if_tail(l, 0x6b63_6972_6265_7269, 0xff22_22b2), // firebrick
        0x726f_6273_6e69_6167 => if_tail(l, 0x6f72_6f62_736e_6961, 0xffdc_dcdc), // gainsboro
        0x6f72_6e65_646c_6f67 => if_tail(l, 0x646f_726e_6564_6c6f, 0xff20_a5da), // goldenrod
        0x6572_6e61_6964_6e69 => if_tail(l, 0x6465_726e_6169_646e, 0xff5c_5ccd), // indianred
        0x6565_7267_6e77_616c => if_tail(l, 0x6e65_6572_676e_7761, 0xff00_fc7c), // lawngreen
        0x756c_6274_6867_696c => if_tail(l, 0x6575_6c62_7468_6769, 0xffe6_d8ad), // lightblue
        0x6179_6374_6867_696c => if_tail(l, 0x6e61_7963_7468_6769, 0xffff_ffe0), // lightcyan
        0x6172_6774_6867_696c => if_tail(l, 0x7961_7267_7468_6769, 0xffd3_d3d3), // lightgray
        0x6572_6774_6867_696c => if_tail(l, 0x7965_7267_7468_6769, 0xffd3_d3d3), // lightgrey
        0x6e69_7074_6867_696c => if_tail(l, 0x6b6e_6970_7468_6769, 0xffc1_b6ff), // lightpink
        0x6565_7267_656d_696c => if_tail(l, 0x6e65_6572_6765_6d69, 0xff32_cd32), // limegreen
        0x6165_7263_746e_696d => if_tail(l, 0x6d61_6572_6374_6e69, 0xfffa_fff5), // mintcream
        0x736f_7279_7473_696d => if_tail(l, 0x6573_6f72_7974_7369, 0xffe1_e4ff), // mistyrose
        0x6172_6465_7669_6c6f => if_tail(l, 0x6261_7264_6576_696c, 0xff23_8e6b), // olivedrab
        0x6572_6567_6e61_726f => if_tail(l, 0x6465_7265_676e_6172, 0xff00_45ff), // orangered
        0x6565_7267_656c_6170 => if_tail(l, 0x6e65_6572_6765_6c61, 0xff98_fb98), // palegreen
        0x6675_7068_6361_6570 => if_tail(l, 0x6666_7570_6863_6165, 0xffb9_daff), // peachpuff
        0x776f_7262_7973_6f72 => if_tail(l, 0x6e77_6f72_6279_736f, 0xff8f_8fbc), // rosybrown
        0x756c_626c_6179_6f72 => if_tail(l, 0x6575_6c62_6c61_796f, 0xffe1_6941), // royalblue
        0x756c_6265_7461_6c73 => if_tail(l, 0x6575_6c62_6574_616c, 0xffcd_5a6a), // slateblue
        0x6172_6765_7461_6c73 => if_tail(l, 0x7961_7267_6574_616c, 0xff90_8070), // slategray
        0x6572_6765_7461_6c73 => if_tail(l, 0x7965_7267_6574_616c, 0xff90_8070), // slategrey
        0x756c_626c_6565_7473 => if_tail(l, 0x6575_6c62_6c65_6574, 0xffb4_8246), // steelblue
        0x7369_6f75_7172_7574 => if_tail(l, 0x6573_696f_7571_7275, 0xffd0_e040), // turquoise
        _ => None,
    }
}

fn of_ten(k: u64, l: u64) -> Option<u64>
    ensures { result ≡ of_long 10 k l }
{
    match k {
        0x6972_616d_6175_7161 => if_tail(l, 0x656e_6972_616d_6175, 0xffd4_ff7f), // aquamarine
        0x6c6f_6976_6575_6c62 => if_tail(l, 0x7465_6c6f_6976_6575, 0xffe2_2b8a), // blueviolet
        0x7565_7274_7261_6863 => if_tail(l, 0x6573_7565_7274_7261, 0xff00_ff7f), // chartreuse
        0x6e61_726f_6b72_6164 => if_tail(l, 0x6567_6e61_726f_6b72, 0xff00_8cff), // darkorange
        0x6863_726f_6b72_6164 => if_tail(l, 0x6469_6863_726f_6b72, 0xffcc_3299), // darkorchid
        0x6d6c_6173_6b72_6164 => if_tail(l, 0x6e6f_6d6c_6173_6b72, 0xff7a_96e9), // darksalmon
        0x6c6f_6976_6b72_6164 => if_tail(l, 0x7465_6c6f_6976_6b72, 0xffd3_0094), // darkviolet
        0x6c62_7265_6764_6f64 => if_tail(l, 0x6575_6c62_7265_6764, 0xffff_901e), // dodgerblue
        0x6968_7774_736f_6867 => if_tail(l, 0x6574_6968_7774_736f, 0xffff_f8f8), // ghostwhite
        0x726f_6374_6867_696c => if_tail(l, 0x6c61_726f_6374_6867, 0xff80_80f0), // lightcoral
        0x6572_6774_6867_696c => if_tail(l, 0x6e65_6572_6774_6867, 0xff90_ee90), // lightgreen
        0x6c62_6d75_6964_656d => if_tail(l, 0x6575_6c62_6d75_6964, 0xffcd_0000), // mediumblue
        0x6877_6179_6170_6170 => if_tail(l, 0x7069_6877_6179_6170, 0xffd5_efff), // papayawhip
        0x6c62_7265_6477_6f70 => if_tail(l, 0x6575_6c62_7265_6477, 0xffe6_e0b0), // powderblue
        0x6f72_6279_646e_6173 => if_tail(l, 0x6e77_6f72_6279_646e, 0xff60_a4f4), // sandybrown
        0x6f6d_7365_7469_6877 => if_tail(l, 0x656b_6f6d_7365_7469, 0xfff5_f5f5), // whitesmoke
        _ => None,
    }
}

fn of_eleven(k: u64, l: u64) -> Option<u64>
    ensures { result ≡ of_long 11 k l }
{
    match k {
        0x6567_616d_6b72_6164 => if_tail(l, 0x6174_6e65_6761_6d6b, 0xff8b_008b), // darkmagenta
        0x6279_6b73_7065_6564 => if_tail(l, 0x6575_6c62_796b_7370, 0xffff_bf00), // deepskyblue
        0x6877_6c61_726f_6c66 => if_tail(l, 0x6574_6968_776c_6172, 0xfff0_faff), // floralwhite
        0x7267_7473_6572_6f66 => if_tail(l, 0x6e65_6572_6774_7365, 0xff22_8b22), // forestgreen
        0x6c65_796e_6565_7267 => if_tail(l, 0x776f_6c6c_6579_6e65, 0xff2f_ffad), // greenyellow
        0x6c61_7374_6867_696c => if_tail(l, 0x6e6f_6d6c_6173_7468, 0xff7a_a0ff), // lightsalmon
        0x6c65_7974_6867_696c => if_tail(l, 0x776f_6c6c_6579_7468, 0xffe0_ffff), // lightyellow
        0x6877_6f6a_6176_616e => if_tail(l, 0x6574_6968_776f_6a61, 0xffad_deff), // navajowhite
        0x7262_656c_6464_6173 => if_tail(l, 0x6e77_6f72_6265_6c64, 0xff13_458b), // saddlebrown
        0x7267_676e_6972_7073 => if_tail(l, 0x6e65_6572_6767_6e69, 0xff7f_ff00), // springgreen
        0x7261_7073_6e61_7274 => if_tail(l, 0x746e_6572_6170_736e, 0x0000_0000), // transparent
        0x7267_776f_6c6c_6579 => if_tail(l, 0x6e65_6572_6777_6f6c, 0xff32_cd9a), // yellowgreen
        _ => None,
    }
}

fn of_twelve(k: u64, l: u64) -> Option<u64>
    ensures { result ≡ of_long 12 k l }
{
    match k {
        0x7765_7571_6974_6e61 => if_tail(l, 0x6574_6968_7765_7571, 0xffd7_ebfa), // antiquewhite
        0x6761_6573_6b72_6164 => if_tail(l, 0x6e65_6572_6761_6573, 0xff8f_bc8f), // darkseagreen
        0x6968_636e_6f6d_656c => if_tail(l, 0x6e6f_6666_6968_636e, 0xffcd_faff), // lemonchiffon
        0x796b_7374_6867_696c => if_tail(l, 0x6575_6c62_796b_7374, 0xfffa_ce87), // lightskyblue
        0x726f_6d75_6964_656d => if_tail(l, 0x6469_6863_726f_6d75, 0xffd3_55ba), // mediumorchid
        0x7570_6d75_6964_656d => if_tail(l, 0x656c_7072_7570_6d75, 0xffdb_7093), // mediumpurple
        0x7468_6769_6e64_696d => if_tail(l, 0x6575_6c62_7468_6769, 0xff70_1919), // midnightblue
        _ => None,
    }
}

fn of_thirteen(k: u64, l: u64) -> Option<u64>
    ensures { result ≡ of_long 13 k l }
{
    match k {
        0x646c_6f67_6b72_6164 => if_tail(l, 0x646f_726e_6564_6c6f, 0xff0b_86b8), // darkgoldenrod
        0x7461_6c73_6b72_6164 => match l {
            0x6575_6c62_6574_616c => Some(0xff8b_3d48), // darkslateblue
            0x7961_7267_6574_616c => Some(0xff4f_4f2f), // darkslategray
            0x7965_7267_6574_616c => Some(0xff4f_4f2f), // darkslategrey
            _ => None,
        },
        0x7172_7574_6b72_6164 => if_tail(l, 0x6573_696f_7571_7275, 0xffd1_ce00), // darkturquoise
        0x7265_646e_6576_616c => if_tail(l, 0x6873_756c_6272_6564, 0xfff5_f0ff), // lavenderblush
        0x6165_7374_6867_696c => if_tail(l, 0x6e65_6572_6761_6573, 0xffaa_b220), // lightseagreen
        0x646c_6f67_656c_6170 => if_tail(l, 0x646f_726e_6564_6c6f, 0xffaa_e8ee), // palegoldenrod
        0x7172_7574_656c_6170 => if_tail(l, 0x6573_696f_7571_7275, 0xffee_eeaf), // paleturquoise
        0x6c6f_6976_656c_6170 => if_tail(l, 0x6465_7274_656c_6f69, 0xff93_70db), // palevioletred
        _ => None,
    }
}

fn of_fourteen(k: u64, l: u64) -> Option<u64>
    ensures { result ≡ of_long 14 k l }
{
    match k {
        0x6465_6863_6e61_6c62 => if_tail(l, 0x646e_6f6d_6c61_6465, 0xffcd_ebff), // blanchedalmond
        0x776f_6c66_6e72_6f63 => if_tail(l, 0x6575_6c62_7265_776f, 0xffed_9564), // cornflowerblue
        0x7669_6c6f_6b72_6164 => if_tail(l, 0x6e65_6572_6765_7669, 0xff2f_6b55), // darkolivegreen
        0x616c_7374_6867_696c => match l {
            0x7961_7267_6574_616c => Some(0xff99_8877), // lightslategray
            0x7965_7267_6574_616c => Some(0xff99_8877), // lightslategrey
            _ => None,
        },
        0x6574_7374_6867_696c => if_tail(l, 0x6575_6c62_6c65_6574, 0xffde_c4b0), // lightsteelblue
        0x6573_6d75_6964_656d => if_tail(l, 0x6e65_6572_6761_6573, 0xff71_b33c), // mediumseagreen
        _ => None,
    }
}

fn of_fifteen(k: u64, l: u64) -> Option<u64>
    ensures { result ≡ of_long 15 k l }
{
    match k {
        0x6c73_6d75_6964_656d => if_tail(l, 0x6575_6c62_6574_616c, 0xffee_687b), // mediumslateblue
        0x7574_6d75_6964_656d => if_tail(l, 0x6573_696f_7571_7275, 0xffcc_d148), // mediumturquoise
        0x6976_6d75_6964_656d => if_tail(l, 0x6465_7274_656c_6f69, 0xff85_15c7), // mediumvioletred
        _ => None,
    }
}

// The number of what a word names as it is written.
pub fn look_up(word: &[u8]) -> Option<u64>
    ensures { result ≡ named_number (look_up keywords word.now) }
{
    match word.len() {
        3 => of_three(three(word)),
        4 => of_four(short(word)),
        5 => of_five(short(word)),
        6 => of_six(short(word)),
        7 => of_seven(short(word)),
        8 => of_eight(short(word)),
        9 => of_nine(head(word), tail(word)),
        10 => of_ten(head(word), tail(word)),
        11 => of_eleven(head(word), tail(word)),
        12 => of_twelve(head(word), tail(word)),
        13 => of_thirteen(head(word), tail(word)),
        14 => of_fourteen(head(word), tail(word)),
        15 => of_fifteen(head(word), tail(word)),
        16 => if_word(word, b"mediumaquamarine", 0xffaa_cd66),
        17 => if_word(word, b"mediumspringgreen", 0xff9a_fa00),
        20 => if_word(word, b"lightgoldenrodyellow", 0xffd2_fafa),
        _ => None,
    }
}
