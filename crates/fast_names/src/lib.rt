// The colour that a word names, as one number: `names`, sooner.
#![tactic(auto)]

ghost use Rattle.std.specs.Prelude.{◌≡◌, ◌≤◌, length};
ghost use Rattle.std.specs.List.{list_any};
ghost use Rattle.text_bytes.specs.Bytes.{is_upper};
ghost use Rattle.names.specs.Look.{named_of};
ghost use Rattle.fast_names.specs.Named.{named_number};

mod letters;

// How long the longest name is.
const LONGEST: usize = 20;

// The colour's number, letter case ignored; None for a word that names none.
// Most words are names in small letters; one that has capitals is looked up again, in small letters.
#[tactic(auto, using(crate::proofs::Written::written))]
pub fn from_str(word: &[u8]) -> Option<u64>
    ensures { result ≡ named_number (named_of word.now) }
{
    if LONGEST < word.len() {
        return None;
    }
    let found = letters::look_up(word);
    if found.is_some() || !has_capital(word) {
        return found;
    }
    in_small_letters(word)
}

// What a word names in small letters. Byte by byte: a whole copy is compiled to a call of the C library, which the archive is to do without.
#[tactic(auto, using(crate::proofs::Small::lower_start, crate::proofs::Small::lower_go, crate::proofs::Small::lower_all), unfolding(names::specs::Look::named_of))]
fn in_small_letters(word: &[u8]) -> Option<u64>
    requires { length word.now ≤ 20 }
    ensures { result ≡ named_number (named_of word.now) }
{
    let mut small = [0; LONGEST];
    for (i, b) in word.iter().enumerate() {
        small[i] = text_bytes::to_ascii_lowercase(*b);
    }
    letters::look_up(&small[..word.len()])
}

fn has_capital(word: &[u8]) -> bool
    ensures { result ≡ list_any is_upper word.now }
{
    word.iter().any(u8::is_ascii_uppercase)
}
