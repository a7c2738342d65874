// Writing into bytes and numbers that a caller lends. What is written stands from a place on, and what lies around it stays.
#![tactic(auto)]

ghost use Rattle.std.specs.Prelude.{◌≡◌, [], ◌∷◌, ◌+◌, ◌≤◌, ◌<◌, length, replicate};
ghost use Rattle.std.proofs.Math.Seq.{paste};
ghost use Rattle.lent.specs.Decimals.{decimal};

#[tactic(auto, using(crate::proofs::Pastes::byte_stored))]
pub fn put_byte(out: &mut [u8], at: usize, b: u8)
    requires { at < length out.old }
    ensures { out.new ≡ paste out.old at (b ∷ []) 1 }
{
    out[at] = b;
}

// At a place of what is lent, and not into a part of it: so docs/PROMISES.md has it.
// Byte by byte: std's `copy_from_slice` is compiled to a call of the C library, which the archive is to do without.
pub fn put(out: &mut [u8], at: usize, text: &[u8])
    requires { at + length text.now ≤ length out.old }
    ensures { out.new ≡ paste out.old at text.now (length text.now) }
{
    for (k, b) in text.iter().enumerate() {
        out[at + k] = *b;
    }
}

// A number without leading zeros; how many digits it has. Promised (docs/PROMISES.md), though no crate calls it.
#[tactic(auto, unfolding(crate::specs::Decimals::decimal))]
pub fn put_decimal(out: &mut [u8], at: usize, n: u8) -> usize
    requires { at + length (decimal n) ≤ length out.old }
    ensures value { result ≡ length (decimal n) }
    ensures out_after { out.new ≡ paste out.old at (decimal n) (length (decimal n)) }
{
    if n < 10 {
        put(out, at, &[b'0' + n]);
        1
    } else if n < 100 {
        put(out, at, &[b'0' + n / 10, b'0' + n % 10]);
        2
    } else {
        put(
            out,
            at,
            &[b'0' + n / 100, b'0' + n / 10 % 10, b'0' + n % 10],
        );
        3
    }
}

// Zeros for all that is lent, bytes or numbers. Two: over any `T: Copy` the proof that std's `fill` never fails did not close.
pub fn clear(out: &mut [u8])
    ensures { out.new ≡ replicate (length out.old) 0 }
{
    out.fill(0);
}

pub fn clear_numbers(out: &mut [usize])
    ensures { out.new ≡ replicate (length out.old) 0 }
{
    out.fill(0);
}
