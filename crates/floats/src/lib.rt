// Floats of a colour: rounding to an `f32`, to a channel, holding to 0 .. 1, the sign, and what is left of whole turns.
#![tactic(auto)]

ghost use Rattle.std.specs.Prelude.{◌≡◌, ◌+◌, ◌*◌, ◌%◌, ◌^◌, ◌<◌, false, T, negsuc};
ghost use Rattle.std.specs.Float.{fin, binary64};
ghost use Rattle.std.specs.Float.Ieee.{le, rem};
ghost use Rattle.floats.specs.Floats.{narrowed, channel_of, clamped, sign_of, d360};

// x rounded to an `f32`: to the nearest, a tie to the even one. Past the largest `f32` it is an infinity; a NaN gives a NaN.
// Std has it under this name: `x as f32` asks that nothing is lost.
#[tactic(auto, using(crate::proofs::Library::narrowed_is_rounded, crate::proofs::Library::tie_even))]
pub fn narrow(x: f64) -> f32
    ensures { result ≡ narrowed x }
{
    std::num::nearest_f64_to_f32_with_nan(x)
}

// The channel of p: 0 up to 0 (and of a NaN), 255 from 255 on, between those the nearest whole number, a half going up.
// p + 0.5 would round, so p is compared with c + 1/2, which an `f64` holds. Std's `round`, then a cast, is 6 ns slower.
#[tactic(auto, using(crate::proofs::Channels::above_minus_one, crate::proofs::Channels::below_2_64, crate::proofs::Channels::small, crate::proofs::Channels::below_half, crate::proofs::Channels::above_half, crate::proofs::Channels::from_255, crate::proofs::Channels::to_0))]
pub fn channel(p: f64) -> u8
    ensures { result ≡ channel_of p }
{
    if p > 0.0 {
        if p < 255.0 {
            let c: u64 = std::num::truncating_f64_to_u64(p);
            if p < half_above(c) {
                return c as u8;
            }
            return (c + 1) as u8;
        }
        return 255;
    }
    0
}

// c + 1/2, exactly
#[tactic(auto, using(crate::proofs::Channels::half_is))]
fn half_above(c: u64) -> f64
    requires { c < 255 }
    ensures { result ≡ fin false (2 * c + 1) (negsuc 0) }
{
    c as f64 + 0.5
}

// The channel of an `f32`: an `f64` holds each of them.
pub fn channel_f32(p: f32) -> u8
    ensures { result ≡ channel_of p }
{
    channel(std::num::f32_to_f64_with_nan(p))
}

// x held to 0 .. 1: minus zero stays, and so does a NaN.
pub fn unit_clamp(x: f64) -> f64
    ensures { result ≡ clamped x }
{
    x.clamp(0.0, 1.0)
}

// Whether the sign's bit is set: minus zero has it. Of a NaN the answer is no: std's `is_sign_negative` asks that there is none.
#[tactic(auto, using(crate::proofs::Library::sign_is, crate::proofs::Library::nan_unsigned))]
pub fn is_sign_negative(x: f64) -> bool
    ensures { result ≡ sign_of x }
{
    !x.is_nan() && x.is_sign_negative()
}

// x % 360, exactly and with x's sign, as Rust's `%` on floats: that would be a call of the C library's fmod.
// A NaN and an infinity give a NaN.
#[tactic(auto, using(crate::proofs::Turns::once, crate::proofs::Turns::mirrored, crate::proofs::Turns::turned_back, crate::proofs::Turns::small))]
pub fn remainder_360(x: f64) -> f64
    ensures { result ≡ rem binary64 x d360 }
{
    if x >= 360.0 {
        if x < 720.0 {
            return x - 360.0;
        }
        return large_remainder(x);
    }
    if x <= -360.0 {
        return -large_remainder(-x);
    }
    x
}

// x is m times a power of two, so its remainder is that of a whole number.
#[tactic(auto, using(crate::proofs::Turns::from_1031, crate::proofs::Turns::unit_le, crate::proofs::Turns::unit_pos, crate::proofs::Turns::exact, crate::proofs::Turns::in_parts, crate::proofs::Turns::in_wholes, crate::proofs::Turns::at_end))]
fn large_remainder(x: f64) -> f64
    requires { T (le d360 x) }
    ensures { result ≡ rem binary64 x d360 }
{
    let b: u64 = f64::to_bits(x);
    let field: u64 = b >> 52;
    let m: u64 = 0x10_0000_0000_0000 + b % 0x10_0000_0000_0000;
    if field < 1075 {
        // x is m / unit
        let unit: u64 = 1 << (1075 - field);
        return (m % (360 * unit)) as f64 / unit as f64;
    }
    if field < 2047 {
        return doubled(m % 360, field - 1075) as f64;
    }
    // an infinity
    0.0 / 0.0
}

// The remainder of r * 2 ^ k by 360, by one doubling after another: std has no power by a modulus.
#[tactic(auto, using(crate::proofs::Turns::once_more, crate::proofs::Turns::none_yet))]
fn doubled(r: u64, k: u64) -> u64
    requires { r < 360 }
    ensures { result ≡ r * 2 ^ k % 360 }
{
    let mut n: u64 = r;
    for _ in 0..k {
        n = n * 2 % 360;
    }
    n
}
