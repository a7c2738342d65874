// The numbers that stand in a row's entries.
ghost use Rattle.std.specs.Prelude.{◌≡◌};
ghost use Rattle.records.specs.Records.{bits_of, length_unit, angle_unit};

use angle::AngleUnit;
use length::LengthUnit;

// The bits of a float. No number that is read is a NaN, whose bits the language does not give.
#[tactic(auto, unfolding(crate::specs::Records::bits_of), using(crate::proofs::Bits::nan_bits, floats::proofs::Bounds::equal_no_nan))]
pub fn bits_of(x: f64) -> u64
    ensures { result ≡ bits_of x }
{
    if x != x {
        return 0x7ff8_0000_0000_0000;
    }
    f64::to_bits(x)
}

// No `From`, here and below: the unit and u64 are other crates' types.
#[tactic(auto, unfolding(crate::specs::Records::length_unit))]
pub fn length_unit(unit: LengthUnit) -> u64
    ensures { result ≡ length_unit unit }
{
    match unit {
        LengthUnit::None => 0,
        LengthUnit::Em => 1,
        LengthUnit::Ex => 2,
        LengthUnit::Px => 3,
        LengthUnit::In => 4,
        LengthUnit::Cm => 5,
        LengthUnit::Mm => 6,
        LengthUnit::Pt => 7,
        LengthUnit::Pc => 8,
        LengthUnit::Percent => 9,
    }
}

#[tactic(auto, unfolding(crate::specs::Records::angle_unit))]
pub fn angle_unit(unit: AngleUnit) -> u64
    ensures { result ≡ angle_unit unit }
{
    match unit {
        AngleUnit::Degrees => 0,
        AngleUnit::Gradians => 1,
        AngleUnit::Radians => 2,
        AngleUnit::Turns => 3,
    }
}
