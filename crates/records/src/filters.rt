// The row of a filter value.
ghost use Rattle.std.specs.Prelude.{◌≡◌};
ghost use Rattle.records.specs.Records.{length_entries, filter_row};
ghost use Rattle.filter_functions.specs.declared.FilterValue.TheVariants as FilterValue;

use crate::{entries, written};
use filter_functions::{FilterValue, Shadow};
use length::Length;
use text_bytes::Place;

#[tactic(auto, using(crate::proofs::Shadows::shadow_none, crate::proofs::Shadows::shadow_some))]
#[inline(always)]
pub fn shadow(out: &mut [u64; 24], d: Shadow, place: Place)
    ensures { out.new ≡ filter_row place.0 (FilterValue.DropShadow d) }
{
    let [x, x_unit] = measured(d.dx);
    let [y, y_unit] = measured(d.dy);
    let [z, z_unit] = measured(d.deviation);
    written::found(out, place, [2, x, x_unit, y, y_unit, z, z_unit]);
    if let Some(c) = d.color {
        written::color(out, 17, c);
        out[16] = 1;
    }
}

fn measured(l: Length) -> [u64; 2]
    ensures { result ≡ length_entries l }
{
    [entries::bits_of(l.number), entries::length_unit(l.unit)]
}

// A value, and the list place. Compiled into its callers, it needs no match where the kind is known, and no way through memory.
#[tactic(auto, unfolding(crate::specs::Records::filter_row, filter_functions::specs::Paper::result))]
#[inline(always)]
pub fn write_value(out: &mut [u64; 24], value: FilterValue, place: Place)
    ensures { out.new ≡ filter_row place.0 value }
{
    match value {
        FilterValue::Blur(l) => {
            let bits = entries::bits_of(l.number);
            written::found(out, place, [1, bits, entries::length_unit(l.unit)]);
        }
        FilterValue::DropShadow(d) => shadow(out, d, place),
        FilterValue::Brightness(x) => written::found(out, place, [3, entries::bits_of(x)]),
        FilterValue::Contrast(x) => written::found(out, place, [4, entries::bits_of(x)]),
        FilterValue::Grayscale(x) => written::found(out, place, [5, entries::bits_of(x)]),
        FilterValue::HueRotate(a) => {
            let bits = entries::bits_of(a.number);
            written::found(out, place, [6, bits, entries::angle_unit(a.unit)]);
        }
        FilterValue::Invert(x) => written::found(out, place, [7, entries::bits_of(x)]),
        FilterValue::Opacity(x) => written::found(out, place, [8, entries::bits_of(x)]),
        FilterValue::Sepia(x) => written::found(out, place, [9, entries::bits_of(x)]),
        FilterValue::Saturate(x) => written::found(out, place, [10, entries::bits_of(x)]),
        FilterValue::Url(link) => {
            written::found(out, place, [11, link.start.0 as u64, link.len as u64]);
        }
    }
}
