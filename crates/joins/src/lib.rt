// What `filter_functions::next` returns on two lists alone, and on the one followed by the other.
#![tactic(auto)]

ghost use Rattle.std.specs.Prelude.{◌++◌, ◌≡◌, ◌+◌, ◌≤◌, length, Ok};
ghost use Rattle.text_bytes.specs.Bytes.{is_space};
ghost use Rattle.utf8.specs.Characters.{utf8_of, characters};
ghost use Rattle.text_bytes.specs.Scan.{scan};
ghost use Rattle.filter_functions.specs.Filters.{next_filter};
ghost use Rattle.joins.specs.Joins.{move_step, Unchanged, Meets, Demand3, Demand3Returned};

use filter_functions::Listed;
use stream::Step;
use text_bytes::Place;

// Of whole lists: what specs/Joins says of a step holds of filter_functions::next.
#[tactic(auto, using(crate::proofs::Whole::demand_3))]
pub fn demand_3()
    ensures { Demand3 next_filter }
{}

// And of whatever a function returns that keeps its contract.
#[tactic(auto, using(crate::proofs::Whole::demand_3_returned))]
pub fn demand_3_returned()
    ensures { Demand3Returned }
{}

// A step of a list alone, and the same step of both lists.
#[derive(Clone, Copy)]
pub struct Steps {
    pub alone: Step<Listed>,
    pub both: Step<Listed>,
}

// A step of the first list: a value is returned again.
// No struct of the three lists: its invariant would ask of callers what they prove as `requires` now, and the functions are public.
pub fn first_list(first: &[u8], second: &[u8], both: &[u8], place: Place) -> Steps
    requires both_value { both.now ≡ first.now ++ second.now }
    requires first_value { utf8_of first.now ≡ Ok tt }
    requires second_value { utf8_of second.now ≡ Ok tt }
    requires both_len_bound { length both.now ≤ 4096 }
    ensures alone_value { (result.alone ≡ next_filter first.now place.0) × (result.both ≡ next_filter both.now place.0) }
    ensures unchanged { Unchanged (length first.now) (scan is_space second.now 0) result.alone result.both }
{
    let alone = filter_functions::next(first, place);
    let joined = filter_functions::next(both, place);
    Steps {
        alone,
        both: joined,
    }
}

// A step of the first list, the first step of the second, and a step of both lists.
#[derive(Clone, Copy)]
pub struct Meeting {
    pub ended: Step<Listed>,
    pub alone: Step<Listed>,
    pub both: Step<Listed>,
}

// Where the first list has ended, the second begins.
pub fn seam(first: &[u8], second: &[u8], both: &[u8], place: Place) -> Meeting
    requires both_value { both.now ≡ first.now ++ second.now }
    requires first_value { utf8_of first.now ≡ Ok tt }
    requires second_value { utf8_of second.now ≡ Ok tt }
    requires both_len_bound { length both.now ≤ 4096 }
    ensures ended_value { (result.ended ≡ next_filter first.now place.0) × (result.alone ≡ next_filter second.now 0) × (result.both ≡ next_filter both.now place.0) }
    ensures meets { Meets (length first.now) (characters first.now) result.ended result.alone result.both }
{
    let ended = filter_functions::next(first, place);
    let alone = filter_functions::next(second, Place(0));
    let joined = filter_functions::next(both, place);
    Meeting {
        ended,
        alone,
        both: joined,
    }
}

// A step of the second list, from a place of its own: it is returned again, moved.
#[tactic(auto, using(crate::proofs::Edge::next_shift))]
pub fn second_list(first: &[u8], second: &[u8], both: &[u8], place: Place) -> Steps
    requires both_value { both.now ≡ first.now ++ second.now }
    requires first_value { utf8_of first.now ≡ Ok tt }
    requires second_value { utf8_of second.now ≡ Ok tt }
    requires both_len_bound { length both.now ≤ 4096 }
    requires place_in_bounds { place.0 ≤ length second.now }
    ensures alone_value { (result.alone ≡ next_filter second.now place.0) × (result.both ≡ next_filter both.now (length first.now + place.0)) }
    ensures both_value_2 { result.both ≡ move_step (length first.now) (characters first.now) result.alone }
{
    let i = place.0;
    let alone = filter_functions::next(second, place);
    let joined = filter_functions::next(both, Place(first.len() + i));
    Steps {
        alone,
        both: joined,
    }
}
