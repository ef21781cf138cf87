//! The fillings of the lanes: fixed functions of a place and a lane, so that each run gives the same bytes.

ghost use Rattle.std.specs.Prelude.{◌≡◌, ◌<◌, ◌^◌};
ghost use Rattle.decide_lane_nodes.specs.Given.{folded, given_lanes, mixed, number_for};

use decide_nodes::LaneBits;
use design_circuit::Place;

/// The bits of a place in the fillings of all lanes.
#[tactic(auto, unfolding(crate::specs::Given::given_by))]
pub fn given(place: Place) -> LaneBits
    ensures { result ≡ given_lanes place }
{
    let first = folded(number_for(place));
    let second = mixed(first);
    let third = mixed(second);
    let fourth = mixed(third);
    LaneBits::new([
        first,
        second & third & fourth,
        second | third | fourth,
        second & third & 0xffff_ffff_ffff_fffe,
    ])
}

/// A number that stands for a place.
fn number_for(place: Place) -> u64
    ensures { result ≡ number_for place }
{
    u64::from(place.step) * 0x10_0000 + u64::from(place.net) + 1
}

/// A product, its halves folded upon each other.
#[tactic(auto, unfolding(crate::specs::Given::folded))]
fn folded(number: u64) -> u64
    ensures { result ≡ folded number }
{
    let product = number.wrapping_mul(6_364_136_223_846_793_005);
    product ^ (product >> 32)
}

/// A number mixed well (the finisher of splitmix64).
#[tactic(auto, unfolding(crate::specs::Given::mixed))]
fn mixed(number: u64) -> u64
    ensures { result ≡ mixed number }
{
    let a = number.wrapping_add(0x9e37_79b9_7f4a_7c15);
    let b = (a ^ (a >> 30)).wrapping_mul(0xbf58_476d_1ce4_e5b9);
    let c = (b ^ (b >> 27)).wrapping_mul(0x94d0_49bb_1331_11eb);
    c ^ (c >> 31)
}
