//! The lanes of sources, block by block: in lane l of block b source i has bit i of 256 b + l.

ghost use Rattle.std.specs.Prelude.{◌≡◌, ◌+◌, ◌*◌, ◌<◌, ◌≤◌, ◌^◌, length};
ghost use Rattle.decide_pair.specs.Blocks.{IsBlock, AreLanesOf};

use decide_nodes::LaneBits;

/// How many blocks hold all fillings.
pub fn number_blocks(sources: usize) -> usize
    requires { sources ≤ 16 }
    ensures enough { 2 ^ sources ≤ 256 * result }
    ensures some { 0 < result }
    ensures few { result ≤ 256 }
{
    if sources < 8 { 1 } else { 1 << (sources - 8) }
}

/// The lanes of the first 16 sources in a block.
pub fn fill_block(given: &mut [LaneBits; 16], block: usize)
    ensures lane_table { IsBlock block given.new }
    ensures long { length given.new ≡ 16 }
{
    'sources: for source in 0..16 {
        given[source] = source_lanes(block, source);
    }
}

/// The lanes of a source in a block.
pub fn source_lanes(block: usize, source: usize) -> LaneBits
    requires { source < 64 }
    ensures { AreLanesOf block source result }
{
    if source < 8 {
        low_lanes(source)
    } else {
        high_lanes(block, source - 8)
    }
}

/// The lanes of one of the first eight sources, whose bits are those of the lane.
fn low_lanes(source: usize) -> LaneBits
    requires { source < 8 }
    ensures { AreLanesOf 0 source result }
{
    match source {
        0 => LaneBits::new([0xaaaa_aaaa_aaaa_aaaa; 4]),
        1 => LaneBits::new([0xcccc_cccc_cccc_cccc; 4]),
        2 => LaneBits::new([0xf0f0_f0f0_f0f0_f0f0; 4]),
        3 => LaneBits::new([0xff00_ff00_ff00_ff00; 4]),
        4 => LaneBits::new([0xffff_0000_ffff_0000; 4]),
        5 => LaneBits::new([0xffff_ffff_0000_0000; 4]),
        6 => LaneBits::new([0, u64::MAX, 0, u64::MAX]),
        _ => LaneBits::new([0, 0, u64::MAX, u64::MAX]),
    }
}

/// The lanes of a later source, whose bits are those of the block.
fn high_lanes(block: usize, bit: usize) -> LaneBits
    requires { bit < 56 }
    ensures { AreLanesOf block (bit + 8) result }
{
    if (block >> bit) & 1 == 1 {
        LaneBits::ones()
    } else {
        LaneBits::zeros()
    }
}
