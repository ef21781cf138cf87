//! An order that is none of the nets' numbers.

use crate::asserted::same;
use crate::designs::nets::swapped;
use std::test::Fail;

#[test]
fn positions_are_those_of_the_list(rt: HostRuntime) -> Result<(), Fail> {
    let order = swapped(rt.alloc())?;
    for (position, net) in [(0, 1), (1, 0)] {
        same(&rt, "the net", order.net(position), net);
        same(&rt, "the position", order.position(net), position);
    }
    Ok(())
}
