//! Lists that a model sees.

use base_lists::Items;
use std::test::Fail;

#[test]
fn items_stay_in_order(rt: HostRuntime) -> Result<(), Fail> {
    let list = Items::from_vec([3u32, 1, 2].to_vec(rt.alloc())?);
    assert_eq!(rt; list.as_slice(), [3, 1, 2].as_slice());
    assert_eq!(rt; list.into_vec().as_slice(), [3, 1, 2].as_slice());
    Ok(())
}
