//! That the calls that take memory succeed.
use items::Items;
use std::test::Fail;

#[test]
fn holds_what_it_was_given(rt: HostRuntime) -> Result<(), Fail> {
    let mut items = Items::from_slice(rt.alloc(), &[1u8, 2])?;
    items.push(3)?;
    assert_eq!(rt; items.as_slice(), [1, 2, 3].as_slice());
    Ok(())
}
