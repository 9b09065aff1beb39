use super::*;
use blob::{Blob, Fault};
use std::test::Fail;

// The cut lets four of the second write's eight bytes through. The pattern's bits 1, 0, 1, 0, 0, .. then choose the longer length, and the settled, the working and twice the settled byte.
#[test]
fn restart_after_a_cut(rt: HostRuntime) -> Result<(), Fail> {
    let mut blob = SettleLater::new(rt.alloc(), 16, Some(12), &[5])?;
    blob.write(0, b"abcdefgh")?;
    blob.settle()?;
    assert_eq!(rt; blob.write(0, b"ABCDEFGH"), Err(Fault::Failed));
    assert_eq!(rt; blob.settle(), Err(Fault::Failed));
    blob.restart();
    let mut buf = [0; 8];
    blob.read(0, &mut buf)?;
    assert_eq!(rt; &buf, b"aBcdefgh");
    assert_eq!(rt; blob.size(), 8);
    Ok(())
}
