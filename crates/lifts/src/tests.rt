use super::*;
use kinds::WriteThrough;
use std::test::Fail;

// A lift that was appended and synced is read back from the pages.
#[test]
fn a_lift_is_read_back(rt: HostRuntime) -> Result<(), Fail> {
    let mut blob = WriteThrough::new(rt.alloc(), 1024)?;
    let lift = Lift::without_flags(1, 22_500, 940, 1_250, 4_200);
    let session: Session<383, 108> = Session::open(&mut blob, 96, 240)?;
    let _ = session.append(&mut blob, &lift)?.sync(&mut blob)?;
    let mut page = [0; 108];
    let stored = read_back(rt.alloc(), &mut blob, 96, &mut page)?;
    assert_eq!(rt; stored.lifts.as_slice(), [lift].as_slice());
    Ok(())
}
