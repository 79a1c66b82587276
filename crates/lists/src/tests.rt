//! Copies with ample memory.

use super::*;
use std::test::Fail;

#[test]
fn a_list_is_what_it_was_made_of(rt: HostRuntime) -> Result<(), Fail> {
    let copied = Bytes::<3>::copy(rt.alloc(), b"abc")?;
    assert_eq!(rt; copied.bytes(), b"abc".as_slice());
    assert_eq!(rt;
        Bytes::<2>::new(Vec::from_slice(rt.alloc(), b"xy")?).bytes(),
        b"xy".as_slice()
    );
    assert_eq!(rt;
        Items::new(Vec::from_slice(rt.alloc(), &[7, 8])?).list(),
        [7, 8].as_slice()
    );
    assert_eq!(rt;
        Items::new(Vec::from_slice(rt.alloc(), b"z")?).bytes(),
        b"z".as_slice()
    );
    assert_eq!(rt; InPlace::<u32, 2>::copy(&[1, 2]).list(), [1, 2].as_slice());
    assert_eq!(rt; InPlace::<u16, 2>::copy(&[1, 2]).ids(), [1, 2].as_slice());
    assert_eq!(rt; InPlace::<u8, 2>::copy(b"c").bytes(), b"c".as_slice());
    Ok(())
}
