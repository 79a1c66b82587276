//! The root of a small volume that was worked by hand: `.` and `..` of inode 2, and `f` of inode 3.

use super::*;
use files_model::Name;
use std::test::Fail;

fn named(bytes: &[u8]) -> Name {
    if bytes.len() > 255 {
        return Name::copy(b"too long");
    }
    Name::copy(bytes)
}

fn root() -> [u8; 512] {
    let mut sector = [0; 512];
    sector[..3].copy_from_slice(b"\x02\x00.");
    sector[16..20].copy_from_slice(b"\x02\x00..");
    sector[32..35].copy_from_slice(b"\x03\x00f");
    sector
}

#[test]
fn the_slots_of_a_root_are_found(rt: HostRuntime) -> Result<(), Fail> {
    let sector = root();
    let slots = &sector[..48];
    let cut = &sector[..47];
    for (name, whole, without_rest) in [
        (b".".as_slice(), Some(0), Some(0)),
        (b"..".as_slice(), Some(1), Some(1)),
        (b"f".as_slice(), Some(2), None),
        (b"".as_slice(), None, None),
        (b"ff".as_slice(), None, None),
        (b"f\0".as_slice(), None, None),
        (b"...".as_slice(), None, None),
    ] {
        assert_eq!(rt; find(&sector, &named(name)), whole);
        assert_eq!(rt; find(slots, &named(name)), whole);
        assert_eq!(rt; find(cut, &named(name)), without_rest);
    }
    assert_eq!(rt; first_empty(&sector), Some(3));
    assert_eq!(rt; first_empty(slots), None);
    let mut emptied = sector;
    emptied[32] = 0;
    assert_eq!(rt; find(&emptied, &named(b"f")), None);
    assert_eq!(rt; first_empty(&emptied), Some(2));
    Ok(())
}

#[test]
fn names_that_may_be_made(rt: HostRuntime) -> Result<(), Fail> {
    for (name, good) in [
        (b"f".as_slice(), true),
        (b"...".as_slice(), true),
        (b"\xff".as_slice(), true),
        (b"fourteen bytes".as_slice(), true),
        (b"fifteen bytes..".as_slice(), false),
        (b"".as_slice(), false),
        (b".".as_slice(), false),
        (b"..".as_slice(), false),
        (b"a/b".as_slice(), false),
        (b"f\0".as_slice(), false),
    ] {
        assert_eq!(rt; good_name(&named(name)), good);
    }
    Ok(())
}
