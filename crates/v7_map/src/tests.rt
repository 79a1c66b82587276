//! Numbers that were worked by hand.

use super::*;
use files_model::Kind;
use std::test::Fail;

#[test]
fn the_four_highest_bits_of_a_mode_are_its_type(rt: HostRuntime) -> Result<(), Fail> {
    assert!(rt; kind_of(0o100_644) == Kind::Regular);
    assert!(rt; kind_of(0o040_755) == Kind::Directory);
    assert!(rt; kind_of(0o120_777) == Kind::Link);
    Ok(())
}

#[test]
fn two_bytes_fall_into_two_sectors(rt: HostRuntime) -> Result<(), Fail> {
    let mut first = [97; 512];
    let mut second = [97; 512];
    splice(511, b"XY", 0, &mut first);
    splice(511, b"XY", 1, &mut second);
    assert!(rt; first[510] == 97 && first[511] == 88);
    assert!(rt; second[0] == 89 && second[1] == 97);
    clip(513, 1, &mut second);
    assert!(rt; second[0] == 89 && second[1] == 0 && second[511] == 0);
    assert!(rt; sectors_of(1024) == 2);
    Ok(())
}
