//! Copies with ample memory, and a table of permissions.

use super::*;
use std::test::Fail;

#[test]
fn copies_are_what_was_copied(rt: HostRuntime) -> Result<(), Fail> {
    let alloc = rt.alloc();
    assert!(rt; Name::copy(b"f").bytes() == b"f".as_slice());
    assert!(rt; Gids::copy(&[1, 2]).ids() == [1, 2].as_slice());
    assert!(rt; Text::copy(alloc, b"../a").map_err(|_| "memory")?.bytes() == b"../a".as_slice());
    assert!(rt; Data::copy(alloc, b"XY").map_err(|_| "memory")?.bytes() == b"XY".as_slice());
    Ok(())
}

#[test]
fn the_class_of_the_caller_decides(rt: HostRuntime) -> Result<(), Fail> {
    let node = |kind, mode| Attr {
        kind,
        mode,
        nlink: 1,
        uid: 100,
        gid: 10,
        size: 0,
        fileid: 3,
        atime: 0,
        mtime: 0,
        ctime: 0,
    };
    let cred = |uid, gid| Cred {
        uid,
        gid,
        gids: Gids::copy(&[7, 10]),
    };
    let alone = Cred {
        uid: 5,
        gid: 5,
        gids: Gids::copy(&[]),
    };
    let file = node(Kind::Regular, 0o640);
    assert!(rt; may(&cred(0, 0), &file, Want::Search));
    assert!(rt; may(&cred(100, 5), &node(Kind::Regular, 0), Want::Write));
    assert!(rt; !may(&cred(100, 5), &node(Kind::Directory, 0o077), Want::Write));
    assert!(rt; may(&cred(5, 5), &file, Want::Read));
    assert!(rt; !may(&cred(5, 5), &file, Want::Write));
    assert!(rt; !may(&alone, &file, Want::Read));
    assert!(rt; may(&alone, &node(Kind::Regular, 0o001), Want::Read));
    assert!(rt; !may(&alone, &node(Kind::Directory, 0o001), Want::Read));
    assert!(rt; may(&alone, &node(Kind::Directory, 0o001), Want::Search));
    Ok(())
}
