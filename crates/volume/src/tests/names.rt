//! Names that are made and taken away: a CREATE and a REMOVE in the root of the test volume.

ghost use Rattle.volume.specs.Rests.{Rests};

use super::{FILE, opened, store};
use crate::{Outcome, Volume};
use files_model::{Attr, Call, Cred, FileId, Gids, Kind, Name, Reply, Sattr, Stat};
use stable::Stable;
use std::test::Fail;
use store_mem::Memory;

const ROOT: FileId = FileId {
    ino: 2,
    generation: 1,
};

// A call of the superuser at second 2000.
fn asked(volume: &mut Volume<Memory>, call: &Call) -> Outcome
    requires rests { Rests ⟦<Memory as Stable>⟧ volume.old }
    ensures { Rests ⟦<Memory as Stable>⟧ volume.new }
{
    let superuser = Cred {
        uid: 0,
        gid: 0,
        gids: Gids::copy(&[]),
    };
    volume.apply(call, &superuser, 2000)
}

// A CREATE in the root with mode 0640.
fn create(volume: &mut Volume<Memory>, name: Name) -> Outcome
    requires { Rests ⟦<Memory as Stable>⟧ volume.old }
    ensures { Rests ⟦<Memory as Stable>⟧ volume.new }
{
    let call = Call::Create {
        dir: ROOT,
        name,
        set: Sattr {
            mode: Some(0o640),
            uid: None,
            gid: None,
            size: None,
            atime: None,
            mtime: None,
        },
    };
    asked(volume, &call)
}

// A REMOVE from the root.
fn remove(volume: &mut Volume<Memory>, name: Name) -> Outcome
    requires { Rests ⟦<Memory as Stable>⟧ volume.old }
    ensures { Rests ⟦<Memory as Stable>⟧ volume.new }
{
    let call = Call::Remove { dir: ROOT, name };
    asked(volume, &call)
}

// A new file of the superuser's, made at second 2000.
fn made(ino: u32) -> Attr {
    Attr {
        kind: Kind::Regular,
        mode: 0o640,
        nlink: 1,
        uid: 0,
        gid: 0,
        size: 0,
        fileid: ino,
        atime: 2000,
        mtime: 2000,
        ctime: 2000,
    }
}

#[test]
fn a_new_file_is_put_before_its_slot(rt: HostRuntime) -> Result<(), Fail> {
    let alloc = rt.alloc();
    let (mut volume, _) = opened(alloc, store(alloc, 0)?)?;
    let Outcome::Reply(Reply::Handle { file, attr }) = create(&mut volume, Name::copy(b"g")) else {
        panic!(rt; "nothing was made");
    };
    let new = FileId {
        ino: 4,
        generation: 1,
    };
    assert!(rt; file == new && attr == made(4));
    let lookup = Call::Lookup {
        dir: ROOT,
        name: Name::copy(b"g"),
    };
    let Outcome::Reply(Reply::Handle { file, attr }) = asked(&mut volume, &lookup) else {
        panic!(rt; "it isn't found");
    };
    assert!(rt; file == new && attr == made(4));
    let store = volume.into_store();
    assert!(rt; store.puts == 4 && store.order.starts_with(&[1, 2, 4, 2]));
    Ok(())
}

#[test]
fn what_a_file_without_a_name_had_is_free(rt: HostRuntime) -> Result<(), Fail> {
    let alloc = rt.alloc();
    let (mut volume, _) = opened(alloc, store(alloc, 0)?)?;
    assert!(rt;
        matches!(
            remove(&mut volume, Name::copy(b"f")),
            Outcome::Reply(Reply::Done)
        )
    );
    let space = asked(&mut volume, &Call::Statfs { file: ROOT });
    assert!(rt;
        matches!(
            space,
            Outcome::Reply(Reply::Space {
                blocks: 60,
                free: 59
            })
        )
    );
    let gone = asked(&mut volume, &Call::Getattr { file: FILE });
    assert!(rt; matches!(gone, Outcome::Reply(Reply::Refused(Stat::Stale))));
    let Outcome::Reply(Reply::Handle { file, attr }) = create(&mut volume, Name::copy(b"h")) else {
        panic!(rt; "nothing was made");
    };
    let again = FileId {
        ino: 3,
        generation: 2,
    };
    assert!(rt; file == again && attr == made(3));
    let Ok(seen) = volume.inspect() else {
        panic!(rt; "nothing is seen");
    };
    assert!(rt; seen.strong && seen.files == 1 && seen.used == 1);
    let store = volume.into_store();
    assert!(rt; store.puts == 6 && store.order.starts_with(&[1, 4, 2, 2, 4, 2]));
    Ok(())
}

#[test]
fn a_failed_removal_is_mended_by_the_next_call(rt: HostRuntime) -> Result<(), Fail> {
    let alloc = rt.alloc();
    // the put of the inodes, after those of the super-block and of the slot
    let (mut volume, _) = opened(alloc, store(alloc, 3)?)?;
    assert!(rt; matches!(remove(&mut volume, Name::copy(b"f")), Outcome::Io));
    let space = asked(&mut volume, &Call::Statfs { file: ROOT });
    assert!(rt;
        matches!(
            space,
            Outcome::Reply(Reply::Space {
                blocks: 60,
                free: 59
            })
        )
    );
    let Ok(seen) = volume.inspect() else {
        panic!(rt; "nothing is seen");
    };
    assert!(rt; seen.strong && seen.files == 0 && seen.used == 1);
    Ok(())
}
