//! Statuses and lines.
use nfs_server::USAGE;
use rig_mem::{MemEvent, MemRig};
use server_runs::outside::{Host, datagram, has_said, has_sent, host, run, served};
use server_runs::volumes::{is_volume, rig};
use server_runs::worked::{worked_reply, worked_write};
use std::alloc::Global;
use std::test::Fail;
use volume_mem::{FRESH, WRITTEN};

const OPENED: &str = "volume 0 VOLA00 down recovered 0";

const STOPPED: &str = "volume 0 down dirty 0";

#[test]
fn the_worked_write_is_served(rt: HostRuntime) -> Result<(), Fail> {
    let alloc = rt.alloc();
    let (status, host) = served(alloc, rig(alloc, FRESH)?, &worked_write())?;
    assert_eq!(rt; status, 0);
    assert!(rt; has_sent(&host, &worked_reply()));
    assert!(rt; has_said(&host, &[OPENED, STOPPED, "received 1 answered 1 dropped 0"]));
    let [back] = host.rigs() else {
        panic!(rt; "no rig came back");
    };
    assert!(rt; is_volume(alloc, &back.1, WRITTEN)?);
    Ok(())
}

// What a host gives: a rig of so many sectors, or the test volume; a post, or none. One of its calls may find no memory.
#[derive(Clone, Copy)]
struct Given {
    rig: bool,
    sectors: u32,
    post: bool,
    starved: Option<u64>,
}

const ALL: Given = Given {
    rig: true,
    sectors: 64,
    post: true,
    starved: None,
};

const NO_RIG: Given = Given { rig: false, ..ALL };

const NO_POST: Given = Given { post: false, ..ALL };

// The rig is asked for first, then the post.
const NO_MEMORY_FOR_RIG: Given = Given {
    starved: Some(1),
    ..ALL
};

const NO_MEMORY_FOR_POST: Given = Given {
    starved: Some(2),
    ..ALL
};

const ONE_SECTOR: Given = Given { sectors: 1, ..ALL };

const ZEROS: Given = Given { sectors: 2, ..ALL };

// A host that gives this, and two idle events, a datagram without meaning, and a failed one.
fn host_of(alloc: Global, given: Given) -> Result<Host, Fail> {
    let mut rigs = Vec::new(alloc);
    if given.rig {
        rigs.push(match given.sectors {
            64 => rig(alloc, FRESH)?,
            sectors => MemRig::new(alloc, sectors, 0)?,
        })?;
    }
    let mut events = Vec::new(alloc);
    events.push(MemEvent::Idle)?;
    events.push(MemEvent::Idle)?;
    events.push(datagram(b"hello"))?;
    events.push(MemEvent::Failed)?;
    let mut host = host(alloc, rigs, if given.post { Some(events) } else { None })?;
    if let Some(call) = given.starved {
        host.starve(call);
    }
    Ok(host)
}

// Words, what the host gives, the status, and the lines.
type Row = (&'static [&'static str], Given, u8, &'static [&'static str]);

const ROWS: [Row; 23] = [
    (&[], ALL, 64, &[USAGE]),
    (&["a:a"], ALL, 64, &[USAGE]),
    (&["a:"], ALL, 64, &[USAGE]),
    (&[":b"], ALL, 64, &[USAGE]),
    (&["d", "--down", "--down"], ALL, 64, &[USAGE]),
    (&["d", "d"], ALL, 64, &[USAGE]),
    (&["d", "--turns", "0"], ALL, 64, &[USAGE]),
    (&["d", "--turns", "1000000001"], ALL, 64, &[USAGE]),
    (&["d", "--turns"], ALL, 64, &[USAGE]),
    (&["d", "--workers", "2"], ALL, 64, &[USAGE]),
    (
        &["d", "--workers", "1", "--turns", "2"],
        ALL,
        72,
        &[
            OPENED,
            STOPPED,
            "received 0 answered 0 dropped 0",
            "turns spent",
        ],
    ),
    (
        &["d", "--turns", "4"],
        ALL,
        72,
        &[
            OPENED,
            STOPPED,
            "received 1 answered 0 dropped 1",
            "turns spent",
        ],
    ),
    (
        &["d", "--turns", "5"],
        ALL,
        0,
        &[OPENED, STOPPED, "received 1 answered 0 dropped 1"],
    ),
    (
        &["d"],
        ALL,
        0,
        &[OPENED, STOPPED, "received 1 answered 0 dropped 1"],
    ),
    (
        &["d", "--down", "--accept-loss"],
        ALL,
        0,
        &[OPENED, STOPPED, "received 1 answered 0 dropped 1"],
    ),
    (
        &["a:b:c"],
        ALL,
        0,
        &[OPENED, STOPPED, "received 1 answered 0 dropped 1"],
    ),
    (&["d"], NO_RIG, 66, &["cannot open d"]),
    (&["d:b"], NO_RIG, 66, &["cannot open d:b"]),
    (&["d"], NO_POST, 66, &[OPENED, "cannot open port 2049"]),
    (&["d"], NO_MEMORY_FOR_RIG, 75, &["no memory"]),
    (&["d"], NO_MEMORY_FOR_POST, 75, &[OPENED, "no memory"]),
    (
        &["d"],
        ONE_SECTOR,
        68,
        &["volume 0 damaged: sector 1 sizes"],
    ),
    (&["d"], ZEROS, 68, &["volume 0 damaged: sector 1 sizes"]),
];

#[test]
fn words_and_hosts_decide_on_the_status(rt: HostRuntime) -> Result<(), Fail> {
    for (words, gives, status, lines) in ROWS {
        let mut host = host_of(rt.alloc(), gives)?;
        assert_eq!(rt; run(rt.alloc(), words, &mut host)?, status);
        assert!(rt; has_said(&host, lines), "status {status}");
        let gives_rig = gives.rig && gives.starved != Some(1);
        assert_eq!(rt; host.rigs().len() == 1, gives_rig && status != 64);
        assert_eq!(rt; host.posts().len() == 1, status == 0 || status == 72);
    }
    Ok(())
}
