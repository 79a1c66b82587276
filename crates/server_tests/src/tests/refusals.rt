//! The refusals of a WRITE.
use server_runs::outside::{has_said, has_sent, served};
use server_runs::volumes::{is_volume, rig};
use server_runs::worked::{status_reply, write_with};
use std::test::Fail;
use volume_mem::{FRESH, Shape};

const READ_ONLY: Shape = Shape {
    read_only: 1,
    ..FRESH
};

const LINK: Shape = Shape {
    mode: 0o120_777,
    ..FRESH
};

// A volume, one word of the worked WRITE changed, and the status of the reply (RFC 1094 2.3.1).
const ROWS: [(Shape, usize, u32, u32); 12] = [
    // the handle: another form, volume, file, generation
    (FRESH, 16, 0x56374e33, 70),
    (FRESH, 17, 1, 70),
    (FRESH, 18, 4, 70),
    (FRESH, 18, 17, 70),
    (FRESH, 19, 2, 70),
    (READ_ONLY, 19, 2, 70),
    (READ_ONLY, 18, 2, 30),
    (FRESH, 18, 2, 21),
    (LINK, 11, 200, 6),
    (FRESH, 11, 200, 13),
    (FRESH, 25, 70_655, 27),
    (FRESH, 25, 0xffff_ffff, 27),
];

#[test]
fn a_refusal_changes_nothing(rt: HostRuntime) -> Result<(), Fail> {
    let alloc = rt.alloc();
    for (shape, at, word, status) in ROWS {
        let (end, host) = served(alloc, rig(alloc, shape)?, &write_with(at, word))?;
        assert_eq!(rt; end, 0);
        assert!(rt;
            has_sent(&host, &status_reply(status)),
            "word {at} is {word}: {status}"
        );
        assert!(rt;
            has_said(
                &host,
                &[
                    "volume 0 VOLA00 down recovered 0",
                    "volume 0 down dirty 0",
                    "received 1 answered 1 dropped 0",
                ]
            )
        );
        let [back] = host.rigs() else {
            panic!(rt; "no rig came back");
        };
        assert!(rt; is_volume(alloc, &back.1, shape)?);
    }
    Ok(())
}
