//! Volumes that can't be mended, and one that can.
use server_runs::outside::{has_said, rig_of, served_by};
use server_runs::volumes::{Patch, has_disk, is_stopped, is_volume, patched, rig_with};
use std::alloc::Global;
use std::test::Fail;
use volume_mem::{FRESH, test_volume};

// The volume with these bytes is refused with this line, and nothing is changed.
fn is_refused(alloc: Global, patches: &[Patch], line: &str) -> Result<bool, Fail> {
    let disk = patched(test_volume(alloc, FRESH)?, patches);
    let wanted = patched(test_volume(alloc, FRESH)?, patches);
    let (status, host) = served_by(alloc, rig_with(alloc, disk), &["d"], Vec::new(alloc))?;
    let told = status == 68 && has_said(&host, &[line]);
    match rig_of(host) {
        Some(rig) => Ok(told && has_disk(&rig, &wanted)),
        None => Ok(false),
    }
}

// The mark of the volume, and its first data block; inode 1 in use, and the root free; the size of file 3; its first address
// in the list of inodes, and past the volume; one block at two places; `..` of the root that leads to file 3; a last slot that
// names a free inode; a size and a slot.
const ROWS: [(&[Patch], &str); 10] = [
    (&[(1, 440, 0)], "volume 0 damaged: sector 1 sizes"),
    (&[(1, 0, 2)], "volume 0 damaged: sector 1 sizes"),
    (&[(2, 1, 0x81)], "volume 0 damaged: sector 2 kind"),
    (&[(2, 64, 0), (2, 65, 0)], "volume 0 damaged: sector 2 kind"),
    (&[(2, 139, 255)], "volume 0 damaged: sector 2 length"),
    (&[(2, 140, 3)], "volume 0 damaged: sector 2 address"),
    (&[(2, 140, 64)], "volume 0 damaged: sector 2 address"),
    (
        &[(2, 140, 63), (2, 143, 63)],
        "volume 0 damaged: sector 2 shared",
    ),
    (&[(4, 16, 3)], "volume 0 damaged: sector 2 dots"),
    (&[(4, 32, 9)], "volume 0 damaged: sector 4 slot"),
];

#[test]
fn a_damaged_volume_is_refused(rt: HostRuntime) -> Result<(), Fail> {
    for (patches, line) in ROWS {
        assert!(rt; is_refused(rt.alloc(), patches, line)?, "{line}");
    }
    assert!(rt;
        is_refused(
            rt.alloc(),
            &[(2, 139, 255), (4, 32, 9)],
            "volume 0 damaged: sector 2 length"
        )?
    );
    Ok(())
}

// File 3 has a stored count of 5 links, and one slot names it.
#[test]
fn a_volume_that_can_be_mended_is_served(rt: HostRuntime) -> Result<(), Fail> {
    let alloc = rt.alloc();
    let disk = patched(test_volume(alloc, FRESH)?, &[(2, 130, 5)]);
    let (status, host) = served_by(alloc, rig_with(alloc, disk), &["d"], Vec::new(alloc))?;
    assert_eq!(rt; status, 0);
    assert!(rt;
        has_said(
            &host,
            &[
                "volume 0 VOLA00 down recovered 0",
                "volume 0 down dirty 0",
                "received 0 answered 0 dropped 0",
            ]
        )
    );
    let Some(rig) = rig_of(host) else {
        panic!(rt; "no rig came back");
    };
    assert!(rt; is_volume(alloc, &rig, FRESH)?);
    assert!(rt; is_stopped(&rig, 1500));
    Ok(())
}
