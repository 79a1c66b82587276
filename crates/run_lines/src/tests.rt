//! The lines and statuses of refusals (docs/CALLS.md, "Lines and statuses").
use crate::{Refusal, damaged, host_refusal, no_volume_line, unit_refusal, volume_refusal};
use nvram_map::BoardFault;
use presto_recover::OpenFault;
use rig::HostFault;
use std::test::Fail;
use v7_damage::{Damage, RepairFault};

fn is(refusal: &Refusal, status: u8, line: &str) -> bool {
    refusal.status == status && refusal.line.as_str() == line
}

#[test]
fn a_damage_has_its_sector_and_kind(rt: HostRuntime) -> Result<(), Fail> {
    for (sector, kind, line) in [
        (1, Damage::Sizes, "volume 0 damaged: sector 1 sizes"),
        (2, Damage::Kind, "volume 0 damaged: sector 2 kind"),
        (3, Damage::Length, "volume 0 damaged: sector 3 length"),
        (
            8192,
            Damage::Address,
            "volume 0 damaged: sector 8192 address",
        ),
        (2, Damage::Shared, "volume 0 damaged: sector 2 shared"),
        (2, Damage::Dots, "volume 0 damaged: sector 2 dots"),
        (4, Damage::Slot, "volume 0 damaged: sector 4 slot"),
    ] {
        assert!(rt; is(&damaged(0, sector, kind), 68, line), "{line}");
        assert!(rt;
            is(
                &volume_refusal(0, RepairFault::Damaged { sector, kind }),
                68,
                line
            ),
            "{line}"
        );
    }
    Ok(())
}

#[test]
fn a_board_has_its_line(rt: HostRuntime) -> Result<(), Fail> {
    for (fault, status, line) in [
        (BoardFault::Lost, 69, "board of volume 0 lost its memory"),
        (
            BoardFault::NotFormatted { word: 5 },
            70,
            "board of volume 0 not formatted",
        ),
        (
            BoardFault::WrongVolume {
                board: *b"VOLA00",
                volume: *b"VOL\x20\x7f0",
            },
            67,
            "board VOLA00 is not of volume VOL??0",
        ),
        (
            BoardFault::BadEntry { index: 0, word: 5 },
            68,
            "board of volume 0: entry 0 bad",
        ),
    ] {
        assert!(rt;
            is(&unit_refusal(0, OpenFault::Board(fault)), status, line),
            "{line}"
        );
    }
    assert!(rt;
        is(
            &unit_refusal(1, OpenFault::NoSuper { sectors: 1 }),
            68,
            "volume 1 damaged: sector 1 sizes"
        )
    );
    assert!(rt;
        is(
            &unit_refusal(3, OpenFault::Failed),
            74,
            "device failed on volume 3"
        )
    );
    assert!(rt;
        is(
            &host_refusal(HostFault::Failed, no_volume_line("d:b")),
            66,
            "cannot open d:b"
        )
    );
    assert!(rt;
        is(
            &host_refusal(HostFault::NoMemory, no_volume_line("d:b")),
            75,
            "no memory"
        )
    );
    Ok(())
}
