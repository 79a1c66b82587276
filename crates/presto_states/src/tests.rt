//! The table's rows, and a ring that is full.

use crate::Happening::{
    BoardFailed, DiskFailed, DownEmpty, DownLeft, FlushEmpty, FlushLeft, PollGoodDirty,
    PollGoodEmpty, PollLow, ResetEmpty, ResetLeft, UpGood, UpLow,
};
use crate::{Happening, Ring, Track, next};
use stable::Cause::{Battery, Board, Disk};
use stable::State;
use stable::State::{Down, Error, Up};
use std::test::Fail;

// A state, what happens, and the state then (docs/DEVICES.md, "States").
const ROWS: [(State, Happening, State); 24] = [
    (Down, UpGood, Up),
    (Down, UpLow, Down),
    (Up, DownEmpty, Down),
    (Down, DownEmpty, Down),
    (Error(Battery), DownEmpty, Down),
    (Up, DownLeft(Disk), Error(Disk)),
    (Error(Battery), DownLeft(Disk), Error(Battery)),
    (Up, FlushEmpty, Up),
    (Up, FlushLeft(Board), Error(Board)),
    (Down, FlushEmpty, Down),
    (Error(Disk), FlushEmpty, Error(Disk)),
    (Error(Disk), FlushLeft(Board), Error(Disk)),
    (Up, ResetEmpty, Up),
    (Down, ResetEmpty, Down),
    (Error(Disk), ResetEmpty, Down),
    (Error(Disk), ResetLeft(Board), Error(Disk)),
    (Up, PollLow, Error(Battery)),
    (Down, PollLow, Down),
    (Error(Battery), PollGoodEmpty, Up),
    (Error(Battery), PollGoodDirty, Error(Battery)),
    (Error(Disk), PollGoodEmpty, Error(Disk)),
    (Up, DiskFailed, Error(Disk)),
    (Up, BoardFailed, Error(Board)),
    (Down, DiskFailed, Down),
];

#[test]
fn each_happening_leads_where_the_table_says(rt: HostRuntime) -> Result<(), Fail> {
    for (state, happening, then) in ROWS {
        assert!(rt; next(state, happening) == then, "{state:?}, {happening:?}");
    }
    Ok(())
}

#[test]
fn the_last_64_changes_are_kept(rt: HostRuntime) -> Result<(), Fail> {
    let mut track = Track::new(Down, Ring::new(rt.alloc())?);
    for changes in 1..=64 {
        let happening = if track.state == Down {
            UpGood
        } else {
            DownEmpty
        };
        track.happen(happening);
        assert!(rt; track.changes.len() == changes);
    }
    track.happen(DownEmpty);
    assert!(rt; track.changes.len() == 64);
    track.happen(UpGood);
    assert!(rt; track.changes.len() == 64);
    Ok(())
}
