//! A run over one rig in memory.
use crate::tool;
use nvram_map::format;
use rig::Rig;
use rig_mem::{MemClock, MemHost, MemRig, StillPauser};
use std::alloc::Global;
use std::test::Fail;

pub type Host = MemHost<MemRig, StillPauser>;

/// A host that gives these rigs.
pub fn host(alloc: Global, rigs: Vec<MemRig>) -> Result<Host, Fail> {
    let clock = MemClock::new(Vec::from_slice(alloc, &[1500])?);
    Ok(MemHost::new(alloc, rigs, Vec::new(alloc), clock)?)
}

/// The words of a command line, which has them with one space in between.
pub fn words(alloc: Global, line: &str) -> Result<Vec<String>, Fail> {
    let mut words = Vec::new(alloc);
    for word in line.split(' ') {
        words.push(String::from_str(alloc, word)?)?;
    }
    Ok(words)
}

/// A host with one rig, after it was run by this command line, and the status.
pub fn run(alloc: Global, rig: MemRig, line: &str) -> Result<(u8, Host), Fail> {
    let mut rigs = Vec::new(alloc);
    rigs.push(rig)?;
    let mut host = host(alloc, rigs)?;
    let status = tool(alloc, &words(alloc, line)?, &mut host);
    Ok((status, host))
}

/// Whether this line was said, and no other.
pub fn has_said(host: &Host, wanted: &str) -> bool {
    match host.lines() {
        [line] => line.text() == wanted,
        _ => false,
    }
}

/// The rig that came back as that of volume 0, if one did and no other.
pub fn rig_of(host: Host) -> Option<MemRig> {
    let mut rigs = host.into_rigs();
    match (rigs.pop(), rigs.is_empty()) {
        (Some((0, rig)), true) => Some(rig),
        _ => None,
    }
}

/// Runs over a rig by this command line, sees that it ends so, and hands the rig back.
pub fn ends(
    alloc: Global,
    rig: MemRig,
    line: &str,
    status: u8,
    said: &str,
) -> Result<MemRig, Fail> {
    let (end, host) = run(alloc, rig, line)?;
    if end != status || !has_said(&host, said) {
        return Err("another status or line".into());
    }
    match rig_of(host) {
        Some(rig) => Ok(rig),
        None => Err("the rig didn't come back".into()),
    }
}

/// A rig with these sectors, and no board.
pub fn rig_with(alloc: Global, disk: Vec<[u8; 512]>) -> MemRig {
    let mut disk = disk;
    // a rig asks that its sectors can be numbered
    disk.truncate(64);
    MemRig::with_disk(alloc, disk)
}

/// A rig with these sectors and a board that is formatted for `VOLA00`. Its device calls are counted from here on.
pub fn with_board(alloc: Global, disk: &[[u8; 512]]) -> Result<MemRig, Fail> {
    let mut rig = MemRig::new(alloc, 64, 4)?;
    for (sector, bytes) in (0..64).zip(disk.iter()) {
        if sector < rig.sectors() && rig.write(sector, bytes).is_err() {
            return Err("the disk isn't made".into());
        }
    }
    if rig.buffers() == 0 || format(&mut rig, *b"VOLA00").is_err() {
        return Err("the board isn't formatted".into());
    }
    Ok(rig.crash(true, 0))
}
