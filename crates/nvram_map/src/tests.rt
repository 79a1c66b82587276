use crate::{BoardEntry, BoardFault, entry_word, format, read_board};
use rig::{Failed, NoMemory, Rig};
use rig_mem::MemRig;
use std::alloc::Global;
use std::test::Fail;

// "VOLA00" and "VOLB00"
const VOLUME: [u8; 6] = [0x56, 0x4F, 0x4C, 0x41, 0x30, 0x30];

const OTHER: [u8; 6] = [0x56, 0x4F, 0x4C, 0x42, 0x30, 0x30];

const OTHER_WORD: u64 = 0x0000564F4C423030;

// Stores words where the board has them.
fn store(rig: &mut MemRig, words: &[(u32, u64)]) -> Result<(), Failed> {
    for word in words {
        if word.0 >= rig.words() {
            return Err(Failed);
        }
        rig.store_word(word.0, word.1)?;
    }
    Ok(())
}

// Formats a board that is there.
fn try_format(rig: &mut MemRig) -> Result<(), Failed> {
    if rig.buffers() == 0 {
        return Err(Failed);
    }
    format(rig, VOLUME)
}

// The entries of a board that is there.
fn try_read(alloc: Global, rig: &mut MemRig) -> Result<Vec<BoardEntry>, BoardFault> {
    if rig.buffers() == 0 {
        return Err(BoardFault::Failed);
    }
    let board = read_board(alloc, rig, VOLUME)?;
    let mut entries = Vec::new(alloc);
    for entry in board.entries.list() {
        entries.push(*entry)?;
    }
    Ok(entries)
}

// Eight sectors, and a formatted board of four buffers, so of three entries. Formatting makes five device calls.
fn formatted(alloc: Global) -> Result<MemRig, NoMemory> {
    let mut rig = MemRig::new(alloc, 8, 4)?;
    match try_format(&mut rig) {
        Ok(()) => Ok(rig),
        Err(_) => Err(NoMemory),
    }
}

fn word_at(rig: &mut MemRig, index: u32) -> Option<u64> {
    if index >= rig.words() {
        return None;
    }
    rig.load_word(index).ok()
}

#[test]
fn a_formatted_board_has_mark_and_name_and_no_entry(rt: HostRuntime) -> Result<(), Fail> {
    let mut rig = MemRig::new(rt.alloc(), 8, 4)?;
    assert_eq!(rt; store(&mut rig, &[(2, 9), (4, 9)]), Ok(()));
    assert_eq!(rt; try_format(&mut rig), Ok(()));
    let words = [0x50524553544F5631, 0x0000564F4C413030, 0, 0, 0];
    for (index, word) in words.iter().enumerate() {
        assert_eq!(rt; word_at(&mut rig, index as u32), Some(*word));
    }
    match try_read(rt.alloc(), &mut rig) {
        Ok(entries) => assert_eq!(rt; entries.len(), 0),
        Err(_) => assert!(rt; false),
    }
    Ok(())
}

#[test]
fn entries_are_read_by_rising_index(rt: HostRuntime) -> Result<(), Fail> {
    let mut rig = formatted(rt.alloc())?;
    let words = [(2, entry_word(5, 0)), (4, 0x8000000300000007)];
    assert_eq!(rt; words[0].1, 0x8000000000000005);
    assert_eq!(rt; store(&mut rig, &words), Ok(()));
    match try_read(rt.alloc(), &mut rig) {
        Ok(entries) => {
            assert_eq!(rt; entries.len(), 2);
            assert_eq!(rt;
                entries.first().copied(),
                Some(BoardEntry {
                    index: 0,
                    sector: 5,
                    buffer: 0
                })
            );
            assert_eq!(rt;
                entries.last().copied(),
                Some(BoardEntry {
                    index: 2,
                    sector: 7,
                    buffer: 3
                })
            );
        }
        Err(_) => assert!(rt; false),
    }
    Ok(())
}

// Two words that are stored on a formatted board, and why it is refused then.
type Row = ([(u32, u64); 2], BoardFault);

const REFUSED: [Row; 3] = [
    // no mark, whatever the name is
    (
        [(0, 0), (1, OTHER_WORD)],
        BoardFault::NotFormatted { word: 0 },
    ),
    // another name, whatever the entries are
    (
        [(1, OTHER_WORD), (2, 5)],
        BoardFault::WrongVolume {
            board: OTHER,
            volume: VOLUME,
        },
    ),
    // a bit above the name's six bytes
    (
        [(1, 0x0001564F4C413030), (2, 0)],
        BoardFault::WrongVolume {
            board: VOLUME,
            volume: VOLUME,
        },
    ),
];

// Two words that are stored on a formatted board, and which entry is bad then, with its word.
const BAD: [([(u32, u64); 2], u32, u64); 7] = [
    // neither 0 nor set
    ([(2, 5), (3, 0)], 0, 5),
    // the lowest bad one
    ([(4, 5), (3, 6)], 1, 6),
    // one sector twice, one buffer twice
    (
        [(2, 0x8000000000000005), (4, 0x8000000100000005)],
        2,
        0x8000000100000005,
    ),
    (
        [(2, 0x8000000000000005), (3, 0x8000000000000006)],
        1,
        0x8000000000000006,
    ),
    // a bit above the buffer's sixteen
    ([(2, 0x8001000000000005), (3, 0)], 0, 0x8001000000000005),
    // sector 8 of eight, buffer 4 of four
    ([(2, 0x8000000000000008), (3, 0)], 0, 0x8000000000000008),
    ([(2, 0x8000000400000005), (3, 0)], 0, 0x8000000400000005),
];

#[test]
fn a_board_is_refused_for_its_first_fault(rt: HostRuntime) -> Result<(), Fail> {
    for (words, fault) in REFUSED {
        let mut rig = formatted(rt.alloc())?;
        assert_eq!(rt; store(&mut rig, &words), Ok(()));
        assert_eq!(rt; try_read(rt.alloc(), &mut rig).err(), Some(fault));
    }
    for (words, index, word) in BAD {
        let mut rig = formatted(rt.alloc())?;
        assert_eq!(rt; store(&mut rig, &words), Ok(()));
        let fault = BoardFault::BadEntry { index, word };
        assert_eq!(rt; try_read(rt.alloc(), &mut rig).err(), Some(fault));
    }
    let mut lost = formatted(rt.alloc())?.crash(false, 0);
    assert_eq!(rt;
        try_read(rt.alloc(), &mut lost).err(),
        Some(BoardFault::Lost)
    );
    Ok(())
}

#[test]
fn each_device_call_that_fails_is_told(rt: HostRuntime) -> Result<(), Fail> {
    for number in 6..11 {
        let mut rig = formatted(rt.alloc())?;
        rig.fail(number, false)?;
        assert_eq!(rt;
            try_read(rt.alloc(), &mut rig).err(),
            Some(BoardFault::Failed)
        );
    }
    for number in 1..6 {
        let mut rig = MemRig::new(rt.alloc(), 8, 4)?;
        rig.fail(number, true)?;
        assert_eq!(rt; try_format(&mut rig), Err(Failed));
    }
    Ok(())
}

#[test]
fn faults_are_told_in_words(rt: HostRuntime) -> Result<(), Fail> {
    let rows = [
        (BoardFault::Lost, "the board lost its memory"),
        (
            BoardFault::NotFormatted { word: 7 },
            "the board is not formatted: its first word is 0x0000000000000007",
        ),
        (
            BoardFault::WrongVolume {
                board: OTHER,
                volume: VOLUME,
            },
            "the board is of the volume VOLB00, and not of VOLA00",
        ),
        (
            BoardFault::BadEntry { index: 2, word: 5 },
            "entry 2 of the board is damaged: its word is 0x0000000000000005",
        ),
    ];
    for (fault, text) in rows {
        assert_eq!(rt; format!(in rt.alloc(); "{fault}")?.as_str(), text);
    }
    Ok(())
}
