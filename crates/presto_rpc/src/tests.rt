//! The words of calls and replies, as docs/FORMATS.md has them.

use super::*;
use byteorder::{BigEndian, ByteOrder};
use files_model::NoMemory;
use stable::{Battery, Cause, Command, Snapshot, State};
use std::alloc::Global;
use std::test::Fail;
use xdr_rpc::{RpcRead, read_rpc};

// STATUS of volume 1, by user 0 of a machine without a name, as words.
const STATUS: [u32; 16] = [
    0x50524553, 0, 2, 0x20001094, 1, 5, 1, 20, 0, 0, 0, 0, 0, 0, 0, 1,
];

const UP: Control = Control::Command {
    volume: 1,
    command: Command::Up,
};

// The procedure, the flavour and the user of a call with volume 1, how many words are left, and what it asks for.
const CALLS: [(u32, u32, u32, usize, Control); 13] = [
    (1, 1, 0, 16, UP),
    (
        2,
        1,
        0,
        16,
        Control::Command {
            volume: 1,
            command: Command::Down,
        },
    ),
    (
        3,
        1,
        0,
        16,
        Control::Command {
            volume: 1,
            command: Command::Flush,
        },
    ),
    (
        4,
        1,
        0,
        16,
        Control::Command {
            volume: 1,
            command: Command::Reset,
        },
    ),
    (5, 1, 0, 16, Control::Status { volume: 1 }),
    (6, 1, 0, 15, Control::Halt),
    (1, 1, 0, 15, Control::Garbage),
    (5, 1, 100, 15, Control::Garbage),
    (5, 0, 0, 16, Control::Status { volume: 1 }),
    (5, 1, 100, 16, Control::Status { volume: 1 }),
    (1, 1, 100, 16, Control::TooWeak),
    (6, 0, 0, 15, Control::TooWeak),
    (2, 1, 65536, 15, Control::TooWeak),
];

fn asked_by(alloc: Global, words: &[u32; 16], len: usize) -> Result<Option<Control>, NoMemory> {
    let mut bytes = [0; 64];
    BigEndian::write_u32_into(words, &mut bytes);
    match read_rpc(alloc, &bytes[..len.min(64)])? {
        RpcRead::Call(call) => Ok(Some(read_control(&call))),
        _ => Ok(None),
    }
}

#[test]
fn what_calls_ask_for(rt: HostRuntime) -> Result<(), Fail> {
    for (procedure, flavour, user, len, expected) in CALLS {
        let mut words = STATUS;
        words[5] = procedure;
        words[6] = flavour;
        words[10] = user;
        let asked = asked_by(rt.alloc(), &words, 4 * len.min(16))?;
        assert_eq!(rt; asked, Some(expected), "procedure {procedure}, user {user}");
    }
    Ok(())
}

#[test]
fn the_words_of_controls(rt: HostRuntime) {
    let mut bytes = [0; 64];
    BigEndian::write_u32_into(&STATUS, &mut bytes);
    let status = write_control(0x50524553, &Control::Status { volume: 1 });
    assert_eq!(rt; status.bytes(), bytes.as_slice());
    bytes[23] = 1;
    assert_eq!(rt; write_control(0x50524553, &UP).bytes(), bytes.as_slice());
    bytes[23] = 6;
    assert_eq!(rt;
        write_control(0x50524553, &Control::Halt).bytes(),
        &bytes[..60]
    );
}

#[test]
fn the_words_of_replies(rt: HostRuntime) {
    let mut answer = [0; 32];
    BigEndian::write_u32_into(&[9, 1, 0, 0, 0, 0, 1, 5], &mut answer);
    assert_eq!(rt; write_answer(9, 1, 5).bytes(), answer.as_slice());
    let snapshot = Snapshot {
        state: State::Up,
        dirty: 17,
        battery: Battery::Good,
        puts: 0x100000011,
        polls: 3,
        ups: 1,
        tries: 0,
    };
    let mut status = [0; 48];
    BigEndian::write_u32_into(&[9, 1, 0, 0, 0, 0, 0, 1, 17, 1, 1, 17], &mut status);
    assert_eq!(rt; write_status(9, &snapshot).bytes(), status.as_slice());
}

fn said(words: &[u32; 12], len: usize, asked: Control) -> ControlReply {
    let mut bytes = [0; 48];
    BigEndian::write_u32_into(words, &mut bytes);
    read_control_reply(&bytes[..len.min(48)], 9, &asked)
}

const SHOWN: ControlReply = ControlReply::Status {
    state: State::Error(Cause::Disk),
    dirty: 17,
    battery: Battery::Low,
    puts: 0x100000011,
};

// A changed word of the reply to STATUS, how many bytes are left, and what it says to that question.
const STATUSES: [(usize, u32, usize, ControlReply); 11] = [
    (0, 9, 48, SHOWN),
    (0, 8, 48, ControlReply::Other),
    (1, 0, 48, ControlReply::Other),
    (0, 9, 7, ControlReply::Other),
    (0, 9, 8, ControlReply::Refused),
    (2, 1, 48, ControlReply::Refused),
    (5, 4, 48, ControlReply::Refused),
    (6, 4, 48, ControlReply::Refused),
    (7, 5, 48, ControlReply::Refused),
    (9, 2, 48, ControlReply::Refused),
    (0, 9, 44, ControlReply::Refused),
];

#[test]
fn what_replies_to_status_say(rt: HostRuntime) {
    for (at, word, len, expected) in STATUSES {
        let mut words = [9, 1, 0, 0, 0, 0, 0, 2, 17, 0, 1, 17];
        words[at.min(11)] = word;
        let found = said(&words, len, Control::Status { volume: 1 });
        assert_eq!(rt; found, expected, "word {at} is {word}, {len} bytes");
    }
}

// What was asked, a code and a number, and whether that answers it.
const ANSWERS: [(Control, u32, u32, bool); 9] = [
    (UP, 0, 0, true),
    (UP, 1, 3, true),
    (UP, 2, 0, true),
    (UP, 4, 0, true),
    (UP, 0, 3, false),
    (UP, 5, 0, false),
    (Control::Status { volume: 1 }, 4, 0, true),
    (Control::Status { volume: 1 }, 3, 0, false),
    (Control::Halt, 4, 0, false),
];

#[test]
fn what_answers_say(rt: HostRuntime) {
    for (asked, code, n, answers) in ANSWERS {
        let words = [9, 1, 0, 0, 0, 0, code, n, 0, 0, 0, 0];
        let expected = if answers {
            ControlReply::Answer { code, n }
        } else {
            ControlReply::Refused
        };
        assert_eq!(rt; said(&words, 32, asked), expected, "code {code}, {n}");
    }
}
