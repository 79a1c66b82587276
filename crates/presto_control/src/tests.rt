//! Runs over a link and lines in memory. The words of calls and replies are those of docs/FORMATS.md, "Control program".
ghost use Rattle.std.specs.Prelude.{None};

use crate::control;
use byteorder::{BigEndian, ByteOrder};
use rig::{Address, Event, Failed, Link, Packet, Say};
use rig_mem::{MemEvent, MemLink, MemSay};
use std::alloc::Global;
use std::test::Fail;

// The server, at 192.0.2.1.
const SERVER: Address = Address {
    ip: [0, 0, 0, 0, 0, 0, 0, 0, 0, 0, 255, 255, 192, 0, 2, 1],
    port: 2049,
};

const XID: u32 = 0x50524553;

const DONE: [u32; 12] = [XID, 1, 0, 0, 0, 0, 0, 0, 0, 0, 0, 0];

// A reply to another call.
const OTHER: [u32; 12] = [XID + 1, 1, 0, 0, 0, 0, 0, 0, 0, 0, 0, 0];

fn datagram(words: &[u32; 12]) -> MemEvent {
    let mut bytes = [0; 48];
    BigEndian::write_u32_into(words, &mut bytes);
    let mut packet = Packet::new();
    packet.set(&bytes);
    MemEvent::Datagram {
        from: SERVER,
        packet,
    }
}

// The words of a command line, which has them with one space in between.
fn words(alloc: Global, line: &str) -> Result<Vec<String>, Fail> {
    let mut words = Vec::new(alloc);
    for word in line.split(' ') {
        words.push(String::from_str(alloc, word)?)?;
    }
    Ok(words)
}

// A link with these events.
fn link(alloc: Global, idles: u32, others: u32, last: Option<MemEvent>) -> Result<MemLink, Fail> {
    let mut events = Vec::new(alloc);
    for _ in 0..others {
        events.push(datagram(&OTHER))?;
    }
    for _ in 0..idles {
        events.push(MemEvent::Idle)?;
    }
    if let Some(last) = last {
        events.push(last)?;
    }
    Ok(MemLink::new(alloc, events))
}

// Runs by this command line. The status, and whether this line was said and no other.
fn run(alloc: Global, line: &str, link: &mut MemLink, wanted: &str) -> Result<(u8, bool), Fail> {
    let mut out = MemSay::new(alloc);
    let status = control(&words(alloc, line)?, &SERVER, link, &mut out);
    let said = match out.lines() {
        [line] => line.text() == wanted,
        _ => false,
    };
    Ok((status, said))
}

// Whether one datagram was sent, to the server, with these words.
fn has_sent(link: &MemLink, words: &[u32]) -> bool {
    let mut bytes = [0; 64];
    let count = words.len().min(16);
    BigEndian::write_u32_into(&words[..count], &mut bytes[..4 * count]);
    match link.sent() {
        [sent] => sent.to == SERVER && sent.bytes.bytes() == &bytes[..4 * count],
        _ => false,
    }
}

// What is asked, the words of the reply from its result on, the status and the line.
const ANSWERS: [(&str, [u32; 6], u8, &str); 12] = [
    (
        "status 0",
        [0, 1, 17, 1, 0, 17],
        0,
        "state up dirty 17 battery good puts 17",
    ),
    (
        "status 3",
        [0, 4, 2, 0, 1, 0],
        0,
        "state error battery dirty 2 battery low puts 4294967296",
    ),
    (
        "status 1",
        [0, 2, 0, 1, 0, 0],
        0,
        "state error disk dirty 0 battery good puts 0",
    ),
    (
        "status 1",
        [0, 3, 0, 1, 0, 0],
        0,
        "state error board dirty 0 battery good puts 0",
    ),
    (
        "status 2",
        [0, 0, 0, 1, 0, 9],
        0,
        "state down dirty 0 battery good puts 9",
    ),
    ("up 0", [0, 0, 0, 0, 0, 0], 0, "done"),
    ("halt", [0, 0, 0, 0, 0, 0], 0, "done"),
    ("flush 0", [1, 5, 0, 0, 0, 0], 1, "left 5"),
    ("up 1", [2, 0, 0, 0, 0, 0], 1, "battery low"),
    ("reset 0", [3, 0, 0, 0, 0, 0], 1, "not down"),
    ("down 3", [4, 0, 0, 0, 0, 0], 1, "no volume"),
    ("status 3", [4, 0, 0, 0, 0, 0], 1, "no volume"),
];

#[test]
fn an_answer_has_its_status_and_line(rt: HostRuntime) -> Result<(), Fail> {
    let alloc = rt.alloc();
    for (line, said, status, wanted) in ANSWERS {
        let [code, a, b, c, d, e] = said;
        let reply = datagram(&[XID, 1, 0, 0, 0, 0, code, a, b, c, d, e]);
        let mut link = link(alloc, 1, 1, Some(reply))?;
        assert_eq!(rt;
            run(alloc, line, &mut link, wanted)?,
            (status, true),
            "{line}"
        );
    }
    // Denied, since the caller is too weak.
    let reply = datagram(&[XID, 1, 1, 1, 5, 0, 0, 0, 0, 0, 0, 0]);
    let mut link = link(alloc, 0, 0, Some(reply))?;
    assert_eq!(rt; run(alloc, "halt", &mut link, "refused")?, (1, true));
    Ok(())
}

// What is asked, and the procedure, and the volume if there is one.
const CALLS: [(&str, u32, Option<u32>); 6] = [
    ("up 1", 1, Some(1)),
    ("down 2", 2, Some(2)),
    ("flush 3", 3, Some(3)),
    ("reset 0", 4, Some(0)),
    ("status 0", 5, Some(0)),
    ("halt", 6, None),
];

#[test]
fn one_datagram_is_sent_to_the_server(rt: HostRuntime) -> Result<(), Fail> {
    let alloc = rt.alloc();
    for (line, procedure, volume) in CALLS {
        let mut link = link(alloc, 0, 0, Some(datagram(&DONE)))?;
        run(alloc, line, &mut link, "")?;
        let head = [
            XID, 0, 2, 0x20001094, 1, procedure, 1, 20, 0, 0, 0, 0, 0, 0, 0,
        ];
        let mut words = Vec::from_slice(alloc, &head)?;
        if let Some(volume) = volume {
            words.push(volume)?;
        }
        assert!(rt; has_sent(&link, &words), "{line}");
    }
    Ok(())
}

#[test]
fn a_wait_ends_at_the_fifth_idle_event_and_the_64th_other_datagram(
    rt: HostRuntime,
) -> Result<(), Fail> {
    let alloc = rt.alloc();
    for (idles, others, status, wanted) in [
        (4, 63, 0, "done"),
        (5, 0, 3, "no answer"),
        (0, 64, 3, "no answer"),
        (5, 63, 3, "no answer"),
    ] {
        let mut link = link(alloc, idles, others, Some(datagram(&DONE)))?;
        assert_eq!(rt;
            run(alloc, "down 0", &mut link, wanted)?,
            (status, true),
            "{idles} and {others}"
        );
    }
    Ok(())
}

#[test]
fn a_link_ends_or_fails(rt: HostRuntime) -> Result<(), Fail> {
    let alloc = rt.alloc();
    for (last, status, wanted) in [
        (None, 3, "no answer"),
        (Some(MemEvent::Closed), 3, "no answer"),
        (Some(MemEvent::Failed), 66, "link failed"),
    ] {
        let mut link = link(alloc, 2, 2, last)?;
        assert_eq!(rt; run(alloc, "down 0", &mut link, wanted)?, (status, true));
    }
    Ok(())
}

#[test]
fn other_words_are_not_of_the_grammar(rt: HostRuntime) -> Result<(), Fail> {
    let alloc = rt.alloc();
    for line in [
        "",
        "up",
        "status",
        "status 4",
        "status -1",
        "status x",
        "status 00000000000",
        "status 0 0",
        "halt 0",
        "Up 0",
        "drain 0",
    ] {
        let mut link = link(alloc, 0, 0, Some(datagram(&DONE)))?;
        let ends = run(
            alloc,
            line,
            &mut link,
            "usage: prestoctl ADDRESS up|down|flush|reset|status|halt [V]",
        )?;
        assert_eq!(rt; ends, (64, true), "{line}");
        assert_eq!(rt; link.sent().len(), 0, "{line}");
    }
    Ok(())
}

// A link that can't send.
#[derive(Drop)]
struct DeadLink {
    faults: u64,
}

impl Link for DeadLink {
    ghost left = { λ _. None };

    ghost sent = { λ _. None };

    ghost faults = { λ link. link.faults };

    fn recv(&mut self, _into: &mut Packet) -> Event {
        Event::Closed
    }

    fn send(&mut self, _to: &Address, _bytes: &[u8]) -> Result<(), Failed> {
        self.faults = self.faults.saturating_add(1);
        Err(Failed)
    }
}

// It fails to say each line.
#[derive(Drop)]
struct Mute {
    faults: u64,
}

impl Say for Mute {
    ghost lines = { λ _. None };

    ghost say_faults = { λ say. say.faults };

    ghost OnlySays = { λ _ _. Unit {0} };

    fn say(&mut self, _line: &str) -> Result<(), Failed> {
        self.faults = self.faults.saturating_add(1);
        Err(Failed)
    }
}

#[test]
fn a_datagram_that_cant_be_sent_is_a_link_that_failed(rt: HostRuntime) -> Result<(), Fail> {
    let alloc = rt.alloc();
    let mut link = DeadLink { faults: 0 };
    let mut out = MemSay::new(alloc);
    let status = control(&words(alloc, "up 0")?, &SERVER, &mut link, &mut out);
    assert_eq!(rt; status, 66);
    assert!(rt; out.lines().iter().all(|line| line.text() == "link failed"));
    assert_eq!(rt; out.lines().len(), 1);
    Ok(())
}

#[test]
fn a_line_that_cant_be_said_is_74_in_place_of_0_1_and_3(rt: HostRuntime) -> Result<(), Fail> {
    let alloc = rt.alloc();
    let no_volume = [XID, 1, 0, 0, 0, 0, 4, 0, 0, 0, 0, 0];
    for (line, last, status) in [
        ("down 3", Some(datagram(&DONE)), 74),
        ("down 3", Some(datagram(&no_volume)), 74),
        ("down 3", None, 74),
        ("down 4", None, 64),
        ("down 3", Some(MemEvent::Failed), 66),
    ] {
        let mut link = link(alloc, 0, 0, last)?;
        let mut out = Mute { faults: 0 };
        let end = control(&words(alloc, line)?, &SERVER, &mut link, &mut out);
        assert_eq!(rt; end, status, "{line}");
    }
    Ok(())
}
