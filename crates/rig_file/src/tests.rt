use crate::address::address_of;
use crate::{FileRig, RealHost, StdSay, UdpLink};
use rig::{Battery, Clock, Event, Failed, Host, HostFault, Link, Packet, Pauser, Post, Rig, Say};
use std::fs;
use std::net::{Ipv4Addr, SocketAddr};
use std::test::Fail;

#[test]
fn a_disk_keeps_what_is_written_and_fails_past_its_end(rt: HostRuntime) -> Result<(), Fail> {
    const DISK: &str = "rig_file_disk.img";
    fs::write(&rt, DISK, [b'a'; 1536].as_slice())?;
    let mut rig = FileRig::open(rt.clone()?, DISK, None)?;
    assert!(rt; rig.sectors() == 3);
    assert_eq!(rt; rig.write(1, &[b'b'; 512]), Ok(()));
    let mut back = [0; 512];
    assert_eq!(rt; rig.read(1, &mut back), Ok(()));
    assert_eq!(rt; back[0], b'b');
    fs::write(&rt, DISK, [b'c'; 1024].as_slice())?;
    assert!(rt; rig.sectors() == 3);
    assert_eq!(rt; rig.read(1, &mut back), Ok(()));
    assert_eq!(rt; back[511], b'c');
    assert!(rt; rig.sectors() == 3);
    assert_eq!(rt; rig.read(2, &mut back), Err(Failed));
    assert!(rt; rig.kept());
    assert_eq!(rt; rig.buffers(), 0);
    assert_eq!(rt; rig.battery(), Battery::Low);
    fs::remove_file(&rt, DISK)?;
    Ok(())
}

#[test]
fn a_file_that_ends_within_a_sector_is_no_disk(rt: HostRuntime) -> Result<(), Fail> {
    const PART: &str = "rig_file_part.img";
    fs::write(&rt, PART, [b'a'; 700].as_slice())?;
    assert!(rt; FileRig::open(rt.clone()?, PART, None).is_err());
    fs::remove_file(&rt, PART)?;
    assert!(rt; FileRig::open(rt.clone()?, PART, None).is_err());
    Ok(())
}

// The file of a board with two buffers, three words and a byte, whose word 2 is the entry of sector 5 and buffer 1, and whose
// buffer 1 is all `b`.
fn file_of_an_entry(rt: &HostRuntime, kept: u8) -> Result<Vec<u8>, Fail> {
    let mut bytes = vec![in rt.alloc(); 0; 16]?;
    bytes.extend_from_slice(&[5, 0, 0, 0, 1, 0, 0, 0x80])?;
    bytes.extend_from_slice(&[0; 512])?;
    bytes.extend_from_slice(&[b'b'; 512])?;
    bytes.push(kept)?;
    Ok(bytes)
}

#[test]
fn a_board_is_stored_as_its_format_says(rt: HostRuntime) -> Result<(), Fail> {
    const DISK: &str = "rig_file_boards_disk.img";
    const BOARD: &str = "rig_file_board.img";
    fs::write(&rt, BOARD, [b'x'; 3000].as_slice())?;
    let mut rig = FileRig::make(rt.clone()?, DISK, 8, Some(BOARD), 2)?;
    assert!(rt; fs::read(&rt, DISK)? == vec![in rt.alloc(); 0; 4096]?);
    assert!(rt; rig.words() == 3);
    assert_eq!(rt; rig.store_word(2, 0x8000000100000005), Ok(()));
    assert!(rt; rig.buffers() == 2);
    assert_eq!(rt; rig.store_buffer(1, &[b'b'; 512]), Ok(()));
    assert!(rt; fs::read(&rt, BOARD)? == file_of_an_entry(&rt, 1)?);
    fs::remove_file(&rt, DISK)?;
    fs::remove_file(&rt, BOARD)?;
    Ok(())
}

#[test]
fn what_a_board_holds_is_found_again(rt: HostRuntime) -> Result<(), Fail> {
    const DISK: &str = "rig_file_again_disk.img";
    const BOARD: &str = "rig_file_again_board.img";
    fs::write(&rt, DISK, [b'a'; 1024].as_slice())?;
    fs::write(&rt, BOARD, file_of_an_entry(&rt, 0)?)?;
    let mut rig = FileRig::open(rt.clone()?, DISK, Some(BOARD))?;
    assert!(rt; rig.words() == 3);
    assert_eq!(rt; rig.load_word(2), Ok(0x8000000100000005));
    let mut back = [0; 512];
    assert!(rt; rig.buffers() == 2);
    assert_eq!(rt; rig.load_buffer(1, &mut back), Ok(()));
    assert!(rt; back == [b'b'; 512]);
    assert!(rt; !rig.kept());
    assert_eq!(rt; rig.mark_kept(), Ok(()));
    assert!(rt; rig.kept());
    assert!(rt; fs::read(&rt, BOARD)? == file_of_an_entry(&rt, 1)?);
    fs::remove_file(&rt, DISK)?;
    fs::remove_file(&rt, BOARD)?;
    Ok(())
}

#[test]
fn a_file_of_another_length_is_no_board(rt: HostRuntime) -> Result<(), Fail> {
    const DISK: &str = "rig_file_lengths_disk.img";
    const BOARD: &str = "rig_file_lengths_board.img";
    fs::write(&rt, DISK, [b'a'; 1024].as_slice())?;
    // those of 1, 2, 3, 2,048 and 2,049 buffers, and of none
    for (length, buffers) in [
        (0, None),
        (9, None),
        (529, None),
        (1048, None),
        (1049, Some(2)),
        (1050, None),
        (1569, Some(3)),
        (1_064_969, Some(2048)),
        (1_065_489, None),
    ] {
        fs::write(&rt, BOARD, vec![in rt.alloc(); 1; length]?)?;
        let found = match FileRig::open(rt.clone()?, DISK, Some(BOARD)) {
            Ok(rig) => Some(rig.buffers()),
            Err(_) => None,
        };
        assert_eq!(rt; found, buffers);
    }
    fs::remove_file(&rt, DISK)?;
    fs::remove_file(&rt, BOARD)?;
    Ok(())
}

#[test]
fn the_battery_is_low_where_its_sign_is_there_or_cant_be_told(rt: HostRuntime) -> Result<(), Fail> {
    const FOLDER: &str = "rig_file_battery";
    const BOARD: &str = "rig_file_battery/board";
    const SIGN: &str = "rig_file_battery/board.low";
    const DISK: &str = "rig_file_battery_disk.img";
    fs::create_dir(&rt, FOLDER)?;
    let mut rig = FileRig::make(rt.clone()?, DISK, 2, Some(BOARD), 2)?;
    assert_eq!(rt; rig.battery(), Battery::Good);
    fs::write(&rt, SIGN, "")?;
    assert_eq!(rt; rig.battery(), Battery::Low);
    fs::remove_file(&rt, SIGN)?;
    assert_eq!(rt; rig.battery(), Battery::Good);
    fs::remove_file(&rt, BOARD)?;
    fs::remove_dir(&rt, FOLDER)?;
    fs::write(&rt, FOLDER, "no folder")?;
    assert_eq!(rt; rig.battery(), Battery::Low);
    fs::remove_file(&rt, FOLDER)?;
    fs::remove_file(&rt, DISK)?;
    Ok(())
}

#[test]
fn the_host_makes_and_opens_rigs_or_says_why_not(rt: HostRuntime) -> Result<(), Fail> {
    const DISK: &str = "rig_file_host_disk.img";
    const BOARD: &str = "rig_file_host_board.img";
    let mut host = RealHost::new(rt.clone()?);
    assert_eq!(rt; host.rig(DISK, None).err(), Some(HostFault::Failed));
    for (board, buffers) in [(None, 2), (Some(BOARD), 1), (Some(BOARD), 2049)] {
        let made = host.make_rig(DISK, 4, board, buffers);
        assert_eq!(rt; made.err(), Some(HostFault::Failed));
    }
    let Ok(rig) = host.make_rig(DISK, 4, Some(BOARD), 5) else {
        return Err(Fail::new("no rig was given"));
    };
    assert_eq!(rt;
        (rig.sectors(), rig.words(), rig.buffers(), rig.kept()),
        (4, 6, 5, true)
    );
    host.give_back_rig(0, rig);
    let Ok(rig) = host.rig(DISK, Some(BOARD)) else {
        return Err(Fail::new("no rig was given"));
    };
    assert_eq!(rt;
        (rig.sectors(), rig.words(), rig.buffers(), rig.kept()),
        (4, 6, 5, true)
    );
    host.give_back_rig(0, rig);
    fs::remove_file(&rt, BOARD)?;
    let Ok(rig) = host.make_rig(DISK, 3, Some(BOARD), 0) else {
        return Err(Fail::new("no rig was given"));
    };
    assert_eq!(rt;
        (rig.sectors(), rig.words(), rig.buffers(), rig.kept()),
        (3, 0, 0, true)
    );
    assert!(rt; !fs::exists(&rt, BOARD)?);
    fs::remove_file(&rt, DISK)?;
    Ok(())
}

// Whether nothing has come, and it is later than the end of the year 2000.
fn is_quiet<L: Link, C: Clock, P: Pauser>(post: &mut Post<L, C, P>) -> bool {
    let mut packet = Packet::new();
    post.pauser.pause();
    post.link.recv(&mut packet) == Event::Idle && post.clock.now() > 978_307_199
}

// Whether the host gives a quiet post.
fn gives_a_quiet_post(host: &mut impl Host) -> bool {
    let Ok(mut post) = host.post(0, 0) else {
        return false;
    };
    let quiet = is_quiet(&mut post);
    host.give_back_post(0, post);
    quiet
}

#[test]
fn the_host_gives_posts_that_work(rt: HostRuntime) -> Result<(), Fail> {
    let mut host = RealHost::new(rt.clone()?);
    assert!(rt; gives_a_quiet_post(&mut host));
    assert!(rt; host.now() > 978_307_199);
    Ok(())
}

#[test]
fn a_line_is_said(rt: HostRuntime) -> Result<(), Fail> {
    let mut output = StdSay::new(rt.clone()?);
    assert_eq!(rt; output.say("a line"), Ok(()));
    Ok(())
}

#[test]
fn a_datagram_comes_with_its_senders_address(rt: HostRuntime) -> Result<(), Fail> {
    let mut client = UdpLink::bind(&rt, 0)?;
    let mut server = UdpLink::bind(&rt, 0)?;
    let port = server.port()?;
    let to = address_of(SocketAddr::from((Ipv4Addr::LOCALHOST, port)));
    assert_eq!(rt; client.send(&to, b"call"), Ok(()));
    let mut packet = Packet::new();
    let from = address_of(SocketAddr::from((Ipv4Addr::LOCALHOST, client.port()?)));
    assert_eq!(rt; server.recv(&mut packet), Event::Datagram(from));
    assert_eq!(rt; packet.bytes(), b"call".as_slice());
    assert_eq!(rt; server.recv(&mut packet), Event::Idle);
    Ok(())
}
