//! The control of a server as a program: the server's address, the words after it, a UDP socket of this machine, and the status.
#![tactic(auto)]

use presto_control::{LINK_FAILED, USAGE, control};
use rig::{Address, Say};
use rig_file::{StdSay, UdpLink, address_of};
use run_lines::{offer, read_command_line, refuse_words};
use std::io;
use std::net::SocketAddr;
use std::process::ExitCode;

// The server's address, IP:PORT, and the words after it.
fn split_address(words: &[String]) -> Option<(Address, &[String])> {
    let [word, rest @ ..] = words else {
        return None;
    };
    match word.as_str().parse::<SocketAddr>() {
        Ok(address) => Some((address_of(address), rest)),
        Err(_) => None,
    }
}

// Asks the server that the first word names, over a socket if there is one.
fn run<O: Say>(words: &[String], link: io::Result<UdpLink>, out: &mut O) -> u8 {
    let Some((address, words)) = split_address(words) else {
        offer(out, USAGE);
        return 64;
    };
    let Ok(mut link) = link else {
        offer(out, LINK_FAILED);
        return 66;
    };
    control(words, &address, &mut link, out)
}

fn main(rt: HostRuntime) -> ExitCode {
    let words = read_command_line(&rt);
    let link = UdpLink::bind(&rt, 0);
    let mut out = StdSay::new(rt);
    let status = match words {
        Ok(words) => run(&words, link, &mut out),
        Err(why) => refuse_words(&mut out, why, USAGE),
    };
    ExitCode::from(status)
}
