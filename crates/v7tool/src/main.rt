//! The tool of volumes as a program: its words, this machine as its host, and its status.
#![tactic(auto)]

use rig_file::RealHost;
use run_lines::{read_command_line, refuse_words};
use std::process::ExitCode;
use volume_tool::{USAGE, tool};

fn main(rt: HostRuntime) -> ExitCode {
    let alloc = rt.alloc();
    let words = read_command_line(&rt);
    let mut host = RealHost::new(rt);
    let status = match words {
        Ok(words) => tool(alloc, &words, &mut host),
        Err(why) => refuse_words(&mut host, why, USAGE),
    };
    ExitCode::from(status)
}
