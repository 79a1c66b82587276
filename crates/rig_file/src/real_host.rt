ghost use Rattle.std.specs.Prelude.{◌≡◌, ◌-◌, ◌≤◌, ℕ, None, IfOk};
ghost use Rattle.stable.specs.Counts.{one_more};
ghost use Rattle.rig.specs.Hosts.{SameLoans, SameLines, TakesBack, HostCause};

use crate::count::count;
use crate::file_rig::FileRig;
use crate::sleep_pauser::SleepPauser;
use crate::std_say::StdSay;
use crate::system_clock::{SystemClock, seconds};
use crate::udp_link::UdpLink;
use rig::{Failed, Host, HostFault, Post, Rig, Say};
use std::fs::File;
use std::io::ErrorKind;
use std::net::Net;
use std::rt::Files;
use std::{io, rt};

// What a worker of the program is given.
type RealPost<T> = Post<UdpLink, SystemClock<T>, SleepPauser<T>>;

// The socket that the workers share, and its port.
#[derive(Drop)]
struct OpenPort {
    port: u16,
    link: UdpLink,
}

/// This machine: its files, one UDP port, its clock, and standard output for the lines.
#[derive(Drop)]
pub struct RealHost<T> {
    output: StdSay<T>,
    open_port: Option<OpenPort>,
    rigs_out: u64,
    posts_out: u64,
    host_faults: u64,
}

impl<T> RealHost<T> {
    /// Nothing is out, and nothing has failed.
    pub fn new(system: T) -> RealHost<T>
        ensures rigs { result.rigs_out ≡ 0 }
        ensures posts { result.posts_out ≡ 0 }
        ensures faults { result.host_faults ≡ 0 }
        ensures say_faults { result.output.faults ≡ 0 }
    {
        RealHost {
            output: StdSay::new(system),
            open_port: None,
            rigs_out: 0,
            posts_out: 0,
            host_faults: 0,
        }
    }
}

// Shares the socket where that port is open, else opens it.
fn link_at(net: &impl Net, open_port: &mut Option<OpenPort>, port: u16) -> io::Result<UdpLink> {
    if let Some(open) = open_port
        && open.port == port
    {
        return open.link.share();
    }
    let link = UdpLink::bind(net, port)?;
    let shared = link.share()?;
    *open_port = Some(OpenPort { port, link: shared });
    Ok(link)
}

// A link at that port, a clock and a pauser.
fn make_post<T: Net + Clone + Drop>(
    system: &T,
    open_port: &mut Option<OpenPort>,
    port: u16,
) -> io::Result<RealPost<T>> {
    let link = link_at(system, open_port, port)?;
    let for_clock = system.clone()?;
    let for_pauser = system.clone()?;
    Ok(Post {
        link,
        clock: SystemClock::new(for_clock),
        pauser: SleepPauser::new(for_pauser),
    })
}

// Opens a rig on the same system.
fn open_rig<T: Files<File = File> + AllocGlobal + Clone + Drop>(
    system: &T,
    disk: &str,
    board: Option<&str>,
) -> io::Result<FileRig<T>> {
    FileRig::open(system.clone()?, disk, board)
}

// Makes a rig on the same system.
fn new_rig<T: Files<File = File> + AllocGlobal + Clone + Drop>(
    system: &T,
    disk: &str,
    sectors: u32,
    board: Option<&str>,
    buffers: u32,
) -> io::Result<FileRig<T>>
    ensures sectors { IfOk result (λ rig. (⟦<FileRig<T> as Rig>⟧.sizes rig).sectors ≡ sectors) }
    ensures buffers { IfOk result (λ rig. (⟦<FileRig<T> as Rig>⟧.sizes rig).buffers ≡ buffers) }
{
    FileRig::make(system.clone()?, disk, sectors, board, buffers)
}

// Counts a failed call, and says whether it was for want of memory.
fn host_fault(error: &io::Error, faults: &mut u64) -> HostFault
    ensures more { faults.new ≡ one_more faults.old }
    ensures later { faults.old ≤ faults.new }
{
    count(faults);
    match error.kind() {
        ErrorKind::OutOfMemory => HostFault::NoMemory,
        _ => HostFault::Failed,
    }
}

impl<T: Print + Drop> Say for RealHost<T> {
    ghost lines = { λ _. None };

    ghost say_faults = { λ host. host.output.faults };

    ghost OnlySays = { λ old new. (new.rigs_out ≡ old.rigs_out) × (new.posts_out ≡ old.posts_out) × (new.host_faults ≡ old.host_faults) };

    fn say(&mut self, line: &str) -> Result<(), Failed> {
        self.output.say(line)
    }
}

impl<T: Print + Files<File = File> + Net + rt::Clock + AllocGlobal + Clone + Send + Drop> Host
    for RealHost<T> {
    type R = FileRig<T>;

    type L = UdpLink;

    type C = SystemClock<T>;

    type P = SleepPauser<T>;

    ghost rigs_left = { λ _. None };

    ghost rigs_back = { λ _. None };

    ghost rigs_out = { λ host. host.rigs_out };

    ghost posts_left = { λ _. None };

    ghost posts_back = { λ _. None };

    ghost posts_out = { λ host. host.posts_out };

    ghost host_faults = { λ host. host.host_faults };

    ghost use Rattle.std.proofs.Common.{refl};

    ghost say_keeps_rigs = { λ old new only. record { left = refl; back = refl; out = only.0 } };

    ghost say_keeps_posts = { λ old new only. record { left = refl; back = refl; out = only.1 } };

    ghost say_keeps_faults = { λ old new only. only.2 };

    fn rig(&mut self, disk: &str, board: Option<&str>) -> Result<FileRig<T>, HostFault> {
        match open_rig(self.output.system(), disk, board) {
            Ok(rig) => {
                count(&mut self.rigs_out);
                Ok(rig)
            }
            Err(error) => Err(host_fault(&error, &mut self.host_faults)),
        }
    }

    fn make_rig(
        &mut self,
        disk: &str,
        sectors: u32,
        board: Option<&str>,
        buffers: u32,
    ) -> Result<FileRig<T>, HostFault> {
        match new_rig(self.output.system(), disk, sectors, board, buffers) {
            Ok(rig) => {
                count(&mut self.rigs_out);
                Ok(rig)
            }
            Err(error) => Err(host_fault(&error, &mut self.host_faults)),
        }
    }

    fn post(&mut self, port: u16, _worker: u32) -> Result<RealPost<T>, HostFault> {
        let made: Result<_, _> = make_post(self.output.system(), &mut self.open_port, port);
        match made {
            Ok(post) => {
                count(&mut self.posts_out);
                Ok(post)
            }
            Err(error) => Err(host_fault(&error, &mut self.host_faults)),
        }
    }

    fn now(&mut self) -> u32 {
        seconds(self.output.system())
    }

    fn give_back_rig(&mut self, _volume: u32, _rig: FileRig<T>) {
        self.rigs_out = self.rigs_out.saturating_sub(1);
    }

    fn give_back_post(&mut self, _worker: u32, _post: RealPost<T>)
        ensures back { TakesBack ⟦<RealHost<T> as Host>⟧.posts_left ⟦<RealHost<T> as Host>⟧.posts_back ⟦<RealHost<T> as Host>⟧.posts_out self.old self.new _worker _post }
        ensures rigs { SameLoans ⟦<RealHost<T> as Host>⟧.rigs_left ⟦<RealHost<T> as Host>⟧.rigs_back ⟦<RealHost<T> as Host>⟧.rigs_out self.old self.new }
        ensures lines { SameLines ⟦<RealHost<T> as Say>⟧.lines ⟦<RealHost<T> as Say>⟧.say_faults self.old self.new }
        ensures faults { ⟦<RealHost<T> as Host>⟧.host_faults self.new ≡ ⟦<RealHost<T> as Host>⟧.host_faults self.old }
    {
        self.posts_out = self.posts_out.saturating_sub(1);
    }
}
