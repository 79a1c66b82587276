//! A host to which nothing can be said.
ghost use Rattle.std.specs.Prelude.{◌≡◌, None};
ghost use Rattle.rig.specs.Hosts.{SameLines, SameLoans, TakesBack};

use crate::tests::outside::{Host as Inner, host, rig_of, rig_with, words};
use crate::tool;
use rig::{Failed, Host, HostFault, Post, Say};
use rig_mem::{MemClock, MemLink, MemRig, StillPauser};
use std::test::Fail;
use volume_mem::{FRESH, test_volume};

// It gives what another host gives, and fails to say each line.
#[derive(Drop)]
struct Mute {
    inner: Inner,
    faults: u64,
}

impl Say for Mute {
    ghost lines = { λ _. None };

    ghost say_faults = { λ s. s.faults };

    ghost OnlySays = { λ old new. new.inner ≡ old.inner };

    fn say(&mut self, _line: &str) -> Result<(), Failed> {
        self.faults = self.faults.saturating_add(1);
        Err(Failed)
    }
}

impl Host for Mute {
    type R = MemRig;

    type L = MemLink;

    type C = MemClock;

    type P = StillPauser;

    ghost rigs_left = { λ s. ⟦<Inner as Host>⟧.rigs_left s.inner };

    ghost rigs_back = { λ s. ⟦<Inner as Host>⟧.rigs_back s.inner };

    ghost rigs_out = { λ s. ⟦<Inner as Host>⟧.rigs_out s.inner };

    ghost posts_left = { λ s. ⟦<Inner as Host>⟧.posts_left s.inner };

    ghost posts_back = { λ s. ⟦<Inner as Host>⟧.posts_back s.inner };

    ghost posts_out = { λ s. ⟦<Inner as Host>⟧.posts_out s.inner };

    ghost host_faults = { λ s. ⟦<Inner as Host>⟧.host_faults s.inner };

    fn rig(&mut self, disk: &str, board: Option<&str>) -> Result<MemRig, HostFault> {
        self.inner.rig(disk, board)
    }

    fn make_rig(
        &mut self,
        disk: &str,
        sectors: u32,
        board: Option<&str>,
        buffers: u32,
    ) -> Result<MemRig, HostFault> {
        self.inner.make_rig(disk, sectors, board, buffers)
    }

    fn post(
        &mut self,
        port: u16,
        worker: u32,
    ) -> Result<Post<MemLink, MemClock, StillPauser>, HostFault> {
        self.inner.post(port, worker)
    }

    fn now(&mut self) -> u32 {
        self.inner.now()
    }

    fn give_back_rig(&mut self, volume: u32, rig: MemRig) {
        self.inner.give_back_rig(volume, rig);
    }

    fn give_back_post(&mut self, worker: u32, post: Post<MemLink, MemClock, StillPauser>)
        ensures back { TakesBack ⟦<Mute as Host>⟧.posts_left ⟦<Mute as Host>⟧.posts_back ⟦<Mute as Host>⟧.posts_out self.old self.new worker post }
        ensures rigs { SameLoans ⟦<Mute as Host>⟧.rigs_left ⟦<Mute as Host>⟧.rigs_back ⟦<Mute as Host>⟧.rigs_out self.old self.new }
        ensures lines { SameLines ⟦<Mute as Say>⟧.lines ⟦<Mute as Say>⟧.say_faults self.old self.new }
        ensures faults { ⟦<Mute as Host>⟧.host_faults self.new ≡ ⟦<Mute as Host>⟧.host_faults self.old }
    {
        self.inner.give_back_post(worker, post);
    }

    ghost use Rattle.std.proofs.Common.{ap};

    ghost say_keeps_rigs = { λ old new only. record { left = ap (⟦<Inner as Host>⟧.rigs_left) only; back = ap (⟦<Inner as Host>⟧.rigs_back) only; out = ap (⟦<Inner as Host>⟧.rigs_out) only } };

    ghost say_keeps_posts = { λ old new only. record { left = ap (⟦<Inner as Host>⟧.posts_left) only; back = ap (⟦<Inner as Host>⟧.posts_back) only; out = ap (⟦<Inner as Host>⟧.posts_out) only } };

    ghost say_keeps_faults = { λ old new only. ap (⟦<Inner as Host>⟧.host_faults) only };
}

#[test]
fn a_line_that_is_not_said_decides_on_a_run_that_was_done(rt: HostRuntime) -> Result<(), Fail> {
    let alloc = rt.alloc();
    for (line, status) in [
        ("check d", 74),
        ("recover d", 74),
        ("mkfs d 64 16 0 VOLA00 1000", 74),
        ("mkfs d 4 16 0 VOLA00 1000", 65),
        ("check d:b:d", 66),
        ("drill 1 0", 64),
    ] {
        let mut rigs = Vec::new(alloc);
        if line != "check d:b:d" {
            rigs.push(rig_with(alloc, test_volume(alloc, FRESH)?))?;
        }
        let mut mute = Mute {
            inner: host(alloc, rigs)?,
            faults: 0,
        };
        assert_eq!(rt; tool(alloc, &words(alloc, line)?, &mut mute), status);
        let Mute { inner, faults } = mute;
        assert!(rt; inner.lines().is_empty() && faults == 1);
        assert!(rt; rig_of(inner).is_some() == (status == 74));
    }
    Ok(())
}
