ghost use Rattle.std.specs.Prelude.{◌≡◌, ◌+◌, ◌≤◌, Some, [], IfOk, OnErr, IsErrOf, vec_len, vec_capacity};
ghost use Rattle.rig.specs.Hosts.{SameLoans, SameLines, Gives, TakesBack, HostCause};
ghost use Rattle.rig_mem.specs.Clocks.{mem_seconds, second_at};

use crate::asks::Asks;
use crate::clock::MemClock;
use crate::line::Line;
use crate::link::MemLink;
use crate::say::MemSay;
use rig::{Clock, Failed, Host, HostFault, NoMemory, Pauser, Post, Rig, Say};
use std::alloc::Global;

/// A host over lists of rigs and posts. It gives them from the front, answers Failed where none is left and NoMemory where that was
/// asked for here, and keeps what it is given back.
#[derive(Drop)]
pub struct MemHost<R, P> {
    rigs: Vec<R>,
    rigs_back: Vec<(u32, R)>,
    rigs_out: u64,
    posts: Vec<Post<MemLink, MemClock, P>>,
    posts_back: Vec<(u32, Post<MemLink, MemClock, P>)>,
    posts_out: u64,
    clock: MemClock,
    said: MemSay,
    asks: Asks,
    ghost rig_room: { vec_len rigs + rigs_out + vec_len rigs_back ≤ vec_capacity rigs_back },
    ghost post_room: { vec_len posts + posts_out + vec_len posts_back ≤ vec_capacity posts_back },
}

impl<R: Rig + Send + Drop, P: Pauser + Send + Drop> MemHost<R, P> {
    ghost use Rattle.rig_mem.specs.Hosts.{IsNewHost};

    /// A host that gives these, and the seconds of its clock. It reserves the room for what comes back.
    pub fn new(
        alloc: Global,
        rigs: Vec<R>,
        posts: Vec<Post<MemLink, MemClock, P>>,
        clock: MemClock,
    ) -> Result<MemHost<R, P>, NoMemory>
        ensures { IfOk result (IsNewHost rigs.items posts.items) }
    {
        let rigs_back = Vec::with_capacity(alloc, rigs.len())?;
        let posts_back = Vec::with_capacity(alloc, posts.len())?;
        Ok(MemHost {
            rigs,
            rigs_back,
            rigs_out: 0,
            posts,
            posts_back,
            posts_out: 0,
            clock,
            said: MemSay::new(alloc),
            asks: Asks::new(),
        })
    }

    /// Lets the call of that number find no memory, in place of one told before. Calls of `rig`, `make_rig` and `post` are numbered
    /// together, from 1.
    pub fn starve(&mut self, call: u64)
        ensures asks { self.new.asks ≡ record self.old.asks { starved = Some call } }
        ensures rigs { SameLoans ⟦<MemHost<R, P> as Host>⟧.rigs_left ⟦<MemHost<R, P> as Host>⟧.rigs_back ⟦<MemHost<R, P> as Host>⟧.rigs_out self.old self.new }
        ensures posts { SameLoans ⟦<MemHost<R, P> as Host>⟧.posts_left ⟦<MemHost<R, P> as Host>⟧.posts_back ⟦<MemHost<R, P> as Host>⟧.posts_out self.old self.new }
        ensures lines { SameLines ⟦<MemHost<R, P> as Say>⟧.lines ⟦<MemHost<R, P> as Say>⟧.say_faults self.old self.new }
    {
        self.asks.starve(call);
    }

    /// The rigs that it was given back, with their numbers, in order.
    pub fn rigs(&self) -> &[(u32, R)]
        ensures { ⟦<MemHost<R, P> as Host>⟧.rigs_back self.now ≡ Some result.now }
    {
        self.rigs_back.as_slice()
    }

    /// The posts that it was given back, with their workers' numbers, in order.
    pub fn posts(&self) -> &[(u32, Post<MemLink, MemClock, P>)]
        ensures { ⟦<MemHost<R, P> as Host>⟧.posts_back self.now ≡ Some result.now }
    {
        self.posts_back.as_slice()
    }

    /// The lines that were said, in order.
    pub fn lines(&self) -> &[Line]
        ensures { ⟦<MemHost<R, P> as Say>⟧.lines self.now ≡ Some result.now }
    {
        self.said.lines()
    }

    /// Hands over the rigs that it was given back, in order.
    pub fn into_rigs(self) -> Vec<(u32, R)>
        ensures { ⟦<MemHost<R, P> as Host>⟧.rigs_back self ≡ Some result.items }
    {
        self.rigs_back
    }
}

impl<R: Rig + Send + Drop, P: Pauser + Send + Drop> Say for MemHost<R, P> {
    ghost lines = { λ h. Some h.said.said.items };

    ghost say_faults = { λ h. h.said.faults };

    ghost OnlySays = { λ a b. (b.rigs ≡ a.rigs) × (b.rigs_back ≡ a.rigs_back) × (b.rigs_out ≡ a.rigs_out)
        × (b.posts ≡ a.posts) × (b.posts_back ≡ a.posts_back) × (b.posts_out ≡ a.posts_out) × (b.asks ≡ a.asks) };

    fn say(&mut self, line: &str) -> Result<(), Failed> {
        self.said.say(line)
    }
}

impl<R: Rig + Send + Drop, P: Pauser + Send + Drop> Host for MemHost<R, P> {
    type R = R;

    type L = MemLink;

    type C = MemClock;

    type P = P;

    ghost rigs_left = { λ h. Some h.rigs.items };

    ghost rigs_back = { λ h. Some h.rigs_back.items };

    ghost rigs_out = { λ h. h.rigs_out };

    ghost posts_left = { λ h. Some h.posts.items };

    ghost posts_back = { λ h. Some h.posts_back.items };

    ghost posts_out = { λ h. h.posts_out };

    ghost host_faults = { λ h. h.asks.faults };

    ghost use Rattle.std.proofs.Common.{ap};
    ghost use Rattle.rig_mem.specs.Hosts.{IsAsked};

    ghost say_keeps_rigs = { λ old new only. record { left = ap (λ v. Some v.items) only.0; back = ap (λ v. Some v.items) only.1; out = only.2 } };

    ghost say_keeps_posts = { λ old new only. record { left = ap (λ v. Some v.items) only.3; back = ap (λ v. Some v.items) only.4; out = only.5 } };

    ghost say_keeps_faults = { λ old new only. ap (λ asks. asks.faults) only.6 };

    fn rig(&mut self, _disk: &str, _board: Option<&str>) -> Result<R, HostFault>
        ensures gives { IfOk result (λ rig. Gives ⟦<MemHost<R, P> as Host>⟧.rigs_left ⟦<MemHost<R, P> as Host>⟧.rigs_back ⟦<MemHost<R, P> as Host>⟧.rigs_out self.old self.new rig) }
        ensures refused { OnErr result (SameLoans ⟦<MemHost<R, P> as Host>⟧.rigs_left ⟦<MemHost<R, P> as Host>⟧.rigs_back ⟦<MemHost<R, P> as Host>⟧.rigs_out self.old self.new) }
        ensures failed { IsErrOf result HostFault.Failed → self.old.rigs.items ≡ [] }
        ensures posts { SameLoans ⟦<MemHost<R, P> as Host>⟧.posts_left ⟦<MemHost<R, P> as Host>⟧.posts_back ⟦<MemHost<R, P> as Host>⟧.posts_out self.old self.new }
        ensures lines { SameLines ⟦<MemHost<R, P> as Say>⟧.lines ⟦<MemHost<R, P> as Say>⟧.say_faults self.old self.new }
        ensures cause { HostCause (⟦<MemHost<R, P> as Host>⟧.host_faults self.old) (⟦<MemHost<R, P> as Host>⟧.host_faults self.new) result }
        ensures asked { IsAsked self.old.asks self.new.asks result }
    {
        self.asks.next(self.rigs.is_empty())?;
        let rig = self.rigs.remove(0);
        self.rigs_out += 1;
        Ok(rig)
    }

    fn make_rig(
        &mut self,
        _disk: &str,
        sectors: u32,
        _board: Option<&str>,
        buffers: u32,
    ) -> Result<R, HostFault>
        ensures gives { IfOk result (λ rig. Gives ⟦<MemHost<R, P> as Host>⟧.rigs_left ⟦<MemHost<R, P> as Host>⟧.rigs_back ⟦<MemHost<R, P> as Host>⟧.rigs_out self.old self.new rig) }
        ensures sectors { IfOk result (λ rig. (R.sizes rig).sectors ≡ sectors) }
        ensures buffers { IfOk result (λ rig. (R.sizes rig).buffers ≡ buffers) }
        ensures refused { OnErr result (SameLoans ⟦<MemHost<R, P> as Host>⟧.rigs_left ⟦<MemHost<R, P> as Host>⟧.rigs_back ⟦<MemHost<R, P> as Host>⟧.rigs_out self.old self.new) }
        ensures posts { SameLoans ⟦<MemHost<R, P> as Host>⟧.posts_left ⟦<MemHost<R, P> as Host>⟧.posts_back ⟦<MemHost<R, P> as Host>⟧.posts_out self.old self.new }
        ensures lines { SameLines ⟦<MemHost<R, P> as Say>⟧.lines ⟦<MemHost<R, P> as Say>⟧.say_faults self.old self.new }
        ensures cause { HostCause (⟦<MemHost<R, P> as Host>⟧.host_faults self.old) (⟦<MemHost<R, P> as Host>⟧.host_faults self.new) result }
        ensures asked { IsAsked self.old.asks self.new.asks result }
    {
        self.asks.next(self.rigs.is_empty())?;
        if self.rigs[0].sectors() != sectors || self.rigs[0].buffers() != buffers {
            return Err(self.asks.fail());
        }
        let rig = self.rigs.remove(0);
        self.rigs_out += 1;
        Ok(rig)
    }

    fn post(&mut self, _port: u16, _worker: u32) -> Result<Post<MemLink, MemClock, P>, HostFault>
        ensures gives { IfOk result (λ post. Gives ⟦<MemHost<R, P> as Host>⟧.posts_left ⟦<MemHost<R, P> as Host>⟧.posts_back ⟦<MemHost<R, P> as Host>⟧.posts_out self.old self.new post) }
        ensures refused { OnErr result (SameLoans ⟦<MemHost<R, P> as Host>⟧.posts_left ⟦<MemHost<R, P> as Host>⟧.posts_back ⟦<MemHost<R, P> as Host>⟧.posts_out self.old self.new) }
        ensures failed { IsErrOf result HostFault.Failed → self.old.posts.items ≡ [] }
        ensures rigs { SameLoans ⟦<MemHost<R, P> as Host>⟧.rigs_left ⟦<MemHost<R, P> as Host>⟧.rigs_back ⟦<MemHost<R, P> as Host>⟧.rigs_out self.old self.new }
        ensures lines { SameLines ⟦<MemHost<R, P> as Say>⟧.lines ⟦<MemHost<R, P> as Say>⟧.say_faults self.old self.new }
        ensures cause { HostCause (⟦<MemHost<R, P> as Host>⟧.host_faults self.old) (⟦<MemHost<R, P> as Host>⟧.host_faults self.new) result }
        ensures asked { IsAsked self.old.asks self.new.asks result }
    {
        self.asks.next(self.posts.is_empty())?;
        let post = self.posts.remove(0);
        self.posts_out += 1;
        Ok(post)
    }

    fn now(&mut self) -> u32
        ensures answer { result ≡ second_at (mem_seconds self.old.clock) self.old.clock.answers }
        ensures rigs { SameLoans ⟦<MemHost<R, P> as Host>⟧.rigs_left ⟦<MemHost<R, P> as Host>⟧.rigs_back ⟦<MemHost<R, P> as Host>⟧.rigs_out self.old self.new }
        ensures posts { SameLoans ⟦<MemHost<R, P> as Host>⟧.posts_left ⟦<MemHost<R, P> as Host>⟧.posts_back ⟦<MemHost<R, P> as Host>⟧.posts_out self.old self.new }
        ensures lines { SameLines ⟦<MemHost<R, P> as Say>⟧.lines ⟦<MemHost<R, P> as Say>⟧.say_faults self.old self.new }
        ensures asks { self.new.asks ≡ self.old.asks }
    {
        self.clock.now()
    }

    fn give_back_rig(&mut self, volume: u32, rig: R)
        ensures back { TakesBack ⟦<MemHost<R, P> as Host>⟧.rigs_left ⟦<MemHost<R, P> as Host>⟧.rigs_back ⟦<MemHost<R, P> as Host>⟧.rigs_out self.old self.new volume rig }
        ensures posts { SameLoans ⟦<MemHost<R, P> as Host>⟧.posts_left ⟦<MemHost<R, P> as Host>⟧.posts_back ⟦<MemHost<R, P> as Host>⟧.posts_out self.old self.new }
        ensures lines { SameLines ⟦<MemHost<R, P> as Say>⟧.lines ⟦<MemHost<R, P> as Say>⟧.say_faults self.old self.new }
        ensures asks { self.new.asks ≡ self.old.asks }
    {
        if self.rigs_out > 0 {
            let _ = self.rigs_back.push((volume, rig));
            self.rigs_out -= 1;
        }
    }

    fn give_back_post(&mut self, worker: u32, post: Post<MemLink, MemClock, P>)
        ensures back { TakesBack ⟦<MemHost<R, P> as Host>⟧.posts_left ⟦<MemHost<R, P> as Host>⟧.posts_back ⟦<MemHost<R, P> as Host>⟧.posts_out self.old self.new worker post }
        ensures rigs { SameLoans ⟦<MemHost<R, P> as Host>⟧.rigs_left ⟦<MemHost<R, P> as Host>⟧.rigs_back ⟦<MemHost<R, P> as Host>⟧.rigs_out self.old self.new }
        ensures lines { SameLines ⟦<MemHost<R, P> as Say>⟧.lines ⟦<MemHost<R, P> as Say>⟧.say_faults self.old self.new }
        ensures asks { self.new.asks ≡ self.old.asks }
    {
        if self.posts_out > 0 {
            let _ = self.posts_back.push((worker, post));
            self.posts_out -= 1;
        }
    }
}
