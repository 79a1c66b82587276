ghost use Rattle.std.specs.Prelude.{◌≡◌, ℕ, List, Option, OnErr, IfOk};
ghost use Rattle.rig.specs.Hosts.{SameLoans, SameLines, Gives, TakesBack, HostCause};
ghost use Rattle.rig.specs.declared.host.Post.{Post};

use crate::{Clock, Link, Pauser, Rig, Say};

/// Why a host gives nothing.
#[derive(Clone, Copy, Debug, PartialEq, Eq)]
pub enum HostFault {
    /// There is none, it has other sizes, or a call of the outside failed.
    Failed,
    /// There was no memory for it.
    NoMemory,
}

/// What one worker is given.
#[derive(Drop)]
pub struct Post<L, C, P> {
    pub link: L,
    pub clock: C,
    pub pauser: P,
}

/// Gives rigs and posts, and takes them back.
pub trait Host: Say {
    type R: Rig + Send + Drop;

    type L: Link + Send + Drop;

    type C: Clock + Send + Drop;

    type P: Pauser + Send + Drop;

    /// The rigs that are left to give, in order, where the host tells them.
    ghost rigs_left: { Self → Option (List Self.R) };

    /// The rigs that it was given back, with their numbers, in order, where it tells them.
    ghost rigs_back: { Self → Option (List (ℕ × Self.R)) };

    /// How many rigs are out.
    ghost rigs_out: { Self → ℕ };

    /// The posts that are left to give, in order, where the host tells them.
    ghost posts_left: { Self → Option (List (Post Self.L Self.C Self.P)) };

    /// The posts that it was given back, with their workers' numbers, in order, where it tells them.
    ghost posts_back: { Self → Option (List (ℕ × Post Self.L Self.C Self.P)) };

    /// How many posts are out.
    ghost posts_out: { Self → ℕ };

    /// How often a call of the host failed, but for `say`, up to 2 to the 64 less 1.
    ghost host_faults: { Self → ℕ };

    /// Opens the rig over that disk and, if one is named, that board. After an error nothing was given.
    fn rig(&mut self, disk: &str, board: Option<&str>) -> Result<Self::R, HostFault>
        ensures gives { IfOk result (λ rig. Gives rigs_left rigs_back rigs_out self.old self.new rig) }
        ensures refused { OnErr result (SameLoans rigs_left rigs_back rigs_out self.old self.new) }
        ensures posts { SameLoans posts_left posts_back posts_out self.old self.new }
        ensures lines { SameLines Self.lines Self.say_faults self.old self.new }
        ensures cause { HostCause (host_faults self.old) (host_faults self.new) result };

    /// Makes a rig with exactly these sectors and buffers, and without a board where `buffers` is 0. After an error nothing was given.
    fn make_rig(
        &mut self,
        disk: &str,
        sectors: u32,
        board: Option<&str>,
        buffers: u32,
    ) -> Result<Self::R, HostFault>
        ensures gives { IfOk result (λ rig. Gives rigs_left rigs_back rigs_out self.old self.new rig) }
        ensures sectors { IfOk result (λ rig. (Self.R.sizes rig).sectors ≡ sectors) }
        ensures buffers { IfOk result (λ rig. (Self.R.sizes rig).buffers ≡ buffers) }
        ensures refused { OnErr result (SameLoans rigs_left rigs_back rigs_out self.old self.new) }
        ensures posts { SameLoans posts_left posts_back posts_out self.old self.new }
        ensures lines { SameLines Self.lines Self.say_faults self.old self.new }
        ensures cause { HostCause (host_faults self.old) (host_faults self.new) result };

    /// What the worker with that number takes: a link at the port, a clock and a pauser. After an error nothing was given.
    fn post(&mut self, port: u16, worker: u32) -> Result<Post<Self::L, Self::C, Self::P>, HostFault>
        ensures gives { IfOk result (λ post. Gives posts_left posts_back posts_out self.old self.new post) }
        ensures refused { OnErr result (SameLoans posts_left posts_back posts_out self.old self.new) }
        ensures rigs { SameLoans rigs_left rigs_back rigs_out self.old self.new }
        ensures lines { SameLines Self.lines Self.say_faults self.old self.new }
        ensures cause { HostCause (host_faults self.old) (host_faults self.new) result };

    /// The second: a free input, which may go back.
    fn now(&mut self) -> u32
        ensures rigs { SameLoans rigs_left rigs_back rigs_out self.old self.new }
        ensures posts { SameLoans posts_left posts_back posts_out self.old self.new }
        ensures lines { SameLines Self.lines Self.say_faults self.old self.new }
        ensures faults { host_faults self.new ≡ host_faults self.old };

    /// Takes a rig back. One that the host did not give may be let go.
    fn give_back_rig(&mut self, volume: u32, rig: Self::R)
        ensures back { TakesBack rigs_left rigs_back rigs_out self.old self.new volume rig }
        ensures posts { SameLoans posts_left posts_back posts_out self.old self.new }
        ensures lines { SameLines Self.lines Self.say_faults self.old self.new }
        ensures faults { host_faults self.new ≡ host_faults self.old };

    /// Takes a post back. One that the host did not give may be let go.
    fn give_back_post(&mut self, worker: u32, post: Post<Self::L, Self::C, Self::P>)
        ensures back { TakesBack posts_left posts_back posts_out self.old self.new worker post }
        ensures rigs { SameLoans rigs_left rigs_back rigs_out self.old self.new }
        ensures lines { SameLines Self.lines Self.say_faults self.old self.new }
        ensures faults { host_faults self.new ≡ host_faults self.old };

    /// A `say` keeps what the host tells of its rigs.
    ghost say_keeps_rigs: { (old new : Self) → Self.OnlySays old new → SameLoans rigs_left rigs_back rigs_out old new };

    /// A `say` keeps what the host tells of its posts.
    ghost say_keeps_posts: { (old new : Self) → Self.OnlySays old new → SameLoans posts_left posts_back posts_out old new };

    /// A `say` counts its own faults, not the host's.
    ghost say_keeps_faults: { (old new : Self) → Self.OnlySays old new → host_faults new ≡ host_faults old };
}
