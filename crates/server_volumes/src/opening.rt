//! How the volume of one word is opened.
ghost use Rattle.std.specs.Prelude.{◌≡◌, ◌≤◌, ◌^◌, IfOk, IfErr, [], length};
ghost use Rattle.std.specs.Option.{option_to_list};
ghost use Rattle.stable.specs.declared.state.State.TheVariants.{Down};
ghost use Rattle.nvram_map.specs.Overlay.{NoEntry};
ghost use Rattle.presto_unit.specs.Parts.{rig_of, state_of};
ghost use Rattle.run_lines.specs.Told.{Told};
ghost use Rattle.server_volumes.specs.Opens.{IsRefusedAs, HindersOver, OpensNone, OpensOn, OpensOne, OpensOver};

use crate::starting::{Recovery, begin};
use presto_recover::{Opened, open};
use presto_unit::Presto;
use rig::{Host, Rig};
use run_lines::{Named, Refusal, host_refusal, no_volume_line, unit_refusal, volume_refusal};
use stable::Tended;
use std::alloc::Global;
use v7_damage::RepairFault;
use volume::Volume;

/// How volumes are opened.
#[derive(Clone, Copy)]
pub struct OpenOptions {
    /// Whether they stay DOWN.
    pub down: bool,
    /// Whether it is accepted that a board lost its memory.
    pub accept_loss: bool,
}

// Opens the volume on a store at the host's second, mends what there is to mend, and starts it. The second is handed on.
fn open_store<H: Host, S: Tended + Drop>(
    alloc: Global,
    host: &mut H,
    store: S,
    number: u32,
    recovery: Recovery,
    down: bool,
) -> Result<(Volume<S>, u32), (RepairFault, S)>
    ensures opened { IfOk result (λ opened. OpensOn H.Host.own H.Say S.Stable down recovery number host.old host.new store opened.0) }
    ensures refused { IfErr result (λ back. IsRefusedAs S.Stable store back.1 back.0 × Told H.Host.own H.Say host.old host.new []) }
{
    let second = host.now();
    match Volume::open(alloc, store, second) {
        Err((fault, store)) => Err((fault, store)),
        Ok((volume, _repaired)) => {
            let mut volume = volume;
            begin(host, &mut volume, number, recovery, down);
            Ok((volume, second))
        }
    }
}

/// The rig of a unit. In DOWN no word of an entry is set.
pub fn take_rig<R: Rig + Drop>(unit: Presto<R>) -> R
    ensures rig { result ≡ rig_of unit }
    ensures bare { R.tells → state_of unit ≡ Down → NoEntry (R.contents result) }
    ensures few { (R.sizes result).sectors ≤ 2 ^ 32 }
{
    let rig = unit.into_rig();
    // its contract says that the number of sectors has 32 bits
    let _sectors = rig.sectors();
    rig
}

// Opens disk and board of a rig, and starts the volume on them. The second of its opening is handed on.
fn open_rig<H: Host, R: Rig + Drop>(
    alloc: Global,
    host: &mut H,
    rig: R,
    number: u32,
    options: OpenOptions,
) -> Result<(Volume<Presto<R>>, u32), (Refusal, R)>
    ensures opened { IfOk result (λ opened. OpensOver H.Host.own H.Say R.Rig options number host.old host.new rig opened.0) }
    ensures refused { IfErr result (λ back. HindersOver H.Host.own H.Say R.Rig options number host.old host.new rig back.1 back.0) }
{
    match open(alloc, rig, options.accept_loss) {
        Err((fault, rig)) => Err((unit_refusal(number, fault), rig)),
        Ok(
            Opened {
                presto,
                recovered,
                lost,
            },
        ) => {
            let recovery = Recovery { recovered, lost };
            match open_store(alloc, host, presto, number, recovery, options.down) {
                Err((fault, unit)) => Err((volume_refusal(number, fault), take_rig(unit))),
                Ok((volume, second)) => Ok((volume, second)),
            }
        }
    }
}

/// Asks the host for the disk and the board of a word, and starts the volume on them. The second of its opening is handed on. Where there is no such volume,
/// the rig comes back that the host gave, if it gave one.
pub fn open_one<H: Host>(
    alloc: Global,
    host: &mut H,
    named: &Named<'_>,
    number: u32,
    options: OpenOptions,
) -> Result<(Volume<Presto<H::R>>, u32), (Refusal, Option<H::R>)>
    requires { length named.now.word.now ≤ 401 }
    ensures opened { IfOk result (λ opened. OpensOne H.Host.own H.Say H.R.Rig options number host.old host.new opened.0) }
    ensures refused { IfErr result (λ back. OpensNone H.Host.own H.Say H.R.Rig options number named.now.word.now host.old host.new (option_to_list back.1) back.0) }
{
    match host.rig(named.disk, named.board) {
        Err(fault) => Err((host_refusal(fault, no_volume_line(named.word)), None)),
        Ok(rig) => match open_rig(alloc, host, rig, number, options) {
            Err((refusal, rig)) => Err((refusal, Some(rig))),
            Ok((volume, second)) => Ok((volume, second)),
        },
    }
}
