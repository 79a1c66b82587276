//! How the volumes of all words are opened, one after the other.
ghost use Rattle.std.specs.Prelude.{◌≡◌, ◌≤◌, IfOk, IfErr, length, map};
ghost use Rattle.std.specs.List.{All};
ghost use Rattle.std.specs.Option.{option_to_list};
ghost use Rattle.server_volumes.specs.Opens.{OpensAll, OpensSome};

use crate::opening::{OpenOptions, open_one};
use presto_unit::Presto;
use rig::Host;
use run_lines::{Named, Refusal, no_memory};
use std::alloc::Global;
use volume::Volume;

/// Volumes that were opened and started.
#[derive(Drop)]
pub struct OpenVolumes<S> {
    /// In the order of their words.
    pub volumes: Vec<Volume<S>>,
    /// The second of the last opening.
    pub second: u32,
}

/// Volumes that were opened and started before one that wasn't.
#[derive(Drop)]
pub struct Unopened<S, R> {
    /// In the order of their words.
    pub volumes: Vec<Volume<S>>,
    /// Why the next one isn't open.
    pub refusal: Refusal,
    /// Its rig, if the host gave one.
    pub rig: Option<R>,
}

/// Opens and starts a volume for each of one to four words, in their order, up to the first that can't be opened. The room for the volumes is reserved before
/// the host is asked for a rig; where there is no memory for that, no rig is asked for, and the first volume is refused for want of memory.
pub fn open_all<H: Host>(
    alloc: Global,
    host: &mut H,
    asked: &[Named<'_>],
    options: OpenOptions,
) -> Result<OpenVolumes<Presto<H::R>>, Unopened<Presto<H::R>, H::R>>
    requires some { 1 ≤ length asked.now }
    requires few { length asked.now ≤ 4 }
    requires short { All (λ named. length named.word.now ≤ 401) asked.now }
    ensures opened { IfOk result (λ opened. OpensAll H.Host.own H.Say H.R.Rig options host.old host.new opened.volumes.items) }
    ensures all { IfOk result (λ opened. length opened.volumes.items ≡ length asked.now) }
    ensures refused { IfErr result (λ refused. OpensSome H.Host.own H.Say H.R.Rig options (map (λ named. named.word.now) asked.now) host.old host.new refused.volumes.items (option_to_list refused.rig) refused.refusal) }
{
    let Ok(mut volumes) = Vec::with_capacity(alloc, asked.len()) else {
        return Err(Unopened {
            volumes: Vec::new(alloc),
            refusal: no_memory(),
            rig: None,
        });
    };
    let mut second = 0;
    for named in asked {
        match open_one(alloc, host, named, volumes.len() as u32, options) {
            Err((refusal, rig)) => {
                return Err(Unopened {
                    volumes,
                    refusal,
                    rig,
                });
            }
            Ok((volume, now)) => {
                volumes.push_reserved(volume);
                second = now;
            }
        }
    }
    Ok(OpenVolumes { volumes, second })
}
