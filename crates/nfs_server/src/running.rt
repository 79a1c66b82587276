//! A run of the server, from its words to its status.
ghost use Rattle.std.specs.Prelude.{◌≡◌, ◌⊎◌, ◌+◌, ◌<◌, ◌≤◌, ◌∷◌, [], None, Some, length, map, string_bytes};
ghost use Rattle.std.specs.List.{AllByRecursion};
ghost use Rattle.std.specs.Option.{option_map, option_to_list};
ghost use Rattle.rig.specs.Hosts.{SameLoans, SameLines};
ghost use Rattle.volume.specs.Rests.{Rests};
ghost use Rattle.run_lines.specs.Overlays.{unit_store};
ghost use Rattle.nfs_worker.specs.Resting.{StaysAtRest};
ghost use Rattle.nfs_worker.specs.Volumes.{AreOpen};
ghost use Rattle.server_words.specs.Reading.{IsWithin, words_read};
ghost use Rattle.server_words.specs.Words.{asked_by};
ghost use Rattle.nfs_server.specs.Outcome.{Outcome};
ghost use Rattle.nfs_server.specs.Run.{GivesBack, RanPost, RefusesPost, RunsOver, ServesPost, StopsRest};

use crate::lines::no_port_line;
use crate::telling::{USAGE, close};
use nfs_worker::{Cells, Ended, Numbers, ServerPass, open_cells, work};
use presto_unit::Presto;
use rig::{Host, HostFault, Post};
use run_lines::{host_refusal, no_memory, refuse, tell};
use server_volumes::{OpenOptions, OpenVolumes, Unopened, open_all, stop_all};
use server_words::{Options, Words, read_words};
use stable::Tended;
use std::alloc::Global;
use volume::Volume;

// ---- where not all volumes are open

// Gives back the rig of a volume that wasn't opened, if the host gave one.
fn give_back<H: Host>(host: &mut H, number: u32, rig: Option<H::R>)
    requires { length (option_to_list rig) ≤ H.rigs_out host.old }
    ensures { GivesBack H.Host.own H.Say number (option_to_list rig) host.old host.new }
{
    if let Some(rig) = rig {
        host.give_back_rig(number, rig);
    }
}

// Stops the volumes that were opened before one that wasn't, and says why that isn't.
fn stop_unopened<H: Host>(host: &mut H, unopened: Unopened<Presto<H::R>, H::R>) -> u8
    requires few { length unopened.volumes.items ≤ 4 }
    requires out { length unopened.volumes.items + length (option_to_list unopened.rig) ≤ H.rigs_out host.old }
    requires rest { AllByRecursion (Rests (unit_store H.R.Rig)) unopened.volumes.items }
    ensures { StopsRest H.Host.own H.Say H.R.Rig host.old host.new unopened.volumes.items (option_to_list unopened.rig) unopened.refusal result }
{
    let Unopened {
        volumes,
        refusal,
        rig,
    } = unopened;
    let number = volumes.len() as u32;
    let now = host.now();
    let _stopped = stop_all(host, volumes, now);
    give_back(host, number, rig);
    refuse(host, refusal)
}

// ---- where all are

// Stops the volumes, since the host gave no post at that port, or there was no memory for a worker.
fn refuse_post<H: Host>(
    host: &mut H,
    volumes: Vec<Volume<Presto<H::R>>>,
    port: u16,
    fault: HostFault,
) -> u8
    requires few { length volumes.items ≤ 4 }
    requires out { length volumes.items ≤ H.rigs_out host.old }
    requires rest { AllByRecursion (Rests (unit_store H.R.Rig)) volumes.items }
    ensures { RefusesPost H.Host.own H.Say H.R.Rig port fault host.old host.new volumes.items result }
{
    let now = host.now();
    let _stopped = stop_all(host, volumes, now);
    refuse(host, host_refusal(fault, no_port_line(port)))
}

// Runs the worker over its cells and its post, and gives the post and the volumes back.
fn run_worker<H: Host, S: Tended + Drop>(
    host: &mut H,
    cells: Cells<S>,
    post: Post<H::L, H::C, H::P>,
    second: u32,
    turns: u64,
) -> (Ended, Numbers, Vec<Volume<S>>)
    requires out { 0 < H.posts_out host.old }
    requires few { turns ≤ 1000000000 }
    requires rest { AllByRecursion (Rests S.Stable) cells.volumes.items }
    requires desk { AreOpen (length cells.volumes.items) cells.desk }
    ensures rest { AllByRecursion (Rests S.Stable) result.2.items }
    ensures ran { RanPost H.Host.own H.Say H.L.Link H.C.Clock S.Stable host.old host.new cells.volumes.items result.2.items cells.desk post turns result.0 result.1 }
{
    let mut cells = cells;
    let mut post = post;
    let mut pass = ServerPass::new(0, second);
    let ended = work(&mut cells, &mut post, &mut pass, turns);
    host.give_back_post(0, post);
    (ended, pass.numbers, cells.volumes)
}

// Runs the worker, stops the volumes, and says the closing lines.
fn serve_post<H: Host>(
    host: &mut H,
    cells: Cells<Presto<H::R>>,
    post: Post<H::L, H::C, H::P>,
    second: u32,
    turns: u64,
) -> u8
    requires out { 0 < H.posts_out host.old }
    requires few { turns ≤ 1000000000 }
    requires rigs { length cells.volumes.items ≤ H.rigs_out host.old }
    requires rest { AllByRecursion (Rests (unit_store H.R.Rig)) cells.volumes.items }
    requires desk { AreOpen (length cells.volumes.items) cells.desk }
    ensures { ServesPost H.Host.own H.Say H.R.Rig H.L.Link H.C.Clock turns host.old host.new cells.volumes.items cells.desk post result }
{
    let (ended, numbers, volumes) = run_worker(host, cells, post, second, turns);
    let now = host.now();
    let stopped = stop_all(host, volumes, now);
    close(host, stopped.as_slice(), ended, numbers)
}

// Runs a worker over open volumes.
fn serve_open<H: Host>(
    alloc: Global,
    host: &mut H,
    opened: OpenVolumes<Presto<H::R>>,
    options: Options,
) -> u8
    requires turns { options.turns ≤ 1000000000 }
    requires some { 1 ≤ length opened.volumes.items }
    requires few { length opened.volumes.items ≤ 4 }
    requires out { length opened.volumes.items ≤ H.rigs_out host.old }
    requires rest { AllByRecursion (Rests (unit_store H.R.Rig)) opened.volumes.items }
    ensures { RunsOver H.Host.own H.Say H.R.Rig H.L.Link H.C.Clock options.port options.turns host.old host.new opened.volumes.items result }
{
    let OpenVolumes { volumes, second } = opened;
    match open_cells(alloc, volumes) {
        Err(volumes) => refuse_post(host, volumes, options.port, HostFault::NoMemory),
        Ok(cells) => match host.post(options.port, 0) {
            Err(fault) => refuse_post(host, cells.volumes, options.port, fault),
            Ok(post) => serve_post(host, cells, post, second, options.turns),
        },
    }
}

// ---- from the words on

// Opens the volumes that are asked for, and runs over them.
fn serve_asked<H: Host>(alloc: Global, host: &mut H, asked: &Words<'_>) -> u8
    requires { IsWithin asked.now }
    ensures { Outcome H.Host.own H.Say H.R.Rig H.L.Link H.C.Clock (Some (words_read asked.now)) host.old host.new result }
{
    let options = OpenOptions {
        down: asked.options.down,
        accept_loss: asked.options.accept_loss,
    };
    match open_all(alloc, host, &asked.volumes, options) {
        Err(unopened) => stop_unopened(host, unopened),
        Ok(opened) => serve_open(alloc, host, opened, asked.options),
    }
}

/// Serves the volumes that the words name, with one worker, until its link ends or its turns are spent. The result is the status of the program
/// (docs/CALLS.md, "Lines and statuses").
pub fn serve<H: Host>(alloc: Global, words: &[String], host: &mut H) -> u8
    // Only words that aren't of the grammar give the usage line, and such words give nothing else but want of memory.
    ensures usage { result ≡ 64 → asked_by (map string_bytes words.now) ≡ None }
    ensures refused { asked_by (map string_bytes words.now) ≡ None → (result ≡ 64) ⊎ (result ≡ 75) }
    // What was lent came back; the calls on each volume are one history, whose replies are those sent, and which sound crashes keep.
    ensures outcome { Outcome H.Host.own H.Say H.R.Rig H.L.Link H.C.Clock (asked_by (map string_bytes words.now)) host.old host.new result }
{
    match read_words(alloc, words) {
        Err(_) => refuse(host, no_memory()),
        Ok(None) => {
            tell(host, USAGE);
            64
        }
        Ok(Some(asked)) => serve_asked(alloc, host, &asked),
    }
}
