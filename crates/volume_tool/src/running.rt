//! A run of the tool, from its words to its status.
ghost use Rattle.std.specs.Prelude.{◌≡◌, ◌≤◌, ◌*◌, ◌↔◌, None, Some, Ok, length, map, string_bytes};
ghost use Rattle.run_lines.specs.Naming.{named_of};
ghost use Rattle.v7_make.specs.Sizes.{fitting, list_blocks};
ghost use Rattle.volume_tool.specs.Asking.{plan_read};
ghost use Rattle.volume_tool.specs.Made.{MakesAs};
ghost use Rattle.volume_tool.specs.Run.{Outcome};
ghost use Rattle.volume_tool.specs.Told.{Runs};
ghost use Rattle.volume_tool.specs.Words.{Make, Check, Recover, asked_by};

use crate::checking::check_rig;
use crate::lines::made_line;
use crate::making::make_volume;
use crate::recovering::recover_rig;
use crate::telling::{USAGE, answer, make_refusal};
use crate::words::{Asked, Plan, read_words};
use rig::{Host, Rig};
use run_lines::{Named, host_refusal, no_volume_line, refuse, tell};
use std::alloc::Global;
use v7_make::fits;

// The inodes of a volume that was to have so many: eight to a block.
fn rounded(inodes: u32) -> u32
    requires { inodes ≤ 65528 }
    ensures { result ≡ 8 * list_blocks inodes }
{
    8 * inodes.div_ceil(8)
}

// Makes a volume on a rig that was made for it, and says so.
fn make_rig<H: Host, R: Rig + Drop>(alloc: Global, host: &mut H, rig: R, plan: &Plan) -> (u8, R)
    requires size { (R.sizes rig).sectors ≡ plan.now.size }
    requires buffers { (R.sizes rig).buffers ≡ plan.now.buffers }
    requires some { 1 ≤ plan.now.inodes }
    requires fits { fitting plan.now.size plan.now.inodes ≡ Ok tt }
    ensures { Runs H.Host.own H.Say (MakesAs R.Rig (plan_read plan.now) rig result.1) host.old host.new result.0 }
{
    let (made, rig) = make_volume(alloc, rig, plan);
    match made {
        Err(fault) => (refuse(host, make_refusal(fault)), rig),
        Ok(left) => {
            let line = made_line(plan.size, rounded(plan.inodes), left);
            (answer(host, line.as_str()), rig)
        }
    }
}

// Asks for a rig of these sizes, and makes a volume on it.
fn make_sized<H: Host>(alloc: Global, host: &mut H, volume: &Named<'_>, plan: &Plan) -> u8
    requires short { length volume.now.word.now ≤ 401 }
    requires some { 1 ≤ plan.now.inodes }
    requires fits { fitting plan.now.size plan.now.inodes ≡ Ok tt }
    ensures { Outcome H.Host.own H.Say H.R.Rig (Some (Make (named_of volume.now) (plan_read plan.now))) host.old host.new result }
{
    match host.make_rig(volume.disk, plan.size, volume.board, plan.buffers) {
        Err(fault) => refuse(host, host_refusal(fault, no_volume_line(volume.word))),
        Ok(rig) => {
            let (status, rig) = make_rig(alloc, host, rig, plan);
            host.give_back_rig(0, rig);
            status
        }
    }
}

// Makes a volume, if it may have these sizes.
fn make<H: Host>(alloc: Global, host: &mut H, volume: &Named<'_>, plan: &Plan) -> u8
    requires short { length volume.now.word.now ≤ 401 }
    requires some { 1 ≤ plan.now.inodes }
    ensures { Outcome H.Host.own H.Say H.R.Rig (Some (Make (named_of volume.now) (plan_read plan.now))) host.old host.new result }
{
    match fits(plan.size, plan.inodes) {
        Err(fault) => refuse(host, make_refusal(fault)),
        Ok(()) => make_sized(alloc, host, volume, plan),
    }
}

// Inspects a volume.
fn check<H: Host>(alloc: Global, host: &mut H, volume: &Named<'_>) -> u8
    requires short { length volume.now.word.now ≤ 401 }
    ensures { Outcome H.Host.own H.Say H.R.Rig (Some (Check (named_of volume.now))) host.old host.new result }
{
    match host.rig(volume.disk, volume.board) {
        Err(fault) => refuse(host, host_refusal(fault, no_volume_line(volume.word))),
        Ok(rig) => {
            let (status, rig) = check_rig(alloc, host, rig);
            host.give_back_rig(0, rig);
            status
        }
    }
}

// Recovers a volume.
fn recover<H: Host>(alloc: Global, host: &mut H, volume: &Named<'_>, accept_loss: bool) -> u8
    requires short { length volume.now.word.now ≤ 401 }
    ensures { Outcome H.Host.own H.Say H.R.Rig (Some (Recover (named_of volume.now) accept_loss)) host.old host.new result }
{
    match host.rig(volume.disk, volume.board) {
        Err(fault) => refuse(host, host_refusal(fault, no_volume_line(volume.word))),
        Ok(rig) => {
            let (status, rig) = recover_rig(alloc, host, rig, accept_loss);
            host.give_back_rig(0, rig);
            status
        }
    }
}

/// Makes, inspects or recovers the volume that the words name, says one line, and answers the status of the program. A rig that the host gave is given
/// back as that of volume 0. The files of a volume that is inspected or recovered are the same at each moment, whatever the status.
///
/// - 0: a volume was made; or inspected; or mended and stopped cleanly.
/// - 64: the words aren't of the grammar. 65: the sizes are refused, before a rig is made. 66: the host failed to give a rig.
/// - 67 to 70: the board isn't the volume's, lost its memory, isn't formatted, or has a bad entry. 68: so it is too where the volume can't be mended.
/// - 74: a device failed; or the line of a run that was done can't be said.
/// - 75: there was no memory.
pub fn tool<H: Host>(alloc: Global, words: &[String], host: &mut H) -> u8
    // The words alone decide on the usage line.
    ensures usage { result ≡ 64 ↔ asked_by (map string_bytes words.now) ≡ None }
    // The rig that was lent came back; what was made or found on it; what is kept of it at each moment; the status and the line.
    ensures outcome { Outcome H.Host.own H.Say H.R.Rig (asked_by (map string_bytes words.now)) host.old host.new result }
{
    let Some(asked) = read_words(words) else {
        tell(host, USAGE);
        return 64;
    };
    match asked {
        Asked::Make { volume, plan } => make(alloc, host, &volume, &plan),
        Asked::Check { volume } => check(alloc, host, &volume),
        Asked::Recover {
            volume,
            accept_loss,
        } => recover(alloc, host, &volume, accept_loss),
    }
}
