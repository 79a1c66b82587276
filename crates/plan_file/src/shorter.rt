// The blocks of a file that gets shorter.

ghost use Rattle.std.specs.Prelude.{◌≡◌, ◌≢◌, ◌<◌, ◌≤◌, ℕ, List, [], ◌∷◌, ◌++◌, get_or, length, nat_lt, if◌then◌else◌, IfSome, IfNone};
ghost use Rattle.arrayvec.specs.ArrayVec.{array_vec_len};
ghost use Rattle.plan_file.specs.Contents.{Fits};
ghost use Rattle.plan_file.specs.Shorter.{AreCut, AreDropped, LeftPuts, is_dropped};

use crate::filling::add_map;
use crate::places::Places;
use arrayvec::ArrayVec;
use stable::Plan;

// The blocks of the first sectors, none for the others.
fn cut_body(body: &[u32; 138], count: u32) -> [u32; 138]
    ensures { (k : ℕ) → get_or result k 0 ≡ (if nat_lt k count then get_or body.now k 0 else 0) }
{
    let mut cut = *body;
    for index in 0..138 {
        if index as u32 >= count {
            cut[index] = 0;
        }
    }
    cut
}

// The first sector from the eleventh on that has a block, if any.
fn first_mapped(body: &[u32; 138]) -> Option<usize>
    ensures found { IfSome result (λ k. (10 ≤ k) × (k < 138) × (get_or body.now k 0 ≢ 0)) }
    ensures none { IfNone result ((k : ℕ) → 10 ≤ k → k < 138 → get_or body.now k 0 ≡ 0) }
{
    for index in 10..138 {
        if body[index] != 0 {
            return Some(index);
        }
    }
    None
}

/// The places of a file that keeps its first sectors, and its block of addresses where it keeps one that is reached by it.
pub fn cut_places(places: &Places, count: u32) -> Places
    ensures { AreCut places.now count result }
{
    let body = cut_body(&places.body, count);
    match first_mapped(&body) {
        Some(_) => Places {
            body,
            single: places.single,
        },
        None => Places { body, single: 0 },
    }
}

/// Adds the block of addresses where it is kept and an address in it changes.
pub fn add_left(plan: &mut Plan, old: &Places, new: &Places)
    requires { length plan.old.puts < plan.old.room }
    ensures added { (maps : List (ℕ × List ℕ)) × (plan.new.puts ≡ plan.old.puts ++ maps) × LeftPuts old.now new.now maps }
    ensures fits { (sectors : ℕ) → (new.now.single ≢ 0 → (2 ≤ new.now.single) × (new.now.single < sectors)) → Fits sectors 1 plan.old plan.new }
{
    if new.single == 0 {
        return;
    }
    add_map(plan, old, new);
}

// Whether a block is dropped.
fn is_dropped(old: u32, new: u32) -> bool
    ensures { result ≡ is_dropped old new }
{
    old != 0 && new == 0
}

// The block of addresses, if it is dropped.
fn dropped_single(old: u32, new: u32) -> ArrayVec<u32, 139>
    ensures items { result.items ≡ (if is_dropped old new then old ∷ [] else []) }
    ensures few { array_vec_len result ≤ 1 }
{
    let mut blocks = ArrayVec::new();
    if !is_dropped(old, new) {
        return blocks;
    }
    blocks.push(old);
    blocks
}

/// The blocks of the old places that the new ones don't have.
pub fn dropped(old: &Places, new: &Places) -> ArrayVec<u32, 139>
    ensures { AreDropped old.now new.now 138 result.items }
{
    let mut blocks = dropped_single(old.single, new.single);
    for index in 0..138 {
        if !is_dropped(old.body[index], new.body[index]) {
            continue;
        }
        blocks.push(old.body[index]);
    }
    blocks
}
