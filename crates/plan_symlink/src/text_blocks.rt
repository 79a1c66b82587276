// The blocks of a link's text.

ghost use Rattle.std.specs.Prelude.{◌≡◌, ◌<◌, ◌≤◌, ◌-◌, ◌++◌, ◌^◌, All, IfSome, IfNone, length, replicate};
ghost use Rattle.files_model.specs.Files.{sectors_of};
ghost use Rattle.name_plans.specs.Taken.{taken};
ghost use Rattle.plan_file.specs.Free.{AreSpare, count_from};
ghost use Rattle.plan_symlink.specs.TextBlocks.{AreLowestFrom, AreWithin, text_list};

use files_model::Text;
use index_sets::FreeSet;
use plan_name::spare_block;
use v7_map::sectors_of;

/// The blocks of the sectors of a link's text (filsys(5)), the first one first: none of an empty text, and at most two.
#[derive(Clone, Copy)]
pub(crate) enum TextBlocks {
    Empty,
    One(u32),
    Two(u32, u32),
}

/// How many sectors a text takes, at most two.
pub(crate) fn text_sectors(text: &Text) -> u32
    ensures sectors { result ≡ sectors_of (length text.now) }
    ensures few { result ≤ 2 }
{
    sectors_of(text.bytes().len() as u32)
}

/// Chooses the blocks of a text of so many sectors: the lowest free ones from a number on. None where fewer are free from there on, or the set has a block
/// that no volume of so many sectors can have free. Nothing is taken.
pub(crate) fn choose_text(
    blocks: &FreeSet,
    from: u32,
    count: u32,
    sectors: u32,
) -> Option<TextBlocks>
    requires { count ≤ 2 }
    ensures lowest { IfSome result (λ held. AreLowestFrom blocks.now from (text_list held)) }
    ensures count { IfSome result (λ held. length (text_list held) ≡ count) }
    ensures within { IfSome result (λ held. AreWithin sectors (text_list held)) }
    ensures none { IfNone result (AreSpare sectors blocks.now → count_from blocks.now from < count) }
{
    if count == 0 {
        return Some(TextBlocks::Empty);
    }
    let Some(first) = spare_block(blocks, from, sectors) else {
        return None;
    };
    if count == 1 {
        return Some(TextBlocks::One(first));
    }
    let Some(second) = spare_block(blocks, first + 1, sectors) else {
        return None;
    };
    Some(TextBlocks::Two(first, second))
}

/// The blocks of the first ten sectors of a body that has these alone.
pub(crate) fn direct_of(held: &TextBlocks) -> [u32; 10]
    requires { All (λ block. block < 2 ^ 24) (text_list held.now) }
    ensures direct { result ≡ text_list held.now ++ replicate (10 - length (text_list held.now)) 0 }
    ensures fit { All (λ block. block < 2 ^ 24) result }
{
    match *held {
        TextBlocks::Empty => [0; 10],
        TextBlocks::One(first) => [first, 0, 0, 0, 0, 0, 0, 0, 0, 0],
        TextBlocks::Two(first, second) => [first, second, 0, 0, 0, 0, 0, 0, 0, 0],
    }
}

/// Takes the blocks of a text out of the set of free ones.
pub(crate) fn take_text(blocks: &mut FreeSet, held: &TextBlocks)
    ensures { blocks.new ≡ taken (text_list held.now) blocks.old }
{
    match *held {
        TextBlocks::Empty => {}
        TextBlocks::One(first) => blocks.take(first),
        TextBlocks::Two(first, second) => {
            blocks.take(first);
            blocks.take(second);
        }
    }
}
