// The puts of a link's text.

ghost use Rattle.std.specs.Prelude.{◌≡◌, ◌≤◌, ◌+◌, ◌++◌, length};
ghost use Rattle.longer_plans.specs.SymlinkPuts.{text_puts, text_sector};
ghost use Rattle.plan_symlink.specs.TextBlocks.{text_list};
ghost use Rattle.stable.specs.Puts.{with_puts};

use crate::text_blocks::TextBlocks;
use stable::Plan;
use v7_map::splice;
use v7_read::empty_sector;

// The whole sector `index` of a text: its bytes, and zeros after them.
fn text_sector(text: &[u8], index: u32) -> [u8; 512]
    ensures { result ≡ text_sector text.now index }
{
    let mut sector = empty_sector();
    splice(0, text, index, &mut sector);
    sector
}

/// Adds the puts of a text's sectors, the first one first, each whole.
pub(crate) fn add_text(plan: &mut Plan, text: &[u8], held: &TextBlocks)
    requires { length plan.old.puts + 2 ≤ plan.old.room }
    ensures { plan.new ≡ with_puts plan.old (plan.old.puts ++ text_puts text.now 0 (text_list held.now)) }
{
    match *held {
        TextBlocks::Empty => {}
        TextBlocks::One(first) => plan.add(first, &text_sector(text, 0)),
        TextBlocks::Two(first, second) => {
            plan.add(first, &text_sector(text, 0));
            plan.add(second, &text_sector(text, 1));
        }
    }
}
