// What a file doesn't need any more.
ghost use Rattle.std.specs.Prelude.{◌≡◌, ◌<◌, ◌≤◌, ℕ, true, length};
ghost use Rattle.index_sets.specs.Free.{is_free};
ghost use Rattle.plan_file.specs.Set.{given};
ghost use Rattle.plan_name.specs.Planned.{number_back};

use index_sets::FreeSet;

/// Gives blocks of a store of so many sectors back to its set. One at or past its end is passed over.
pub fn give_back(blocks: &mut FreeSet, freed: &[u32], sectors: u32)
    ensures given { length blocks.old ≤ sectors → blocks.new ≡ given freed.now blocks.old }
    ensures within { ((b : ℕ) → is_free blocks.old b ≡ true → b < sectors) → (b : ℕ) → is_free blocks.new b ≡ true → b < sectors }
{
    for block in freed {
        if *block >= sectors {
            continue;
        }
        blocks.give(*block);
    }
}

/// Gives an i-number back to its set, if there is one.
pub fn give_number(inodes: &mut FreeSet, freed: Option<u32>)
    ensures { inodes.new ≡ number_back freed inodes.old }
{
    match freed {
        Some(number) => inodes.give(number),
        None => {}
    }
}
