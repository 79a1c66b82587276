// What a word in doubt is read as.
ghost use Rattle.std.specs.Prelude.{◌≡◌, ◌≢◌, ◌⊎◌, None};
ghost use Rattle.presto_cache.specs.Slots.{spelled, fits_word};

use nvram_map::entry_word;

fn word_for(sector: u32, buffer: Option<u32>) -> u64
    requires { fits_word buffer }
    ensures { result ≡ spelled sector buffer }
{
    match buffer {
        Some(buffer) => entry_word(sector, buffer),
        None => 0,
    }
}

// The newer buffer where the word says so, or none at 0, else the older one.
pub fn read_as(word: u64, sector: u32, older: Option<u32>, newer: Option<u32>) -> Option<u32>
    requires older { fits_word older }
    requires newer { fits_word newer }
    ensures known { (word ≡ spelled sector older) ⊎ (word ≡ spelled sector newer) ⊎ (word ≡ 0) → word ≡ spelled sector result }
    ensures other { word ≢ spelled sector newer → word ≢ 0 → result ≡ older }
    ensures one { (result ≡ older) ⊎ (result ≡ newer) ⊎ (result ≡ None) }
{
    if word == word_for(sector, newer) {
        return newer;
    }
    if word == 0 {
        return None;
    }
    older
}
