// Sectors of a body.

ghost use Rattle.std.specs.Prelude.{◌≡◌};
ghost use Rattle.files_model.specs.Files.{sectors_of, clipped};
ghost use Rattle.files_model.specs.Step.{spliced};

/// How many sectors of 512 bytes a size takes.
pub fn sectors_of(size: u32) -> u32
    ensures { result ≡ sectors_of size }
{
    size.div_ceil(512)
}

/// Puts zeros at and past the size into sector `index` of a body.
pub fn clip(size: u32, index: u32, sector: &mut [u8; 512])
    ensures { sector.new ≡ clipped size index sector.old }
{
    let start = u64::from(index) * 512;
    let kept = u64::from(size).saturating_sub(start).min(512) as usize;
    let zeros = [0; 512];
    sector[kept..].copy_from_slice(&zeros[kept..]);
}

/// Writes into sector `index` of a body those of the bytes, written from an offset of the body on,
/// that fall into it.
pub fn splice(offset: u32, bytes: &[u8], index: u32, sector: &mut [u8; 512])
    ensures { sector.new ≡ spliced offset bytes.now index sector.old }
{
    let start = u64::from(index) * 512;
    let before = u64::from(offset).saturating_sub(start).min(512) as usize;
    let skipped = start
        .saturating_sub(u64::from(offset))
        .min(bytes.len() as u64) as usize;
    let count = (bytes.len() - skipped).min(512 - before);
    sector[before..before + count].copy_from_slice(&bytes[skipped..skipped + count]);
}
