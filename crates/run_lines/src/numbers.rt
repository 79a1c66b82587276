//! Numbers on the command line.
ghost use Rattle.std.specs.Prelude.{◌≡◌, ◌≤◌, ◌<◌, ◌^◌, IfSome};
ghost use Rattle.run_lines.specs.Numbers.{digits, number_of};

// A number of digits alone, none above the most.
fn number(text: &[u8], most: u64) -> Option<u64>
    requires { most < 2 ^ 32 }
    ensures number { result ≡ digits most 0 text.now }
    ensures few { IfSome result (λ n. n ≤ most) }
{
    let mut n = 0u64;
    for b in text {
        if *b < b'0' || *b > b'9' {
            return None;
        }
        n = 10 * n + (*b - b'0') as u64;
        if n > most {
            return None;
        }
    }
    Some(n)
}

/// A number of one to ten decimal digits, if it is at most so many.
pub fn read_number(text: &[u8], most: u32) -> Option<u32>
    ensures number { result ≡ number_of most text.now }
    ensures few { IfSome result (λ n. n ≤ most) }
{
    if text.is_empty() || text.len() > 10 {
        return None;
    }
    let n = number(text, most as u64)?;
    Some(n as u32)
}
