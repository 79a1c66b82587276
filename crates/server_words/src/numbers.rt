//! Numbers of options.
ghost use Rattle.std.specs.Prelude.{◌≡◌, ◌≤◌, IfSome};
ghost use Rattle.std.specs.Option.{option_map};
ghost use Rattle.server_words.specs.Words.{number_in};

use run_lines::read_number;

// The bounds of an option's number, and what stands for it where it isn't given.
#[derive(Clone, Copy)]
pub(crate) struct Bounds {
    pub(crate) least: u32,
    pub(crate) most: u32,
    pub(crate) default: u32,
}

// The number that this text of an option gives.
pub(crate) fn number_in(bounds: Bounds, text: Option<&str>) -> Option<u32>
    requires { (bounds.least ≤ bounds.default) × (bounds.default ≤ bounds.most) }
    ensures number { result ≡ number_in bounds.least bounds.most bounds.default (option_map (λ text. text.now) text.entry) }
    ensures within { IfSome result (λ n. (bounds.least ≤ n) × (n ≤ bounds.most)) }
{
    let Some(text) = text else {
        return Some(bounds.default);
    };
    let n = read_number(text.as_bytes(), bounds.most)?;
    if n >= bounds.least { Some(n) } else { None }
}
