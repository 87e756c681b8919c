// What a list is made of.
ghost use Rattle.std.specs.Prelude.{ℕ, ◌^◌, ◌<◌, get_or};

use list_gather::gather::Visible;

// The visible entries, and the bounds of their frames.
#[derive(Clone, Copy)]
pub struct Listing<'a> {
    pub visible: Visible<'a>,
    pub min_frame: u64,
    pub max_frame: u64,
    ghost pages_fit: { (e : ℕ) → get_or visible.pages.now e 0 < 2 ^ 64 },
}
