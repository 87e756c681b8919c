// How many entries a rollback keeps.
ghost use Rattle.std.specs.Prelude.{◌≡◌, ◌≤◌, length};
ghost use Rattle.index_end.specs.Kept.{kept_of};

// How many of the entries with these frames are kept.
pub fn kept_entries(frames: &[u64], max_frame: u64) -> usize
    ensures { (result ≡ kept_of (length frames.now) frames.now max_frame) × (result ≤ length frames.now) }
{
    let mut kept = frames;
    while let Some((last, before)) = kept.split_last() {
        if *last <= max_frame {
            return kept.len();
        }
        kept = before;
    }
    0
}
