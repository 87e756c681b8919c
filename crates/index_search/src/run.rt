// Runs of live cells: cells that name one of the first visible entries.
ghost use Rattle.std.specs.Prelude.{◌≡◌, true, not, ◌&&◌, ◌+◌, ◌<◌, ◌≤◌, eqb, leb, length};
ghost use Rattle.index_search.specs.InnerRun.{All, Live, RunEnd};

// How many cells a search looks at one by one before many are at once.
pub const NEAR_CELLS: usize = 24;

// As many entries as a cell can name: with this, every used cell is live.
pub const ANY_ENTRY: u16 = 65535;

// How many cells one look takes.
const LOOK: usize = 16;

// Whether a cell is live.
fn is_live(cell: u16, visible: u16) -> bool
    ensures { result ≡ (not (eqb cell 0) && leb cell visible) }
{
    (cell != 0) & (cell <= visible)
}

// Whether all cells of a look are live. Both sides of `&` are evaluated, so that the compiler looks at all of them by
// one instruction: `all` would stop at the first that is not.
fn all_live(cells: &[u16; LOOK], visible: u16) -> bool
    ensures { result ≡ true → All (Live cells.now visible) 0 16 }
{
    cells
        .iter()
        .fold(true, |live, cell| live & is_live(*cell, visible))
}

// How many cells at the front of these are live, by whole looks.
fn pass_live(cells: &[u16], visible: u16) -> usize
    ensures { (result ≤ length cells.now) × All (Live cells.now visible) 0 result }
{
    let (looks, _) = cells.as_chunks::<LOOK>();
    for (n, look) in looks.iter().enumerate() {
        if !all_live(look, visible) {
            return LOOK * n;
        }
    }
    LOOK * looks.len()
}

// Where the run of live cells from this one on ends, cell by cell: at the first that is not live, or at the given end.
// (A for over their numbers: with `position` a record took 7 to 8 % longer. No Option: a run that goes to the end has
// its end there, and a probe takes the cells up to it in either case. That the two ends lie in the cells is asked in each
// contract that has them: a part of the cells would lose where it begins, which is told.)
pub fn near_live_until(hash: &[u16], from: usize, end: usize, visible: u16) -> usize
    requires { (from ≤ end) × (end ≤ length hash.now) }
    ensures { RunEnd hash.now visible from end result }
{
    for cell in from..end {
        if !is_live(hash[cell], visible) {
            return cell;
        }
    }
    end
}

// The same, many cells at a look.
pub fn live_until(hash: &[u16], from: usize, end: usize, visible: u16) -> usize
    requires { (from ≤ end) × (end ≤ length hash.now) }
    ensures { RunEnd hash.now visible from end result }
{
    let passed = pass_live(&hash[from..end], visible);
    near_live_until(hash, from + passed, end, visible)
}
