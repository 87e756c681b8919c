// The probe for a page's latest entry.
ghost use Rattle.std.specs.Prelude.{Some, ◌≡◌, true, false, not, ◌+◌, ◌-◌, ◌<◌, ◌≤◌, min, eqb, length, take};
ghost use Rattle.wal_types.specs.Settings.{block_entries, block_cells};
ghost use Rattle.index_hash.specs.Home.{home};
ghost use Rattle.index_hash.specs.Block.{probe, looked};
ghost use Rattle.index_search.specs.InnerRun.{All, Live, page_named, Other, met_in, entry_named, NearFit, Answers};

use crate::run;
use crate::run::NEAR_CELLS;
use index_hash::BLOCK_CELLS;

// How many cells one look takes.
const LOOK: usize = 8;

// What a probe tells: the entry found, and how many cells it looked at, the one that ended it too.
#[derive(Clone, Copy)]
pub struct Probed {
    pub found: Option<usize>,
    pub cells: usize,
}

// Whether the near cells from this home on would go round the block's end.
pub fn is_home_late(home: usize) -> bool
    ensures { result ≡ false → NearFit home }
{
    BLOCK_CELLS - NEAR_CELLS < home
}

// The answer of a probe that met this number last, 0 for nothing, and looked at so many cells.
fn ended(latest: usize, cells: usize) -> Option<Probed>
    ensures { result ≡ Some (record { found = entry_named latest; cells = cells }) }
{
    let found = latest.checked_sub(1);
    Some(Probed { found, cells })
}

// The probe of the near cells from the page's home on, one by one: its answer, if it ends among them. The pages are
// those of the visible entries; an entry that is not visible ends the probe.
// (So with none visible any cell ends it, and the source's early return for that is not needed.)
// What is met is kept as the cell's number, 0 for nothing: one register, where an Option takes two. Turns are counted,
// not cells: so the compiler, which unrolls the loop, has a constant at each end of it.
pub fn probe_near(
    hash: &[u16; BLOCK_CELLS],
    pages: &[u64],
    page_id: u64,
    from: usize,
) -> Option<Probed>
    requires { (from ≡ home page_id) × NearFit from }
    ensures { Answers (probe hash.now pages.now page_id (length pages.now)) (looked hash.now page_id (length pages.now)) result }
{
    let mut latest = 0;
    for turn in 0..NEAR_CELLS {
        let local_plus_one = hash[from + turn] as usize;
        if local_plus_one == 0 {
            return ended(latest, turn + 1); // the empty cell too
        }
        if pages.len() < local_plus_one {
            return ended(latest, turn + 1); // the hidden cell too
        }
        if pages[local_plus_one - 1] == page_id {
            latest = local_plus_one;
        }
    }
    None
}

// Whether the entries that the cells of a look name are all other pages'. Both sides of `&` are evaluated: the compiler
// takes the cells of a look together.
fn name_others(cells: &[u16; LOOK], pages: &[u64], page_id: u64) -> bool
    requires { All (Live cells.now (length pages.now)) 0 8 }
    ensures { result ≡ true → All (Other cells.now pages.now page_id) 0 8 }
{
    cells.iter().fold(true, |others, cell| {
        others & (pages[*cell as usize - 1] != page_id)
    })
}

// What is left of a run once cells at its end that name other pages' entries are passed, as long as a look sees nothing
// else.
fn before_others<'a>(run: &'a [u16], pages: &[u64], page_id: u64) -> &'a [u16]
    requires { All (Live run.now (length pages.now)) 0 (length run.now) }
    ensures { (length result.now ≤ length run.now) × ((result.now ≡ take (length result.now) run.now) × All (Other run.now pages.now page_id) (length result.now) (length run.now)) }
{
    let mut rest = run;
    while let Some((before, look)) = rest.split_last_chunk::<LOOK>() {
        if !name_others(look, pages, page_id) {
            return rest;
        }
        rest = before;
    }
    rest
}

// The last entry of the page that a run of live cells names, or what was met before. Backward: on few pages the last
// cells of a run are those of the page that is looked for.
fn latest_in_run(run: &[u16], pages: &[u64], page_id: u64, before: Option<usize>) -> Option<usize>
    requires { All (Live run.now (length pages.now)) 0 (length run.now) }
    ensures { result ≡ met_in run.now pages.now page_id 0 (length run.now) before }
{
    let mut rest = before_others(run, pages, page_id);
    while let Some((&cell, front)) = rest.split_last() {
        let local_index = cell as usize - 1;
        if pages[local_index] == page_id {
            return Some(local_index);
        }
        rest = front;
    }
    before
}

// The place of the page's latest entry among the visible ones, many cells at a look: the run of live cells from the
// home on, which may go on at the block's first cell. The pages are those of the visible entries.
pub fn find_frame_in_block(hash: &[u16; BLOCK_CELLS], pages: &[u64], page_id: u64) -> Probed
    requires { length pages.now ≤ block_entries }
    ensures { (result.found ≡ probe hash.now pages.now page_id (length pages.now)) × (result.cells ≡ looked hash.now page_id (length pages.now)) }
{
    let home = index_hash::hash_page_id(page_id);
    let visible = pages.len() as u16;
    let end = run::live_until(hash, home, BLOCK_CELLS, visible);
    let met = latest_in_run(&hash[home..end], pages, page_id, None);
    if end < BLOCK_CELLS {
        return Probed {
            found: met,
            cells: end - home + 1,
        };
    }
    let wrapped = run::live_until(hash, 0, home, visible);
    let found = latest_in_run(&hash[..wrapped], pages, page_id, met);
    // The cell that ended the probe counts too, unless it is the home again.
    let cells = BLOCK_CELLS.min(BLOCK_CELLS - home + wrapped + 1);
    Probed { found, cells }
}
