// The registry of shared marks, a lent slice of records: what a call looks for in it, and the changes of one record.
#![tactic(auto)]

ghost use Rattle.std.specs.Prelude.{◌≡◌, Bool, min, length, take, position};
ghost use Rattle.wal_types.specs.declared.SharedReadMark.{SharedReadMark};
ghost use Rattle.reader_slots.specs.Slots.{is_in_registry};
ghost use Rattle.reader_marks.specs.Registry.{is_empty};
ghost use Rattle.reader_marks.specs.InnerChange.{retained, published, released};
ghost use Rattle.reader_marks.specs.InnerScan.{used, seen_of};

use reader_marks::{Seen, SharedSlot};
use wal_types::SharedReadMark;

// The first n records, or all if there are fewer.
fn first_records(registry: &[SharedReadMark], n: usize) -> &[SharedReadMark]
    ensures { result.now ≡ take (min n (length registry.now)) registry.now }
{
    &registry[..n.min(registry.len())]
}

// The place of the first empty record.
fn first_empty(records: &[SharedReadMark]) -> Option<usize>
    ensures { result ≡ position is_empty records.now }
{
    records.iter().position(|item| item.holders == 0)
}

// The place of the first record in use that is wanted. Most of a registry is empty, and eight empty records cost eight
// loads and one test. Where one of eight is in use, the scan goes through them record by record, and the closure first
// tests what is wanted and then whether the record is in use: hardly a record passes the first, so one load for each is
// enough. A direct release looks at all n records unless one names its slot (refusal 11), so at 256 slots this loop is
// most of its time. Each caller has a loop of its own, since it passes a closure of its own: one loop for all of them took
// half as long again. With arrays of eight in place of chunks the compiler writes the inner scan out eight times, and a
// direct release of up to 64 slots took a tenth longer.
#[inline(always)]
fn first_used<F: Fn(&SharedReadMark) -> bool>(
    records: &[SharedReadMark],
    is_wanted: F,
) -> Option<usize>
    ghost test: { SharedReadMark → Bool }
    requires callable { F.IsAlwaysCallable is_wanted }
    requires answers { (item : _) (b : _) → F.post is_wanted item b → b ≡ used test item.now }
    ensures { result ≡ position (used test) records.now }
{
    for (k, part) in records.chunks(8).enumerate() {
        if reader_marks::eight_empty(part) {
            continue;
        }
        if let Some(i) = part.iter().position(|item| is_wanted(item)) {
            return Some(k * 8 + i);
        }
    }
    None
}

// Looks for a mark among the first n records, or all if there are fewer, and for an empty one where the mark has none.
#[inline(always)]
#[tactic(auto, using(crate::proofs::Scan::place_below, crate::proofs::Scan::seen_shared, crate::proofs::Scan::seen_new))]
pub fn look_through(registry: &[SharedReadMark], n: usize, mark: u64) -> Seen
    ensures { result ≡ seen_of (min n (length registry.now)) registry.now mark }
{
    let records = first_records(registry, n);
    match first_used(records, |item| item.mark == mark && item.holders != 0) {
        Some(place) => Seen::Shared {
            place,
            item: records[place],
        },
        None => Seen::New {
            free: first_empty(records),
        },
    }
}

// Whether one of the first n records is in use for the slot.
#[inline(always)]
pub fn slot_is_shared(registry: &[SharedReadMark], n: usize, slot: usize) -> bool
    ensures { result ≡ is_in_registry n registry.now slot }
{
    first_used(
        first_records(registry, n),
        |item| item.slot as usize == slot && item.holders != 0,
    )
    .is_some()
}

// A connection more shares the mark of a record. Past the end nothing is written. (No get_mut: a proof knows nothing of the list
// that it was taken from. The same below.)
pub fn retain_shared_snapshot_reader(registry: &mut [SharedReadMark], at: usize)
    ensures { registry.new ≡ retained at registry.old }
{
    if at < registry.len() {
        registry[at] = reader_marks::with_holder_more(registry[at]);
    }
}

// A new mark for connections to share, in an empty record. Past the end nothing is written.
pub fn publish_shared_snapshot_reader(registry: &mut [SharedReadMark], at: usize, taken: SharedSlot)
    ensures { registry.new ≡ published at taken registry.old }
{
    if at < registry.len() {
        registry[at] = reader_marks::first_held(taken);
    }
}

// A connection less shares the mark of a record. Past the end nothing is written.
pub fn release_shared_snapshot_reader(registry: &mut [SharedReadMark], at: usize)
    ensures { registry.new ≡ released at registry.old }
{
    if at < registry.len() {
        registry[at] = reader_marks::with_holder_less(registry[at]);
    }
}
