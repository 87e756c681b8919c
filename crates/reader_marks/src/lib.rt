// One record of the registry of shared marks, with a holder more or less, and what a scan of the registry tells. The registry
// has a record for each mark that connections of this process share.
#![tactic(auto)]

ghost use Rattle.std.specs.Prelude.{◌≡◌};
ghost use Rattle.std.specs.List.{list_all};
ghost use Rattle.reader_marks.specs.Registry.{is_empty, one_less};
ghost use Rattle.reader_marks.specs.InnerChange.{one_more_below, first_held};
ghost use Rattle.reader_marks.specs.InnerScan.{eight_empty};

use wal_types::SharedReadMark;
use wal_types::settings::Reader;

// A record has no more holders than this.
pub const MOST_HOLDERS: u32 = 65535;

// A reader's slot at a mark that connections share. The reader's owner is the first holder.
#[derive(Clone, Copy)]
pub struct SharedSlot {
    pub slot: u32,
    pub reader: Reader,
}

// What a registration or a release asks of the registry: the place of a mark's record and its contents or, where there is
// none, the place of the first empty record, if there is one.
#[derive(Clone, Copy)]
pub enum Seen {
    Shared { place: usize, item: SharedReadMark },
    New { free: Option<usize> },
}

// What a caller says of the registry, which is not lent: how many records it has, and what a scan of its first n for a mark
// sees.
#[derive(Clone, Copy)]
pub struct MarkInRegistry {
    pub records: usize,
    pub seen: Seen,
}

// Whether none of eight records is in use. All eight are looked at before the one test, so that the compiler makes a load of
// each and an or of them: `all` would stop at the first that is in use.
fn all_empty(eight: &[SharedReadMark; 8]) -> bool
    ensures { result ≡ list_all is_empty eight.now }
{
    eight
        .iter()
        .fold(true, |empty, item| empty & (item.holders == 0))
}

// Whether a part of the registry is eight records of which none is in use.
pub fn eight_empty(part: &[SharedReadMark]) -> bool
    ensures { result ≡ eight_empty part.now }
{
    let Ok(eight) = <&[SharedReadMark; 8]>::try_from(part) else {
        return false;
    };
    all_empty(eight)
}

// A record with a holder more. One with 65,535 holders or more stays as it is. (A copy of the record, here and below, of which
// one field is set: with one made of fields, the record's padding would be stored too.)
pub fn with_holder_more(item: SharedReadMark) -> SharedReadMark
    ensures { result ≡ one_more_below item }
{
    let mut next = item;
    if item.holders < MOST_HOLDERS {
        next.holders += 1;
    }
    next
}

// A record with a holder less. With 0 holders left it is empty.
pub fn with_holder_less(item: SharedReadMark) -> SharedReadMark
    ensures { result ≡ one_less item }
{
    let mut next = item;
    next.holders = item.holders.saturating_sub(1);
    next
}

// A new record, with its first holder.
pub fn first_held(taken: SharedSlot) -> SharedReadMark
    ensures { result ≡ first_held taken }
{
    SharedReadMark {
        mark: taken.reader.mark,
        slot: taken.slot,
        owner: taken.reader.owner,
        holders: 1,
    }
}
