// Publishes and bumps. The header is lent, and each call stores to its own cells alone, in the order of the definitions.
#![tactic(auto)]

ghost use Rattle.std.specs.Prelude.{◌≡◌, not, ◌==◌};
ghost use Rattle.wal_types.specs.Call.{ok, value};
ghost use Rattle.header_publish.specs.Publish.{publish_commit, publish_backfill, bump_checkpoint_seq, bump_checkpoint_epoch, HeaderCall};

use wal_types::Header;

// Publishes a committed transaction. A later commit by another process may have raised the published frame or the
// count already: neither is lowered, and the checksums then stay the later commit's.
#[tactic(auto, unfolding(crate::specs::Publish::publish_commit))]
pub fn publish_commit(
    header: &mut Header,
    max_frame: u64,
    checksum_1: u32,
    checksum_2: u32,
    transaction_count: u64,
)
    ensures { HeaderCall (publish_commit max_frame checksum_1 checksum_2 transaction_count) header.old ok header.new }
{
    let published = header.max_frame;
    let counted = header.transaction_count;
    header.max_frame = published.max(max_frame);
    if published <= max_frame {
        header.checksum_1 = checksum_1;
        header.checksum_2 = checksum_2;
    }
    header.transaction_count = counted.max(transaction_count);
    header.visibility_generation = header.visibility_generation.wrapping_add(1);
}

// Publishes how many frames are copied to the database file. The number that is there already is not stored again, so that
// such a call can be made on memory that is mapped read-only.
#[tactic(auto, unfolding(crate::specs::Publish::publish_backfill))]
pub fn publish_backfill(header: &mut Header, nbackfills: u64)
    ensures { HeaderCall (publish_backfill nbackfills) header.old ok header.new }
{
    if backfill_changes(*header, nbackfills) {
        header.nbackfills = nbackfills;
    }
}

// Whether that header is another.
pub fn backfill_changes(header: Header, nbackfills: u64) -> bool
    ensures { result ≡ not (nbackfills == header.nbackfills) }
{
    nbackfills != header.nbackfills
}

// Answers the new checkpoint number.
#[tactic(auto, unfolding(crate::specs::Publish::bump_checkpoint_seq))]
pub fn bump_checkpoint_seq(header: &mut Header) -> u32
    ensures { HeaderCall bump_checkpoint_seq header.old (value result) header.new }
{
    let seq = header.checkpoint_seq.wrapping_add(1);
    header.checkpoint_seq = seq;
    seq
}

// Answers the checkpoint epoch as it was before.
#[tactic(auto, unfolding(crate::specs::Publish::bump_checkpoint_epoch))]
pub fn bump_checkpoint_epoch(header: &mut Header) -> u32
    ensures { HeaderCall bump_checkpoint_epoch header.old (value result) header.new }
{
    let previous = header.checkpoint_epoch;
    header.checkpoint_epoch = previous.wrapping_add(1);
    previous
}
