// A shared registration and a shared release, by what is seen of the registry.
#![tactic(auto)]

ghost use Rattle.std.specs.Prelude.{◌≡◌, [], ◌∷◌, is_some};
ghost use Rattle.reader_slots.specs.Inner.{AllHold, HoldBits};
ghost use Rattle.reader_register.specs.Inner.{chosen_by};
ghost use Rattle.reader_shared.specs.Shared.{register_reader_for_snapshot, unregister_reader_for_snapshot, share_answer, unshare_answer};
ghost use Rattle.reader_shared.specs.Inner.{share_change, unshare_change, PlanCall};

use reader_marks::{MarkInRegistry, Seen};
use reader_moves::update;
use reader_moves::update::SlotOwners;
use reader_register::register;
use reader_shared::shared;
use reader_shared::shared::{Release, SharePlan};
use reader_slots::slots;
use reader_slots::slots::SharedSlots;
use wal_types::refusal::Refusal;
use wal_types::settings::{Reader, ReaderSettings};

// Whether a registration could take one of lent slots.
fn could_take(
    settings: ReaderSettings,
    slots: &SharedSlots<'_>,
    local_readers: &[u64],
    card: &[u8],
) -> bool
    requires { HoldBits settings.n slots.now.bitmap.now × AllHold settings.n (slots.now.reader_owners.now ∷ local_readers.now ∷ card.now ∷ []) }
    ensures { result ≡ is_some (chosen_by settings card.now slots.now.bitmap.now slots.now.reader_owners.now local_readers.now) }
{
    register::could_take(
        settings,
        slots.bitmap,
        slots.reader_owners,
        local_readers,
        card,
    )
}

// A shared registration, but for what it does to the registry. The registry is not lent: the contract holds for every
// registry of which it is so what is told of it. Of what fits no registry (a record seen in place 3 of 2 records) it says
// nothing.
#[tactic(auto, using(reader_shared::proofs::Refused::share_room, reader_slots::proofs::Card::card_fits, crate::proofs::Shares::without_record))]
pub fn share_plan(
    settings: ReaderSettings,
    slots: &mut SharedSlots<'_>,
    local_readers: &mut [u64],
    registry: MarkInRegistry,
    card: &[u8],
    reader: Reader,
) -> Result<Option<SharePlan>, Refusal>
    ensures { PlanCall settings.n reader.mark registry (register_reader_for_snapshot settings.n settings.mode reader.owner.0 reader.mark card.now) slots.old local_readers.old (share_answer result) slots.new local_readers.new (share_change result) }
{
    shared::check_share(settings.n, slots, local_readers, registry.records, reader)?;
    // Looked at once for both cases, so that its loop stands once in the code.
    let card_refusal = slots::check_card(settings.n, card);
    let free = match registry.seen {
        Seen::Shared { place, item } => {
            let plan = shared::try_share_joined(place, item, reader.mark, card_refusal)?;
            return Ok(Some(plan));
        }
        Seen::New { free } => free,
    };
    card_refusal?;
    let Some(free) = free else {
        let takes = could_take(settings, slots, local_readers, card);
        return shared::without_record(takes);
    };
    let registered = register::register_checked(settings, slots, local_readers, card, reader);
    shared::share_published(free, registered, reader)
}

// A shared release, but for what it does to the registry: the place of the record that it releases. The registry is told of as
// in share_plan.
#[tactic(auto, using(reader_slots::proofs::Calls::registry_enough, crate::proofs::Unshares::unshare_slot_number, crate::proofs::Unshares::unshare_absent, crate::proofs::Unshares::unshare_left, crate::proofs::Unshares::unshare_last))]
pub fn unshare_plan(
    settings: ReaderSettings,
    slots: &mut SharedSlots<'_>,
    local_readers: &mut [u64],
    registry: MarkInRegistry,
    reader: Reader,
    slot: usize,
) -> Result<usize, Refusal>
    ensures { PlanCall settings.n reader.mark registry (unregister_reader_for_snapshot settings.n settings.mode reader.mark slot reader.owner.0) slots.old local_readers.old (unshare_answer result) slots.new local_readers.new (unshare_change result) }
{
    slots::check_registry(settings.n, slots, local_readers, registry.records)?;
    if settings.n <= slot {
        return Err(Refusal::SlotNumber);
    }
    let Seen::Shared { place, item } = registry.seen else {
        slots::check_reader(reader)?;
        return Err(Refusal::NoSuchMark);
    };
    let release = Release::of(item, slot, reader.owner);
    let owners = SlotOwners::of(slots, local_readers, slot);
    shared::check_unshare(
        settings.mode,
        release.is_registered(),
        release.frees(),
        reader,
        owners,
    )?;
    if release.frees() {
        update::release_slot(settings.mode, slots, local_readers, slot);
    }
    Ok(place)
}
