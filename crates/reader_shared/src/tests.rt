use crate::shared::{RecordChange, SharePlan, share_joined, try_share_joined};
use reader_marks::MOST_HOLDERS;
use wal_types::refusal::Refusal;
use wal_types::{SharedOwnerRecord, SharedReadMark};

const OWNER: SharedOwnerRecord = SharedOwnerRecord(8589934595);

// Mark 40, in slot 5.
fn held_by(holders: u32) -> SharedReadMark {
    SharedReadMark {
        mark: 40,
        slot: 5,
        owner: OWNER,
        holders,
    }
}

// The plan retains the record in place 3, and takes its slot by its owner at mark 41, the one that was asked for.
fn joins(plan: SharePlan) -> bool {
    matches!(plan.change, RecordChange::Retained(3))
        && plan.taken.slot == 5
        && plan.taken.reader.owner == OWNER
        && plan.taken.reader.mark == 41
}

#[test]
fn joins_whatever_the_holders(rt: HostRuntime) {
    for holders in [0, 1, MOST_HOLDERS - 1, MOST_HOLDERS, u32::MAX] {
        assert!(rt;
            joins(share_joined(3, held_by(holders), 41)),
            "{holders} holders"
        );
    }
}

#[test]
fn joins_only_with_room_and_a_good_card(rt: HostRuntime) {
    for holders in [1, MOST_HOLDERS - 1] {
        let answer = try_share_joined(3, held_by(holders), 41, Ok(()));
        assert!(rt; answer.is_ok_and(joins), "{holders} holders");
        let answer = try_share_joined(3, held_by(holders), 41, Err(Refusal::Card));
        assert!(rt;
            matches!(answer, Err(Refusal::Card)),
            "{holders} holders, a bad card"
        );
    }
    for holders in [MOST_HOLDERS, u32::MAX] {
        for card in [Ok(()), Err(Refusal::Card)] {
            let answer = try_share_joined(3, held_by(holders), 41, card);
            assert!(rt;
                matches!(answer, Err(Refusal::RegistryFull)),
                "{holders} holders"
            );
        }
    }
}
