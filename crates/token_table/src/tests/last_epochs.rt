//! The last epochs, which a table reaches only if it begins near them.

use super::lists::{admit_shared, evict_shared, hold_shared, refuse_shared};
use super::next_seat;
use crate::making::Made;
use crate::tables::TokenTable;
use std::test::Fail;
use token_words::{Evict, LAST_EPOCH};

#[test]
fn a_patch_at_its_last_epoch_is_refused(rt: HostRuntime) -> Result<(), Fail> {
    let made = TokenTable::starting_at(rt.alloc(), LAST_EPOCH - 2, 2, &[0], 1)?;
    let Made {
        table,
        mut keeper,
        sessions: mut seats,
    } = made;
    let mut seat = next_seat(&table, &mut seats).expect(&rt, "a seat for the session");
    admit_shared(&rt, &table, &mut keeper, 1);
    let held = hold_shared(&rt, &table, &mut keeper, &mut seat, 1);
    assert!(rt; held == (LAST_EPOCH - 1, Evict::Kept(1), Evict::Kept(1)));
    assert!(rt; evict_shared(&rt, &table, &mut keeper, 1) == Evict::Gone);
    assert!(rt; table.epoch(&keeper, 1) == LAST_EPOCH);
    assert!(rt; refuse_shared(&rt, &table, &mut seat, 1) == LAST_EPOCH);
    assert!(rt; refuse_shared(&rt, &table, &mut seat, 1) == LAST_EPOCH);
    Ok(())
}
