#![tactic(auto, using(mm_working_sets::proofs::UserLemmas::elsewhere, mm_working_sets::proofs::UserLemmas::is_here, mm_working_sets::proofs::UserLemmas::stays, mm_working_sets::proofs::UserLemmas::aged_stays, mm_working_sets::proofs::UserLemmas::one_more, mm_working_sets::proofs::UserLemmas::none_held, mm_working_sets::proofs::UserLemmas::none_counted))]

use mm_types::Vpn;
use mm_working_sets::WorkingSet;
use std::test::Fail;

/// A set that is made with its room, which no program does.
#[test]
fn places_are_used_again(rt: HostRuntime) -> Result<(), Fail> {
    let mut set = WorkingSet::new(rt.alloc(), 0, 1)?;
    assert!(rt; set.is_empty());
    let place = set.insert(Vpn(0x10));
    assert_eq!(rt; set.remove(place), Vpn(0x10));
    assert!(rt; set.is_empty());
    Ok(())
}
