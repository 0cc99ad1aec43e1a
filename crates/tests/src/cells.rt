//! Tests of dbwrap_core: passes that meet, die and recover one another, compared with what was worked out by hand.
use crate::counting::count;
use crate::passes::{add_and_close, counts, die_adding, meet, recover_within, six_passes};
use sid_core::{Entry, Event};
use std::test::Fail;
use turn_types::{Recover, Take};

// The stages after which a pass dies that adds one to two chains, how many steps its recovery takes (a store of each chain
// that is committed and not stored, and one for each chain that is held), and how far the chains have counted after it.
const DEATHS: [(u32, u32, usize); 11] = [
    (0, 0, 0),
    (1, 1, 0),
    (2, 2, 0),
    (3, 2, 0),
    (4, 2, 0),
    (5, 2, 0),
    (6, 4, 1),
    (7, 3, 1),
    (8, 2, 1),
    (9, 1, 1),
    (10, 0, 1),
];

// What a recovery of so many steps at most answers where so many are left.
fn answer(most: u32, left: u32) -> Option<Recover> {
    Some(if most < left {
        Recover::Stopped
    } else {
        Recover::Freed
    })
}

// A death at each stage, a first recovery of each number of steps up to what is needed, a second one that is one step short of
// the rest, and a third one that does the rest. Whichever of them stops, dies.
#[test]
fn each_death_is_recovered(rt: HostRuntime) -> Result<(), Fail> {
    for (stages, steps, counted) in DEATHS {
        for first in 0..=steps {
            let mut cells = six_passes(rt.alloc())?;
            die_adding(&mut cells, rt.alloc(), 0, stages)?;
            let rest = steps.saturating_sub(first);
            assert_eq!(rt;
                recover_within(&mut cells, 1, 0, first),
                answer(first, steps),
                "at stage {stages}, {first} steps"
            );
            let short = rest.saturating_sub(1);
            assert_eq!(rt;
                recover_within(&mut cells, 2, 0, short),
                answer(short, rest),
                "at stage {stages}, {first} steps and then {short}"
            );
            assert_eq!(rt;
                recover_within(&mut cells, 3, 0, 1),
                Some(Recover::Freed),
                "at stage {stages}, {first} steps, {short} and then one"
            );
            assert_eq!(rt;
                counts(&mut cells, rt.alloc(), 4)?,
                Some((counted, counted)),
                "at stage {stages}"
            );
        }
    }
    Ok(())
}

// A chain is busy while its holder lives, and an orphan from its death on, until a recovery has given it back.
#[test]
fn holders_are_met(rt: HostRuntime) -> Result<(), Fail> {
    let mut cells = six_passes(rt.alloc())?;
    assert_eq!(rt; meet(&mut cells, 0), Take::Taken);
    assert_eq!(rt; meet(&mut cells, 1), Take::Busy { holder: 0 });
    assert_eq!(rt; recover_within(&mut cells, 2, 0, 9), None);
    for (stages, counted) in [(5, 0), (6, 1)] {
        let mut cells = six_passes(rt.alloc())?;
        die_adding(&mut cells, rt.alloc(), 0, stages)?;
        assert_eq!(rt; meet(&mut cells, 1), Take::Orphan { holder: 0 });
        assert_eq!(rt; recover_within(&mut cells, 2, 0, 0), Some(Recover::Stopped));
        assert_eq!(rt; meet(&mut cells, 3), Take::Orphan { holder: 0 });
        assert_eq!(rt; recover_within(&mut cells, 4, 0, 9), Some(Recover::Freed));
        assert_eq!(rt;
            counts(&mut cells, rt.alloc(), 5)?,
            Some((counted, counted))
        );
    }
    Ok(())
}

// What is left has the entry, and the chains that it makes.
#[test]
fn closed_cells_have_their_journal(rt: HostRuntime) -> Result<(), Fail> {
    let left = add_and_close(rt.alloc())?;
    let Some(closed) = left else {
        assert!(rt; false, "not added");
        return Ok(());
    };
    let what = Event::Tidied { chain: 0 };
    let entry = Entry {
        by: 0,
        seq: 1,
        what,
    };
    assert_eq!(rt; closed.journal.as_slice(), [entry].as_slice());
    assert_eq!(rt; closed.chains.len(), 2);
    for chain in closed.chains.iter() {
        assert_eq!(rt; count(chain), 1);
    }
    Ok(())
}
