//! An open and a close by hand: all bytes that the databases have after each, by hand too.
use by_hand::{kept_after_close, kept_after_open, row_by_hand};
use chain_map::Chain;
use opendb_run::Open;
use sid_core::OutOfMemory;
use std::test::Fail;

// The number of a chain, a key and its value.
type Pair<'a> = (usize, &'a [u8], &'a [u8]);

const AT_FIRST: [Pair<'static>; 3] = [
    (
        37,
        b"\x00\x00\x00\x65",
        b"REGI\x01\x00\x01\x00\x00\x00\x01\x01\x00\x00\x00\x00\x00\x00\x00\x00\x00\x00\x00\x00\x00\x00\x00\x00\x00\x00\x00",
    ),
    (
        38,
        b"\x00\x00\x00\x66",
        b"REGI\x01\x00\x02\x00\x00\x00\x01\x01\x00\x00\x00\x00\x00\x00\x00\x00\x00\x00\x00\x00\x00\x00\x00\x00\x00\x00\x00",
    ),
    (
        39,
        b"\x00\x00\x00\x67",
        b"REGI\x01\x00\x03\x00\x00\x00\x01\x01\x00\x00\x00\x00\x00\x00\x00\x00\x00\x00\x00\x00\x00\x00\x00\x00\x00\x00\x00",
    ),
];

// Handle 1 of pid 101 is the open of its call 1, of file 1. The file's share modes have that open of session 1: access 3,
// sharing all.
const OPENED: [Pair<'static>; 2] = [
    (
        6,
        b"\x00\x00\x00\x65\x00\x00\x00\x01",
        b"OPEN\x01\x00\x65\x00\x00\x00\x01\x00\x00\x00\x01\x00\x00\x00",
    ),
    (
        20,
        b"\x00\x00\x00\x00\x00\x00\x00\x01\x00\x00\x00\x00\x00\x00\x00\x0B\x00\x00\x00\x00\x00\x00\x00\x00",
        b"SHAR\x02\x00\x01\x00\x00\x00\x09\x00/srv/data\x05\x00a.txt\x00\x01\x00\x00\x00\x65\x00\x00\x00\x01\x00\x00\x00\x65\x00\x00\x00\x01\x00\x00\x00\x01\x00\x00\x00\x03\x00\x00\x00\x07\x00\x00\x00\x00\x00\x00\x00\x00\x00\x00\x00\x00\x00\x00\x00\x00\x00\x00\x00\x00\x00\x00\x00\x00\x00\x00\x00\x00\x00\x00\x00\x00\x00\x00",
    ),
];

fn count_pairs(chains: &[Chain]) -> u32 {
    let mut count: u32 = 0;
    for chain in chains {
        for _ in chain.entries() {
            count = count.wrapping_add(1);
        }
    }
    count
}

fn has(chains: &[Chain], pairs: &[Pair<'_>]) -> bool {
    for (number, key, value) in pairs {
        let Some(chain) = chains.get(*number) else {
            return false;
        };
        if chain.find(key) != Some(*value) {
            return false;
        }
    }
    true
}

#[test]
fn an_open_by_hand_has_these_bytes(rt: HostRuntime) -> Result<(), Fail> {
    let alloc = rt.alloc();
    let setup = row_by_hand(alloc)?;
    let kept = kept_after_open(alloc, &setup, &Open).map_err(|_| OutOfMemory)?;
    assert_eq!(rt; kept.all().len(), 56);
    assert_eq!(rt; count_pairs(kept.all()), 5);
    assert!(rt; has(kept.all(), &AT_FIRST));
    assert!(rt; has(kept.all(), &OPENED));
    assert_eq!(rt; kept.journal().len(), 1);
    Ok(())
}

#[test]
fn a_close_by_hand_leaves_what_was_there(rt: HostRuntime) -> Result<(), Fail> {
    let alloc = rt.alloc();
    let setup = row_by_hand(alloc)?;
    let kept = kept_after_close(alloc, &setup, &Open).map_err(|_| OutOfMemory)?;
    assert_eq!(rt; kept.all().len(), 56);
    assert_eq!(rt; count_pairs(kept.all()), 3);
    assert!(rt; has(kept.all(), &AT_FIRST));
    assert_eq!(rt; kept.journal().len(), 2);
    Ok(())
}
