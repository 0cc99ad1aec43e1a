use crate::copies::{put_into_both, remove_from_both};
use chain_map::{Chain, Db, chain_of};
use sid_core::OutOfMemory;
use std::alloc::Global;
use std::test::Fail;

// By hand: 31 is 4 * 8 - 1, so in 8 chains a byte counts by its place, as itself or as its negative. In 3 chains, which
// don't divide 2^32, the last key goes to chain 18 if the hash isn't taken modulo 2^32 after each byte.
#[test]
fn keys_go_to_their_chains(rt: HostRuntime) {
    let lock_nine = [0, 0, 0, 0, 0, 0, 0, 9];
    assert_eq!(rt; chain_of(Db::GLock, &lock_nine, 8), 9);
    let mut inode_eleven = [0; 24];
    inode_eleven[7] = 1;
    inode_eleven[15] = 11;
    assert_eq!(rt; chain_of(Db::Locking, &inode_eleven, 8), 20);
    assert_eq!(rt; chain_of(Db::Opens, &[], 64), 0);
    assert_eq!(rt; chain_of(Db::Mailbox, &[255; 8], 64), 384);
    assert_eq!(rt; chain_of(Db::Mailbox, &[255; 8], 3), 20);
}

// The empty key goes to the first chain of each database.
#[test]
fn databases_follow_one_another(rt: HostRuntime) {
    for (db, chain) in [
        (Db::Opens, 0),
        (Db::GLock, 8),
        (Db::Locking, 16),
        (Db::Leases, 24),
        (Db::Register, 32),
        (Db::Brlock, 40),
        (Db::Mailbox, 48),
    ] {
        assert_eq!(rt; chain_of(db, &[], 8), chain);
    }
}

fn length_of(chain: &Chain) -> u32 {
    let mut length: u32 = 0;
    for _ in chain.entries() {
        length = length.wrapping_add(1);
    }
    length
}

fn put_number(alloc: Global, chain: &mut Chain, number: u32, byte: u8) -> Result<(), OutOfMemory> {
    chain.put(
        number.to_be_bytes().to_vec(alloc)?,
        vec![in alloc; byte; 3]?,
    )
}

// The multiples of a number modulo 2^32, from the first on, as keys.
fn multiples(alloc: Global, step: u32, count: u32) -> Result<Chain, OutOfMemory> {
    let mut chain = Chain::new(alloc);
    for turn in 1..=count {
        put_number(alloc, &mut chain, turn.wrapping_mul(step), 1)?;
    }
    Ok(chain)
}

fn has(chain: &Chain, number: u32, byte: u8) -> bool {
    match chain.find(&number.to_be_bytes()) {
        Some(value) => value.iter().all(|b| *b == byte),
        None => false,
    }
}

// Where keys rise or fall, all leaves but the last are full but for a pair; where they come in no order, most have more
// than half of what they can.
#[test]
fn leaves_are_full(rt: HostRuntime) -> Result<(), Fail> {
    let alloc = rt.alloc();
    assert_eq!(rt; multiples(alloc, 1, 1300)?.held().leaves, 21);
    assert_eq!(rt; multiples(alloc, u32::MAX, 1300)?.held().leaves, 21);
    assert!(rt; multiples(alloc, 2_654_435_761, 1300)?.held().leaves <= 34);
    Ok(())
}

// A copy without the keys up to 100, and with another value under 150.
fn without_the_first(alloc: Global, chain: &Chain) -> Result<Chain, OutOfMemory> {
    let mut copy = chain.copy()?;
    for number in 1..=100u32 {
        copy.remove(&number.to_be_bytes());
    }
    put_number(alloc, &mut copy, 150, 2)?;
    copy.settle();
    Ok(copy)
}

// What a copy took out or replaced is gone once the other chain is, also where a leaf has nothing else.
#[test]
fn settling_gives_back(rt: HostRuntime) -> Result<(), Fail> {
    let alloc = rt.alloc();
    let chain = multiples(alloc, 1, 200)?;
    let mut copy = without_the_first(alloc, &chain)?;
    assert_eq!(rt; copy.held().pairs, 200);
    assert_eq!(rt; copy.held().over, 1);
    assert_eq!(rt; length_of(&copy), 100);
    assert_eq!(rt; length_of(&chain), 200);
    drop(chain);
    copy.settle();
    assert_eq!(rt; copy.held().pairs, 100);
    assert_eq!(rt; copy.held().over, 0);
    assert!(rt; has(&copy, 150, 2));
    Ok(())
}

#[test]
fn a_copy_and_its_original_are_independent(rt: HostRuntime) -> Result<(), Fail> {
    let alloc = rt.alloc();
    let mut chain = multiples(alloc, 1, 100)?;
    let put = put_into_both(
        &mut chain,
        7u32.to_be_bytes().to_vec(alloc)?,
        vec![in alloc; 2; 3]?,
        vec![in alloc; 3; 3]?,
    )?;
    assert!(rt; has(&put, 7, 2));
    assert!(rt; has(&chain, 7, 3));
    let removed = remove_from_both(&mut chain, &7u32.to_be_bytes(), &9u32.to_be_bytes())?;
    assert!(rt; !has(&removed, 7, 3));
    assert!(rt; has(&removed, 9, 1));
    assert!(rt; has(&chain, 7, 3));
    assert!(rt; !has(&chain, 9, 1));
    Ok(())
}
