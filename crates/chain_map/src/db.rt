ghost use Rattle.std.specs.Prelude.{◌≡◌, ◌≤◌, ◌<◌, ◌*◌};
ghost use Rattle.chain_map.specs.Hash.{db_number, key_hash, chain_number};

/// The databases, in the order in which their chains are numbered and locked.
#[derive(Clone, Copy, Debug, PartialEq, Eq)]
pub enum Db {
    Opens,
    GLock,
    Locking,
    Leases,
    Register,
    Brlock,
    Mailbox,
}

impl Db {
    fn number(self) -> u32
        ensures { result ≡ db_number self }
    {
        match self {
            Db::Opens => 1,
            Db::GLock => 2,
            Db::Locking => 3,
            Db::Leases => 4,
            Db::Register => 5,
            Db::Brlock => 6,
            Db::Mailbox => 7,
        }
    }
}

/// The chain of a key, where each database has `chains` of them. Chains are numbered from 0. Reads each byte of the key once.
pub fn chain_of(db: Db, key: &[u8], chains: u32) -> u32
    requires some { 1 ≤ chains }
    requires few { chains ≤ 64 }
    ensures number { result ≡ chain_number db key.now chains }
    ensures below { result < 7 * chains }
{
    (db.number() - 1) * chains + hash_of(key) % chains
}

fn hash_of(key: &[u8]) -> u32
    ensures { result ≡ key_hash key.now }
{
    key.iter().fold(
        0,
        |hash: u32, &byte| ((u64::from(hash) * 31 + u64::from(byte)) % (1 << 32)) as u32,
    )
}
