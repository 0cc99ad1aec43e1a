ghost use Rattle.std.specs.Prelude.{◌≡◌, IfOk, OnOk};
ghost use Rattle.chain_map.specs.Pairs.{put, without};

use chain_map::Chain;
use sid_core::OutOfMemory;

/// A copy, with another value under the key than the original gets afterwards.
pub fn put_into_both(
    chain: &mut Chain,
    key: Vec<u8>,
    copied: Vec<u8>,
    own: Vec<u8>,
) -> Result<Chain, OutOfMemory>
    ensures copy { IfOk result (λ copy. copy ≡ put key.items copied.items chain.old) }
    ensures original { OnOk result (chain.new ≡ put key.items own.items chain.old) }
{
    let mut copy = chain.copy()?;
    copy.put(key.clone()?, copied)?;
    chain.put(key, own)?;
    copy.settle();
    chain.settle();
    Ok(copy)
}

/// A copy that lacks the first key, where the original lacks the second afterwards.
pub fn remove_from_both(chain: &mut Chain, copied: &[u8], own: &[u8]) -> Result<Chain, OutOfMemory>
    ensures copy { IfOk result (λ copy. copy ≡ without copied.now chain.old) }
    ensures original { OnOk result (chain.new ≡ without own.now chain.old) }
{
    let mut copy = chain.copy()?;
    copy.remove(copied);
    chain.remove(own);
    copy.settle();
    chain.settle();
    Ok(copy)
}
