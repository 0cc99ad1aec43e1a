/// The words that a call loaded or failed to change, the last one of each kind, with what stood in them: a chain's word, the
/// journal's, and the status word of a pass. A chain's or the journal's word is 0 where it is free, and else the number of
/// the pass that holds it, plus one. A status word is 0 where the pass lives.
#[derive(Clone, Copy)]
pub struct Looked {
    pub chain: Option<(u32, u64)>,
    pub journal: Option<u64>,
    pub status: Option<(u32, u64)>,
}
