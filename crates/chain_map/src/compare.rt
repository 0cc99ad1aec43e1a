ghost use Rattle.std.specs.Prelude.{◌≡◌};
ghost use Rattle.chain_map.specs.Pairs.{byte_order};

use byteorder::{BigEndian, ByteOrder};
use std::cmp::Ordering;

/// How a byte string stands to another. Compares eight bytes at once.
#[inline(always)]
pub(crate) fn order(left: &[u8], right: &[u8]) -> Ordering
    ensures { result ≡ byte_order left.now right.now }
{
    if left.len() < 16 || right.len() < 16 {
        return order_by_words(left, right);
    }
    let p = BigEndian::read_u64(left);
    let q = BigEndian::read_u64(right);
    if p != q {
        return p.cmp(&q);
    }
    let (_, x) = left.split_at(8);
    let (_, y) = right.split_at(8);
    let r = BigEndian::read_u64(x);
    let s = BigEndian::read_u64(y);
    if r != s {
        return r.cmp(&s);
    }
    let (_, x) = x.split_at(8);
    let (_, y) = y.split_at(8);
    order_by_words(x, y)
}

// The same for strings of any length, in a function of its own, so that the above is short.
#[inline(never)]
fn order_by_words(left: &[u8], right: &[u8]) -> Ordering
    ensures { result ≡ byte_order left.now right.now }
{
    let mut x = left;
    let mut y = right;
    while 8 <= x.len() && 8 <= y.len() {
        let p = BigEndian::read_u64(x);
        let q = BigEndian::read_u64(y);
        if p != q {
            return p.cmp(&q);
        }
        (_, x) = x.split_at(8);
        (_, y) = y.split_at(8);
    }
    if x.len() == 0 {
        let none: usize = 0;
        return none.cmp(&y.len());
    }
    x.cmp(&y)
}
