ghost use Rattle.std.specs.Prelude.{◌≡◌, ◌+◌, ◌*◌, ◌++◌, ◌≤◌, codes, length, vec_len, vec_capacity};
ghost use Rattle.record_codec.specs.Fields.{state as state_codec, truth as truth_codec, u32 as u32_codec, u64 as u64_codec};
ghost use Rattle.record_codec.specs.MailRec.{letter, IsLetter, spot as spot_codec, token, IsToken, mail_fields, IsMailRec};
ghost use Rattle.record_codec.specs.Reads.{Gives};

use crate::fault::Unpack;
use crate::reading::{
    in_set, lowered_at, state_or_zero_at, truth_at, truth_or_zero_at, u8_at, u32_at,
    u32_or_zero_at, u64_at, u64_or_zero_at,
};
use crate::record::Packed;
use crate::rows::{Row, owned_list_at, put_list};
use crate::writing::{put_state, put_truth, put_u8, put_u32, put_u64};
use sid_core::{Items, LeaseState, Letter, Spot};
use std::alloc::Global;

/// A call that waits for a change at a spot.
#[derive(Clone, Copy)]
pub struct Token {
    pub spot: Spot,
    pub call: u32,
}

/// The mailbox of a session: its waiting calls and its letters.
#[derive(Drop)]
pub struct MailRec {
    pub session: u32,
    pub tokens: Items<Token>,
    pub letters: Items<Letter>,
}

fn spot_at(bytes: &[u8]) -> Result<(Spot, &[u8]), Unpack>
    ensures { Gives (λ x. (x.0, x.1.now)) result ((spot_codec 5 6).read bytes.now) }
{
    let (kind, rest) = u8_at(bytes)?;
    in_set(kind <= 2, 5)?;
    let (number, rest) = u64_at(rest)?;
    if kind == 2 {
        return Ok((Spot::LockOf(number), rest));
    }
    in_set(number <= 0xFFFF_FFFF, 6)?;
    let file = number as u32;
    if kind == 0 {
        return Ok((Spot::OpenOf(file), rest));
    }
    Ok((Spot::RangesOf(file), rest))
}

fn put_spot(out: &mut Vec<u8>, spot: Spot)
    requires { vec_len out.old + 9 ≤ vec_capacity out.old }
    ensures items { out.new.items ≡ out.old.items ++ (spot_codec 5 6).spell spot }
    ensures len { vec_len out.new ≡ vec_len out.old + 9 }
    ensures room { vec_capacity out.old ≤ vec_capacity out.new }
{
    let (kind, number) = match spot {
        Spot::OpenOf(file) => (0, file as u64),
        Spot::RangesOf(file) => (1, file as u64),
        Spot::LockOf(key) => (2, key),
    };
    put_u8(out, kind);
    put_u64(out, number);
}

/// A token: its spot and its call.
#[derive(Clone, Copy)]
pub enum TokenRow {}

#[tactic(auto, unfolding(crate::specs::MailRec::token))]
impl Row<Token> for TokenRow {
    ghost codec = { token };

    ghost valid = { IsToken };

    ghost SIZE = { 13 };

    const SIZE: usize = 13;

    fn at(bytes: &[u8]) -> Result<(Token, &[u8]), Unpack> {
        let (spot, rest) = spot_at(bytes)?;
        let (call, rest) = u32_at(rest)?;
        Ok((Token { spot, call }, rest))
    }

    fn put(out: &mut Vec<u8>, item: &Token) {
        put_spot(out, item.spot);
        put_u32(out, item.call);
    }

    fn laws() {}
}

/// A letter, a wake or a break.
#[derive(Clone, Copy)]
pub enum LetterRow {}

#[tactic(auto, unfolding(crate::specs::MailRec::letter))]
impl Row<Letter> for LetterRow {
    ghost codec = { letter };

    ghost valid = { IsLetter };

    ghost SIZE = { 20 };

    const SIZE: usize = 20;

    fn at(bytes: &[u8]) -> Result<(Letter, &[u8]), Unpack> {
        let (breaks, rest) = truth_at(bytes, 9)?;
        let (call, rest) = u32_or_zero_at(rest, 10, !breaks)?;
        let (file, rest) = u32_or_zero_at(rest, 11, breaks)?;
        let (key, rest) = u64_or_zero_at(rest, 12, breaks)?;
        let (from, rest) = state_or_zero_at(rest, 13, breaks)?;
        let (to, rest) = lowered_at(rest, 14, breaks, from)?;
        let (ack, rest) = truth_or_zero_at(rest, 15, breaks)?;
        let letter = if breaks {
            Letter::Break {
                file,
                key,
                from,
                to,
                ack,
            }
        } else {
            Letter::Wake { call }
        };
        Ok((letter, rest))
    }

    fn put(out: &mut Vec<u8>, item: &Letter) {
        match *item {
            Letter::Wake { call } => {
                put_start(out, false, call, 0);
                put_end(out, 0, LeaseState(0), LeaseState(0), false);
            }
            Letter::Break {
                file,
                key,
                from,
                to,
                ack,
            } => {
                put_start(out, true, 0, file);
                put_end(out, key, from, to, ack);
            }
        }
    }

    fn laws() {}
}

fn put_start(out: &mut Vec<u8>, breaks: bool, call: u32, file: u32)
    requires { vec_len out.old + 9 ≤ vec_capacity out.old }
    ensures items { out.new.items ≡ out.old.items ++ ((truth_codec 9).spell breaks ++ ((u32_codec 10).spell call ++ (u32_codec 11).spell file)) }
    ensures len { vec_len out.new ≡ vec_len out.old + 9 }
    ensures room { vec_capacity out.old ≤ vec_capacity out.new }
{
    put_truth(out, breaks);
    put_u32(out, call);
    put_u32(out, file);
}

fn put_end(out: &mut Vec<u8>, key: u64, from: LeaseState, to: LeaseState, ack: bool)
    requires { vec_len out.old + 11 ≤ vec_capacity out.old }
    ensures items { out.new.items ≡ out.old.items ++ ((u64_codec 12).spell key ++ ((state_codec 13).spell from ++ ((state_codec 14).spell to ++ (truth_codec 15).spell ack))) }
    ensures len { vec_len out.new ≡ vec_len out.old + 11 }
    ensures room { vec_capacity out.old ≤ vec_capacity out.new }
{
    put_u64(out, key);
    put_state(out, from);
    put_state(out, to);
    put_truth(out, ack);
}

#[tactic(auto, unfolding(crate::specs::MailRec::mail_fields))]
impl Packed for MailRec {
    ghost MAGIC = { codes "MAIL" };

    ghost OLDEST = { 1 };

    ghost NEWEST = { 1 };

    ghost fields = { λ version. mail_fields };

    ghost valid = { IsMailRec };

    ghost size = { λ r. 12 + 13 * length r.tokens + 20 * length r.letters };

    const MAGIC: [u8; 4] = *b"MAIL";

    const OLDEST: u16 = 1;

    const NEWEST: u16 = 1;

    fn fields_size(&self) -> usize {
        12 + 13 * self.tokens.len() + 20 * self.letters.len()
    }

    fn put_fields(&self, out: &mut Vec<u8>) {
        put_u32(out, self.session);
        put_list::<Token, TokenRow>(out, self.tokens.as_slice());
        put_list::<Letter, LetterRow>(out, self.letters.as_slice());
    }

    fn fields_at(alloc: Global, _version: u16, bytes: &[u8]) -> Result<(MailRec, &[u8]), Unpack> {
        let (session, rest) = u32_at(bytes)?;
        let (tokens, rest) = owned_list_at::<Token, TokenRow>(alloc, rest)?;
        let (letters, rest) = owned_list_at::<Letter, LetterRow>(alloc, rest)?;
        let record = MailRec {
            session,
            tokens,
            letters,
        };
        Ok((record, rest))
    }

    fn laws() {}
}
