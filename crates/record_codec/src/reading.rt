//! The fields of records in place: what each function answers is what `unpack` answers there. None takes memory.
ghost use Rattle.std.specs.Prelude.{◌≡◌, ◌&&◌, ℕ, List, [], ◌∷◌, true, not, nat_lt, IfOk, IfErr, IsTrue};
ghost use Rattle.std.specs.List.{list_all};
ghost use Rattle.sid_core.specs.Values.{is_state as is_state_number};
ghost use Rattle.record_codec.specs.declared.fault.Unpack.TheVariants.{BadField};
ghost use Rattle.record_codec.specs.Codec.{raw, number as number_codec, read_run};
ghost use Rattle.record_codec.specs.Fields.{within, is_moment, is_printable as is_printable_number, is_text_length, lowered, u32_in, u64_in, zero_unless, truth, truth_in, mode, state, state_in, sid, open_id, text};
ghost use Rattle.record_codec.specs.LeaseRec.{needed, expires};
ghost use Rattle.record_codec.specs.Reads.{Gives};

use crate::fault::Unpack;
use byteorder::{ByteOrder, LittleEndian};
use sid_core::{LeaseState, Mode, OpenId, Sid};

/// What was read of a field lies in its set: the one place where a value that doesn't becomes a fault.
#[inline(always)]
pub(crate) fn in_set(is_in: bool, field: u32) -> Result<(), Unpack>
    ensures inside { IfOk result (λ _. IsTrue is_in) }
    ensures outside { IfErr result (λ e. IsTrue (not is_in) × (e ≡ BadField field)) }
{
    if !is_in {
        return Err(Unpack::BadField(field));
    }
    Ok(())
}

/// A number of one byte.
#[tactic(auto, unfolding(crate::specs::Codec::raw))]
pub fn u8_at(bytes: &[u8]) -> Result<(u8, &[u8]), Unpack>
    ensures { Gives (λ x. (x.0, x.1.now)) result (raw 1 bytes.now) }
{
    match bytes {
        [] => Err(Unpack::Short),
        [number, rest @ ..] => Ok((*number, rest)),
    }
}

/// A number of two bytes, the lowest first.
#[tactic(auto, unfolding(crate::specs::Codec::raw))]
pub fn u16_at(bytes: &[u8]) -> Result<(u16, &[u8]), Unpack>
    ensures { Gives (λ x. (x.0, x.1.now)) result (raw 2 bytes.now) }
{
    if bytes.len() < 2 {
        return Err(Unpack::Short);
    }
    let number = LittleEndian::read_u16(bytes);
    Ok((number, &bytes[2..]))
}

/// A number of four bytes, the lowest first.
#[tactic(auto, unfolding(crate::specs::Codec::raw))]
pub fn u32_at(bytes: &[u8]) -> Result<(u32, &[u8]), Unpack>
    ensures { Gives (λ x. (x.0, x.1.now)) result (raw 4 bytes.now) }
{
    if bytes.len() < 4 {
        return Err(Unpack::Short);
    }
    let number = LittleEndian::read_u32(bytes);
    Ok((number, &bytes[4..]))
}

/// A number of eight bytes, the lowest first.
#[tactic(auto, unfolding(crate::specs::Codec::raw))]
pub fn u64_at(bytes: &[u8]) -> Result<(u64, &[u8]), Unpack>
    ensures { Gives (λ x. (x.0, x.1.now)) result (raw 8 bytes.now) }
{
    if bytes.len() < 8 {
        return Err(Unpack::Short);
    }
    let number = LittleEndian::read_u64(bytes);
    Ok((number, &bytes[8..]))
}

/// 0 is false and 1 is true.
pub fn truth_at(bytes: &[u8], field: u32) -> Result<(bool, &[u8]), Unpack>
    ensures { Gives (λ x. (x.0, x.1.now)) result ((truth field).read bytes.now) }
{
    let (number, rest) = u8_at(bytes)?;
    in_set(number < 2, field)?;
    Ok((number == 1, rest))
}

/// 0 is shared and 1 is exclusive.
pub fn mode_at(bytes: &[u8], field: u32) -> Result<(Mode, &[u8]), Unpack>
    ensures { Gives (λ x. (x.0, x.1.now)) result ((mode field).read bytes.now) }
{
    let (number, rest) = u8_at(bytes)?;
    in_set(number < 2, field)?;
    if number == 0 {
        Ok((Mode::Shared, rest))
    } else {
        Ok((Mode::Exclusive, rest))
    }
}

/// A pid and the number of a session.
pub fn sid_at(bytes: &[u8]) -> Result<(Sid, &[u8]), Unpack>
    ensures { Gives (λ x. (x.0, x.1.now)) result ((sid 0 0).read bytes.now) }
{
    let (pid, rest) = u32_at(bytes)?;
    let (session, rest) = u32_at(rest)?;
    Ok((Sid { pid, session }, rest))
}

/// A pid and the number of a call.
pub fn open_id_at(bytes: &[u8]) -> Result<(OpenId, &[u8]), Unpack>
    ensures { Gives (λ x. (x.0, x.1.now)) result ((open_id 0 0).read bytes.now) }
{
    let (pid, rest) = u32_at(bytes)?;
    let (call, rest) = u32_at(rest)?;
    Ok((OpenId { pid, call }, rest))
}

fn is_within(number: u32, low: u32, high: u32) -> bool
    ensures { result ≡ within low high number }
{
    low <= number && number <= high
}

/// A number from `low` to `high`.
pub fn u32_within(bytes: &[u8], field: u32, low: u32, high: u32) -> Result<(u32, &[u8]), Unpack>
    ensures { Gives (λ x. (x.0, x.1.now)) result ((u32_in field (within low high)).read bytes.now) }
{
    let (number, rest) = u32_at(bytes)?;
    in_set(is_within(number, low, high), field)?;
    Ok((number, rest))
}

/// A moment, to 9,999,999,999 seconds.
pub fn moment_at(bytes: &[u8], field: u32) -> Result<(u64, &[u8]), Unpack>
    ensures { Gives (λ x. (x.0, x.1.now)) result ((u64_in field is_moment).read bytes.now) }
{
    let (number, rest) = u64_at(bytes)?;
    in_set(number <= 9_999_999_999, field)?;
    Ok((number, rest))
}

fn is_zero_unless(condition: bool, number: u64) -> bool
    ensures { result ≡ zero_unless condition number }
{
    condition || number == 0
}

/// A number that is 0 unless the condition holds.
pub fn u32_or_zero_at(bytes: &[u8], field: u32, condition: bool) -> Result<(u32, &[u8]), Unpack>
    ensures { Gives (λ x. (x.0, x.1.now)) result ((u32_in field (zero_unless condition)).read bytes.now) }
{
    let (number, rest) = u32_at(bytes)?;
    in_set(is_zero_unless(condition, u64::from(number)), field)?;
    Ok((number, rest))
}

/// A number that is 0 unless the condition holds.
pub fn u64_or_zero_at(bytes: &[u8], field: u32, condition: bool) -> Result<(u64, &[u8]), Unpack>
    ensures { Gives (λ x. (x.0, x.1.now)) result ((u64_in field (zero_unless condition)).read bytes.now) }
{
    let (number, rest) = u64_at(bytes)?;
    in_set(is_zero_unless(condition, number), field)?;
    Ok((number, rest))
}

fn is_truth_unless(condition: bool, number: u8) -> bool
    ensures { result ≡ (nat_lt number 2 && zero_unless condition number) }
{
    number < 2 && (condition || number == 0)
}

/// A truth value that is false unless the condition holds.
pub fn truth_or_zero_at(bytes: &[u8], field: u32, condition: bool) -> Result<(bool, &[u8]), Unpack>
    ensures { Gives (λ x. (x.0, x.1.now)) result ((truth_in field (zero_unless condition)).read bytes.now) }
{
    let (number, rest) = u8_at(bytes)?;
    in_set(is_truth_unless(condition, number), field)?;
    Ok((number == 1, rest))
}

fn is_state(state: u8) -> bool
    ensures { result ≡ is_state_number state }
{
    state == 0 || state == 1 || state == 3 || state == 5 || state == 7
}

/// A state of a lease.
pub fn state_at(bytes: &[u8], field: u32) -> Result<(LeaseState, &[u8]), Unpack>
    ensures { Gives (λ x. (x.0, x.1.now)) result ((state field).read bytes.now) }
{
    let (number, rest) = u8_at(bytes)?;
    in_set(is_state(number), field)?;
    Ok((LeaseState(number), rest))
}

fn is_state_unless(condition: bool, number: u8) -> bool
    ensures { result ≡ (is_state_number number && zero_unless condition number) }
{
    is_state(number) && (condition || number == 0)
}

/// A state that is 0 unless the condition holds.
pub fn state_or_zero_at(
    bytes: &[u8],
    field: u32,
    condition: bool,
) -> Result<(LeaseState, &[u8]), Unpack>
    ensures { Gives (λ x. (x.0, x.1.now)) result ((state_in field (zero_unless condition)).read bytes.now) }
{
    let (number, rest) = u8_at(bytes)?;
    in_set(is_state_unless(condition, number), field)?;
    Ok((LeaseState(number), rest))
}

fn is_lowered(number: u8, breaking: bool, held: LeaseState) -> bool
    ensures { result ≡ (is_state_number number && lowered breaking held number) }
{
    if !is_state(number) {
        return false;
    }
    if breaking {
        number & held.0 == number && number != held.0
    } else {
        number == 0
    }
}

/// What a break may lower a state to; 0 where there is no break.
pub fn lowered_at(
    bytes: &[u8],
    field: u32,
    breaking: bool,
    held: LeaseState,
) -> Result<(LeaseState, &[u8]), Unpack>
    ensures { Gives (λ x. (x.0, x.1.now)) result ((state_in field (lowered breaking held)).read bytes.now) }
{
    let (number, rest) = u8_at(bytes)?;
    in_set(is_lowered(number, breaking, held), field)?;
    Ok((LeaseState(number), rest))
}

fn is_needed(number: u8, breaking: bool, asked: LeaseState) -> bool
    ensures { result ≡ (is_state_number number && needed breaking asked number) }
{
    if !is_state(number) {
        return false;
    }
    if breaking {
        number & asked.0 == number
    } else {
        number == 0
    }
}

/// What a break needs in the end; 0 where there is no break.
pub fn needed_at(
    bytes: &[u8],
    field: u32,
    breaking: bool,
    asked: LeaseState,
) -> Result<(LeaseState, &[u8]), Unpack>
    ensures { Gives (λ x. (x.0, x.1.now)) result ((state_in field (needed breaking asked)).read bytes.now) }
{
    let (number, rest) = u8_at(bytes)?;
    in_set(is_needed(number, breaking, asked), field)?;
    Ok((LeaseState(number), rest))
}

fn is_expiry(number: u64, breaking: bool) -> bool
    ensures { result ≡ expires breaking number }
{
    if breaking {
        35 <= number && number <= 10_000_000_034
    } else {
        number == 0
    }
}

/// The moment at which a break expires; 0 where there is no break.
pub fn expiry_at(bytes: &[u8], field: u32, breaking: bool) -> Result<(u64, &[u8]), Unpack>
    ensures { Gives (λ x. (x.0, x.1.now)) result ((u64_in field (expires breaking)).read bytes.now) }
{
    let (number, rest) = u64_at(bytes)?;
    in_set(is_expiry(number, breaking), field)?;
    Ok((number, rest))
}

fn is_printable(byte: u8) -> bool
    ensures { result ≡ is_printable_number byte }
{
    0x21 <= byte && byte <= 0x7E
}

// Four bytes at a time, which takes fewer instructions.
fn are_printable(bytes: &[u8]) -> bool
    ensures { result ≡ list_all is_printable_number bytes.now }
{
    let mut rest = bytes;
    'fours: while let [a, b, c, d, others @ ..] = rest {
        if !are_four_printable(*a, *b, *c, *d) {
            return false;
        }
        rest = others;
    }
    is_each_printable(rest)
}

fn is_each_printable(bytes: &[u8]) -> bool
    ensures { result ≡ list_all is_printable_number bytes.now }
{
    bytes.iter().all(|byte| is_printable(*byte))
}

fn are_four_printable(a: u8, b: u8, c: u8, d: u8) -> bool
    ensures { result ≡ list_all is_printable_number (a ∷ b ∷ c ∷ d ∷ []) }
{
    is_printable(a) & is_printable(b) & is_printable(c) & is_printable(d)
}

/// So many bytes, whatever they are.
#[tactic(auto, unfolding(crate::specs::Codec::read_run))]
pub fn run_at(bytes: &[u8], len: usize, field: u32) -> Result<(&[u8], &[u8]), Unpack>
    ensures { Gives (λ x. (x.0.now, x.1.now)) result (read_run len (λ run. true) (BadField field) bytes.now) }
{
    if bytes.len() < len {
        return Err(Unpack::Short);
    }
    Ok(bytes.split_at(len))
}

#[tactic(auto, unfolding(crate::specs::Codec::read_run))]
fn printable_at(bytes: &[u8], len: usize, field: u32) -> Result<(&[u8], &[u8]), Unpack>
    ensures { Gives (λ x. (x.0.now, x.1.now)) result (read_run len (list_all is_printable_number) (BadField field) bytes.now) }
{
    if bytes.len() < len {
        return Err(Unpack::Short);
    }
    let (front, rest) = bytes.split_at(len);
    in_set(are_printable(front), field)?;
    Ok((front, rest))
}

fn is_text_len(len: u16) -> bool
    ensures { result ≡ is_text_length len }
{
    1 <= len && len <= 255
}

fn text_length_at(bytes: &[u8], field: u32) -> Result<(u16, &[u8]), Unpack>
    ensures { Gives (λ x. (x.0, x.1.now)) result ((number_codec 2 is_text_length (BadField field)).read bytes.now) }
{
    let (len, rest) = u16_at(bytes)?;
    in_set(is_text_len(len), field)?;
    Ok((len, rest))
}

/// The bytes of a text: 1 to 255, printable and no space.
pub fn text_at(bytes: &[u8], field: u32) -> Result<(&[u8], &[u8]), Unpack>
    ensures { Gives (λ x. (x.0.now, x.1.now)) result ((text field).read bytes.now) }
{
    let (len, rest) = text_length_at(bytes, field)?;
    printable_at(rest, len as usize, field)
}
