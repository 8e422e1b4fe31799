//! Reading a payload: exactly the record that its bytes are, or a refusal where they are none.

ghost use Rattle.std.specs.Prelude.{Option, Some, List, ℕ, IfOk};
ghost use Rattle.store_records.specs.declared.entry.Entry as written;
ghost use Rattle.store_records.specs.Payloads.{IsPayload};
ghost use Rattle.std.specs.Int.{w16, w32, w64, w128};
ghost use Rattle.store_records.specs.Fields as fields;
ghost use Rattle.store_records.specs.Reading as spec;
ghost use Rattle.store_records.specs.Reading.{Gives};

use crate::entry::{Entry, StoredDeltas};
use resource::StoredDelta;
use std::alloc::{AllocError, AllocFailed, Global};
use vdb_base::{NoMemory, Row, Rows, Seq, Text, Value};
use vdb_model::Xid;

/// Why a payload isn't read.
#[derive(Clone, Copy, Debug, PartialEq, Eq)]
pub enum ReadFault {
    /// It is no record's.
    Broken,
    Memory,
}

impl From<AllocError> for ReadFault {
    ghost use Rattle.std.specs.Prelude.{◌≡◌};
    ghost use Rattle.store_records.specs.declared.reading.ReadFault.TheVariants.{Memory};

    ghost from_gives = { λ _ e. e ≡ Memory };

    fn from(_error: AllocError) -> ReadFault {
        ReadFault::Memory
    }
}

impl<T: Drop> From<AllocFailed<T>> for ReadFault {
    ghost use Rattle.std.specs.Prelude.{◌≡◌};
    ghost use Rattle.store_records.specs.declared.reading.ReadFault.TheVariants.{Memory};

    ghost from_gives = { λ _ e. e ≡ Memory };

    fn from(_error: AllocFailed<T>) -> ReadFault {
        ReadFault::Memory
    }
}

impl From<NoMemory> for ReadFault {
    ghost use Rattle.std.specs.Prelude.{◌≡◌};
    ghost use Rattle.store_records.specs.declared.reading.ReadFault.TheVariants.{Memory};

    ghost from_gives = { λ _ e. e ≡ Memory };

    fn from(_error: NoMemory) -> ReadFault {
        ReadFault::Memory
    }
}

fn number_16(bytes: &[u8]) -> Result<(u16, &[u8]), ReadFault>
    ensures { Gives (λ x. (x.0, x.1.now)) result (fields.number_at w16 bytes.now) }
{
    if bytes.len() < 2 {
        return Err(ReadFault::Broken);
    }
    let (front, rest) = bytes.split_at(2);
    Ok((u16::from_be_bytes([front[0], front[1]]), rest))
}

fn number_32(bytes: &[u8]) -> Result<(u32, &[u8]), ReadFault>
    ensures { Gives (λ x. (x.0, x.1.now)) result (fields.number_at w32 bytes.now) }
{
    if bytes.len() < 4 {
        return Err(ReadFault::Broken);
    }
    let (front, rest) = bytes.split_at(4);
    let number = u32::from_be_bytes([front[0], front[1], front[2], front[3]]);
    Ok((number, rest))
}

fn number_64(bytes: &[u8]) -> Result<(u64, &[u8]), ReadFault>
    ensures { Gives (λ x. (x.0, x.1.now)) result (fields.number_at w64 bytes.now) }
{
    if bytes.len() < 8 {
        return Err(ReadFault::Broken);
    }
    let (front, rest) = bytes.split_at(8);
    let number = u64::from_be_bytes([
        front[0], front[1], front[2], front[3], front[4], front[5], front[6], front[7],
    ]);
    Ok((number, rest))
}

fn number_128(bytes: &[u8]) -> Result<(i128, &[u8]), ReadFault>
    ensures { Gives (λ x. (x.0, x.1.now)) result (fields.signed_at bytes.now) }
{
    if bytes.len() < 16 {
        return Err(ReadFault::Broken);
    }
    let (front, rest) = bytes.split_at(16);
    let number = i128::from_be_bytes([
        front[0], front[1], front[2], front[3], front[4], front[5], front[6], front[7], front[8],
        front[9], front[10], front[11], front[12], front[13], front[14], front[15],
    ]);
    Ok((number, rest))
}

/// The text that so many bytes in front are.
#[tactic(auto, using(crate::proofs::Rules::reading_rules))]
fn text_of(alloc: Global, len: usize, bytes: &[u8]) -> Result<(Text, &[u8]), ReadFault>
    ensures { Gives (λ x. (x.0, x.1.now)) result (fields.letters_at len bytes.now) }
{
    if bytes.len() < len {
        return Err(ReadFault::Broken);
    }
    let (front, rest) = bytes.split_at(len);
    match str::from_utf8(front) {
        Ok(text) => Ok((Text::from_str(alloc, text)?, rest)),
        Err(_) => Err(ReadFault::Broken),
    }
}

fn name_of(alloc: Global, bytes: &[u8]) -> Result<(Text, &[u8]), ReadFault>
    ensures { Gives (λ x. (x.0, x.1.now)) result (fields.text_at w16 bytes.now) }
{
    let (len, rest) = number_16(bytes)?;
    text_of(alloc, usize::from(len), rest)
}

fn string_of(alloc: Global, bytes: &[u8]) -> Result<(Text, &[u8]), ReadFault>
    ensures { Gives (λ x. (x.0, x.1.now)) result (fields.text_at w32 bytes.now) }
{
    let (len, rest) = number_32(bytes)?;
    text_of(alloc, len as usize, rest)
}

/// What can stand in front of bytes.
trait Field: Drop {
    ghost at: { List ℕ → Option (Self × List ℕ) };

    fn read(alloc: Global, bytes: &[u8]) -> Result<(Self, &[u8]), ReadFault>
        ensures { Gives (λ x. (x.0, x.1.now)) result (at bytes.now) };
}

impl Field for Value {
    ghost at = { spec.value_at };

    fn read(alloc: Global, bytes: &[u8]) -> Result<(Value, &[u8]), ReadFault> {
        value_of(alloc, bytes)
    }
}

impl Field for Row {
    ghost at = { spec.row_at };

    fn read(alloc: Global, bytes: &[u8]) -> Result<(Row, &[u8]), ReadFault> {
        let (count, rest) = number_16(bytes)?;
        each_of(alloc, u32::from(count), rest)
    }
}

impl Field for StoredDelta {
    ghost at = { spec.delta_at };

    fn read(alloc: Global, bytes: &[u8]) -> Result<(StoredDelta, &[u8]), ReadFault> {
        delta_of(alloc, bytes)
    }
}

#[tactic(auto, unfolding(crate::specs::Reading::value_at))]
fn value_of(alloc: Global, bytes: &[u8]) -> Result<(Value, &[u8]), ReadFault>
    ensures { Gives (λ x. (x.0, x.1.now)) result (spec.value_at bytes.now) }
{
    match bytes {
        [] => Err(ReadFault::Broken),
        [0, rest @ ..] => Ok((Value::Null, rest)),
        [1, rest @ ..] => Ok((Value::Bool(false), rest)),
        [2, rest @ ..] => Ok((Value::Bool(true), rest)),
        [3, rest @ ..] => {
            let (number, rest) = number_128(rest)?;
            Ok((Value::Num(number), rest))
        }
        [4, rest @ ..] => {
            let (text, rest) = string_of(alloc, rest)?;
            Ok((Value::Str(text), rest))
        }
        [_, ..] => Err(ReadFault::Broken),
    }
}

/// So many, one after the other.
fn each_of<T: Field>(alloc: Global, count: u32, bytes: &[u8]) -> Result<(Seq<T>, &[u8]), ReadFault>
    ensures { Gives (λ x. (x.0, x.1.now)) result (fields.each_at T.at count bytes.now) }
{
    let mut items = Vec::new(alloc);
    let mut rest = bytes;
    for _ in 0..count {
        let (item, after) = T::read(alloc, rest)?;
        items.push(item)?;
        rest = after;
    }
    Ok((Seq::from_vec(items), rest))
}

fn rows_of(alloc: Global, bytes: &[u8]) -> Result<(Rows, &[u8]), ReadFault>
    ensures { Gives (λ x. (x.0, x.1.now)) result (spec.rows_at bytes.now) }
{
    let (count, rest) = number_32(bytes)?;
    each_of(alloc, count, rest)
}

#[tactic(auto, unfolding(crate::specs::Reading::delta_at))]
fn delta_of(alloc: Global, bytes: &[u8]) -> Result<(StoredDelta, &[u8]), ReadFault>
    ensures { Gives (λ x. (x.0, x.1.now)) result (spec.delta_at bytes.now) }
{
    let (source, rest) = name_of(alloc, bytes)?;
    let (removed, rest) = rows_of(alloc, rest)?;
    let (added, rest) = rows_of(alloc, rest)?;
    let delta = StoredDelta {
        source,
        removed,
        added,
    };
    Ok((delta, rest))
}

fn deltas_of(alloc: Global, bytes: &[u8]) -> Result<(StoredDeltas, &[u8]), ReadFault>
    ensures { Gives (λ x. (x.0, x.1.now)) result (spec.deltas_at bytes.now) }
{
    let (count, rest) = number_32(bytes)?;
    each_of(alloc, count, rest)
}

#[tactic(auto, unfolding(crate::specs::Reading::xid_at))]
fn xid_of(bytes: &[u8]) -> Result<(Xid, &[u8]), ReadFault>
    ensures { Gives (λ x. (x.0, x.1.now)) result (spec.xid_at bytes.now) }
{
    let (epoch, rest) = number_64(bytes)?;
    let (seq, rest) = number_64(rest)?;
    Ok((Xid { epoch, seq }, rest))
}

/// A transaction with nothing behind it.
fn xid_alone(bytes: &[u8]) -> Result<Xid, ReadFault>
    ensures { Gives (λ x. x) result (fields.whole (spec.xid_at bytes.now)) }
{
    let (x, rest) = xid_of(bytes)?;
    if !rest.is_empty() {
        return Err(ReadFault::Broken);
    }
    Ok(x)
}

/// A transaction and its deltas, with nothing behind them.
#[tactic(auto, unfolding(crate::specs::Reading::branch_at))]
fn branch_alone(alloc: Global, bytes: &[u8]) -> Result<(Xid, StoredDeltas), ReadFault>
    ensures { Gives (λ x. x) result (fields.whole (spec.branch_at bytes.now)) }
{
    let (x, rest) = xid_of(bytes)?;
    let (deltas, rest) = deltas_of(alloc, rest)?;
    if !rest.is_empty() {
        return Err(ReadFault::Broken);
    }
    Ok((x, deltas))
}

#[tactic(auto, unfolding(crate::specs::Reading::entry_of))]
fn entry_of(alloc: Global, bytes: &[u8]) -> Result<Entry, ReadFault>
    ensures { Gives (λ e. e) result (spec.entry_of bytes.now) }
{
    match bytes {
        [] => Err(ReadFault::Broken),
        [1, rest @ ..] => {
            let (x, deltas) = branch_alone(alloc, rest)?;
            Ok(Entry::Prepared(x, deltas))
        }
        [2, rest @ ..] => Ok(Entry::Committed(xid_alone(rest)?)),
        [3, rest @ ..] => Ok(Entry::RolledBack(xid_alone(rest)?)),
        [4, rest @ ..] => {
            let (x, deltas) = branch_alone(alloc, rest)?;
            Ok(Entry::OnePhase(x, deltas))
        }
        [_, ..] => Err(ReadFault::Broken),
    }
}

/// The record of a payload: the one whose bytes these are. Every other payload is broken.
pub fn read_entry(alloc: Global, bytes: &[u8]) -> Result<Entry, ReadFault>
    ensures found { IfOk result (λ entry. IsPayload entry bytes.now) }
    ensures only { (entry : written.Entry) → IsPayload entry bytes.now → Gives (λ e. e) result (Some entry) }
    ensures exact { Gives (λ e. e) result (spec.entry_of bytes.now) }
{
    entry_of(alloc, bytes)
}
