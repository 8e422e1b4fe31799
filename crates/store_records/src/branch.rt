//! A branch as it is written: its deltas as they come, its record, and the record that ends it.

ghost use Rattle.std.specs.Prelude.{◌≡◌, ◌≤◌, ◌++◌, ◌∷◌, [], List, length, IfOk, OnOk, OnErr};
ghost use Rattle.resource.specs.declared.stored.StoredDelta.{StoredDelta};
ghost use Rattle.store_records.specs.Encoding.{Encodes};
ghost use Rattle.store_records.specs.Framing.{Frames, head, kind_in, record_of, ending_of, branch_size};

use crate::writing::put_delta;
use resource::StoredDelta;
use std::alloc::Global;
use vdb_base::NoMemory;
use vdb_model::Xid;

/// The bytes of a head, of a gate and of an ending.
const BESIDE: u64 = 48;

/// The most bytes of deltas that a record's length can count, beside its head.
const LONGEST: usize = 4_294_967_274;

/// The form in which a branch goes into the log.
#[derive(Clone, Copy, Debug, PartialEq, Eq)]
pub enum Form {
    /// To wait for its end.
    Prepared,
    /// Committed as it is written.
    OnePhase,
}

#[derive(Clone, Copy, Debug, PartialEq, Eq)]
pub enum Ending {
    Committed,
    RolledBack,
}

/// The deltas of a branch, as the log has them.
#[derive(Drop)]
pub struct Branch {
    count: u32,
    bytes: Vec<u8>,
    ghost short: { length bytes.items ≤ 4294967274 },
}

impl Branch {
    ghost use Rattle.store_records.specs.Branches.{Holds};

    pub fn new(alloc: Global) -> Branch
        ensures { Holds [] result }
    {
        Branch {
            count: 0,
            bytes: Vec::new(alloc),
        }
    }

    pub fn clear(&mut self)
        ensures { Holds [] self.new }
    {
        self.count = 0;
        self.bytes.clear();
    }

    /// Adds the bytes of a delta; where it is refused, nothing is added.
    #[tactic(auto, using(crate::proofs::Branches::holds_more))]
    pub fn add(&mut self, bytes: &[u8]) -> Result<(), NoMemory>
        ensures added { OnOk result ((deltas : List StoredDelta) → (delta : StoredDelta) → Holds deltas self.old → Encodes delta bytes.now → Holds (deltas ++ delta ∷ []) self.new) }
        ensures refused { OnErr result ((deltas : List StoredDelta) → Holds deltas self.old → Holds deltas self.new) }
    {
        if bytes.len() > LONGEST - self.bytes.len() {
            return Err(NoMemory);
        }
        let Some(count) = self.count.checked_add(1) else {
            return Err(NoMemory);
        };
        self.bytes.extend_from_slice(bytes)?;
        self.count = count;
        Ok(())
    }

    /// The bytes of the log that it would need with one more delta.
    #[tactic(auto, using(crate::proofs::Branches::branch_size_more))]
    pub fn size_with(&self, bytes: &[u8]) -> u64
        requires { length bytes.now ≤ 4294967274 }
        ensures { (deltas : List StoredDelta) → (delta : StoredDelta) → Holds deltas self.now → Encodes delta bytes.now → result ≡ branch_size (deltas ++ delta ∷ []) }
    {
        self.bytes.len() as u64 + bytes.len() as u64 + BESIDE
    }

    /// The bytes of the log that the branch needs for its record and its ending.
    #[tactic(auto, using(crate::proofs::Branches::branch_size_is))]
    pub fn size(&self) -> u64
        ensures { (deltas : List StoredDelta) → Holds deltas self.now → result ≡ branch_size deltas }
    {
        self.bytes.len() as u64 + BESIDE
    }

    /// The frame of its record.
    #[tactic(auto, using(crate::proofs::Branches::frame_is))]
    pub fn frame(&self, alloc: Global, form: Form, x: Xid) -> Result<Vec<u8>, NoMemory>
        ensures { (deltas : List StoredDelta) → Holds deltas self.now → IfOk result (λ frame. Frames (record_of form x deltas) frame.items) }
    {
        let len = self.bytes.len();
        let mut frame = Vec::with_capacity(alloc, len + 26)?;
        put_head(&mut frame, len as u32 + 21, kind_of(form), x, self.count)?;
        frame.extend_from_slice(self.bytes.as_slice())?;
        frame.push(0)?;
        Ok(frame)
    }
}

/// The bytes of a delta.
pub fn encoded(alloc: Global, delta: &StoredDelta) -> Result<Vec<u8>, NoMemory>
    ensures is { IfOk result (λ bytes. Encodes delta.now bytes.items) }
    ensures short { IfOk result (λ bytes. length bytes.items ≤ 4294967274) }
{
    let mut bytes = Vec::new(alloc);
    put_delta(&mut bytes, delta)?;
    if bytes.len() > LONGEST {
        return Err(NoMemory);
    }
    Ok(bytes)
}

/// What stands before the deltas in a branch's frame.
fn put_head(out: &mut Vec<u8>, size: u32, kind: u8, x: Xid, count: u32) -> Result<(), NoMemory>
    ensures { OnOk result (out.new.items ≡ out.old.items ++ head size kind x count) }
{
    out.extend_from_slice(&size.to_be_bytes())?;
    out.push(kind)?;
    out.extend_from_slice(&x.epoch.to_be_bytes())?;
    out.extend_from_slice(&x.seq.to_be_bytes())?;
    out.extend_from_slice(&count.to_be_bytes())?;
    Ok(())
}

fn kind_of(form: Form) -> u8
    ensures { result ≡ kind_in form }
{
    match form {
        Form::Prepared => 1,
        Form::OnePhase => 4,
    }
}

/// The frame of the record that ends a branch.
pub fn ending_frame(ending: Ending, x: Xid) -> [u8; 22]
    ensures { Frames (ending_of ending x) result }
{
    let kind = match ending {
        Ending::Committed => 2,
        Ending::RolledBack => 3,
    };
    let e = x.epoch.to_be_bytes();
    let s = x.seq.to_be_bytes();
    [
        0, 0, 0, 17, kind, e[0], e[1], e[2], e[3], e[4], e[5], e[6], e[7], s[0], s[1], s[2], s[3],
        s[4], s[5], s[6], s[7], 0,
    ]
}
