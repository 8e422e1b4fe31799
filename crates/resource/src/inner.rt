//! The fields of a resource in memory, and the steps of its calls.

ghost use Rattle.std.specs.Prelude.{◌≡◌, [], false, IfOk, None};
ghost use Rattle.std.specs.Option.{unwrap_or};
ghost use Rattle.resource.specs.Stored.{after_stored};

use crate::asked::passing_cut;
use crate::checks::check_tables;
use crate::making::{Made, make_change};
use crate::mode::{Mode, Side, first_of, other_of};
use crate::resource::{AttachFault, ChangeFault, ResFault, Vote};
use crate::stored::{StoredDelta, StoredTable, Tables};
use crate::tables::{asked_rows, find_def};
use std::alloc::Global;
use vdb_base::{Calls, Failed, NoMemory, Nums, Rows};
use vdb_model::{Caps, Delta, SourceQuery, TableDefs, Xid};

#[derive(Drop)]
pub struct Inner {
    pub caps: Caps,
    pub calls: Calls,
    pub defs: Option<TableDefs>,
    pub asked: Vec<SourceQuery>,
    pub mode: Mode,
    pub reserved: bool,
    pub kept: Tables,
    pub deltas: Vec<StoredDelta>,
    /// The tables after the deltas; they are the committed ones where this isn't there.
    pub work: Option<Tables>,
    ghost worked: { unwrap_or work kept ≡ after_stored kept deltas.items },
}

impl Inner {
    ghost use Rattle.vdb_base.specs.Calls.{uncalled};
    ghost use Rattle.resource.specs.declared.mode.Mode.TheVariants.{Idle};
    ghost use Rattle.resource.specs.declared.mode.Side.TheVariants.{Plain};
    ghost use Rattle.resource.specs.Checked as checked;
    ghost use Rattle.resource.specs.Fields.{fields_of, left_in, MakesChange, TakesIn};
    ghost use Rattle.resource.specs.Steps.{IsCounted, Steps, AttachesTo, QueriesTo, ChangesTo, PreparesTo, RecoversTo, ReopensTo, starting, ending, unreserved};
    ghost use Rattle.vdb_model.specs.Defs.{def_of};
    ghost use Rattle.resource.specs.Holding.{taking, detaching, stopping, defs_held};
    ghost use Rattle.resource.specs.Making.{MakesOf};
    ghost use Rattle.resource.specs.Stored.{after_one};

    pub fn new(alloc: Global, kept: Tables, caps: Caps, fails: Nums) -> Inner
        ensures { fields_of result ≡ record { caps = caps; calls = uncalled fails; defs = None; asked = []; mode = Idle; reserved = false; kept = kept; deltas = [] } }
    {
        Inner {
            caps,
            calls: Calls::new(fails),
            defs: None,
            asked: Vec::new(alloc),
            mode: Mode::Idle,
            reserved: false,
            kept,
            deltas: Vec::new(alloc),
            work: None,
        }
    }

    /// Counts a call, and fails where it is listed.
    fn begin(&mut self) -> Result<(), Failed>
        ensures { IsCounted (fields_of self.old) (fields_of self.new) result }
    {
        if self.calls.begin() {
            return Err(self.calls.fail());
        }
        Ok(())
    }

    /// Counts a call; where it is listed it fails, and the store has the side that it had, or the other.
    fn begin_or_lose(&mut self, other: Side) -> Result<(), Failed>
        ensures { Steps (λ h. h) other (fields_of self.old) (fields_of self.new) result }
    {
        match self.begin() {
            Ok(()) => Ok(()),
            Err(failed) => {
                self.mode = Mode::Lost(first_of(self.mode), other);
                Err(failed)
            }
        }
    }

    /// The store has this side from now on.
    fn take_side(&mut self, side: Side)
        ensures { fields_of self.new ≡ taking side (fields_of self.old) }
    {
        match side {
            Side::Plain => {
                self.deltas.clear();
                self.work = None;
                self.mode = Mode::Idle;
            }
            Side::Branched(x) => {
                self.mode = Mode::Prepared(x);
            }
            Side::Done => {
                self.keep_work();
                self.mode = Mode::Idle;
            }
        }
    }

    fn keep_work(&mut self)
        ensures { fields_of self.new ≡ record (fields_of self.old) { kept = after_stored self.old.kept self.old.deltas.items; deltas = [] } }
    {
        match self.work.take() {
            Some(work) => self.kept = work,
            None => {}
        }
        self.deltas.clear();
    }

    /// Checks the tables under the definitions, and those that a prepared branch would leave.
    fn check(&self, alloc: Global, defs: &TableDefs) -> Result<(), AttachFault>
        ensures { checked.IsCheckAnswer (checked.stored_fault defs.now self.now.kept (left_in self.now.mode self.now.kept self.now.deltas.items)) result }
    {
        let none = None;
        let left = match self.mode {
            Mode::Prepared(_) => &self.work,
            _ => &none,
        };
        check_tables(alloc, defs.as_slice(), self.kept.as_slice(), left)
    }

    fn seen(&self) -> &[StoredTable]
        ensures { result.now ≡ after_stored self.now.kept self.now.deltas.items }
    {
        match &self.work {
            Some(work) => work.as_slice(),
            None => self.kept.as_slice(),
        }
    }

    fn answer(&self, alloc: Global, q: &SourceQuery) -> Result<Rows, NoMemory>
        ensures { IfOk result (λ rows. rows ≡ checked.passing_cut q.now.filter q.now.columns (checked.rows_asked (after_stored self.now.kept self.now.deltas.items) self.now.defs q.now.tables)) }
    {
        let rows = asked_rows(self.seen(), &self.defs, &q.tables);
        passing_cut(alloc, q.filter.as_slice(), q.columns.as_slice(), rows)
    }

    fn make(&self, alloc: Global, delta: &Delta) -> Result<Option<Made>, NoMemory>
        ensures { MakesOf (def_of (defs_held (fields_of self.now)) delta.now.table) delta.now (after_stored self.now.kept self.now.deltas.items) result }
    {
        let Some(defs) = &self.defs else {
            return Err(NoMemory);
        };
        match find_def(defs.as_slice(), delta.table) {
            Some(def) => make_change(alloc, self.seen(), def, delta),
            None => Err(NoMemory),
        }
    }

    /// Takes a delta of the branch, where no primary key would stand twice then.
    fn change_table(&mut self, alloc: Global, delta: &Delta) -> Result<bool, NoMemory>
        ensures { MakesChange delta.now (fields_of self.old) (fields_of self.new) result }
    {
        match self.make(alloc, delta) {
            Ok(Some(made)) => self.take_in(made),
            Ok(None) => Ok(false),
            Err(wanting) => Err(wanting),
        }
    }

    fn take_in(&mut self, made: Made) -> Result<bool, NoMemory>
        requires { made.tables ≡ after_one (after_stored self.old.kept self.old.deltas.items) made.delta }
        ensures { TakesIn made.delta (fields_of self.old) (fields_of self.new) result }
    {
        let Made { delta, tables } = made;
        match self.deltas.push(delta) {
            Ok(()) => {
                self.work = Some(tables);
                Ok(true)
            }
            Err(_) => Err(NoMemory),
        }
    }

    /// Reads the tables under the definitions; those of before are gone, whatever it answers.
    pub fn attach(&mut self, alloc: Global, defs: &TableDefs) -> Result<(), AttachFault>
        ensures { AttachesTo defs.now (detaching (fields_of self.old)) (fields_of self.new) result }
    {
        self.defs = None;
        self.reserved = false;
        match self.begin() {
            Ok(()) => {}
            Err(_) => return Err(AttachFault::Failed),
        }
        match self.check(alloc, defs) {
            Ok(()) => {}
            Err(fault) => return Err(fault),
        }
        let Ok(defs) = defs.copy(alloc) else {
            return Err(AttachFault::Memory);
        };
        self.take_side(first_of(self.mode));
        self.defs = Some(defs);
        Ok(())
    }

    pub fn query(&mut self, alloc: Global, q: &SourceQuery) -> Result<Rows, ResFault>
        ensures { QueriesTo q.now (fields_of self.old) (fields_of self.new) result }
    {
        match self.begin() {
            Ok(()) => {}
            Err(_) => return Err(ResFault::Failed),
        }
        let Ok(rows) = self.answer(alloc, q) else {
            return Err(ResFault::Memory);
        };
        let Ok(asked) = q.copy(alloc) else {
            return Err(ResFault::Memory);
        };
        if self.asked.push(asked).is_err() {
            return Err(ResFault::Memory);
        }
        Ok(rows)
    }

    pub fn start(&mut self, x: Xid) -> Result<(), Failed>
        ensures { Steps (starting x) Plain (fields_of self.old) (fields_of self.new) result }
    {
        match self.begin_or_lose(Side::Plain) {
            Ok(()) => {}
            Err(failed) => return Err(failed),
        }
        self.mode = Mode::Active(x);
        Ok(())
    }

    pub fn change(&mut self, alloc: Global, delta: &Delta) -> Result<(), ChangeFault>
        ensures { ChangesTo delta.now (fields_of self.old) (fields_of self.new) result }
    {
        match self.begin_or_lose(Side::Plain) {
            Ok(()) => {}
            Err(_) => return Err(ChangeFault::Failed),
        }
        match self.change_table(alloc, delta) {
            Ok(true) => Ok(()),
            Ok(false) => Err(ChangeFault::DuplicateKey { table: delta.table }),
            Err(_) => Err(ChangeFault::Memory),
        }
    }

    pub fn end(&mut self, x: Xid) -> Result<(), Failed>
        ensures { Steps (ending x) Plain (fields_of self.old) (fields_of self.new) result }
    {
        match self.begin_or_lose(Side::Plain) {
            Ok(()) => {}
            Err(failed) => return Err(failed),
        }
        self.mode = Mode::Ended(x);
        Ok(())
    }

    pub fn prepare(&mut self, x: Xid) -> Result<Vote, ResFault>
        ensures { PreparesTo x (unreserved (fields_of self.old)) (fields_of self.new) result }
    {
        self.reserved = false;
        match self.begin_or_lose(Side::Branched(x)) {
            Ok(()) => {}
            Err(_) => return Err(ResFault::Failed),
        }
        if self.deltas.is_empty() {
            self.take_side(Side::Plain);
            return Ok(Vote::ReadOnly);
        }
        self.take_side(Side::Branched(x));
        Ok(Vote::Ready)
    }

    /// Ends the branch: the store has this side then, and if the call fails, perhaps.
    pub fn finish(&mut self, side: Side) -> Result<(), Failed>
        ensures { Steps (taking side) side (unreserved (fields_of self.old)) (fields_of self.new) result }
    {
        self.reserved = false;
        match self.begin_or_lose(side) {
            Ok(()) => {}
            Err(failed) => return Err(failed),
        }
        self.take_side(side);
        Ok(())
    }

    pub fn recover(&mut self) -> Result<Option<Xid>, Failed>
        ensures { RecoversTo (fields_of self.old) (fields_of self.new) result }
    {
        match self.begin() {
            Ok(()) => {}
            Err(failed) => return Err(failed),
        }
        match self.mode {
            Mode::Prepared(x) => Ok(Some(x)),
            _ => Ok(None),
        }
    }

    pub fn reopen(&mut self) -> Result<(), ResFault>
        ensures { ReopensTo (unreserved (fields_of self.old)) (fields_of self.new) result }
    {
        self.reserved = false;
        match self.begin_or_lose(other_of(self.mode)) {
            Ok(()) => {}
            Err(_) => return Err(ResFault::Failed),
        }
        self.take_side(first_of(self.mode));
        Ok(())
    }

    /// The store that a stop leaves: that of the first side for image 0, and else of the other.
    pub fn stop(&mut self, image: u32)
        ensures { fields_of self.new ≡ stopping image (fields_of self.old) }
    {
        let side = if image == 0 {
            first_of(self.mode)
        } else {
            other_of(self.mode)
        };
        self.take_side(side);
        self.defs = None;
        self.asked.clear();
        self.reserved = false;
    }
}
