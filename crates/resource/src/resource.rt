//! What the engine asks of a store, and what a store promises.

ghost use Rattle.std.specs.Prelude.{◌≡◌, ℕ, List, true, is_some, IfOk, IfSome, OnOk};

use std::alloc::Global;
use vdb_base::{Failed, NoMemory, Rows};
use vdb_model::{Caps, Delta, SourceQuery, TableDefs, Xid};

/// Where a resource stands between its calls.
#[derive(Clone, Copy, Debug, PartialEq, Eq)]
pub enum ResState {
    /// Without a branch.
    Idle,
    /// A branch takes changes, and queries see them.
    Active(Xid),
    /// The branch takes no more changes, and isn't prepared.
    Ended(Xid),
    /// The branch outlives a stop, and waits for its commit or rollback.
    Prepared(Xid),
    /// A call failed: what the store holds is known only after a reopening.
    Lost,
}

/// Why an attach is refused.
#[derive(Clone, Copy, Debug, PartialEq, Eq)]
pub enum AttachFault {
    /// A stored cell that its column doesn't take. The table is its number plus 1; row and column count from 1.
    BadCell { table: u64, row: u64, col: u64 },
    /// A table whose rows have another length than its columns or repeat its primary key, by its number plus 1, or the
    /// whole store, as 0.
    BadStore { table: u64 },
    /// The count of faults rose.
    Failed,
    Memory,
}

/// Why a change isn't made.
#[derive(Clone, Copy, Debug, PartialEq, Eq)]
pub enum ChangeFault {
    /// The primary key of the table would stand twice. The table is its number.
    DuplicateKey { table: u32 },
    /// The branch would need more bytes of the resource's log than are left.
    LogFull { needed: u64, left: u64 },
    /// The count of faults rose.
    Failed,
    Memory,
}

/// Why a resource didn't do what it was asked.
#[derive(Clone, Copy, Debug, PartialEq, Eq)]
pub enum ResFault {
    /// The count of faults rose.
    Failed,
    Memory,
}

/// What a resource answers to the question whether its branch can be committed.
#[derive(Clone, Copy, Debug, PartialEq, Eq)]
pub enum Vote {
    /// It can, and also after a stop.
    Ready,
    /// Nothing was changed, and the branch is gone.
    ReadOnly,
}

/// A store of tables that can be asked queries, and that takes part in a commit of several.
///
/// It is attached to definitions of tables first; after an attach that was refused nothing but another attach, `caps` and
/// `state` may be called. A branch is started, changed, ended and prepared, and then committed or rolled back; the call
/// names its transaction. After a call other than `attach`, `query` and `recover` failed, the resource is lost: its store
/// holds one of the images, which the next `reopen` that is Ok reads.
///
/// Contents are told where the resource can tell them; what holds of the rest is said of every resource. The images say
/// what a stop would leave. A call that answers Failed has counted a fault. What takes memory is passed an allocator; the
/// other calls take none.
///
/// ```
/// store.attach(alloc, &defs)?;
/// store.start(x)?;
/// store.change(alloc, &delta)?;
/// store.end(x)?;
/// if store.prepare(alloc, x)? == Vote::Ready {
///     store.commit(x, false)?;
/// }
/// ```
pub trait Resource: Send + Drop {
    ghost use Rattle.std.specs.Prelude.{IsSome};
    ghost use Rattle.vdb_model.specs.declared.source.Delta.{Delta};
    ghost use Rattle.vdb_model.specs.declared.table.TableDef.{TableDef};
    ghost use Rattle.resource.specs.declared.resource.ResState.TheVariants as state;
    ghost use Rattle.resource.specs.Reading.{IsAttachAnswer};
    ghost use Rattle.resource.specs.Told.{Told, IsWorld, Lowers, defs_in, is_settled};
    ghost use Rattle.resource.specs.Images.{Image, Same, Fewer};
    ghost use Rattle.resource.specs.Needs.{IsIn, IsAtHand, MayStart, MayCommit, HasBranch, MayReserve, MayAttach};
    ghost use Rattle.resource.specs.Asks.{Allows, FitRows, AnswersQuery};
    ghost use Rattle.resource.specs.Changing.{MayChange, IsChangeAnswer};
    ghost use Rattle.resource.specs.Leaves.{Attaches, Queries, Moves, Changes, Prepares, PrepareStops, Reserves, Finishes, CommitStops, RollbackStops, Recovers, Reopens, unasked, committed, reverted};

    ghost told: { Self → Told };

    /// What a stop may leave of the store.
    ghost images: { Self → Image → Type 0 };

    /// The bytes that a branch of these deltas needs of the log, where the resource keeps one.
    ghost needs: { List TableDef → List Delta → ℕ };

    /// What it can do. It may be asked at any time.
    fn caps(&self) -> Caps
        ensures { result ≡ (told self.now).caps };

    /// Where it stands between its calls. It may be asked at any time.
    fn state(&self) -> ResState
        ensures { result ≡ (told self.now).state };

    /// Takes the definitions and reads the store. A branch that isn't prepared is gone then.
    ///
    /// The first fault, in the order of tables, rows and columns, refuses it; a table's form is tested before its cells,
    /// and with a prepared branch each table as it is kept and then as the branch would leave it. After a refusal, whatever
    /// its cause, it has no definitions.
    fn attach(&mut self, alloc: Global, defs: &TableDefs) -> Result<(), AttachFault>
        requires { MayAttach defs.now (told self.old) }
        ensures answer { IfSome (told self.old).reads (λ reads. IsAttachAnswer (reads defs.now) result) }
        ensures leaves { Attaches defs.now (told self.old) (told self.new) (images self.new) result }
        ensures settled { OnOk result (is_settled (told self.new).state ≡ true) }
        ensures spare { is_some (told self.new).spare ≡ is_some (told self.old).spare }
        ensures stops { Fewer (images self.old) (images self.new) };

    /// Forgets which queries it was asked.
    fn clear_asked(&mut self)
        ensures leaves { told self.new ≡ unasked (told self.old) }
        ensures stops { Same (images self.old) (images self.new) };

    /// The rows of a query, in its order where it has one. A branch that takes changes is seen. A refusal, also `Failed`,
    /// changes nothing but the count of faults.
    fn query(&mut self, alloc: Global, q: &SourceQuery) -> Result<Rows, ResFault>
        requires { Allows (told self.old) q.now }
        ensures answer { IfOk result (λ rows. AnswersQuery (told self.old) q.now rows) }
        ensures fit { IfOk result (λ rows. FitRows (told self.old) q.now rows) }
        ensures world { OnOk result (IsWorld (told self.old)) }
        ensures leaves { Queries q.now (told self.old) (told self.new) result }
        ensures stops { Same (images self.old) (images self.new) };

    /// Begins a branch. Where it fails the resource is lost.
    fn start(&mut self, x: Xid) -> Result<(), Failed>
        requires { MayStart (told self.old) }
        ensures leaves { Moves (state.Active x) (told self.old) (told self.new) (images self.new) result }
        ensures stops { Same (images self.old) (images self.new) };

    /// Changes a table, as the branch sees it: the removed rows go once each, and the added ones come.
    ///
    /// The primary key is tested first, and then the room in the log. After `Failed` the resource is lost, and after every
    /// other refusal the branch is as before and can go on.
    fn change(&mut self, alloc: Global, delta: &Delta) -> Result<(), ChangeFault>
        requires { MayChange (told self.old) delta.now }
        ensures answer { IsChangeAnswer needs (told self.old) delta.now result }
        ensures world { OnOk result (IsWorld (told self.new)) }
        ensures leaves { Changes delta.now (told self.old) (told self.new) (images self.new) result }
        ensures stops { Same (images self.old) (images self.new) };

    /// Ends the branch's changes. Where it fails the resource is lost.
    fn end(&mut self, x: Xid) -> Result<(), Failed>
        requires { IsIn (state.Active x) (told self.old) }
        ensures leaves { Moves (state.Ended x) (told self.old) (told self.new) (images self.new) result }
        ensures stops { Same (images self.old) (images self.new) };

    /// Makes the branch outlive a stop, or ends it where nothing was changed.
    ///
    /// The memory that it and its commit need is taken first of all, so after `Memory` the branch is ended as before. After
    /// `Failed` the resource is lost, and its store has the prepared branch or not.
    fn prepare(&mut self, alloc: Global, x: Xid) -> Result<Vote, ResFault>
        requires { IsIn (state.Ended x) (told self.old) }
        ensures leaves { Prepares x (told self.old) (told self.new) (images self.new) result }
        ensures spare { Lowers (told self.old).spare (told self.new).spare }
        ensures stops { PrepareStops x (told self.old) (images self.old) (images self.new) result };

    /// Takes the memory that a commit in one phase will need. It is kept until the next prepare, commit, rollback, attach or
    /// reopening, whatever that answers.
    fn reserve_one_phase(&mut self, alloc: Global) -> Result<(), NoMemory>
        requires { MayReserve (told self.old) }
        ensures leaves { Reserves (told self.old) (told self.new) result }
        ensures stops { Same (images self.old) (images self.new) };

    /// Commits the prepared branch, or in one phase the ended one. After `Failed` the resource is lost, and its store is as
    /// before or has the changes.
    fn commit(&mut self, x: Xid, one_phase: bool) -> Result<(), Failed>
        requires { MayCommit x one_phase (told self.old) }
        ensures leaves { Finishes (committed (defs_in (told self.old))) (told self.old) (told self.new) (images self.new) result }
        ensures spare { Lowers (told self.old).spare (told self.new).spare }
        ensures stops { CommitStops (told self.old) (images self.old) (images self.new) result };

    /// Drops the branch. After `Failed` the resource is lost, and its store may still have a branch that was prepared.
    fn rollback(&mut self, x: Xid) -> Result<(), Failed>
        requires { HasBranch x (told self.old) }
        ensures leaves { Finishes reverted (told self.old) (told self.new) (images self.new) result }
        ensures spare { Lowers (told self.old).spare (told self.new).spare }
        ensures stops { RollbackStops (told self.old) (images self.old) (images self.new) result };

    /// The transaction of the prepared branch, or none. A failure changes nothing but the count of faults.
    fn recover(&mut self) -> Result<Option<Xid>, Failed>
        requires { IsAtHand (told self.old) }
        ensures leaves { Recovers (told self.old) (told self.new) result }
        ensures stops { Same (images self.old) (images self.new) };

    /// Reads the store again, also that of a lost resource. A branch that isn't prepared is gone. A store that no longer
    /// reads as one is a fault, and after `Failed` the resource is lost.
    fn reopen(&mut self, alloc: Global) -> Result<(), ResFault>
        requires { IsSome (told self.old).defs }
        ensures leaves { Reopens (told self.old) (told self.new) (images self.new) result }
        ensures settled { OnOk result (is_settled (told self.new).state ≡ true) }
        ensures spare { is_some (told self.new).spare ≡ is_some (told self.old).spare }
        ensures stops { Fewer (images self.old) (images self.new) };
}
