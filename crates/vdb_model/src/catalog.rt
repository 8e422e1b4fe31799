//! The catalog: all that a deployment defines.

ghost use Rattle.std.specs.Prelude.{◌≡◌, [], ◌∷◌, ◌++◌, OnOk, OnErr};

use crate::rel::Rel;
use crate::source::Caps;
use crate::table::{Kind, TableDef, TableDefs};
use crate::typed::{TypedBlock, VarDefs};
use std::alloc::Global;
use std::marker::Model;
use vdb_base::{NoMemory, Seq, Text};

#[derive(Debug, Drop)]
pub struct ServerDef {
    pub name: Text,
    pub kind: Kind,
    pub caps: Caps,
}

pub type ServerDefs = Seq<ServerDef>;

/// A schema of a server's tables, or a virtual one of views and procedures.
#[derive(Debug, Drop)]
pub struct SchemaDef {
    pub name: Text,
    pub server: Option<u32>,
}

pub type SchemaDefs = Seq<SchemaDef>;

#[derive(Drop)]
pub struct ViewDef {
    pub name: Text,
    pub schema: Text,
    pub columns: VarDefs,
    pub rel: Rel,
    /// How many nodes its relation has with every view expanded, and how deep it is.
    pub nodes: u64,
    pub depth: u64,
    pub updatable: bool,
}

pub type ViewDefs = Seq<ViewDef>;

#[derive(Drop)]
pub struct ProcedureDef {
    pub name: Text,
    pub schema: Text,
    pub parameters: VarDefs,
    /// The columns of RETURNS TABLE.
    pub columns: Option<VarDefs>,
    pub block: TypedBlock,
    /// The longest chain of blocks that run one another from here on.
    pub chain: u32,
    /// The number of its item in the DDL.
    pub place: u32,
}

pub type ProcedureDefs = Seq<ProcedureDef>;

/// What a trigger stands in for.
#[derive(Clone, Copy, Debug, PartialEq, Eq)]
pub enum Event {
    Insert,
    Update,
    Delete,
}

#[derive(Drop)]
pub struct TriggerDef {
    pub view: u32,
    pub event: Event,
    pub block: TypedBlock,
    pub chain: u32,
    pub place: u32,
}

pub type TriggerDefs = Seq<TriggerDef>;

/// All that a deployment defines, each list in the order of the DDL. Contracts see it as the record of its lists, and it is
/// well formed at every moment.
#[derive(Drop)]
pub struct Catalog {
    servers: ServerDefs,
    schemas: SchemaDefs,
    tables: TableDefs,
    views: ViewDefs,
    procedures: ProcedureDefs,
    triggers: TriggerDefs,
}

impl Model for Catalog {
    ghost use Rattle.std.specs.Coded.{codes};
    ghost use Rattle.vdb_model.specs.Defined.{Defined};
    ghost use Rattle.vdb_model.specs.contracts.expr.Expr as expr;
    ghost use Rattle.vdb_model.specs.contracts.rel.Rel as rel;
    ghost use Rattle.vdb_model.specs.contracts.typed.TypedStmt as stmt;
    ghost use Rattle.vdb_model.specs.WellFormed.{IsWellFormed};

    ghost Value = { Defined };

    ghost coded = { Prim.hlevel (codes, expr.the_row.coded, rel.the_row.coded, stmt.the_row.coded) };

    ghost view = { λ c. record { servers = c.servers; schemas = c.schemas; tables = c.tables; views = c.views; procedures = c.procedures; triggers = c.triggers } };

    ghost invariant = { λ c. IsWellFormed (record { servers = c.servers; schemas = c.schemas; tables = c.tables; views = c.views; procedures = c.procedures; triggers = c.triggers }) };
}

impl Catalog {
    ghost use Rattle.vdb_model.specs.Defined.{Defined, nothing_defined};
    ghost use Rattle.vdb_model.specs.WellFormed.{IsWellFormed};

    /// A catalog that defines nothing.
    pub fn new(alloc: Global) -> Catalog
        ensures { result ≡ nothing_defined }
    {
        Catalog {
            servers: Seq::new(alloc),
            schemas: Seq::new(alloc),
            tables: Seq::new(alloc),
            views: Seq::new(alloc),
            procedures: Seq::new(alloc),
            triggers: Seq::new(alloc),
        }
    }

    /// What every catalog is. Nothing is done.
    pub fn is_well_formed(&self)
        ensures { IsWellFormed self.now }
    {
        let _ = &self.servers;
    }

    /// Adds a server after the others.
    pub fn add_server(&mut self, server: ServerDef) -> Result<(), NoMemory>
        requires { IsWellFormed (record self.old { servers = self.old.servers ++ server ∷ [] }) }
        ensures ok { OnOk result (self.new ≡ record self.old { servers = self.old.servers ++ server ∷ [] }) }
        ensures err { OnErr result (self.new ≡ self.old) }
    {
        self.servers.push(server)
    }

    /// Adds a schema after the others.
    pub fn add_schema(&mut self, schema: SchemaDef) -> Result<(), NoMemory>
        requires { IsWellFormed (record self.old { schemas = self.old.schemas ++ schema ∷ [] }) }
        ensures ok { OnOk result (self.new ≡ record self.old { schemas = self.old.schemas ++ schema ∷ [] }) }
        ensures err { OnErr result (self.new ≡ self.old) }
    {
        self.schemas.push(schema)
    }

    /// Adds a foreign table after the others.
    pub fn add_table(&mut self, table: TableDef) -> Result<(), NoMemory>
        requires { IsWellFormed (record self.old { tables = self.old.tables ++ table ∷ [] }) }
        ensures ok { OnOk result (self.new ≡ record self.old { tables = self.old.tables ++ table ∷ [] }) }
        ensures err { OnErr result (self.new ≡ self.old) }
    {
        self.tables.push(table)
    }

    /// Adds a view after the others.
    pub fn add_view(&mut self, view: ViewDef) -> Result<(), NoMemory>
        requires { IsWellFormed (record self.old { views = self.old.views ++ view ∷ [] }) }
        ensures ok { OnOk result (self.new ≡ record self.old { views = self.old.views ++ view ∷ [] }) }
        ensures err { OnErr result (self.new ≡ self.old) }
    {
        self.views.push(view)
    }

    pub fn servers(&self) -> &ServerDefs
        ensures { result.now ≡ self.now.servers }
    {
        &self.servers
    }

    pub fn schemas(&self) -> &SchemaDefs
        ensures { result.now ≡ self.now.schemas }
    {
        &self.schemas
    }

    pub fn tables(&self) -> &TableDefs
        ensures { result.now ≡ self.now.tables }
    {
        &self.tables
    }

    pub fn views(&self) -> &ViewDefs
        ensures { result.now ≡ self.now.views }
    {
        &self.views
    }

    pub fn procedures(&self) -> &ProcedureDefs
        ensures { result.now ≡ self.now.procedures }
    {
        &self.procedures
    }

    pub fn triggers(&self) -> &TriggerDefs
        ensures { result.now ≡ self.now.triggers }
    {
        &self.triggers
    }
}
