//! Copies of what a catalog defines.

ghost use Rattle.std.specs.Prelude.{◌≡◌, IfOk};

use crate::catalog::{ProcedureDef, SchemaDef, ServerDef, TriggerDef, ViewDef};
use crate::optional::copy_optional;
use std::alloc::Global;
use vdb_base::{Duplicate, NoMemory};

impl ServerDef {
    pub fn copy(&self, alloc: Global) -> Result<ServerDef, NoMemory>
        ensures { IfOk result (λ made. made ≡ self.now) }
    {
        Ok(ServerDef {
            name: self.name.copy(alloc)?,
            kind: self.kind,
            caps: self.caps,
        })
    }
}

impl Duplicate for ServerDef {
    fn copy(&self, alloc: Global) -> Result<ServerDef, NoMemory> {
        self.copy(alloc)
    }
}

impl SchemaDef {
    pub fn copy(&self, alloc: Global) -> Result<SchemaDef, NoMemory>
        ensures { IfOk result (λ made. made ≡ self.now) }
    {
        Ok(SchemaDef {
            name: self.name.copy(alloc)?,
            server: self.server,
        })
    }
}

impl Duplicate for SchemaDef {
    fn copy(&self, alloc: Global) -> Result<SchemaDef, NoMemory> {
        self.copy(alloc)
    }
}

impl ViewDef {
    pub fn copy(&self, alloc: Global) -> Result<ViewDef, NoMemory>
        ensures { IfOk result (λ made. made ≡ self.now) }
    {
        let name = self.name.copy(alloc)?;
        let schema = self.schema.copy(alloc)?;
        let columns = self.columns.copy(alloc)?;
        let rel = self.rel.copy(alloc)?;
        Ok(ViewDef {
            name,
            schema,
            columns,
            rel,
            nodes: self.nodes,
            depth: self.depth,
            updatable: self.updatable,
        })
    }
}

impl Duplicate for ViewDef {
    fn copy(&self, alloc: Global) -> Result<ViewDef, NoMemory> {
        self.copy(alloc)
    }
}

impl ProcedureDef {
    pub fn copy(&self, alloc: Global) -> Result<ProcedureDef, NoMemory>
        ensures { IfOk result (λ made. made ≡ self.now) }
    {
        let name = self.name.copy(alloc)?;
        let schema = self.schema.copy(alloc)?;
        let parameters = self.parameters.copy(alloc)?;
        let columns = copy_optional(alloc, &self.columns)?;
        let block = self.block.copy(alloc)?;
        Ok(ProcedureDef {
            name,
            schema,
            parameters,
            columns,
            block,
            chain: self.chain,
            place: self.place,
        })
    }
}

impl Duplicate for ProcedureDef {
    fn copy(&self, alloc: Global) -> Result<ProcedureDef, NoMemory> {
        self.copy(alloc)
    }
}

impl TriggerDef {
    pub fn copy(&self, alloc: Global) -> Result<TriggerDef, NoMemory>
        ensures { IfOk result (λ made. made ≡ self.now) }
    {
        Ok(TriggerDef {
            view: self.view,
            event: self.event,
            block: self.block.copy(alloc)?,
            chain: self.chain,
            place: self.place,
        })
    }
}

impl Duplicate for TriggerDef {
    fn copy(&self, alloc: Global) -> Result<TriggerDef, NoMemory> {
        self.copy(alloc)
    }
}
