//! What the items so far define, and what their names mean.

ghost use Rattle.std.specs.Prelude.{◌≡◌, ◌+◌, ◌<◌, length, IfOk, IfSome};
ghost use Rattle.std.specs.List.{list_any};
ghost use Rattle.std.specs.Option.{is_none, is_some, option_copied};
ghost use Rattle.metadata.specs.Answers.{Passes};
ghost use Rattle.metadata.specs.SoFar as spec;
ghost use Rattle.metadata.specs.Sound.{IsSound};
ghost use Rattle.vdb_model.specs.WellFormed.{is_name};

use crate::fault::DeployRefusal;
use sql_reader::tree::Name;
use std::alloc::Global;
use vdb_base::{NoMemory, Nums, Seq, Text};
use vdb_model::{
    Catalog, DeployFault, ProcedureDef, SchemaDef, ServerDef, TableDef, ViewDef, dotted, printed,
};

/// What the items so far define: the catalog, the database, and the schema that is set.
#[derive(Drop)]
pub struct SoFar {
    pub catalog: Catalog,
    /// How many views stand over one another from each view on.
    pub chains: Nums,
    pub database: Option<Text>,
    pub schema: Option<SchemaDef>,
}

pub(crate) fn nothing(alloc: Global) -> SoFar
    ensures is { result ≡ spec.nothing }
    ensures sound { IsSound result }
{
    SoFar {
        catalog: Catalog::new(alloc),
        chains: Seq::new(alloc),
        database: None,
        schema: None,
    }
}

/// A place in a list as a number.
pub(crate) fn number(at: usize) -> Result<u32, NoMemory>
    ensures { IfOk result (λ made. made ≡ at) }
{
    match u32::try_from(at) {
        Ok(number) => Ok(number),
        Err(_) => Err(NoMemory),
    }
}

/// A sum of lengths.
pub(crate) fn added(a: usize, b: usize) -> Result<usize, NoMemory>
    ensures { IfOk result (λ made. made ≡ a + b) }
{
    match a.checked_add(b) {
        Some(sum) => Ok(sum),
        None => Err(NoMemory),
    }
}

/// The schema of the name.
pub(crate) fn find_schema<'a>(schemas: &'a [SchemaDef], name: &Text) -> Option<&'a SchemaDef>
    ensures { option_copied result ≡ spec.schema_named schemas.now name.now }
{
    for schema in schemas {
        if schema.name == *name {
            return Some(schema);
        }
    }
    None
}

/// The place of the server of the name.
pub(crate) fn find_server(servers: &[ServerDef], name: &Text) -> Option<usize>
    ensures { result ≡ spec.server_named 0 servers.now name.now }
{
    for (at, server) in servers.iter().enumerate() {
        if server.name == *name {
            return Some(at);
        }
    }
    None
}

fn has_table(schema: &Text, name: &Text, tables: &[TableDef]) -> bool
    ensures { result ≡ list_any (spec.is_table schema.now name.now) tables.now }
{
    for table in tables {
        if table.schema == *schema && table.name == *name {
            return true;
        }
    }
    false
}

fn has_view(schema: &Text, name: &Text, views: &[ViewDef]) -> bool
    ensures { result ≡ list_any (spec.is_view schema.now name.now) views.now }
{
    for view in views {
        if view.schema == *schema && view.name == *name {
            return true;
        }
    }
    false
}

fn has_procedure(schema: &Text, name: &Text, procedures: &[ProcedureDef]) -> bool
    ensures { result ≡ list_any (spec.is_procedure schema.now name.now) procedures.now }
{
    for procedure in procedures {
        if procedure.schema == *schema && procedure.name == *name {
            return true;
        }
    }
    false
}

/// Whether a schema has a relation or a procedure of the name.
pub(crate) fn has_relation(catalog: &Catalog, schema: &Text, name: &Text) -> bool
    ensures { result ≡ spec.has_relation catalog.now schema.now name.now }
{
    has_table(schema, name, catalog.tables().as_slice())
        || has_view(schema, name, catalog.views().as_slice())
        || has_procedure(schema, name, catalog.procedures().as_slice())
}

/// Refused where the count is past its limit.
pub(crate) fn few(limit: u64, count: u64, name: Text) -> Result<(), DeployRefusal>
    ensures { Passes (spec.too_many limit count name) result }
{
    if limit < count {
        return Err(DeployRefusal::Refused(DeployFault::Limit { name, count }));
    }
    Ok(())
}

fn is_name(name: &Text) -> bool
    ensures { result ≡ is_name name.now }
{
    1 <= name.len() && name.len() <= 64
}

/// Refused where a name hasn't 1 to 64 bytes.
pub(crate) fn good_name(alloc: Global, name: &Text) -> Result<(), DeployRefusal>
    ensures { Passes (spec.bad_name name.now) result }
{
    if !is_name(name) {
        let count = name.len() as u64;
        let name = printed(alloc, name)?;
        return Err(DeployRefusal::Refused(DeployFault::Limit { name, count }));
    }
    Ok(())
}

impl SoFar {
    /// A relation of the schema that is set, as it is printed.
    pub(crate) fn relation_text(&self, alloc: Global, name: &Name) -> Result<Text, NoMemory>
        ensures { IfOk result (λ made. made ≡ spec.relation_text self.now name.now) }
    {
        match &self.schema {
            Some(schema) => dotted(alloc, &schema.name, &name.text),
            None => dotted(alloc, &Text::new(alloc), &name.text),
        }
    }

    /// Refused where no schema is set for a relation.
    pub(crate) fn has_schema(&self, alloc: Global, name: &Name) -> Result<(), DeployRefusal>
        ensures { Passes (spec.no_schema self.now name.now) result }
    {
        if self.schema.is_none() {
            let name = printed(alloc, &name.text)?;
            return Err(DeployRefusal::Refused(DeployFault::Unknown { name }));
        }
        Ok(())
    }

    /// Refused where there are too many relations with one more.
    pub(crate) fn few_relations(&self, alloc: Global, name: &Name) -> Result<(), DeployRefusal>
        ensures { Passes (spec.too_many_relations self.now name.now) result }
    {
        let relations = added(self.catalog.tables().len(), self.catalog.views().len())?;
        let count = added(relations, 1)?;
        few(1024, count as u64, self.relation_text(alloc, name)?)
    }

    /// Refused where a relation has no column or too many.
    pub(crate) fn good_column_count(
        &self,
        alloc: Global,
        name: &Name,
        count: usize,
    ) -> Result<(), DeployRefusal>
        ensures { Passes (spec.bad_column_count self.now name.now count) result }
    {
        if !(1 <= count && count <= 256) {
            let name = self.relation_text(alloc, name)?;
            let count = count as u64;
            return Err(DeployRefusal::Refused(DeployFault::Limit { name, count }));
        }
        Ok(())
    }

    /// Whether the schema that is set has a relation or a procedure of the name.
    pub(crate) fn is_taken(&self, name: &Name) -> bool
        ensures { result ≡ spec.is_taken self.now name.now }
    {
        match &self.schema {
            Some(schema) => has_relation(&self.catalog, &schema.name, &name.text),
            None => false,
        }
    }

    /// Whether the schema that is set is one of a server.
    pub(crate) fn is_of_server(&self) -> bool
        ensures { result ≡ is_some (spec.schema_set self.now).server }
    {
        match &self.schema {
            Some(schema) => schema.server.is_some(),
            None => false,
        }
    }

    /// Whether the schema that is set is virtual, or none is.
    pub(crate) fn is_virtual(&self) -> bool
        ensures { result ≡ is_none (spec.schema_set self.now).server }
    {
        match &self.schema {
            Some(schema) => schema.server.is_none(),
            None => true,
        }
    }

    /// The name of the schema that is set.
    pub(crate) fn schema_name(&self, alloc: Global) -> Result<Text, NoMemory>
        ensures { IfOk result (λ made. made ≡ (spec.schema_set self.now).name) }
    {
        match &self.schema {
            Some(schema) => schema.name.copy(alloc),
            None => Ok(Text::new(alloc)),
        }
    }
}
