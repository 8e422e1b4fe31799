//! Options: which count where, which values they take, and what they say.

ghost use Rattle.std.specs.Prelude.{◌≡◌, IfOk, is_some, codes};
ghost use Rattle.std.specs.List.{list_all};
ghost use Rattle.metadata.specs.Answers.{Passes};
ghost use Rattle.metadata.specs.Options as spec;
ghost use Rattle.metadata.specs.declared.options.Owner.TheVariants.{Server, Table, Column, View};

use crate::fault::DeployRefusal;
use crate::sizes::in_size_of;
use crate::without::{lists_capabilities, narrowed_by};
use sql_reader::tree::Constant;
use std::alloc::Global;
use vdb_base::{NoMemory, Text, Value};
use vdb_ddl::tree::Setting;
use vdb_model::{Caps, DeployFault};

/// Whose options are written.
#[derive(Clone, Copy, Debug, PartialEq, Eq)]
pub enum Owner {
    Server,
    Table,
    Column,
    View,
}

fn spelled_truth(text: &str) -> Option<bool>
    ensures { result ≡ spec.spelled_truth text.now }
{
    if text.eq_ignore_ascii_case("true") {
        Some(true)
    } else if text.eq_ignore_ascii_case("false") {
        Some(false)
    } else {
        None
    }
}

/// TRUE or FALSE, as a word or as a string in any case.
fn truth_of(constant: &Constant) -> Option<bool>
    ensures { result ≡ spec.truth_of constant.now }
{
    match constant {
        Constant::Value(Value::Null) => None,
        Constant::Value(Value::Bool(truth)) => Some(*truth),
        Constant::Value(Value::Num(_)) => None,
        Constant::Value(Value::Str(text)) => spelled_truth(text.as_str()),
        Constant::Fraction => None,
        Constant::TooLong => None,
    }
}

fn has_no_nul(bytes: &[u8]) -> bool
    ensures { result ≡ list_all spec.is_no_nul bytes.now }
{
    for byte in bytes {
        if *byte == 0 {
            return false;
        }
    }
    true
}

fn is_source_name(text: &Text) -> bool
    ensures { result ≡ spec.is_source_name text.now }
{
    1 <= text.len() && text.len() <= 64 && has_no_nul(text.as_bytes())
}

/// Whether a constant is a name at a source.
fn names_source(constant: &Constant) -> bool
    ensures { result ≡ is_some (spec.source_name_of constant.now) }
{
    match constant {
        Constant::Value(Value::Null) => false,
        Constant::Value(Value::Bool(_)) => false,
        Constant::Value(Value::Num(_)) => false,
        Constant::Value(Value::Str(text)) => is_source_name(text),
        Constant::Fraction => false,
        Constant::TooLong => false,
    }
}

/// The name at a source that a constant says, or the own one.
fn source_or(alloc: Global, own: &Text, constant: &Constant) -> Result<Text, NoMemory>
    ensures { IfOk result (λ made. made ≡ spec.source_or own.now constant.now) }
{
    match constant {
        Constant::Value(Value::Null) => own.copy(alloc),
        Constant::Value(Value::Bool(_)) => own.copy(alloc),
        Constant::Value(Value::Num(_)) => own.copy(alloc),
        Constant::Value(Value::Str(text)) => {
            if is_source_name(text) {
                text.copy(alloc)
            } else {
                own.copy(alloc)
            }
        }
        Constant::Fraction => own.copy(alloc),
        Constant::TooLong => own.copy(alloc),
    }
}

fn server_takes(setting: &Setting) -> bool
    ensures { result ≡ spec.is_taken Server setting.now }
{
    let name = setting.name.text.as_str();
    if name == "maxincriteriasize" {
        in_size_of(&setting.value.constant).is_some()
    } else if name == "without" {
        lists_capabilities(&setting.value.constant)
    } else {
        true
    }
}

fn table_takes(setting: &Setting) -> bool
    ensures { result ≡ spec.is_taken Table setting.now }
{
    let name = setting.name.text.as_str();
    if name == "updatable" {
        truth_of(&setting.value.constant).is_some()
    } else if name == "nameinsource" {
        names_source(&setting.value.constant)
    } else {
        true
    }
}

fn column_takes(setting: &Setting) -> bool
    ensures { result ≡ spec.is_taken Column setting.now }
{
    let name = setting.name.text.as_str();
    if name == "nameinsource" {
        names_source(&setting.value.constant)
    } else {
        true
    }
}

fn view_takes(setting: &Setting) -> bool
    ensures { result ≡ spec.is_taken View setting.now }
{
    let name = setting.name.text.as_str();
    if name == "updatable" {
        truth_of(&setting.value.constant).is_some()
    } else {
        true
    }
}

fn is_taken(owner: Owner, setting: &Setting) -> bool
    ensures { result ≡ spec.is_taken owner setting.now }
{
    match owner {
        Owner::Server => server_takes(setting),
        Owner::Table => table_takes(setting),
        Owner::Column => column_takes(setting),
        Owner::View => view_takes(setting),
    }
}

/// Refused at the first value that isn't taken.
pub(crate) fn taken_options(owner: Owner, settings: &[Setting]) -> Result<(), DeployRefusal>
    ensures { Passes (spec.refused_option owner settings.now) result }
{
    for setting in settings {
        if !is_taken(owner, setting) {
            let at = setting.value.at as u64;
            return Err(DeployRefusal::Refused(DeployFault::BadOption { at }));
        }
    }
    Ok(())
}

/// Whether a table or view can be updated.
pub(crate) fn is_updatable(settings: &[Setting]) -> bool
    ensures { result ≡ spec.is_updatable settings.now }
{
    let mut updatable = true;
    for setting in settings {
        if setting.name.text.as_str() == "updatable" {
            updatable = truth_of(&setting.value.constant).unwrap_or(true);
        }
    }
    updatable
}

/// The name at the source with one option more.
fn next_source(alloc: Global, own: &Text, source: Text, setting: &Setting) -> Result<Text, NoMemory>
    ensures { IfOk result (λ made. made ≡ spec.next_source own.now source setting.now) }
{
    if setting.name.text.as_str() == "nameinsource" {
        source_or(alloc, own, &setting.value.constant)
    } else {
        Ok(source)
    }
}

/// The name of a table or column at its source.
pub(crate) fn source_of(alloc: Global, own: &Text, settings: &[Setting]) -> Result<Text, NoMemory>
    ensures { IfOk result (λ made. made ≡ spec.source_of own.now settings.now) }
{
    let mut source = own.copy(alloc)?;
    for setting in settings {
        source = next_source(alloc, own, source, setting)?;
    }
    Ok(source)
}

/// Capabilities with at most as many constants in an IN as the option says.
fn sized_by(caps: Caps, constant: &Constant) -> Caps
    ensures { result ≡ spec.sized_by caps constant.now }
{
    match in_size_of(constant) {
        None => caps,
        Some(size) => Caps {
            in_max: size.min(caps.in_max),
            ..caps
        },
    }
}

/// Capabilities with one option more.
fn next_sized(caps: Caps, made: Caps, setting: &Setting) -> Caps
    ensures { result ≡ spec.next_sized caps made setting.now }
{
    if setting.name.text.as_str() == "maxincriteriasize" {
        sized_by(caps, &setting.value.constant)
    } else {
        made
    }
}

fn sized(caps: Caps, settings: &[Setting]) -> Caps
    ensures { result ≡ spec.sized settings.now caps }
{
    let mut made = caps;
    for setting in settings {
        made = next_sized(caps, made, setting);
    }
    made
}

fn narrowed(caps: Caps, settings: &[Setting]) -> Caps
    ensures { result ≡ spec.narrowed settings.now caps }
{
    let mut made = caps;
    for setting in settings {
        if setting.name.text.as_str() == "without" {
            made = narrowed_by(caps, &setting.value.constant);
        }
    }
    made
}

/// A connection's capabilities, lowered by the options of its server.
pub(crate) fn lowered(caps: Caps, settings: &[Setting]) -> Caps
    ensures { result ≡ spec.lowered settings.now caps }
{
    narrowed(sized(caps, settings), settings)
}
