//! The words of the command line: `run VDB CONN`, where CONN is `NAME=csv:PATH`.

ghost use Rattle.std.specs.Prelude.{◌≡◌, ◌<◌, map, Ok, IfOk, IfErr};
ghost use Rattle.std.specs.Str.{str_to_ascii_lowercase};
ghost use Rattle.std.specs.List.{list_all};
ghost use Rattle.std.specs.Option.{option_map};
ghost use Rattle.std.specs.String.{string_bytes};
ghost use Rattle.vdb.specs.Words as spec;
ghost use Rattle.vdb.specs.Usage.{IsAnswer, IsUsage};

use std::alloc::Global;
use vdb_base::{NoMemory, Seq, Text};
use vdb_model::Kind;

#[derive(Clone, Copy, Debug, PartialEq, Eq)]
pub enum Command {
    Run,
}

/// A connection: the name of the server that it serves, in lower case, and where its store is.
#[derive(Debug, Drop)]
pub struct Conn {
    pub name: Text,
    pub kind: Kind,
    pub path: Text,
}

pub type Conns = Seq<Conn>;

/// What the words ask for.
#[derive(Debug, Drop)]
pub struct Setup {
    pub command: Command,
    /// The path of the DDL.
    pub vdb: Text,
    pub conns: Conns,
}

/// Why words are not read.
#[derive(Clone, Copy, Debug, PartialEq, Eq)]
pub enum WordsFault {
    /// The place, from 1, of the first word that is wrong or missing.
    Usage { word: u64 },
    Memory,
}

impl From<NoMemory> for WordsFault {
    ghost use Rattle.std.specs.Prelude.{◌≡◌};
    ghost use Rattle.vdb.specs.declared.words.WordsFault.TheVariants.{Memory};

    ghost from_gives = { λ _ e. e ≡ Memory };

    fn from(_error: NoMemory) -> WordsFault {
        WordsFault::Memory
    }
}

/// A path has a byte or more, and does not begin with `-`.
fn is_path(word: &str) -> bool
    ensures { result ≡ spec.is_path word.now }
{
    match word.as_bytes() {
        [] => false,
        [first, ..] => *first != b'-',
    }
}

fn is_printable(b: u8) -> bool
    ensures { result ≡ spec.is_printable b }
{
    b' ' <= b && b <= b'~'
}

fn all_printable(bytes: &[u8]) -> bool
    ensures { result ≡ list_all spec.is_printable bytes.now }
{
    for b in bytes {
        if !is_printable(*b) {
            return false;
        }
    }
    true
}

/// A name has 1 to 64 bytes of printable ASCII.
fn is_conn_name(name: &str) -> bool
    ensures { result ≡ spec.is_conn_name name.now }
{
    let name = name.as_bytes();
    0 < name.len() && name.len() <= 64 && all_printable(name)
}

/// What stands before and after the first of a mark.
fn cut(word: &str, mark: char) -> Option<(&str, &str)>
    requires { mark < 128 }
    ensures { option_map (λ p. (p.0.now, p.1.now)) result ≡ spec.split_at_byte mark word.now }
{
    match word.split_once(mark) {
        Some((before, after)) => Some((before, after)),
        None => None,
    }
}

fn lower(alloc: Global, name: &str) -> Result<Text, NoMemory>
    ensures { IfOk result (λ made. made ≡ str_to_ascii_lowercase name.now) }
{
    Ok(Text::from_string(name.to_ascii_lowercase(alloc)?))
}

/// The connection of a name, from what stands behind its `=`: KIND:PATH.
fn conn_with(alloc: Global, name: &str, source: &str) -> Result<Option<Conn>, NoMemory>
    ensures { IfOk result (λ conn. conn ≡ spec.conn_with name.now (spec.split_at_byte 58 source.now)) }
{
    let Some((kind, path)) = cut(source, ':') else {
        return Ok(None);
    };
    if !is_conn_name(name) || kind != "csv" || path.is_empty() {
        return Ok(None);
    }
    Ok(Some(Conn {
        name: lower(alloc, name)?,
        kind: Kind::Csv,
        path: Text::from_str(alloc, path)?,
    }))
}

/// The connection that a word is, if it is one.
fn read_conn(alloc: Global, word: &str) -> Result<Option<Conn>, NoMemory>
    ensures { IfOk result (λ conn. conn ≡ spec.conn_of word.now) }
{
    if !is_path(word) {
        return Ok(None);
    }
    match cut(word, '=') {
        None => Ok(None),
        Some((name, source)) => conn_with(alloc, name, source),
    }
}

/// What the words from the third on ask for.
fn read_conns(alloc: Global, vdb: &str, words: &[String]) -> Result<Setup, WordsFault>
    ensures { IsAnswer (spec.conns_of vdb.now (map string_bytes words.now)) result }
{
    let [word, more @ ..] = words else {
        return Err(WordsFault::Usage { word: 3 });
    };
    let Some(conn) = read_conn(alloc, word.as_str())? else {
        return Err(WordsFault::Usage { word: 3 });
    };
    if !more.is_empty() {
        return Err(WordsFault::Usage { word: 4 });
    }
    let mut conns = Seq::new(alloc);
    conns.push(conn)?;
    Ok(Setup {
        command: Command::Run,
        vdb: Text::from_str(alloc, vdb)?,
        conns,
    })
}

/// What the words from the second on ask for.
fn read_vdb(alloc: Global, words: &[String]) -> Result<Setup, WordsFault>
    ensures { IsAnswer (spec.vdb_of (map string_bytes words.now)) result }
{
    let [word, more @ ..] = words else {
        return Err(WordsFault::Usage { word: 2 });
    };
    if !is_path(word.as_str()) {
        return Err(WordsFault::Usage { word: 2 });
    }
    read_conns(alloc, word.as_str(), more)
}

fn read_command(alloc: Global, words: &[String]) -> Result<Setup, WordsFault>
    ensures { IsAnswer (spec.setup_of (map string_bytes words.now)) result }
{
    let [word, more @ ..] = words else {
        return Err(WordsFault::Usage { word: 1 });
    };
    if word.as_str() != "run" {
        return Err(WordsFault::Usage { word: 1 });
    }
    read_vdb(alloc, more)
}

/// What the words of the command line ask for, the program's name left out.
pub fn read_words(alloc: Global, words: &Vec<String>) -> Result<Setup, WordsFault>
    ensures setup { IfOk result (λ s. spec.setup_of (map string_bytes words.now.items) ≡ Ok s) }
    ensures usage { IfErr result (IsUsage (spec.setup_of (map string_bytes words.now.items))) }
{
    read_command(alloc, words.as_slice())
}
