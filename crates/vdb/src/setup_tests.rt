//! What no clause says: what words of the command line ask for.

use crate::words::{WordsFault, read_words};
use std::alloc::Global;
use std::test::Fail;

/// What words that spaces part ask for.
fn asked(alloc: Global, line: &str) -> Result<String, Fail> {
    let mut words = Vec::new(alloc);
    for word in line.split(' ') {
        words.push(String::from_str(alloc, word)?)?;
    }
    let mut asked = String::new(alloc);
    match read_words(alloc, &words) {
        Err(WordsFault::Usage { word }) => {
            asked.push_str(format!(in alloc; "word {word}")?.as_str())?;
        }
        Err(WordsFault::Memory) => asked.push_str("memory")?,
        Ok(setup) => {
            asked.push_str(setup.vdb.as_str())?;
            for conn in setup.conns.as_slice() {
                let name = conn.name.as_str();
                let path = conn.path.as_str();
                asked.push_str(format!(in alloc; " {name} at {path}")?.as_str())?;
            }
        }
    }
    Ok(asked)
}

#[test]
fn reads_words(rt: HostRuntime) -> Result<(), Fail> {
    let alloc = rt.alloc();
    let table: [(&str, &str); 7] = [
        ("run a.ddl Files=csv:dir:x=y", "a.ddl files at dir:x=y"),
        ("go", "word 1"),
        ("run", "word 2"),
        ("run -v", "word 2"),
        ("run a.ddl", "word 3"),
        ("run a.ddl files=csv:", "word 3"),
        ("run a.ddl files=csv:d more", "word 4"),
    ];
    for (line, wanted) in table {
        assert_eq!(rt; asked(alloc, line)?.as_str(), wanted);
    }
    Ok(())
}
