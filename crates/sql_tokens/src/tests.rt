use crate::{Found, next_statement, read_tokens};
use std::test::Fail;

#[test]
fn cuts_scripts(rt: HostRuntime) -> Result<(), Fail> {
    let script = b";; a ';' ; b -- ;".as_slice();
    let a = Found::Statement {
        start: 3,
        end: 9,
        next: 10,
    };
    let b = Found::Statement {
        start: 11,
        end: 17,
        next: 17,
    };
    for (from, ended, wanted) in [
        (0, false, a),
        (10, false, Found::More),
        (10, true, b),
        (17, true, Found::End),
    ] {
        assert_eq!(rt; next_statement(script, from, ended), wanted);
    }
    let tokens = read_tokens(rt.alloc(), b"a<>1e5 '".as_slice())?;
    assert_eq!(rt; tokens.items.len(), 4);
    assert_eq!(rt; tokens.len, 8);
    Ok(())
}
