use crate::print_query;
use sql_reader::read::read_statement;
use sql_reader::tree::Statement;
use std::alloc::Global;
use std::test::Fail;
use vdb_base::Text;

/// A query's text, as it is printed; nothing where the text is no query.
fn printed(alloc: Global, text: &[u8]) -> Result<Text, Fail> {
    let mut out = Text::new(alloc);
    let read = read_statement(alloc, text);
    match &read {
        Ok(Statement::Query(query)) => print_query(alloc, query, &mut out)?,
        _ => out.push_str("no query")?,
    }
    Ok(out)
}

/// Each text and how it prints; and what is printed prints as itself.
#[test]
fn prints_queries(rt: HostRuntime) -> Result<(), Fail> {
    let alloc = rt.alloc();
    let table: [(&[u8], &str); 14] = [
        (b"SELECT * FROM c.Cust", "select * from \"c\" . \"cust\" "),
        (
            b"select t.*, t.a, s.t.a b, a as \"C\"\"d\" from s.t u, (select 1) as v",
            "select \"t\" . * , \"t\" . \"a\" , \"s\" . \"t\" . \"a\" \"b\" , \"a\" \"c\"\"d\" from \"s\" . \"t\" \"u\" , ( select 1 ) \"v\" ",
        ),
        (
            b"select a from t inner join u on a = b left outer join v on a <> b cross join w",
            "select \"a\" from \"t\" join \"u\" on \"a\" = \"b\" left join \"v\" on \"a\" <> \"b\" cross join \"w\" ",
        ),
        (
            b"select distinct a where a not in (1, -2) and not b is not null or c is null",
            "select distinct \"a\" where \"a\" not in ( 1 , - 2 ) and not \"b\" is not null or \"c\" is null ",
        ),
        (
            b"select a between 1 and 2, b like 'x''y', c not between - - 1 and (2)",
            "select \"a\" between 1 and 2 , \"b\" like 'x''y' , \"c\" not between - - 1 and ( 2 ) ",
        ),
        (
            b"select count(*), sum(a), count(b), min(c), max(d), coalesce(a, 1) group by a, t.b having 1",
            "select count ( * ) , sum ( \"a\" ) , count ( \"b\" ) , min ( \"c\" ) , max ( \"d\" ) , coalesce ( \"a\" , 1 ) group by \"a\" , \"t\" . \"b\" having 1 ",
        ),
        (
            b"select case when a then b when c then d else e end, case when 1 then null end",
            "select case when \"a\" then \"b\" when \"c\" then \"d\" else \"e\" end , case when 1 then null end ",
        ),
        (
            b"select a union all select b union select c order by a desc, 2 asc, b limit 1 offset 2",
            "select \"a\" union all select \"b\" union select \"c\" order by \"a\" desc , 2 , \"b\" limit 1 offset 2 ",
        ),
        (
            b"select a + b - c * d || e, a < b, a <= b, a > b, a >= b, a not like 'x'",
            "select \"a\" + \"b\" - \"c\" * \"d\" || \"e\" , \"a\" < \"b\" , \"a\" <= \"b\" , \"a\" > \"b\" , \"a\" >= \"b\" , \"a\" not like 'x' ",
        ),
        (
            b"select 1.25e3, true, false, null, -0",
            "select 0.5 , true , false , null , - 0 ",
        ),
        (
            b"select 170141183460469231731687303715884105727, - 170141183460469231731687303715884105728",
            "select 170141183460469231731687303715884105727 , - 170141183460469231731687303715884105728 ",
        ),
        (
            b"select 170141183460469231731687303715884105728, - 999999999999999999999999999999999999999999",
            "select 170141183460469231731687303715884105728 , - 170141183460469231731687303715884105729 ",
        ),
        (b"select \"select\" from \"\"", "no query"),
        (
            b"select a a from (select b from c) d",
            "select \"a\" \"a\" from ( select \"b\" from \"c\" ) \"d\" ",
        ),
    ];
    for (text, wanted) in table {
        let once = printed(alloc, text)?;
        assert_eq!(rt; once.as_str(), wanted);
        let twice = printed(alloc, once.as_bytes())?;
        assert_eq!(rt; twice.as_str(), wanted);
    }
    Ok(())
}
