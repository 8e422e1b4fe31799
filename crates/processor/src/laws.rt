//! What holds of the definitions: each law is the contract of a function without a body.

ghost use Rattle.processor.specs.Ran.{SameWhereRead};

/// Tables that a relation doesn't read make no difference to its rows, so a query needs no others fetched.
#[tactic(auto, using(crate::proofs::SameWhereRead::same_where_read))]
pub fn same_where_read()
    ensures { SameWhereRead }
{}
