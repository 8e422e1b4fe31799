//! Grammars as data, and one reader for all of them.
//!
//! A grammar is a table of [`Rule`]s, one for each symbol, by number. `Grammar::new` tests a table and names the first
//! rule that is wrong; `Grammar::known` takes one that stands in the code, whose test is computed when the code is
//! proved. A text is a list of token kinds, which are numbers too. [`read`] reads a whole text from a start symbol, and
//! [`read_front`] the longest front of one, for a part of a text whose end only its grammar tells. Both answer with the
//! log: the actions of the text's derivation in turn, each with the number of tokens before it, from which the caller
//! builds its tree.
//!
//! What is promised, for every table that is well-formed:
//! - A log is that of a derivation (`specs/Derivation`), and no derivation of the text has a lesser one
//!   (`specs/Reading`, `specs/Order`): the log is a function of the text, also where a text can be derived in two ways.
//! - `Syntax { at }` comes exactly where there is no derivation. The tokens before `at` begin a sentence, and with the
//!   token at `at` they begin none; or `at` is the text's length.
//! - The limits are part of the grammar: a token stands at most 64 `Deeper` items deep, in at most the 64th element of a
//!   list counted by `First` and `Next`, and among the first 65,536 tokens. They bind the tokens that were seen and not
//!   those that may follow, so the token past a limit is the one that is refused.
//!
//! More is promised of a table that is predictive, where the next token, or the text's end, tells which alternative to take:
//! all derivations of a text have one log (`laws::one_derivation`). `specs/Predictive` has the test, which is computed when
//! the code is proved, from the first and follow sets that the table's author gives.
//!
//! A guard, `Unless(kinds)`, chooses between derivations: after `ELSE statement | Unless(ELSE)` the nearest IF has the
//! ELSE, and after `MINUS (numeral | Unless(NUMERAL) operand)` a numeral directly after the sign is part of a literal.
//! Such guards take no text away, since what a guard stops has another derivation with the same tokens; that is by the
//! grammar's author, and not proved here. Guards look at seen tokens alone, as limits do.
//!
//! How a reader stands on this crate: it writes its table as a `static` of rules over named constants, and the same
//! table as a definition in its `specs/`, which a reviewer reads (the check computes that they are the same). It maps its
//! tokens to kinds, a word that a dialect takes as a name to a kind among those of the name's token symbol, and a token
//! that stands nowhere to a kind of no symbol. Left recursion is refused: `a = b {op b}` is `a = b rest` with
//! `rest = op b done rest | nothing`, whose action `done` makes the chain go to the left. An action stands where its
//! parts are complete, and its number may be any that is past the table's end.
//!
//! A text is read in one pass with threads, one for each derivation that is still open; where one is left, its log is
//! settled. So the time is linear as long as no second thread lives for long, which is up to the grammar: where two
//! alternatives begin alike for long, a guard or a common beginning is needed. That is measured, and not proved. Nothing
//! is computed of the table while reading. Memory is taken for threads and logs; want of it is an answer of its own, and
//! no contract says when it comes.
//!
//! The readers of statements, blocks and definitions stand on this crate; it stands on std alone.
#![tactic(auto)]

mod check;
mod fault;
pub mod laws;
mod machine;
mod order;
mod reader;
mod table;
#[cfg(test)]
mod tests;

pub use fault::ReadFault;
pub use machine::{Event, Log};
pub use reader::{Front, read, read_front};
pub use table::{Cause, Grammar, IllFormed, Item, MAX_COUNT, MAX_DEPTH, MAX_TOKENS, Place, Rule};
