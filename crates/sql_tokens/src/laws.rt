//! What holds of the definitions: each law is the contract of a function without a body.

ghost use Rattle.sql_tokens.specs.Laws as law;
ghost use Rattle.sql_tokens.specs.Said as said;

/// A statement that is found in a script's first bytes stays found when more come.
#[tactic(auto, using(crate::proofs::Stays::found_stays))]
pub fn found_stays()
    ensures { law.FoundStays }
{}

/// What is written in quotes, with each quote doubled, is read as it was.
pub fn written_is_read()
    ensures { law.WrittenIsRead }
{}

/// Whatever is read as a quotation was written so.
#[tactic(auto, using(crate::proofs::Written::read_is_written))]
pub fn read_is_written()
    ensures { law.ReadIsWritten }
{}

/// `More` exactly where the script isn't ended and no `;` comes after another token.
#[tactic(auto, using(crate::proofs::Exactly::more_exactly))]
pub fn more_exactly()
    ensures { law.MoreExactly }
{}

/// `End` exactly where the script is ended and has no token but `;`.
#[tactic(auto, using(crate::proofs::Exactly::end_exactly))]
pub fn end_exactly()
    ensures { law.EndExactly }
{}

/// A comment ends at its first `*/`.
pub fn comment_ends()
    ensures { law.CommentEnds }
{}

/// The statements of a script are found in turn: a statement, and then those from its next place on.
pub fn found_in_turn()
    ensures { law.FoundInTurn }
{}

/// What words, quoted names and strings say is text.
#[tactic(auto, using(crate::proofs::SaidText::tokens_say_text))]
pub fn tokens_say_text()
    ensures { said.TokensSayText }
{}
