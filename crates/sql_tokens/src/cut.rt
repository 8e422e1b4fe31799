//! Cuts a script into statements.

ghost use Rattle.std.specs.Prelude.{◌≡◌, length, drop};
ghost use Rattle.sql_tokens.specs.Tokens.{tokens_from};
ghost use Rattle.sql_tokens.specs.Cut as spec;

use crate::pieces::head_piece;
use crate::token::Kind;

/// What the search for a statement finds.
#[derive(Clone, Copy, Debug, PartialEq, Eq)]
pub enum Found {
    /// A statement: its first token, its `;` or else the end of the script, and the place from which the next is sought.
    Statement {
        start: usize,
        end: usize,
        next: usize,
    },
    /// No statement that ends with a `;` in what there is of the script.
    More,
    /// Nothing but empty statements up to the script's end.
    End,
}

/// Whether statements are cut at a token.
fn cuts(kind: Kind) -> bool
    ensures { result ≡ spec.cuts kind }
{
    match kind {
        Kind::Semicolon => true,
        _ => false,
    }
}

/// The first statement from a place on; empty ones are skipped. Where the script is ended, what has no `;` is a
/// statement too.
#[tactic(auto, using(crate::proofs::Steps::token_steps))]
pub fn next_statement(script: &[u8], from: usize, ended: bool) -> Found
    ensures found { result ≡ spec.found ended (length script.now) (tokens_from from (drop from script.now)) }

    // So a loop over the statements of a script ends.
    ensures forth { spec.IsForth from (length script.now) result }
{
    if script.len() < from {
        return if ended { Found::End } else { Found::More };
    }
    let mut at = from;
    let mut rest = script.split_at(from).1;
    let mut first = None;
    while !rest.is_empty() {
        let piece = head_piece(rest);
        if let Some(kind) = piece.kind {
            match first {
                None => {
                    if !cuts(kind) {
                        first = Some(at);
                    }
                }
                Some(start) => {
                    if cuts(kind) {
                        return Found::Statement {
                            start,
                            end: at,
                            next: at + 1,
                        };
                    }
                }
            }
        }
        at += piece.len;
        rest = rest.split_at(piece.len).1;
    }
    if !ended {
        return Found::More;
    }
    match first {
        None => Found::End,
        Some(start) => Found::Statement {
            start,
            end: script.len(),
            next: script.len(),
        },
    }
}
