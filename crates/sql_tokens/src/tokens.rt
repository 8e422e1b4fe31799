//! The tokens of a text.

ghost use Rattle.std.specs.Prelude.{◌≡◌, ◌≤◌, ◌+◌, ◌++◌, length, IfOk, OnOk};
ghost use Rattle.std.specs.List.{All};
ghost use Rattle.sql_tokens.specs.Tokens.{tokens_from, seen, IsWithin};

use crate::pieces::{Piece, head_piece};
use crate::token::{Token, Tokens};
use std::alloc::Global;
use vdb_base::{NoMemory, Seq};

/// Adds the token that a piece at a place is, where it isn't a gap.
fn add(made: &mut Vec<Token>, at: usize, piece: &Piece) -> Result<(), NoMemory>
    requires { at + piece.now.len ≤ usize.MAX }
    ensures { OnOk result (made.new.items ≡ made.old.items ++ seen at piece.now.len piece.now.kind) }
{
    if let Some(kind) = piece.kind {
        made.push(Token {
            kind,
            start: at,
            end: at + piece.len,
        })?;
    }
    Ok(())
}

/// The tokens of a text in turn, bad ones among them.
#[tactic(auto, using(crate::proofs::Steps::token_steps))]
pub fn read_tokens(alloc: Global, text: &[u8]) -> Result<Tokens, NoMemory>
    ensures tokens { IfOk result (λ made. made.items ≡ tokens_from 0 text.now) }
    ensures len { IfOk result (λ made. made.len ≡ length text.now) }

    // Each token is some bytes of the text.
    ensures within { IfOk result (λ made. All (IsWithin (length text.now)) made.items) }
{
    let mut made = Vec::new(alloc);
    let mut at = 0;
    let mut rest = text;
    while !rest.is_empty() {
        let piece = head_piece(rest);
        add(&mut made, at, &piece)?;
        at += piece.len;
        rest = rest.split_at(piece.len).1;
    }
    Ok(Tokens {
        items: Seq::from_vec(made),
        len: text.len(),
    })
}
