ghost use Rattle.std.specs.Prelude.{◌≡◌, ◌<◌, ◌≤◌, ◌+◌, ◌^◌, ◌++◌, List, length, vec_len, All, IfOk, IfErr, OnOk};
ghost use Rattle.mn_base.specs.Refused.{IfFault, Refuses};
ghost use Rattle.mn_base.specs.declared.limits.TheConstants.{TOPOLOGY_BYTES_MAX};
ghost use Rattle.gml_lex.specs.declared.faults.LexFault.{LexFault};
ghost use Rattle.gml_lex.specs.declared.kinds.Token.{Token};
ghost use Rattle.gml_lex.specs.Tokens.{AreTokens, IsLexFault, GivesTokens, token_of};

use crate::faults::LexFault;
use crate::kinds::Token;
use crate::pieces::Piece;
use mn_base::{NoMemory, Refusal};
use std::alloc::Global;

/// All tokens of a text, in order, or its fault.
///
/// `graph [ ]` has a Key from 0 to 5, a Left from 6 to 7 and a Right from 8 to 9; `graph [ ? ]` has a fault at 8.
pub fn tokens(alloc: Global, text: &[u8]) -> Result<Vec<Token>, Refusal<LexFault>>
    requires { length text.now ≤ TOPOLOGY_BYTES_MAX }
    ensures found { IfOk result (λ v. AreTokens text.now v.items) }
    ensures spans { IfOk result
        (λ v. All (λ t. (t.start < t.end) × (t.end ≤ length text.now)) v.items) }
    ensures few { IfOk result (λ v. vec_len v ≤ length text.now) }
    ensures fault { IfErr result (λ e. IfFault e (λ f. IsLexFault text.now f.place)) }
    ensures only_tokens { (tokens : List Token) → AreTokens text.now tokens → GivesTokens tokens result }
    ensures only_fault { (fault : LexFault) → IsLexFault text.now fault.place → Refuses fault result }
{
    let mut tokens = Vec::new(alloc);
    let mut rest = text;
    while !rest.is_empty() {
        let start = text.len() - rest.len();
        let Some(piece) = Piece::at_front(rest) else {
            return Err(Refusal::Fault(LexFault {
                place: start as u32,
            }));
        };
        push_token(&mut tokens, piece, start)?;
        rest = rest.split_at(piece.len).1;
    }
    Ok(tokens)
}

/// Adds the token that a piece is, if it is one.
fn push_token(tokens: &mut Vec<Token>, piece: Piece, start: usize) -> Result<(), NoMemory>
    requires { start + piece.len < 2 ^ 32 }
    ensures { OnOk result (tokens.new.items ≡ tokens.old.items ++ token_of start piece) }
{
    if let Some(kind) = piece.kind {
        tokens.push(Token {
            kind,
            start: start as u32,
            end: (start + piece.len) as u32,
        })?;
    }
    Ok(())
}
