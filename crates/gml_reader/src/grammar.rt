ghost use Rattle.std.specs.Prelude.{◌≡◌, ◌≤◌, IfErr, OnOk};
ghost use Rattle.gml_reader.specs.Grammar.{IsFile};
ghost use Rattle.gml_reader.specs.Places.{IsShallow, IsMisplaced};
ghost use Rattle.gml_reader.specs.States.{after};

use gml_lex::{Token, TokenKind};

/// Lists may nest so deep: the value of a pair of the file is at depth 1.
const DEPTH_MAX: usize = 32;

/// Where tokens leave the grammar, by the number of a token.
#[derive(Clone, Copy, Debug, PartialEq, Eq)]
pub(crate) enum Misplaced {
    /// With this token they begin no file.
    Bad(usize),
    /// This token opens a list at depth 33.
    Deep(usize),
    /// They end in a list that isn't closed, or after a key.
    Cut,
}

/// What may come next.
#[derive(Clone, Copy, Debug, PartialEq, Eq)]
pub(crate) enum Wanted {
    /// A key, or the end of the list.
    KeyOrEnd,
    /// A value.
    Value,
}

/// Whether the tokens are a file whose lists nest at most 32 deep.
pub(crate) fn check(tokens: &[Token]) -> Result<(), Misplaced>
    ensures file { OnOk result (IsFile tokens.now) }
    ensures shallow { OnOk result (IsShallow tokens.now) }
    ensures fault { IfErr result (IsMisplaced tokens.now) }
{
    let mut wanted = Wanted::KeyOrEnd;
    let mut depth = 0usize;
    for (at, token) in tokens.iter().enumerate() {
        let Some((next, deeper)) = after(wanted, depth, token.kind) else {
            return Err(Misplaced::Bad(at));
        };
        if deeper > DEPTH_MAX {
            return Err(Misplaced::Deep(at));
        }
        wanted = next;
        depth = deeper;
    }
    match wanted {
        Wanted::KeyOrEnd if depth == 0 => Ok(()),
        _ => Err(Misplaced::Cut),
    }
}

/// What is wanted after a token, and how many lists are open there.
fn after(wanted: Wanted, depth: usize, kind: TokenKind) -> Option<(Wanted, usize)>
    requires { depth ≤ 32 }
    ensures { result ≡ after wanted depth kind }
{
    match wanted {
        Wanted::KeyOrEnd => match kind {
            TokenKind::Key => Some((Wanted::Value, depth)),
            TokenKind::Right if depth > 0 => Some((Wanted::KeyOrEnd, depth - 1)),
            _ => None,
        },
        Wanted::Value => match kind {
            TokenKind::Integer | TokenKind::Real | TokenKind::Text => Some((
                Wanted::KeyOrEnd,
                depth,
            )),
            TokenKind::Left => Some((Wanted::KeyOrEnd, depth + 1)),
            _ => None,
        },
    }
}
