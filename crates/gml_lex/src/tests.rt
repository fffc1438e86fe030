use crate::{LexFault, Token, TokenKind, laws, tokens};
use mn_base::Refusal;
use std::test::Fail;

fn token(kind: TokenKind, start: u32, end: u32) -> Token {
    Token { kind, start, end }
}

#[test]
fn tokens_and_their_spans(rt: HostRuntime) -> Result<(), Fail> {
    let text = b"graph[\tname \"a#\r\nb\"# \"x\"\n id +7 w -.5E3#end";
    let found = tokens(rt.alloc(), text)?;
    let wanted = [
        token(TokenKind::Key, 0, 5),
        token(TokenKind::Left, 5, 6),
        token(TokenKind::Key, 7, 11),
        token(TokenKind::Text, 12, 19),
        token(TokenKind::Key, 26, 28),
        token(TokenKind::Integer, 29, 31),
        token(TokenKind::Key, 32, 33),
        token(TokenKind::Real, 34, 39),
    ];
    assert_eq!(rt; found.as_slice(), wanted.as_slice());
    Ok(())
}

#[test]
fn kinds_of_words(rt: HostRuntime) -> Result<(), Fail> {
    for (text, kind) in [
        ("a_1", TokenKind::Key),
        ("e5", TokenKind::Key),
        ("NAN", TokenKind::Key),
        ("-0", TokenKind::Integer),
        ("007", TokenKind::Integer),
        ("5.", TokenKind::Real),
        (".5", TokenKind::Real),
        ("1e5", TokenKind::Real),
        ("+1.25E-05", TokenKind::Real),
        ("\"1\"", TokenKind::Text),
        ("]", TokenKind::Right),
    ] {
        let found = tokens(rt.alloc(), text.as_bytes())?;
        let kinds = found
            .iter()
            .map(|t| t.kind)
            .collect::<Vec<TokenKind>>(rt.alloc())?;
        assert_eq!(rt; kinds.as_slice(), [kind].as_slice(), "of {text}");
    }
    Ok(())
}

#[test]
fn first_faults(rt: HostRuntime) {
    laws::never_both();
    laws::one_reading();
    laws::one_fault();
    laws::each_text_is_answered();
    laws::spans_in_order();
    for (text, place) in [
        ("graph [ ? ]", 8),
        ("graph [ name \"x", 13),
        ("a -", 2),
        (".", 0),
        ("1.2.3", 0),
        ("1e", 0),
        ("+-1", 0),
        ("+INF", 0),
        ("a.b", 0),
        (" _a", 1),
        ("# \n \x7f", 4),
    ] {
        let found = tokens(rt.alloc(), text.as_bytes()).err();
        assert_eq!(rt;
            found,
            Some(Refusal::Fault(LexFault { place })),
            "of {text}"
        );
    }
}
