// The tokens of a line.
use adltoken::{Lines, Span, Token, TokenFault, TokenKind, Tokens};
use std::test::Fail;

/// Returns whether a token has the given kind, content and position in its line.
fn is_token(
    token: Option<Token<'_>>,
    kind: TokenKind,
    content: &[u8],
    at: usize,
    length: usize,
) -> bool {
    token.is_some_and(|token| {
        token.kind == kind && token.content == content && token.span() == Span { at, length }
    })
}

#[test]
fn a_line_is_cut_up_to_its_fault(rt: HostRuntime) -> Result<(), Fail> {
    let mut tokens = Tokens::numbered(b" (Entry) \"a b\"_ \x01 C", 12);
    assert!(rt; is_token(tokens.next_token()?, TokenKind::Keyword, b"Entry", 1, 7));
    assert!(rt; is_token(tokens.next_token()?, TokenKind::Quoted, b"a b", 9, 5));
    assert!(rt; is_token(tokens.next_token()?, TokenKind::Word, b"_", 14, 1));
    for _ in 0..2 {
        let fault = tokens.next_token().err();
        assert!(rt; fault == Some(TokenFault::BadByte { line: 12 }));
        assert_eq!(rt;
            fault.map(|fault| (fault.number(), fault.line())),
            Some((1, 12))
        );
        assert_eq!(rt; tokens.rest, b" \x01 C".as_slice());
        assert_eq!(rt; tokens.at, 15);
    }
    Ok(())
}

#[test]
fn a_fault_names_the_line_that_was_read_last(rt: HostRuntime) -> Result<(), Fail> {
    let mut lines = Lines::new(b"(A) 1\r\n(B) \x01\n");
    let mut line = lines.next_line().ok_or("no line")?;
    let mut tokens = lines.tokens(line);
    assert!(rt; is_token(tokens.next_token()?, TokenKind::Keyword, b"A", 0, 3));
    assert!(rt; is_token(tokens.next_token()?, TokenKind::Word, b"1", 4, 1));
    assert!(rt; tokens.next_token()?.is_none());
    line = lines.next_line().ok_or("no line")?;
    tokens = lines.tokens(line);
    assert!(rt; is_token(tokens.next_token()?, TokenKind::Keyword, b"B", 0, 3));
    assert!(rt; tokens.next_token().err() == Some(TokenFault::BadByte { line: 2 }));
    Ok(())
}
