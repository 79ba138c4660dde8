use arithmetic::ledger::Ledger;
use arithmetic::wrapped::Wrapped;
use std::test::Fail;
use token::kinds::{Keyword, Sign};
use token::lexer::Lexer;
use token::number::number_word;
use token::tokens::Token;

// A character for each kind of token: `n` a name, `d` a number, `?` a byte of no program, `.` the end,
// a capital letter a keyword, `b` the sign `:=`, and each other sign its own.
fn mark(token: Token) -> u8 {
    match token {
        Token::Name(_) => b'n',
        Token::Number(_) => b'd',
        Token::Keyword(k) => match k {
            Keyword::End => b'E',
            Keyword::Let => b'L',
            Keyword::Go => b'G',
            Keyword::To => b'T',
            Keyword::Of => b'O',
            Keyword::Read => b'R',
            Keyword::Print => b'P',
            Keyword::If => b'I',
            Keyword::Then => b'H',
            Keyword::Else => b'S',
        },
        Token::Sign(s) => match s {
            Sign::Semicolon => b';',
            Sign::Colon => b':',
            Sign::Becomes => b'b',
            Sign::Plus => b'+',
            Sign::Minus => b'-',
            Sign::Times => b'*',
            Sign::Over => b'/',
            Sign::Open => b'(',
            Sign::Close => b')',
            Sign::Comma => b',',
            Sign::Greater => b'>',
            Sign::Equal => b'=',
            Sign::Less => b'<',
        },
        Token::Other(_) => b'?',
        Token::End => b'.',
    }
}

// A text has the tokens of these marks at these offsets; the end is said twice.
fn reads(text: &[u8], marks: &[u8], offsets: &[usize]) -> Result<(), Fail> {
    let mut lexer = Lexer::new(text);
    for (m, at) in marks.iter().zip(offsets.iter()) {
        let lexeme = lexer.next();
        if mark(lexeme.token) != *m || lexeme.offset != *at {
            return Err(Fail::new("another token"));
        }
    }
    for _ in 0..2 {
        let end = lexer.next();
        if mark(end.token) != b'.' || end.offset != text.len() {
            return Err(Fail::new("no end"));
        }
    }
    if super::count(text) != marks.len() {
        return Err(Fail::new("another count"));
    }
    Ok(())
}

// Texts, the marks of their tokens, and their offsets.
const TEXTS: [(&[u8], &[u8], &[usize]); 29] = [
    (b"", b"", &[]),
    (b" \n ", b"", &[]),
    (b"%", b"", &[]),
    (b"% A := 1 \t", b"", &[]),
    (b"A%B\nC", b"nn", &[0, 4]),
    (b"1%2%3\n%\n4", b"dd", &[0, 8]),
    (b"END1", b"n", &[0]),
    (b"9A", b"dn", &[0, 1]),
    (b"A9", b"n", &[0]),
    (b"A9B8 C", b"nn", &[0, 5]),
    (b"007 7", b"dd", &[0, 4]),
    (b"12AB34", b"dn", &[0, 2]),
    (b"GO TO OF IF", b"GTOI", &[0, 3, 6, 9]),
    (b"END LET READ PRINT", b"ELRP", &[0, 4, 8, 13]),
    (b"THEN%ELSE\nELSE", b"HS", &[0, 10]),
    (b"EN ENDS GOTO 1END", b"nnndE", &[0, 3, 8, 13, 14]),
    (b":", b":", &[0]),
    (b":=", b"b", &[0]),
    (b": =", b":=", &[0, 2]),
    (b":%\n=", b":=", &[0, 3]),
    (b"::=", b":b", &[0, 1]),
    (b":==", b"b=", &[0, 2]),
    (
        b";+-*/(),>=<",
        b";+-*/(),>=<",
        &[0, 1, 2, 3, 4, 5, 6, 7, 8, 9, 10],
    ),
    (b"a", b"?", &[0]),
    (b"Ab1", b"n?d", &[0, 1, 2]),
    (b"1\t2", b"d?d", &[0, 1, 2]),
    (b"END\r\n", b"E?", &[0, 3]),
    (&[0, 255, 128], b"???", &[0, 1, 2]),
    (&[b'%', 0, 255, b'\t', b'\n', b'@'], b"?", &[5]),
];

#[test]
fn texts() -> Result<(), Fail> {
    for (text, marks, offsets) in TEXTS {
        reads(text, marks, offsets)?;
    }
    Ok(())
}

#[test]
fn words_of_numbers(rt: HostRuntime) {
    assert_eq!(rt; number_word::<Wrapped>(b""), Some(0));
    assert_eq!(rt; number_word::<Wrapped>(b"1 2"), None);
    assert_eq!(rt; number_word::<Wrapped>(b"2147483647"), Some(2147483647));
    assert_eq!(rt; number_word::<Wrapped>(b"2147483648"), Some(-2147483648));
    assert_eq!(rt; number_word::<Ledger>(b"2147483648"), Some(99999999));
    assert_eq!(rt; number_word::<Ledger>(b"00000000000000000007"), Some(7));
}

#[test]
fn long_numbers(rt: HostRuntime) -> Result<(), Fail> {
    let mut digits = vec![in rt.alloc(); b'9'; 32768]?;
    reads(&digits, b"d", &[0])?;
    assert_eq!(rt; number_word::<Wrapped>(&digits), Some(-1));
    assert_eq!(rt; number_word::<Ledger>(&digits), Some(99999999));
    digits.push(b'A')?;
    assert_eq!(rt; number_word::<Ledger>(&digits), None);
    reads(&digits, b"dn", &[0, 32768])
}
