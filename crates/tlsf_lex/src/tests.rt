use super::*;
use std::process::Abort;
use std::test::Fail;

#[test]
fn tokens_in_order_of_place(rt: HostRuntime) -> Result<(), Fail> {
    let tokens = lex(rt.alloc(), b"G (a);")?;
    let expected = [
        Token {
            kin: Kin::Word,
            from: 0,
            to: 1,
        },
        Token {
            kin: Kin::Mark,
            from: 2,
            to: 3,
        },
        Token {
            kin: Kin::Word,
            from: 3,
            to: 4,
        },
        Token {
            kin: Kin::Mark,
            from: 4,
            to: 5,
        },
        Token {
            kin: Kin::Mark,
            from: 5,
            to: 6,
        },
    ];
    assert_eq!(rt; tokens.as_slice(), expected.as_slice());
    Ok(())
}

fn assert_kins(rt: &impl Abort, alloc: std::alloc::Global, text: &[u8], expected: &[(Kin, usize)]) {
    let Ok(tokens) = lex(alloc, text) else {
        rt.panic("no tokens");
    };
    assert_eq!(rt; tokens.len(), expected.len());
    for (token, (kin, to)) in tokens.iter().zip(expected.iter()) {
        assert_eq!(rt; token.kin, *kin);
        assert_eq!(rt; token.to, *to);
    }
}

#[test]
fn longest_tokens(rt: HostRuntime) -> Result<(), Fail> {
    use Kin::{Full, Mark, Text, Word};
    let alloc = rt.alloc();
    assert_kins(
        &rt,
        alloc,
        b"<->->&&||",
        &[(Mark, 3), (Mark, 5), (Mark, 7), (Mark, 9)],
    );
    assert_kins(&rt, alloc, b"a_1'@ 12x", &[(Word, 5), (Full, 8), (Word, 9)]);
    assert_kins(
        &rt,
        alloc,
        b"SUM SUMS enum",
        &[(Full, 3), (Word, 8), (Full, 13)],
    );
    assert_kins(
        &rt,
        alloc,
        b"\"/*\"//\"\n==",
        &[(Text, 4), (Full, 9), (Full, 10)],
    );
    assert_kins(&rt, alloc, b"/* * / ** */\t/***/!", &[(Mark, 19)]);
    assert_kins(&rt, alloc, b"//\r!\n", &[]);
    Ok(())
}

fn assert_fault(
    rt: &impl Abort,
    alloc: std::alloc::Global,
    text: &[u8],
    fault: LexFault,
    at: usize,
) {
    match lex(alloc, text) {
        Err(LexError::Fault { what, place }) => {
            assert_eq!(rt; what, fault);
            assert_eq!(rt; place, at);
        }
        _ => rt.panic("no fault"),
    }
}

#[test]
fn first_faults(rt: HostRuntime) -> Result<(), Fail> {
    use LexFault::{BadByte, NestedComment, OpenComment, OpenString};
    let alloc = rt.alloc();
    assert_fault(&rt, alloc, b"a & b", BadByte, 2);
    assert_fault(&rt, alloc, b"a |", BadByte, 2);
    assert_fault(&rt, alloc, b"a <- b", BadByte, 2);
    assert_fault(&rt, alloc, b"a - b", BadByte, 2);
    assert_fault(&rt, alloc, b"'a", BadByte, 0);
    assert_fault(&rt, alloc, b"a / b", BadByte, 2);
    assert_fault(&rt, alloc, b"/* */*/", BadByte, 6);
    assert_fault(&rt, alloc, b"\xc3\xa4", BadByte, 0);
    assert_fault(&rt, alloc, b"INFO{/* x", OpenComment, 5);
    assert_fault(&rt, alloc, b"/*/", OpenComment, 0);
    assert_fault(&rt, alloc, b"/* /* x", OpenComment, 0);
    assert_fault(&rt, alloc, b"/* /*/", NestedComment, 3);
    assert_fault(&rt, alloc, b"a /* b /* c */ */", NestedComment, 7);
    assert_fault(&rt, alloc, b"a \"b", OpenString, 2);
    Ok(())
}
