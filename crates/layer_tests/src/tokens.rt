// The tokens of a C text, before the preprocessor.

use c_syntax::{LexFault, lex};
use std::alloc::Global;

// How many tokens a text has, its end too; none where it is refused.
fn count(alloc: Global, text: &[u8]) -> Option<usize> {
    if text.len() > 1000 {
        return None;
    }
    let tokens = lex(alloc, text).ok()?;
    Some(tokens.len())
}

#[test]
fn texts(rt: HostRuntime) {
    let alloc = rt.alloc();
    let text = b"x=0x1fU+'\\x41'; \"a\\0\" /* */ \"b\"EOF 010 8388608->NULL y<<=";
    assert!(rt; count(alloc, text) == Some(15));
    assert!(rt; lex(alloc, b"0xg").err() == Some(LexFault::BadChar(1)));
    assert!(rt; lex(alloc, b"int a=16777216;").err() == Some(LexFault::NumberRange(6)));
}
