//! Sources: what they are made of.

use crate::tables::{Told, check_rows, text_of};
use source_tokens::{TokenList, parts, tokens};
use std::alloc::Global;
use std::fmt::Write;
use std::test::Fail;

/// The kinds of tokens and their ends, where each begins at the end of the one before.
fn kinds_of(alloc: Global, list: &TokenList) -> Result<String, Fail> {
    let mut text = String::new(alloc);
    let mut start = 0;
    for token in list.as_slice() {
        if token.start != start {
            return Err("tokens don't meet".into());
        }
        start = token.end;
        let kind = token.kind;
        write!(text, "{kind:?} {start} ")?;
    }
    Ok(String::from_str(alloc, text.trim_end())?)
}

/// Sources, and the tokens, comments and spaces that they are made of.
const TOKENS: &str = r#"
/\␊/a\␊b␊c|LineComment 8 NewLine 9 Identifier 10
\␊a\␊|Space 2 Identifier 5;;\\␊␊|Punctuator(92) 3 NewLine 4
:\␊: :|Punctuator(58) 3 Punctuator(58) 4 Space 5 Punctuator(58) 6;;"a\\␊b"c|StringLiteral 7 Identifier 8
R"(\␊)";|RawString 7 Punctuator(59) 8;;u\␊8R\␊"(\␊)"\␊;|RawString 15 Punctuator(59) 16
R"x()")x"y|RawString 9 Identifier 10;;LR"(a|BrokenRawString 5;;UR"a b("|Identifier 2 StringLiteral 8
R"\␊("|Identifier 1 StringLiteral 6;;R"0123456789abcdef()0123456789abcdef"|RawString 37
R"0123456789abcdefg()0123456789abcdefg"|Identifier 1 StringLiteral 39;;R""(a)""|RawString 8
aR"("u8R"()"|Identifier 2 StringLiteral 5 RawString 12;;R"|Identifier 1 BrokenString 2;;1'000|Number 5
1'\␊a 'a'|Number 5 Space 6 CharacterConstant 9;;1''a'|Number 1 CharacterConstant 3 Identifier 4 BrokenConstant 5
1'+'|Number 1 CharacterConstant 4;;1e+5.p-_x$|Number 9 Identifier 10
.5e+.+.a|Number 5 Punctuator(43) 6 Punctuator(46) 7 Identifier 8;;0x1e'+1|Number 4 BrokenConstant 7
..5é|Punctuator(46) 1 Number 3 Identifier 5;;"a\\"b|StringLiteral 5 Identifier 6
'\\''\''|CharacterConstant 4 CharacterConstant 8;;"a␊b|BrokenString 2 NewLine 3 Identifier 4;;"a\|BrokenString 3
'\"'"'"|CharacterConstant 4 StringLiteral 7;;"/*"*/|StringLiteral 4 Punctuator(42) 5 Punctuator(47) 6
/*"*/"|BlockComment 5 BrokenString 6;;/*/ a|BlockComment 5
/**/ // 'a␊|BlockComment 4 Space 5 LineComment 10 NewLine 11;;|"#;

struct TokensTold;

impl Told for TokensTold {
    fn told(alloc: Global, source: &str) -> Result<String, Fail> {
        let source = text_of(alloc, source)?;
        kinds_of(alloc, &tokens(alloc, source.as_bytes())?)
    }
}

/// The same of sources with control bytes.
const CONTROLS: &str = "\
/\\\r␊*a*\\␊/b|BlockComment 10 Identifier 11;;a\\␊b\\\r␊c+|Identifier 8 Punctuator(43) 9;;\
\\\r|Punctuator(92) 1 Space 2;;R\"\x7f(a)\"|Identifier 1 StringLiteral 7";

/// The same of sources with directives.
const PARTS: &str = r#"
#a /*␊*/ b␊c|Directive 10 NewLine 11 Identifier 12;; /**/#a\␊b|Space 1 BlockComment 5 Directive 10
a /*␊*/#␊|Identifier 1 Space 2 BlockComment 7 Punctuator(35) 8 NewLine 9
/*␊*/#␊#|BlockComment 5 Directive 6 NewLine 7 Directive 8;;#R"(␊)"␊;|Directive 7 NewLine 8 Punctuator(59) 9
%:a␊#|Punctuator(37) 1 Punctuator(58) 2 Identifier 3 NewLine 4 Directive 5;;#|Directive 1"#;

/// The same of sources with the byte order mark.
const MARKS: &str = "\
\u{feff}#a // b␊|Space 3 Directive 10 NewLine 11;;\
a\u{feff}#|Identifier 4 Punctuator(35) 5";

struct PartsTold;

impl Told for PartsTold {
    fn told(alloc: Global, source: &str) -> Result<String, Fail> {
        let source = text_of(alloc, source)?;
        kinds_of(alloc, &parts(alloc, source.as_bytes())?)
    }
}

#[test]
fn sources_are_parted(rt: HostRuntime) -> Result<(), Fail> {
    check_rows::<TokensTold, _>(&rt, TOKENS.trim_start())?;
    check_rows::<TokensTold, _>(&rt, CONTROLS)?;
    check_rows::<PartsTold, _>(&rt, PARTS.trim_start())?;
    check_rows::<PartsTold, _>(&rt, MARKS)
}
