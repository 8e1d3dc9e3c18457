//! String literals and character constants.

ghost use Rattle.std.specs.Prelude.{◌≡◌, ◌≤◌, ◌≢◌, List, ℕ, length};
ghost use Rattle.source_tokens.specs.Forms.{is_literal_body, has_mark};
ghost use Rattle.source_tokens.specs.Reading.{IsLongest};

use crate::splice::past_splices;

/// Where a literal ends: the bytes behind it, and whether its mark ended it.
#[derive(Clone, Copy, Debug)]
pub(crate) struct LiteralEnd<'a> {
    pub(crate) rest: &'a [u8],
    pub(crate) whole: bool,
}

/// The end of the literal with this mark, where its first mark stands before the bytes.
pub(crate) fn literal_end(mark: u8, bytes: &[u8]) -> LiteralEnd<'_>
    requires no_line { mark ≢ 10 }
    requires no_backslash { mark ≢ 92 }
    ensures longest { (body : List ℕ)
        × IsLongest (is_literal_body mark) bytes.now body result.rest.now
        × (result.whole ≡ has_mark mark body) }
    ensures within { length result.rest.now ≤ length bytes.now }
{
    let mut rest = bytes;
    while let [byte, behind @ ..] = rest {
        if *byte == b'\n' {
            break;
        }
        let behind = past_splices(behind);
        if *byte == mark {
            let rest = behind;
            return LiteralEnd { rest, whole: true };
        }
        if *byte != b'\\' {
            rest = behind;
            continue;
        }
        let [second, more @ ..] = behind else {
            let rest = behind;
            return LiteralEnd { rest, whole: false };
        };
        if *second == b'\n' {
            let rest = behind;
            return LiteralEnd { rest, whole: false };
        }
        rest = past_splices(more);
    }
    LiteralEnd { rest, whole: false }
}
