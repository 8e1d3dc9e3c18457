//! Block comments.

ghost use Rattle.std.specs.Prelude.{◌≤◌, length};
ghost use Rattle.source_tokens.specs.Forms.{is_comment_body, is_comment_tail};
ghost use Rattle.source_tokens.specs.Reading.{EndsLongest};

use crate::splice::past_splices;

/// The bytes behind the `*/` of a comment, or behind all bytes, where its `/*` stands before them.
pub(crate) fn past_comment_body(bytes: &[u8]) -> &[u8]
    ensures longest { EndsLongest is_comment_body bytes.now result.now }
    ensures within { length result.now ≤ length bytes.now }
{
    let mut rest = bytes;
    let mut star = false;
    while let [byte, behind @ ..] = rest {
        rest = past_splices(behind);
        if star && *byte == b'/' {
            break;
        }
        star = *byte == b'*';
    }
    rest
}

/// The bytes behind a comment, where its `/` stands before them and its `*` is the first of them.
pub(crate) fn past_comment(bytes: &[u8]) -> &[u8]
    ensures longest { EndsLongest is_comment_tail bytes.now result.now }
    ensures within { length result.now ≤ length bytes.now }
{
    match bytes {
        [_, body @ ..] => past_comment_body(past_splices(body)),
        [] => bytes,
    }
}
