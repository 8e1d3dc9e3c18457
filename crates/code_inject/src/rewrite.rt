//! Heads of statements, and the calls that take their places.

ghost use Rattle.std.specs.Prelude.{◌≡◌, ◌≤◌, ◌++◌, OnOk, OnErr, length, take, vec_len};
ghost use Rattle.code_inject.specs.Rewrites.{call_by_id, rewritten_head, rewritten_from, HeadsFrom};

use itoa::Buffer;
use std::alloc::AllocError;

/// The head of a statement in a source, and the id of its message.
#[derive(Clone, Copy, Debug, PartialEq, Eq)]
pub(crate) struct Rewrite {
    /// Where the head begins.
    pub start: usize,
    /// The place behind it.
    pub head: usize,
    pub id: u32,
}

// The call that takes the place of these bytes. After an error a part may stand behind what was
// there, here and below.
fn push_call(out: &mut Vec<u8>, id: u32, head: &[u8]) -> Result<(), AllocError>
    ensures ok { OnOk result (out.new.items ≡ out.old.items ++ call_by_id id head.now) }
    ensures err { OnErr result (take (vec_len out.old) out.new.items ≡ out.old.items) }
{
    let mut buffer = Buffer::new();
    out.extend_from_slice(b"NANO_LOG_CALL(")?;
    out.extend_from_slice(buffer.format(id).as_bytes())?;
    for byte in head {
        if *byte == b'\n' {
            out.push(b'\n')?;
        }
    }
    Ok(())
}

fn push_head(
    out: &mut Vec<u8>,
    source: &[u8],
    from: usize,
    rewrite: Rewrite,
) -> Result<(), AllocError>
    requires kept { from ≤ rewrite.start }
    requires head { rewrite.start ≤ rewrite.head }
    requires within { rewrite.head ≤ length source.now }
    ensures ok { OnOk result (out.new.items ≡ out.old.items ++ rewritten_head source.now from rewrite) }
    ensures err { OnErr result (take (vec_len out.old) out.new.items ≡ out.old.items) }
{
    out.extend_from_slice(&source[from..rewrite.start])?;
    push_call(out, rewrite.id, &source[rewrite.start..rewrite.head])?;
    Ok(())
}

fn push_rewritten(out: &mut Vec<u8>, source: &[u8], rewrites: &[Rewrite]) -> Result<(), AllocError>
    requires { HeadsFrom 0 rewrites.now (length source.now) }
    ensures ok { OnOk result (out.new.items ≡ out.old.items ++ rewritten_from source.now 0 rewrites.now) }
    ensures err { OnErr result (take (vec_len out.old) out.new.items ≡ out.old.items) }
{
    let mut from = 0;
    for rewrite in rewrites {
        push_head(out, source, from, *rewrite)?;
        from = rewrite.head;
    }
    out.extend_from_slice(&source[from..])?;
    Ok(())
}

/// Appends the source, where a call takes the place of each head. After an error `out` is as before.
pub(crate) fn append_rewritten(
    out: &mut Vec<u8>,
    source: &[u8],
    rewrites: &[Rewrite],
) -> Result<(), AllocError>
    requires { HeadsFrom 0 rewrites.now (length source.now) }
    ensures ok { OnOk result (out.new.items ≡ out.old.items ++ rewritten_from source.now 0 rewrites.now) }
    ensures err { OnErr result (out.new.items ≡ out.old.items) }
{
    let before = out.len();
    let pushed = push_rewritten(out, source, rewrites);
    if pushed.is_err() {
        out.truncate(before);
    }
    pushed
}
