//! Giving out writers.

ghost use Rattle.std.specs.Prelude.{◌≡◌, ◌↔◌, ◌∷◌, false, OnErr, IfOk, IsErrOf};
ghost use Rattle.log_ends.specs.declared.end.End.TheVariants.{Writer};
ghost use Rattle.log_ends.specs.Sessions.{writers_left, is_session_ended, HasNoneLeft, IsSameSession, GivesBoxed};

use crate::end::End;
use crate::session::{SessionEnd, WriterFault};
use std::alloc::{AllocFailed, Global};

impl SessionEnd {
    /// Gives out the next writer.
    ///
    /// # Errors
    ///
    /// There is none, or the session has ended; or there is no memory. The session is as it was then.
    pub fn next_writer(&mut self, alloc: Global) -> Result<Box<End>, WriterFault>
        ensures given { IfOk result (λ end. GivesBoxed self.old end.value self.new) }
        ensures none { OnErr result (IsSameSession self.old self.new) }
        ensures spent { IsErrOf result WriterFault.NoWriter ↔ HasNoneLeft self.old }
    {
        if self.ended {
            return Err(WriterFault::NoWriter);
        }
        let Some(writer) = self.left.pop_front() else {
            return Err(WriterFault::NoWriter);
        };
        match Box::new(alloc, End::Writer(writer)) {
            Ok(end) => Ok(end),
            Err(
                AllocFailed {
                    value: End::Writer(writer),
                },
            ) => {
                self.left.push_front_reserved(writer);
                Err(WriterFault::NoMemory)
            }
            Err(_) => unreachable!(),
        }
    }
}
