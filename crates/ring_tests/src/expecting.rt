//! Comparing what came with what is wanted.

use std::fmt::Debug;
use std::process::Abort;

/// Ends the test where the two differ, and shows them.
pub(crate) fn expect<T: PartialEq + Debug>(rt: &impl Abort, got: &T, wanted: &T) {
    assert_eq!(rt; got, wanted);
}
