//! The assertions of a test. Each is a function: an `assert_eq!` is proved where it is used, for
//! two to three seconds of a processor each.

ghost use Rattle.std.specs.Prelude.{◌≡◌, true};

use std::fmt::Debug;
use std::process::Abort;

/// Ends the test unless it holds; `what` says what it is.
pub(crate) fn expect(rt: &impl Abort, holds: bool, what: &str)
    ensures { holds ≡ true }
{
    assert!(rt; holds, "{what}");
}

/// Ends the test unless the value is the expected one; `what` says what it is.
pub(crate) fn expect_equal<T: PartialEq + Debug>(
    rt: &impl Abort,
    value: &T,
    expected: &T,
    what: &str,
) {
    assert_eq!(rt; *value, *expected, "{what}");
}
