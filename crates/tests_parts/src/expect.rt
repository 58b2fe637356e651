//! Assertions of the tests. They are functions, because each `assert_eq!` in a test costs two to
//! three seconds of its proof.

ghost use Rattle.std.specs.Prelude.{◌≡◌, true};

use std::fmt::Debug;
use std::process::Abort;

/// Fails the test unless the condition holds; `what` names it.
pub(crate) fn expect(rt: &impl Abort, holds: bool, what: &str)
    ensures { holds ≡ true }
{
    assert!(rt; holds, "{what}");
}

/// Fails the test unless the value is the expected one; `what` names it.
pub(crate) fn expect_equal<T: PartialEq + Debug>(
    rt: &impl Abort,
    value: &T,
    expected: &T,
    what: &str,
)
    ensures { T.eq value.now expected.now ≡ true }
{
    assert!(rt;
        *value == *expected,
        "{what}: {value:?} in place of {expected:?}"
    );
}

/// Fails the test unless the bytes are the expected ones; `what` names them.
pub(crate) fn expect_bytes(rt: &impl Abort, bytes: &[u8], expected: &[u8], what: &str)
    ensures { bytes.now ≡ expected.now }
{
    expect_equal(rt, &bytes, &expected, what);
}

/// Fails the test unless the text is the expected one; `what` names it.
pub(crate) fn expect_text(rt: &impl Abort, text: &str, expected: &str, what: &str)
    ensures { text.now ≡ expected.now }
{
    expect_equal(rt, &text, &expected, what);
}
