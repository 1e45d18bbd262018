//! The assertions of these tests, proved once for all their callers: each `assert_eq!` would be proved again where it stands.
//! Each crate of tests has this file, letter by letter: a library of these would need the bound `Abort`, which the gate refuses outside tests.

ghost use Rattle.std.specs.Prelude.{◌≡◌, true, Ok, Some};

use std::fmt::Debug;
use std::process::Abort;

/// Fails where two values differ, and then shows the case and both values.
pub fn check_same<R: Abort, C: Copy + Debug, T: Copy + PartialEq + Debug>(
    rt: &R,
    case: C,
    found: T,
    wanted: T,
)
    ensures { T.eq found wanted ≡ true }
{
    assert_eq!(rt; found, wanted, "{case:?}");
}

/// Fails where something doesn't hold, and then shows the case.
pub fn check_that<R: Abort, C: Copy + Debug>(rt: &R, case: C, holds: bool)
    ensures { holds ≡ true }
{
    assert!(rt; holds, "{case:?}");
}

/// The value of an answer that is no error. At an error the test fails, and shows it.
pub fn expect_ok<R: Abort, T, E: Debug>(rt: &R, answer: Result<T, E>) -> T
    ensures { answer ≡ Ok result }
{
    answer.expect(rt, "no error")
}

/// The value that is there. Where there is none the test fails.
pub fn expect_some<R: Abort, T>(rt: &R, value: Option<T>) -> T
    ensures { value ≡ Some result }
{
    value.expect(rt, "a value")
}
