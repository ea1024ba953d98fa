//! What the tests share.
use std::fmt::Debug;
use std::process::Abort;

// What came is what was wanted. The assertion is proved here once, for values of any type.
pub(crate) fn check_same<T: Copy + PartialEq + Debug>(rt: &impl Abort, came: T, want: T) {
    assert_eq!(rt; came, want);
}

// The same, at this place of a table or a row, which is printed beside both where they differ.
pub(crate) fn check_at<A, T>(rt: &impl Abort, at: A, came: T, want: T)
where
    A: Copy + PartialEq + Debug,
    T: Copy + PartialEq + Debug,
{
    check_same(rt, (at, came), (at, want));
}
