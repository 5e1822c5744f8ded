//! Compares the results of calls with the expected results.

use std::convert::AsSlice;

/// Compares the results of calls that do not allocate.
macro_rules! expect_returns {
    ($rt:ident; $($call:expr => $expected:expr,)+) => {
        $($crate::memory::expect::expect($rt, stringify!($call), $call, $expected);)+
    };
}

/// The same for calls that allocate, and return this error if an allocation fails: such calls are counted.
macro_rules! expect_allocating {
    ($rt:ident, $failed_allocations:ident, $error:expr; $($call:expr => $expected:expr,)+) => {
        $($crate::memory::expect::expect_items($rt, stringify!($call), $call, $expected, $error, $failed_allocations);)+
    };
}

pub(crate) use expect_allocating;
pub(crate) use expect_returns;

/// Prints the call if it did not return what is expected.
pub(crate) fn expect<A: PartialEq + Drop>(rt: &impl Print, call: &str, returned: A, expected: A) {
    if returned != expected {
        let _ = println!(rt; "wrong: {call}");
    }
}

/// As `expect`, for a call that returns an owned list, or `out_of_memory` if an allocation fails. This is
/// counted.
pub(crate) fn expect_items<T, B, E>(
    rt: &impl Print,
    call: &str,
    returned: Result<B, E>,
    expected: Result<&[T], E>,
    out_of_memory: E,
    failed_allocations: &mut usize,
)
where
    T: PartialEq,
    B: AsSlice<T> + Drop,
    E: PartialEq + Drop,
{
    let is_right = match (&returned, &expected) {
        (Ok(items), Ok(expected)) => items.as_slice() == *expected,
        (Err(error), _) if *error == out_of_memory => {
            *failed_allocations = failed_allocations.saturating_add(1);
            true
        }
        (Err(error), Err(expected)) => error == expected,
        _ => false,
    };
    expect(rt, call, is_right, true);
}
