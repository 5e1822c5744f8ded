//! The kernels with which calls are tested. `Compact` is not among them: it differs from `Plain` only in
//! its `fill`, whose contract states the text.

use std::alloc::AllocError;

/// A kernel, by itself or inside `CheckFirst`.
#[derive(Clone, Copy, Debug)]
pub struct KernelCase {
    pub name: &'static str,
    /// The part of a result that is for this kernel: 0 for `Plain`, 1 for 16 lanes, and 2 for 32.
    pub part: usize,
    /// Whether it checks the whole text before it decodes it.
    pub checks_first: bool,
}

impl KernelCase {
    pub const fn new(name: &'static str, part: usize, checks_first: bool) -> KernelCase {
        KernelCase {
            name,
            part,
            checks_first,
        }
    }
}

/// Calls a function with each kernel, alone and, except for `Interleaved`, inside `CheckFirst`, and evaluates to an
/// array of the results. The kernel's `KernelCase` is passed as the last argument. Square brackets contain further
/// generic arguments, after the kernel's type. With a `?` at the end, returns the first error after all calls.
#[macro_export]
macro_rules! for_each_kernel {
    ($call:ident $([$($more:tt),*])? ($($argument:expr),*) ?) => {
        $crate::testing::first_error($crate::for_each_kernel!($call $([$($more),*])? ($($argument),*)))?
    };
    ($call:ident $([$($more:tt),*])? ($($argument:expr),*)) => {
        [
            $call::<const_hex::Plain $($(, $more)*)?>($($argument,)*
                $crate::testing::KernelCase::new("Plain", 0, false)),
            $call::<const_hex::Lanes16 $($(, $more)*)?>($($argument,)*
                $crate::testing::KernelCase::new("Lanes16", 1, false)),
            $call::<const_hex::Lanes32 $($(, $more)*)?>($($argument,)*
                $crate::testing::KernelCase::new("Lanes32", 2, false)),
            $call::<const_hex::Interleaved $($(, $more)*)?>($($argument,)*
                $crate::testing::KernelCase::new("Interleaved", 2, false)),
            $call::<const_hex::CheckFirst<const_hex::Plain> $($(, $more)*)?>($($argument,)*
                $crate::testing::KernelCase::new("CheckFirst<Plain>", 0, true)),
            $call::<const_hex::CheckFirst<const_hex::Lanes16> $($(, $more)*)?>($($argument,)*
                $crate::testing::KernelCase::new("CheckFirst<Lanes16>", 1, true)),
            $call::<const_hex::CheckFirst<const_hex::Lanes32> $($(, $more)*)?>($($argument,)*
                $crate::testing::KernelCase::new("CheckFirst<Lanes32>", 2, true)),
        ]
    };
}

/// Returns the first error among the results of calls, if there is one.
pub fn first_error(calls: [Result<(), AllocError>; 7]) -> Result<(), AllocError> {
    for call in calls {
        call?;
    }
    Ok(())
}
