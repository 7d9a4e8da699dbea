//! The right to free a buffer. Unlike a `Lease`, it may be sent to another thread.
ghost use Rattle.std.specs.Prelude.{◌≡◌};
ghost use base.Fml.{ftrue};

use core::slots::Lease;
use std::alloc::Global;
use std::marker::Model;

/// The right to free a buffer of the global allocator.
pub(crate) struct FreeRight<T> {
    lease: Lease<T, Global>,
}

impl<T> Model for FreeRight<T> {
    ghost also_owns = { λ _. ftrue };
}

impl<T> FreeRight<T> {
    pub(crate) fn new(lease: Lease<T, Global>) -> FreeRight<T>
        ensures { result.lease ≡ lease }
    {
        FreeRight { lease }
    }

    pub(crate) fn into_lease(self) -> Lease<T, Global>
        ensures { result ≡ self.lease }
    {
        let FreeRight { lease } = self;
        lease
    }
}

unsafe impl<T> Send for FreeRight<T> {}
