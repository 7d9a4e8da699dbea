//! The shape of a code block's decoding.
ghost use Rattle.std.specs.Prelude.{◌≡◌, ◌↔◌, IsSome, IfSome};
ghost use Rattle.model_receiver.specs.HalfIteration.{IsShape, shape_of};

use model_receiver::CheckKind;
use qpp_table::qpp;
use std::marker::Model;

/// The size of a code block, its fillers and check, the windows of a half iteration, and the limit of
/// iterations.
#[derive(Clone, Copy, Debug, PartialEq, Eq)]
pub struct Shape {
    k: usize,
    f: usize,
    kind: CheckKind,
    windows: usize,
    limit: usize,
}

impl Model for Shape {
    ghost use Rattle.model_receiver.specs.HalfIteration.{Shape as Numbers, IsShape, shape_of};

    ghost Value = { Numbers };

    ghost view = { λ s. shape_of s.k s.f s.kind s.windows s.limit };

    ghost invariant = { λ s. IsShape (shape_of s.k s.f s.kind s.windows s.limit) };

    ghost inverse = { λ s. record {
      k = s.k;
      f = s.f;
      kind = s.kind;
      windows = s.windows;
      limit = s.limit;
    } };
}

impl Shape {
    /// Returns a shape, and `None` exactly where `k` isn't one of the 188 sizes, or `f` isn't below `k`, or
    /// `windows` is 0, above 64, no divisor of `k` or more than `k` / 8, or `limit` isn't 1 to 16.
    pub fn new(k: usize, f: usize, kind: CheckKind, windows: usize, limit: usize) -> Option<Shape>
        ensures some { IsSome result ↔ IsShape (shape_of k f kind windows limit) }
        ensures shape { IfSome result (λ s. s ≡ shape_of k f kind windows limit) }
    {
        if qpp(k).is_none() || f >= k {
            return None;
        }
        if windows == 0 || windows > 64 {
            return None;
        }
        if k % windows != 0 || 8 * windows > k {
            return None;
        }
        if limit == 0 || limit > 16 {
            return None;
        }
        Some(Shape {
            k,
            f,
            kind,
            windows,
            limit,
        })
    }

    /// Returns the size K of the code block.
    pub fn k(&self) -> usize
        ensures value { result ≡ self.now.k }
        ensures lawful { IsShape self.now }
    {
        self.k
    }

    /// Returns the number of fillers.
    pub fn f(&self) -> usize
        ensures value { result ≡ self.now.f }
        ensures lawful { IsShape self.now }
    {
        self.f
    }

    /// Returns the check that the code block carries.
    pub fn kind(&self) -> CheckKind
        ensures value { result ≡ self.now.kind }
        ensures lawful { IsShape self.now }
    {
        self.kind
    }

    /// Returns the number of windows of a half iteration.
    pub fn windows(&self) -> usize
        ensures value { result ≡ self.now.windows }
        ensures lawful { IsShape self.now }
    {
        self.windows
    }

    /// Returns the greatest number of iterations.
    pub fn limit(&self) -> usize
        ensures value { result ≡ self.now.limit }
        ensures lawful { IsShape self.now }
    {
        self.limit
    }
}
