//! Laws of the deal.
ghost use Rattle.std.specs.Prelude.{◌≡◌, ℕ, ◌+◌, ◌*◌, ◌/◌, ◌<◌, ◌≤◌, List, [], length, slice_index_or};
ghost use Prim.Native.Nat.{◌∣◌};
ghost use Rattle.cell_shares.specs.Deal.{deal};
ghost use Rattle.cell_shares.specs.Orders.{place_in, IsOrderOf};
ghost use Rattle.cell_shares.specs.declared.order.Order.{Order};

/// A deal is undone in one way: two lists of one length that are dealt alike are the same.
pub fn one_list_is_dealt<T>()
    ensures { (order : Order) (m : ℕ) (v u : List T) → 1 ≤ m → m ∣ length v → length u ≡ length v
        → IsOrderOf (length v) order → deal order m v ≡ deal order m u → v ≡ u }
{}

/// List t of a deal to m shares has W = K/m values, of which value j is the one at `order(t W + j)`.
pub fn values_are_dealt_by_place<T>()
    ensures width { (order : Order) (m t : ℕ) (v : List T) → m ∣ length v → IsOrderOf (length v) order → t < m
        → length (slice_index_or (deal order m v) t []) ≡ length v / m }
    ensures value { (order : Order) (m t j : ℕ) (v : List T) (x : T)
        → m ∣ length v → IsOrderOf (length v) order → t < m → j < length v / m
        → slice_index_or (slice_index_or (deal order m v) t []) j x
        ≡ slice_index_or v (place_in order (t * (length v / m) + j)) x }
{}
