//! Laws of the places of positions. The function computes nothing: its contract is the law.
ghost use Rattle.std.specs.Prelude.{◌≡◌, ◌<◌, ℕ, Contains};
ghost use Rattle.model_sender.specs.Interleaver.{sizes};
ghost use Rattle.model_receiver.specs.HalfIteration.{order, position_of};

/// In each half, the positions of a block of one of the 188 sizes map one-to-one onto its places.
pub fn positions_have_places()
    ensures below { (k h i : ℕ) → Contains sizes k → i < k → order k h i < k }
    ensures position { (k h n : ℕ) → Contains sizes k → n < k → position_of k h n < k }
    ensures place { (k h n : ℕ) → Contains sizes k → n < k → order k h (position_of k h n) ≡ n }
    ensures back { (k h i : ℕ) → Contains sizes k → i < k → position_of k h (order k h i) ≡ i }
{}
