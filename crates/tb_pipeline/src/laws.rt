//! A law of the rule of relays. The function computes nothing: its contract is the law.
ghost use Rattle.std.specs.Prelude.{◌≡◌, ℕ, ◌<◌, List};
ghost use Rattle.tb_pipeline.specs.declared.known.Item.{Item};
ghost use Rattle.tb_pipeline.specs.declared.known.Known.{Known};
ghost use Rattle.tb_pipeline.specs.Relays.{IsRelayed, SomeHasEnded, times_taken};

/// Where a hand of a relay has ended, more items were popped than there are numbers: each number was taken,
/// by one hand, and once.
pub fn each_number_was_taken_where_a_hand_has_ended()
    ensures popped { (items : List Item) (views : List Known) (state : IsRelayed items views)
        (count hands : ℕ) → SomeHasEnded count hands views → count < state.g }
    ensures taken { (items : List Item) (views : List Known) (state : IsRelayed items views)
        (count hands : ℕ) → SomeHasEnded count hands views
        → (number : ℕ) → number < count → times_taken number views ≡ 1 }
{}
