ghost use Rattle.std.specs.Prelude.{ℕ, List};
ghost use Rattle.doc_sets.specs.Sets.{IsIncreasing};
ghost use Rattle.search_base.specs.declared.cost_key.CostKey.{CostKey};
ghost use Rattle.bucket_sort.specs.Laws.{GivesTheWindow, HasItsHits, OpensFew, IsPlaceOfFirst};

/// What a stream gives, and what it has opened after each hit, is of its window. It does nothing.
pub fn streams_give_their_window()
    ensures { (key : ℕ → ℕ → CostKey) (levels : ℕ) (universe : List ℕ) (offset limit : ℕ) → IsIncreasing universe
        → GivesTheWindow key levels universe offset limit }
{}

/// A window has all its hits, in order. It does nothing.
pub fn windows_have_their_hits()
    ensures { (key : ℕ → ℕ → CostKey) (levels : ℕ) (universe : List ℕ) (offset limit : ℕ) → IsIncreasing universe
        → HasItsHits key levels universe offset limit }
{}

/// Few classes are opened for a window. It does nothing.
pub fn windows_open_few_classes()
    ensures { (key : ℕ → ℕ → CostKey) (levels : ℕ) (universe : List ℕ) (offset end : ℕ) → IsIncreasing universe
        → OpensFew key levels universe offset end }
{}

/// The place of a class is that of its first document. It does nothing.
pub fn places_are_of_first_documents()
    ensures { (key : ℕ → ℕ → CostKey) (levels : ℕ) (universe : List ℕ) → IsPlaceOfFirst key levels universe }
{}
