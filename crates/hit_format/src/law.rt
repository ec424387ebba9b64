ghost use Rattle.std.specs.Prelude.{ℕ, List};
ghost use Rattle.search_base.specs.TermView.{TermView};
ghost use Rattle.hit_format.specs.declared.asked.Format.{Format};
ghost use Rattle.search_base.specs.Terms.{HaveSame};
ghost use Rattle.hit_format.specs.Laws.{IsFirstBest, IsSlice, ShowsAlike};
ghost use Rattle.hit_format.specs.Windows.{first_best};

/// A format without its markers and tags is a slice of the text. It does nothing.
pub fn formats_are_slices(text: &str)
    ensures { (terms : List TermView) (how : Format) → IsSlice text.now terms how }
{}

/// A window has the most matched words, and none before it has as many. It does nothing.
pub fn windows_are_the_first_best()
    ensures { (points : ℕ → ℕ) (n : ℕ) → IsFirstBest points n (first_best points n) }
{}

/// Which terms there are decides, and not their order or how often each stands there. It does nothing.
pub fn formats_go_by_the_terms(text: &str)
    ensures { (how : Format) (terms other : List TermView) → HaveSame terms other → ShowsAlike text.now how terms other }
{}
