ghost use Rattle.filter_expr.specs.Answers.{HasOneTree, HasOneAnswer, AnswersAreTheGrammars};

/// However a text is derived by the grammar, it has one tree. It does nothing.
pub fn a_text_has_one_tree()
    ensures { HasOneTree }
{}

/// The grammar allows one answer for a value. It does nothing.
pub fn a_value_has_one_answer()
    ensures { HasOneAnswer }
{}

/// What `parse` answers for a value is what the grammar allows. It does nothing.
pub fn answers_are_the_grammars()
    ensures { AnswersAreTheGrammars }
{}
