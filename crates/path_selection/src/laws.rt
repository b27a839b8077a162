//! That a table answers once.

ghost use Rattle.std.specs.Prelude.{◌≡◌, ℕ, List};
ghost use Rattle.path_selection.specs.declared.answers.Answer.{Answer};
ghost use Rattle.path_selection.specs.Answers.{IsAnswer};
ghost use Rattle.path_selection.specs.Paths.{IsTable, ServicePath};

/// A table has at most one answer for an identifier and an index; `Table::answer` gives one.
pub fn a_table_has_one_answer()
    ensures { (table : List ServicePath) (spi si : ℕ) (one other : Answer) → IsTable table
        → IsAnswer table spi si one → IsAnswer table spi si other → one ≡ other }
{}
