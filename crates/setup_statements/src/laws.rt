//! What holds of the words of statements.

ghost use Rattle.std.specs.Prelude.{◌≡◌, ℕ, List};
ghost use Rattle.text_words.specs.Pieces.{words_of};
ghost use Rattle.setup_statements.specs.declared.statements.Statement.{Statement as OneStatement};
ghost use Rattle.setup_statements.specs.Statements.{IsStatement, Spells, line_of};

/// The words of a line spell at most one statement.
pub fn a_line_spells_one_statement()
    ensures { (words : List (List ℕ)) (s t : OneStatement) → Spells words s → Spells words t → s ≡ t }
{}

/// The printed line of a statement is read as that statement.
pub fn a_printed_line_is_read_again()
    ensures { (s : OneStatement) → IsStatement s → Spells (words_of (line_of s)) s }
{}
