//! What the published tables are.

ghost use Rattle.std.specs.Prelude.{◌≡◌, ℕ, ◌+◌, ◌≤◌, length, take, Some};
ghost use Rattle.path_selection.specs.Published.{table_at};
ghost use Rattle.table_publish.specs.Publications.{Publications, after, known_of};

/// The table that is published under a version is the one after so many of the lists as the version is above the first.
pub fn a_version_is_the_table_after_its_lists()
    ensures { (p : Publications) (n : ℕ) → n ≤ length p.lists
        → table_at (known_of p) (p.first + n) ≡ Some (after p.opening (take n p.lists)) }
{}
