ghost use Rattle.std.specs.Prelude.{◌≡◌, ◌<◌, ◌≤◌, ◌↔◌, nat_lt, length, MatchOption, IsTrue};
ghost use Rattle.std.specs.List.{HoldsAt};
ghost use Rattle.std.specs.List.Sorted.{IsPartitionPoint};
ghost use Rattle.path_selection.specs.Answers.{NoneServes, Serves};
ghost use Rattle.path_selection.specs.Paths.{FallsBelow, IsTable};

use crate::hops::HopRow;
use crate::paths::Path;
use wire_base::Spi;

/// Whether the service indexes fall strictly, all below the top and none of them 0.
pub fn falls_below(top: u16, rows: &[HopRow]) -> bool
    ensures { IsTrue result ↔ FallsBelow top rows.now }
{
    match rows.split_first() {
        None => true,
        Some((row, rest)) => {
            let si = u16::from(row.si);
            si < top && si > 0 && falls_below(si, rest)
        }
    }
}

/// The hop that serves a service index, found by halves.
pub fn serving_row(rows: &[HopRow], si: u8) -> Option<HopRow>
    requires { FallsBelow 256 rows.now }
    ensures { MatchOption result (NoneServes rows.now si) (Serves rows.now si) }
{
    let place = rows.partition_point(
        |row: &HopRow| -> bool
            ensures { result ≡ nat_lt si row.now.si }
        { row.si > si },
    );
    if place == rows.len() {
        return None;
    }
    Some(rows[place])
}

/// How many paths have a smaller identifier, found by halves.
pub fn place_of(paths: &[Path], spi: Spi) -> usize
    requires { IsTable paths.now }
    ensures bound { result ≤ length paths.now }
    ensures point { IsPartitionPoint (λ path. path.spi < spi) (λ path. spi ≤ path.spi) paths.now result }
{
    let number = spi.number();
    paths.partition_point(
        |path: &Path| -> bool
            ensures { result ≡ nat_lt path.now.spi number }
        { path.spi().number() < number },
    )
}

/// Whether the path at a place has this identifier.
pub fn has_at(paths: &[Path], place: usize, spi: Spi) -> bool
    ensures { IsTrue result ↔ (place < length paths.now) × HoldsAt (λ path. path.spi ≡ spi) paths.now place }
{
    place < paths.len() && paths[place].spi().number() == spi.number()
}
