//! What holds of walks, whatever walks them.

ghost use Rattle.std.specs.Prelude.{◌≡◌, ◌≤◌, ℕ, List, length, All};
ghost use Rattle.net_frames.specs.Captured.{Captured};
ghost use Rattle.classifier.specs.Rules.{AreRules};
ghost use Rattle.classifier.specs.Stations.{Station};
ghost use Rattle.classifier.specs.Verdicts.{Start};
ghost use Rattle.classifier.specs.declared.verdicts.Verdict.TheVariants.{Path};
ghost use Rattle.nsh_metadata.specs.declared.contexts.Context.{Context};
ghost use Rattle.path_selection.specs.Paths.{IsTable, ServicePath};
ghost use Rattle.path_selection.specs.Published.{Published};
ghost use Rattle.record_text.specs.declared.records.End.{End};
ghost use Rattle.record_text.specs.declared.records.Record.{Record};
ghost use Rattle.service_functions.specs.declared.functions.Function.{Function};
ghost use Rattle.sfc_config.specs.Parts.{Parts};
ghost use Rattle.wire_base.specs.declared.ids.InstanceId.{InstanceId};
ghost use Rattle.forwarder.specs.Records.{IsRecord};
ghost use Rattle.forwarder.specs.Walks.{IsWalk, Walk, WalkFrom};
ghost use Rattle.forwarder.specs.Ways.{GoesStraight, IndexesFall, Unchanged, straight};

use classifier::a_frame_has_one_verdict;

/// Over given tables a frame has at most one walk; so it has from any station.
pub fn a_frame_has_one_walk()
    ensures walk { (setup : Parts) (frame : Captured) (x y : Walk) → All IsTable x.tables → IsWalk setup frame x → IsWalk setup frame y
        → x.tables ≡ y.tables → x ≡ y }
    ensures from { (functions : List Function) (s : Station) (later others : List Station) (tables : List (List ServicePath)) (end other : End) (visits seen : List InstanceId)
        → All IsTable tables → WalkFrom functions s later tables end visits → WalkFrom functions s others tables other seen
        → (later ≡ others) × (end ≡ other) × (visits ≡ seen) }
{
    a_frame_has_one_verdict();
}

/// A walk has at most 63 turns, one at each station, and at most 62 lookups.
pub fn a_walk_is_short()
    ensures turns { (setup : Parts) (frame : Captured) (walk : Walk) → AreRules setup.rules → IsWalk setup frame walk → length walk.stations ≤ 63 }
    ensures lookups { (setup : Parts) (frame : Captured) (walk : Walk) → AreRules setup.rules → IsWalk setup frame walk → length walk.tables ≤ 62 }
{}

/// The service index never rises along a walk, and falls at every instance that passes the frame.
pub fn the_index_falls()
    ensures { (setup : Parts) (frame : Captured) (walk : Walk) → All IsTable walk.tables → IsWalk setup frame walk → IndexesFall walk.stations }
{}

/// Where the path of a frame stays the same under way, from the first version that its record names to the last, its instances are visited
/// in order: the visits are those of the first hops from the serving one on, and of all of them where the frame goes out. Where it is dropped, its TTL is
/// spent, the hop behind the visits has no instance, or the last visited one drops it.
pub fn a_frame_goes_straight()
    ensures { (setup : Parts) (frame : Captured) (worker : ℕ) (known : List Published) (before after : ℕ) (r : Record) (path : ServicePath) (spi si ttl : ℕ) (context : Context)
        → All (λ (p : Published). IsTable p.table) known → IsRecord setup frame worker known before after r → Unchanged known r path
        → Start setup.rules frame.bytes (Path spi si ttl context) → GoesStraight (straight path.rows si) r.visits.items r.end }
{
    a_frame_has_one_verdict();
}
