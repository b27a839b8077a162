//! That every frame has a walk, whatever its lookups see.

ghost use Rattle.std.specs.Prelude.{ℕ, List};
ghost use Rattle.net_frames.specs.Captured.{Captured};
ghost use Rattle.path_selection.specs.Paths.{ServicePath};
ghost use Rattle.sfc_config.specs.Parts.{Parts};
ghost use Rattle.forwarder.specs.Walks.{IsWalk, Walk};
ghost use Rattle.run_laws.specs.Lookups.{AreFirst};

/// Every frame has a walk, under any setup, whose lookups see these tables one after the other. The TTL ends it.
pub fn every_frame_has_a_walk()
    ensures { (setup : Parts) (frame : Captured) (at : ℕ → List ServicePath) → (walk : Walk) × IsWalk setup frame walk × AreFirst at walk.tables }
{}
