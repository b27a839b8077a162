//! Where walks over a static path end, whatever walks them, and that a forwarder walks so.

ghost use Rattle.std.specs.Prelude.{◌≡◌, ◌≤◌, ◌<◌, ℕ, [], All};
ghost use Rattle.net_frames.specs.Captured.{Captured};
ghost use Rattle.nsh_metadata.specs.declared.contexts.Context.TheVariants.{Items};
ghost use Rattle.record_text.specs.declared.records.End.{End};
ghost use Rattle.record_text.specs.declared.records.End.TheVariants.{Egress, Drop};
ghost use Rattle.record_text.specs.declared.records.Reason.TheVariants.{Ttl};
ghost use Rattle.classifier.specs.Verdicts.{Start};
ghost use Rattle.classifier.specs.declared.verdicts.Verdict.TheVariants.{Path};
ghost use Rattle.sfc_config.specs.Parts.{Parts};
ghost use Rattle.forwarder.specs.Walks.{IsWalk, Walk};
ghost use Rattle.static_walks.specs.Walks.{WalksTo, here, static_table};

use classifier::a_frame_has_one_verdict;

/// A frame leaves a path of up to 61 functions, and runs out of TTL on a longer one.
pub fn sixty_one_functions_spend_the_ttl()
    ensures leaves { (spi count : ℕ) (frame : Captured) (end : End) → 1 ≤ count → count ≤ 61
        → WalksTo spi count frame end → end ≡ Egress }
    ensures spends { (spi count : ℕ) (frame : Captured) (end : End) → 61 < count → count ≤ 255
        → WalksTo spi count frame end → end ≡ Drop Ttl }
{}

/// The walk that a forwarder without instances makes of a frame, where a rule puts it on the path and each lookup sees the path's
/// table, is such a walk.
pub fn a_bare_forwarder_walks_so()
    ensures { (spi count : ℕ) (setup : Parts) (frame : Captured) (walk : Walk) → setup.instances ≡ [] → setup.ingress ≡ here
        → Start setup.rules frame.bytes (Path spi 255 63 (Items [])) → All (λ table. table ≡ static_table spi count) walk.tables
        → IsWalk setup frame walk → WalksTo spi count frame walk.end }
{
    a_frame_has_one_verdict();
}
