//! What holds of instances, whatever serves them.

ghost use Rattle.std.specs.Prelude.{◌≡◌, false};
ghost use Rattle.net_frames.specs.Captured.{Captured};
ghost use Rattle.nsh_metadata.specs.Header.{Header};
ghost use Rattle.service_functions.specs.Functions.{on_metadata};
ghost use Rattle.service_functions.specs.declared.functions.Function.{Function};
ghost use Rattle.service_functions.specs.declared.answers.Served.{Served};
ghost use Rattle.sfc_proxy.specs.Instances.{ServeAware, ServeUnaware};

/// A function that is not on metadata serves a frame the same, whether its instance sees the header or
/// stands behind a proxy and whatever the headers are: both pass the same frame or drop it for the same
/// reason. Of one header both leave the same.
pub fn aware_and_unaware_agree()
    ensures frame { (f : Function) (frame x y : Captured) (header other i j : Header) (a b : Served) →
        on_metadata f ≡ false → ServeAware f frame header a x i → ServeUnaware f frame other b y j → (a ≡ b) × (x ≡ y) }
    ensures header { (f : Function) (frame x y : Captured) (header i j : Header) (a b : Served) →
        on_metadata f ≡ false → ServeAware f frame header a x i → ServeUnaware f frame header b y j → i ≡ j }
{}

/// An instance of either kind serves in one way.
pub fn one_service()
    ensures aware { (f : Function) (frame x y : Captured) (header i j : Header) (a b : Served) →
        ServeAware f frame header a x i → ServeAware f frame header b y j → (a ≡ b) × (x ≡ y) × (i ≡ j) }
    ensures unaware { (f : Function) (frame x y : Captured) (header i j : Header) (a b : Served) →
        ServeUnaware f frame header a x i → ServeUnaware f frame header b y j → (a ≡ b) × (x ≡ y) × (i ≡ j) }
{}
