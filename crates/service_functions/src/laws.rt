//! What holds of functions, whatever serves them.

ghost use Rattle.std.specs.Prelude.{◌≡◌, ℕ, List, [], ◌∷◌, ◌++◌, false};
ghost use Rattle.net_frames.specs.Captured.{Captured};
ghost use Rattle.nsh_metadata.specs.Header.{Header};
ghost use Rattle.service_functions.specs.Functions.{on_metadata};
ghost use Rattle.service_functions.specs.Serving.{Serve, Through, function_at};
ghost use Rattle.service_functions.specs.declared.functions.Function.{Function};
ghost use Rattle.service_functions.specs.declared.answers.Served.{Served};
ghost use Rattle.service_functions.specs.declared.answers.Served.TheVariants.{Passed};

/// A frame and its header are served in one way: a function that drops gives one reason, and passes nothing
/// for which it has one.
pub fn one_service()
    ensures { (f : Function) (frame x y : Captured) (header i j : Header) (a b : Served) →
        Serve f frame header a x i → Serve f frame header b y j → (a ≡ b) × (x ≡ y) × (i ≡ j) }
{}

/// A function that is not on metadata serves a frame the same whatever header it has, and leaves that header.
pub fn the_header_is_unseen()
    ensures { (f : Function) (frame frame' : Captured) (header header' other : Header) (served : Served) →
        on_metadata f ≡ false → Serve f frame header served frame' header' → Serve f frame other served frame' other × (header' ≡ header) }
{}

/// What a function passes is the frame through one visit more.
pub fn a_pass_is_a_visit()
    ensures { (functions : List Function) (visits : List ℕ) (i : ℕ) (frame frame' : Captured) (header header' : Header) →
        Serve (function_at functions i) (Through functions visits frame) header Passed frame' header' → frame' ≡ Through functions (visits ++ i ∷ []) frame }
{}
