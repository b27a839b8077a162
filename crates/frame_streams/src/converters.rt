ghost use Rattle.std.specs.Prelude.{◌≡◌, ℕ, ◌+◌, ◌^◌, ◌<◌, List, ◌++◌, length, true, IfOk, IfErr, OnOk};
ghost use Rattle.commands.specs.declared.statuses.Status.{Status as Answer};
ghost use Rattle.commands.specs.Fronts.{IsFront};
ghost use Rattle.frame_streams.specs.Turning.{NextSays, IsStop, EndSays, IsEnd};

use commands::Status;
use wire_base::OutOfMemory;

/// What turns the bytes of one input into those of an output, in whatever pieces they come.
///
/// The members are for clauses alone. `writes` is the relation of an input, the answer and the output; what is said of a
/// converter is its part of the words of a command, which stays as it is.
pub trait Converter {
    /// What the words of a command say of the conversion, as data.
    type Said;

    ghost said: { Self → Self.Said };

    // For this input, so is answered, and these are the bytes of the output.
    ghost writes: { Self.Said → List ℕ → Answer → List ℕ → Type 0 };

    // These bytes were taken, and those made of them.
    ghost turned: { Self → List ℕ → List ℕ → Type 0 };

    // Nothing is at hand that can be turned before more comes.
    ghost is_quiet: { Self → Type 0 };

    // How many bytes were taken, and how many of them are not used.
    ghost count: { Self → ℕ };

    ghost unused: { Self → ℕ };

    /// How many bytes were taken.
    fn taken(&self) -> u64
        ensures { result ≡ count self.now };

    /// Takes the next bytes of the input. Where there is no memory for them, nothing is said of it any more.
    fn push(&mut self, piece: &[u8]) -> Result<(), OutOfMemory>
        requires { count self.old + length piece.now < 2 ^ 64 }
        ensures said { said self.new ≡ said self.old }
        ensures count { OnOk result (count self.new ≡ count self.old + length piece.now) }
        ensures history { (taken out : List ℕ) → turned self.old taken out → OnOk result (turned self.new (taken ++ piece.now) out) };

    /// Appends what the next part of the input comes to, and tells whether there was one.
    ///
    /// A refusal is told as soon as its field is there, whatever comes behind.
    fn next(&mut self, buffer: &mut Vec<u8>) -> Result<bool, Status>
        requires { (taken out : List ℕ) × turned self.old taken out }
        ensures said { said self.new ≡ said self.old }
        ensures history { (taken written : List ℕ) → turned self.old taken (written ++ buffer.old.items)
            → NextSays (turned self.new taken) (is_quiet self.new) (writes (said self.old)) taken (written ++ buffer.new.items) result }
        ensures stops { IfErr result IsStop }
        ensures count { OnOk result (count self.new ≡ count self.old) }
        ensures falls { IfOk result (λ more. more ≡ true → unused self.new < unused self.old) };

    /// How an input ends that ends here.
    fn finish(&self) -> Status
        ensures history { (taken out : List ℕ) → turned self.now taken out → is_quiet self.now → EndSays (writes (said self.now)) taken out result }
        ensures ends { IsEnd result };
}
