//! Where the texts of a task come from.
ghost use Rattle.std.specs.Prelude.{◌≡◌, ℕ, List, [], Option, IfOk};

use dimacs_io::Source;
use std::io;

/// Files by their names, and a standard input.
pub trait Texts {
    /// A file that was opened.
    type File: Source + Drop;

    /// The standard input.
    type Input: Source + Drop;

    /// The bytes that the file of this name gives, where that is told.
    ghost file: { Self → List ℕ → Option (List ℕ) };

    /// The bytes that the standard input gives, where that is told.
    ghost typed: { Self → Option (List ℕ) };

    /// Opens the file of this name for reading.
    fn open(&self, path: &str) -> io::Result<Self::File>
        ensures bytes { IfOk result (λ opened.
            Self.File.remaining opened ≡ file self.now path.now) }
        ensures given { IfOk result (λ opened. Self.File.given opened ≡ []) }
        ensures failures { IfOk result (λ opened. Self.File.failures opened ≡ 0) };

    /// The standard input.
    fn input(&self) -> Self::Input
        ensures bytes { Self.Input.remaining result ≡ typed self.now }
        ensures given { Self.Input.given result ≡ [] }
        ensures failures { Self.Input.failures result ≡ 0 };
}
