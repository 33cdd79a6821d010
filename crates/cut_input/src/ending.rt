ghost use Rattle.std.specs.Prelude.{◌≡◌};

/// What ends a piece, and how long one may be.
pub trait Ending {
    ghost use Rattle.std.specs.Prelude.{ℕ, Bool};

    /// Whether a byte ends a piece.
    ghost ends: { ℕ → Bool };

    /// The most bytes of a piece, without the one that ends it.
    ghost limit: { ℕ };

    /// Whether a byte ends a piece.
    fn ends(byte: u8) -> bool
        ensures { result ≡ ends byte };

    /// The most bytes of a piece, without the one that ends it.
    fn limit() -> usize
        ensures { result ≡ limit };
}
