ghost use Rattle.std.specs.Prelude.{◌≡◌, ◌++◌, List, OnOk};
ghost use Rattle.std.specs.List.{flat_map};

use skk_text::Memory;

/// A piece that is printed time and again on a page.
pub trait Printer {
    /// What the pieces are printed on.
    type Page;

    /// What one piece is printed of.
    type Value;

    /// What a contract sees of a character or byte of the page.
    ghost Token: { Type 0 };

    ghost shown: { Self.Page → List Token };

    ghost printed: { Self.Value → List Token };

    /// Adds what is printed of a value.
    fn print(page: &mut Self::Page, value: &Self::Value) -> Result<(), Memory>
        ensures { OnOk result (shown page.new ≡ shown page.old ++ printed value.now) };
}

/// Adds what is printed of each value, in order.
pub fn print_each<P: Printer>(page: &mut P::Page, values: &[P::Value]) -> Result<(), Memory>
    ensures { OnOk result (P.shown page.new ≡ P.shown page.old ++ flat_map P.printed values.now) }
{
    for value in values {
        P::print(page, value)?;
    }
    Ok(())
}
