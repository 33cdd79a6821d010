ghost use Rattle.std.specs.Prelude.{◌≡◌, ◌∷◌, ◌++◌, [], List, map, IfOk, OnOk};
ghost use Rattle.std.specs.Option.{option_map};
ghost use Rattle.exact_readers.specs.Exact.{IsExact};
ghost use Rattle.exact_readers.specs.Formats.{Format, taken};

use skk_text::Memory;
use std::alloc::Global;

/// A piece that is read time and again from tokens, which are characters, bytes or texts, and what holds its values.
pub trait Reader<T> {
    /// What one piece is read as.
    type Value: Drop;

    /// What holds the values of many.
    type Many: Drop;

    /// What a contract sees of a token.
    ghost Token: { Type 0 };

    /// What a contract sees of a value.
    ghost Item: { Type 0 };

    ghost tokens: { List T → List Token };

    ghost item: { Self.Value → Item };

    ghost items: { Self.Many → List Item };

    ghost format: { Self → Format Token Item };

    /// The value at the front of what is read, and what stands behind it.
    fn read<'t>(
        &self,
        alloc: Global,
        front: &'t [T],
    ) -> Result<Option<(Self::Value, &'t [T])>, Memory>
        ensures { IfOk result (λ found. option_map (λ parts. (item parts.0, tokens parts.1.now)) found
            ≡ (format self.now).step (tokens front.now)) };

    /// What holds no value.
    fn none(alloc: Global) -> Self::Many
        ensures { items result ≡ [] };

    /// Adds a value at the end.
    fn push(many: &mut Self::Many, value: Self::Value) -> Result<(), Memory>
        ensures { OnOk result (items many.new ≡ items many.old ++ item value ∷ []) };
}

/// The values at the front of what is read, one behind another, and what stands behind the last of them.
pub fn read_many<'t, T, R: Reader<T>>(
    alloc: Global,
    reader: &R,
    front: &'t [T],
) -> Result<(R::Many, &'t [T]), Memory>
    requires { IsExact (R.format reader.now) }
    ensures { IfOk result (λ parts. taken (R.format reader.now).step (R.tokens front.now)
        ≡ (R.items parts.0, R.tokens parts.1.now)) }
{
    let mut values = R::none(alloc);
    let mut rest = front;
    while let Some((value, behind)) = reader.read(alloc, rest)? {
        R::push(&mut values, value)?;
        rest = behind;
    }
    Ok((values, rest))
}
