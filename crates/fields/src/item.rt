// What may be one of the items of a field.
ghost use Rattle.std.specs.Prelude.{◌≡◌, ℕ, List, map, Result};
ghost use Rattle.text.specs.declared.flaw.Flaw.{Flaw};

use lines::Declared;
use text::Flaw;

pub trait Item: Copy {
    // what its name is looked up among
    type Of: Declared;

    const BLANK: Self;

    // the item that is written so, given the names that are declared
    ghost reading: { List (List ℕ) → List ℕ → Result Self Flaw };

    fn read(declared: &[Self::Of], s: &[u8]) -> Result<Self, Flaw>
        ensures { result ≡ reading (map Self.Of.Declared.called declared.now) s.now };
}
