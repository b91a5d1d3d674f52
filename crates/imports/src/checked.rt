// An import that the check has admitted. Nothing else makes one.
ghost use Rattle.std.specs.Prelude.{List};
ghost use Rattle.imports.specs.declared.posting.Posting.{Posting};
ghost use Rattle.imports.specs.Texts.{Stands};
ghost use Rattle.imports.specs.Totals.{TotalsOf};

use super::totals::Totals;
use money::Code;

#[derive(Drop)]
pub struct Checked {
    pub(crate) text: Vec<u8>,
    pub(crate) code: Code,
    pub(crate) totals: Totals,
    ghost stands: { ∥ ((ps : List Posting) × Stands text.items code.letters ps) ∥₁ },
    ghost told: { (ps : List Posting) → Stands text.items code.letters ps → TotalsOf ps totals },
}
