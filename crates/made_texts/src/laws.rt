//! Laws of the definitions.

ghost use Rattle.std.specs.Prelude.{◌≡◌, ℕ, length};
ghost use Rattle.made_texts.specs.MadeProject.{made_blocks, made_block_count};

/// The made project has two blocks on the stage and five in each copy.
pub fn blocks_are_counted()
    ensures { (copies : ℕ) → length (made_blocks copies) ≡ made_block_count copies }
{}
