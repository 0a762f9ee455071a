//! What holds of the loaded sections of every object.
ghost use Rattle.std.specs.Prelude.{◌≡◌, ℕ, List, None};
ghost use Rattle.elf32_object.specs.Rules.{object_fault};
ghost use Rattle.i386_reloc.specs.Normal.{loaded_sections};
ghost use Rattle.i386_reloc.specs.Whole.{AreWhole};

/// The loaded sections of an object that breaks no rule: each has some bytes, and as many as its size where the file
/// holds them.
pub fn sections_are_whole()
    ensures { (bytes : List ℕ) → object_fault bytes ≡ None → AreWhole (loaded_sections bytes) }
{}
