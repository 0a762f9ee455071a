//! What is read in the files of every work, and in every object file that is written of sections.
ghost use Rattle.std.specs.Prelude.{◌≡◌, ℕ, ◌≤◌, ◌+◌, ◌*◌, List, length, Some, None, Ok};
ghost use Rattle.std.specs.List.{slice_get};
ghost use Rattle.image_file.specs.Reading.{image_of};
ghost use Rattle.image_file.specs.Spelling.{spelling};
ghost use Rattle.i386_reloc.specs.Fields.{section_count};
ghost use Rattle.i386_reloc.specs.Rules.{object_fault};
ghost use Rattle.i386_reloc.specs.Sections.{sections_of};
ghost use Rattle.script_lines.specs.Script.{script_of};
ghost use Rattle.work_gen.specs.declared.types.Section.{Section};
ghost use Rattle.work_gen.specs.ElfFile.{elf_file};
ghost use Rattle.work_gen.specs.Functions.{function_count, old_constant, new_constant};
ghost use Rattle.work_gen.specs.Objects.{sections};
ghost use Rattle.work_gen.specs.Work.{work_of};
ghost use Rattle.work_forms.specs.Commands.{work_commands};
ghost use Rattle.work_forms.specs.ObjectFiles.{AreWritable, IsReadAs, HasSymbols, HasRelocations};
ghost use Rattle.work_forms.specs.Program.{work_image};
ghost use Rattle.work_forms.specs.Sections.{work_sections};

use image_file::spelling_is_read;

/// The script of a work is read as the work's commands, whatever its number. No line of it is refused.
pub fn scripts_are_read()
    ensures { (number : ℕ) → script_of (work_of number).script ≡ Ok work_commands }
{}

/// The image file of a work is the one spelling of the work's image, and is read as that image. Nothing in it is
/// refused.
pub fn images_are_read()
    ensures spelled { (number : ℕ) → (work_of number).image ≡ spelling (work_image number) }
    ensures read { (number : ℕ) → image_of (work_of number).image ≡ Ok (work_image number) }
{
    // Nothing is done here: the law says that the spelling of an image is read as that image.
    spelling_is_read();
}

/// An object file that is written of sections has these, in their order behind section 0, and then one of their names:
/// of each are read the name, the numbers and the content that were written.
pub fn written_sections_are_read()
    ensures count { (sections : List Section) → AreWritable sections →
        section_count (elf_file sections) ≡ length sections + 2 }
    ensures each { (sections : List Section) (k : ℕ) (section : Section) → AreWritable sections →
        slice_get sections k ≡ Some section → IsReadAs (elf_file sections) (k + 1) section }
{}

/// The two objects of a work have the sections of which they are written: the code and the relocations of functions,
/// the symbols and their names.
pub fn object_sections_are_read()
    ensures pre_count { (number : ℕ) → section_count (work_of number).pre ≡ 2 * function_count number + 3 }
    ensures pre { (number k : ℕ) (section : Section) →
        slice_get (sections (function_count number) (old_constant number)) k ≡ Some section →
        IsReadAs (work_of number).pre (k + 1) section }
    ensures post_count { (number : ℕ) → section_count (work_of number).post ≡ 2 * function_count number + 3 }
    ensures post { (number k : ℕ) (section : Section) →
        slice_get (sections (function_count number) (new_constant number)) k ≡ Some section →
        IsReadAs (work_of number).post (k + 1) section }
{}

/// The two objects of a work have the symbols of their functions, each of which stands at the start of its section.
pub fn object_symbols_are_read()
    ensures pre { (number : ℕ) → HasSymbols (work_of number).pre (function_count number) (old_constant number) }
    ensures post { (number : ℕ) → HasSymbols (work_of number).post (function_count number) (new_constant number) }
{}

/// The code of each function is a loaded section of both objects of a work, and that of each but the last has one
/// relocation: its call of the next function.
pub fn object_relocations_are_read()
    ensures pre { (number : ℕ) → HasRelocations (work_of number).pre (function_count number) }
    ensures post { (number : ℕ) → HasRelocations (work_of number).post (function_count number) }
{}

/// No object of a work is longer than an object file may be.
pub fn objects_are_short()
    ensures pre { (number : ℕ) → length (work_of number).pre ≤ 8388608 }
    ensures post { (number : ℕ) → length (work_of number).post ≤ 8388608 }
{}

/// Both objects of a work keep all rules of object files.
pub fn objects_keep_rules()
    ensures pre { (number : ℕ) → object_fault (work_of number).pre ≡ None }
    ensures post { (number : ℕ) → object_fault (work_of number).post ≡ None }
{}

/// Both objects of a work are read as the sections that are defined of its functions, whatever its number. Nothing in
/// them is refused.
pub fn objects_are_read()
    ensures pre { (number : ℕ) →
        sections_of (work_of number).pre ≡ Ok (work_sections (function_count number) (old_constant number)) }
    ensures post { (number : ℕ) →
        sections_of (work_of number).post ≡ Ok (work_sections (function_count number) (new_constant number)) }
{}
