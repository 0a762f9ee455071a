//! What holds of the difference of every two objects.
ghost use Rattle.std.specs.Prelude.{◌≡◌, ◌↔◌, ℕ, true, false, List, map, IsSome, Result, Ok};
ghost use Rattle.std.specs.List.{Contains, IsDistinct};
ghost use Rattle.ks_base.specs.declared.refusals.Refusal.{Refusal};
ghost use Rattle.i386_reloc.specs.declared.types.NormalSection.{NormalSection};
ghost use Rattle.i386_reloc.specs.declared.types.Ref.{Ref};
ghost use Rattle.i386_reloc.specs.Classes.{is_code_class};
ghost use Rattle.i386_reloc.specs.Normal.{same_bytes, name_of};
ghost use Rattle.i386_reloc.specs.Reaches.{is_constant_class, is_data_class, is_in, goes_to, is_interior};
ghost use Rattle.extract_post.specs.declared.types.Extract.{Extract};
ghost use Rattle.extract_post.specs.Extract.{Extracts};
ghost use Rattle.extract_post.specs.Extracted.{extracted};
ghost use Rattle.extract_post.specs.Members.{is_there, TextsReferToNothing};
ghost use Rattle.extract_post.specs.Roles.{role_of};

/// Two objects have one extract or one refusal, and no second answer: what [`extract`](crate::extract) promises to be
/// an answer is the answer.
pub fn objects_have_one_extract()
    ensures { (pre post : List NormalSection) (one other : Result Extract Refusal) →
        Extracts pre post one → Extracts pre post other → one ≡ other }
{}

/// The extract is a function of the sections: an answer is that of two objects exactly where it is the one that
/// `extracted` computes.
pub fn extract_is_computed()
    ensures { (pre post : List NormalSection) (answer : Result Extract Refusal) →
        Extracts pre post answer ↔ (answer ≡ extracted pre post) }
{}

/// Whatever a placed section refers to, and that has no address of its own, is placed too: read-only data and texts,
/// and each function to whose interior a reference goes. All data and functions of the new object alone are placed,
/// whether anything refers to them or not.
pub fn placed_sections_bring_what_they_name()
    ensures constants { (pre post : List NormalSection) (extract : Extract)
        (section : NormalSection) (r : Ref) (name : List ℕ) →
        extracted pre post ≡ Ok extract → IsDistinct same_bytes (map name_of post) →
        Contains post section → IsSome (role_of extract section.name) → Contains section.refs r →
        goes_to name r ≡ true → is_in is_constant_class post name ≡ true → IsSome (role_of extract name) }
    ensures interiors { (pre post : List NormalSection) (extract : Extract)
        (section : NormalSection) (r : Ref) (name : List ℕ) →
        extracted pre post ≡ Ok extract → IsDistinct same_bytes (map name_of post) → TextsReferToNothing post →
        Contains post section → IsSome (role_of extract section.name) → Contains section.refs r →
        goes_to name r ≡ true → is_interior r ≡ true → is_in is_code_class post name ≡ true →
        IsSome (role_of extract name) }
    ensures new_data { (pre post : List NormalSection) (extract : Extract) (name : List ℕ) →
        extracted pre post ≡ Ok extract → is_in is_data_class post name ≡ true → is_there pre name ≡ false →
        IsSome (role_of extract name) }
    ensures added { (pre post : List NormalSection) (extract : Extract) (name : List ℕ) →
        extracted pre post ≡ Ok extract → is_in is_code_class post name ≡ true → is_there pre name ≡ false →
        IsSome (role_of extract name) }
{}
