//! What an update is made of, and what its parts are searched for by.
use i386_reloc::Class;
use ks_base::Names;

/// The sections of two objects that an update is about, by name.
#[derive(Drop)]
pub struct Extract {
    /// Functions of both objects that the update replaces, in the order of the second.
    pub changed: Names,
    /// Functions of the second object alone, in its order.
    pub added: Names,
    /// Read-only data and texts of the second object that those, or new data, refer to, in its order.
    pub carried: Names,
    /// Data of the second object alone, in its order.
    pub new_data: Names,
    /// Functions of the first object alone that go with those, in its order.
    pub dropped: Names,
}

/// What a reference is to the search. Sections are numbered by their places in the object.
#[derive(Clone, Copy)]
pub(crate) struct Link {
    /// The section that the reference stands in.
    pub(crate) from: u32,
    /// That section's class.
    pub(crate) from_class: Class,
    /// The section that it goes to.
    pub(crate) to: u32,
    /// That section's class.
    pub(crate) to_class: Class,
    /// Whether it doesn't go to a function's entry.
    pub(crate) interior: bool,
}

/// How the sections of one object are numbered among those of both.
#[derive(Clone, Copy)]
pub(crate) struct Numbers {
    /// The number of its first section.
    pub(crate) base: u32,
    /// How many sections both have.
    pub(crate) total: u32,
}

/// Which sections of one of two objects are asked for, by their class and the section of their name in the other one.
#[derive(Clone, Copy)]
pub(crate) enum Asked {
    /// Those of a wanted class.
    Here(Wanted),
    /// Those of a wanted class, which are of one in the other object, too.
    InBoth(Wanted),
    /// Those of a wanted class whose name the other object doesn't have.
    Alone(Wanted),
    /// Those that are of another class in the other object.
    OtherClass,
}

/// Which classes are wanted.
#[derive(Clone, Copy)]
pub(crate) enum Wanted {
    /// Functions.
    Code,
    /// Data that the program may change.
    Data,
    /// Read-only data.
    ReadOnly,
    /// Read-only data and texts, which an update carries with it.
    Constant,
}
