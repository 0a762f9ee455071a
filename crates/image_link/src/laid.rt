//! Objects whose sections have their places.
ghost use Rattle.std.specs.Prelude.{◌≡◌};
ghost use Rattle.image_link.specs.inside.Filling.{AreAllPlaced};
ghost use Rattle.image_link.specs.inside.Laying.{laid};

use i386_reloc::Normal;
use link_post::Placement;
use std::marker::Model;

/// An object with the places of its sections, in their order.
#[derive(Drop)]
pub(crate) struct LaidObject<'p, 'a> {
    object: &'p Normal<'a>,
    placement: Placement,
}

impl<'p, 'a> Model for LaidObject<'p, 'a> {
    ghost use Rattle.image_link.specs.Places.{Laid};
    ghost use Rattle.image_link.specs.inside.Filling.{AreAllPlaced};
    ghost use Rattle.image_link.specs.inside.Laying.{laid};

    ghost Value = { Laid };

    ghost view = { λ l. laid l.object.now l.placement };

    ghost invariant = { λ l. AreAllPlaced l.object.now l.placement };
}

impl<'p, 'a> LaidObject<'p, 'a> {
    /// An object with the places of its sections.
    pub(crate) fn new(object: &'p Normal<'a>, placement: Placement) -> LaidObject<'p, 'a>
        requires { AreAllPlaced object.now placement }
        ensures { result ≡ laid object.now placement }
    {
        LaidObject { object, placement }
    }

    /// The object.
    pub(crate) fn object(&self) -> &'p Normal<'a>
        ensures object { result.now ≡ self.now.object }
    {
        self.object
    }

    /// The places of its sections.
    pub(crate) fn placement(&self) -> &Placement
        ensures places { result.now ≡ self.now.places }
        ensures placed { AreAllPlaced self.now.object self.now.places }
    {
        &self.placement
    }
}
