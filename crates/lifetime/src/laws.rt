//! Laws of the definitions: an instance has at most one list of sections.

ghost use Rattle.std.specs.Prelude.{◌≡◌};
ghost use Rattle.dsa_terms.specs.Buffers.{Instance};
ghost use Rattle.lifetime.specs.Determined.{AreSections};
ghost use Rattle.lifetime.specs.SectionList.{SectionList};

/// An instance has at most one list of sections: two that start at runs, are thin, and stand for
/// all moments are the same.
pub fn sections_are_one()
    ensures { (I : Instance) (S T : SectionList) → AreSections I S → AreSections I T → S ≡ T }
{}
