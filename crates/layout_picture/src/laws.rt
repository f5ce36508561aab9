//! Laws of the definitions: the picture shows what the layout is.

ghost use Rattle.std.specs.Prelude.{◌≡◌, ◌≢◌, ◌+◌, ◌<◌, ◌≤◌, ◌↔◌, ℕ, true, List, length, slice_index};
ghost use Rattle.dsa_terms.specs.Buffers.{Instance, IsLive, buffer};
ghost use Rattle.dsa_terms.specs.Claims.{IsIn};
ghost use Rattle.dsa_terms.specs.Layouts.{IsLayout};
ghost use Rattle.dsa_terms.specs.Plans.{load};
ghost use Rattle.layout_picture.specs.Colours.{colours_of, touch};
ghost use Rattle.layout_picture.specs.Columns.{IsInColumn, columns_of};
ghost use Rattle.layout_picture.specs.Laws.{AreApart, HasPoint, IsLeft, IsShownAt};
ghost use Rattle.layout_picture.specs.Rectangles.{rectangles};
ghost use Rattle.layout_picture.specs.Scale.{area_of, scaled, x_of, y_of};
ghost use Rattle.layout_picture.specs.declared.rectangle.Rectangle.{Rectangle as Drawn};
ghost use Rattle.layout_picture.specs.declared.scale.Scale.{Scale as Units};

/// A buffer is live at a moment exactly where one of its rectangles, from its offset to its end,
/// has that moment's column.
pub fn moments_are_shown()
    ensures { (I : Instance) (offsets : List ℕ) (b t : ℕ) → b < length I →
        IsLive (buffer I b) t ↔ IsShownAt I offsets b t }
{}

/// Rectangles of two buffers of a layout have no point inside both, and are drawn apart.
pub fn rectangles_are_apart()
    ensures points { (I : Instance) (C : ℕ) (offsets : List ℕ) (r s : Drawn) (k a : ℕ) →
        IsLayout I C offsets → IsIn r (rectangles I offsets) → IsIn s (rectangles I offsets) →
        r.buffer ≢ s.buffer → HasPoint r k a → HasPoint s k a → ⊥ }
    ensures drawn { (I : Instance) (C : ℕ) (offsets : List ℕ) (r s : Drawn) (u : Units) →
        IsLayout I C offsets → IsIn r (rectangles I offsets) → IsIn s (rectangles I offsets) →
        r.buffer ≢ s.buffer → AreApart (area_of u r) (area_of u s) }
{}

/// The load at each moment from the first column on is that of the moment's column.
pub fn loads_are_shown()
    ensures { (I : Instance) (t k : ℕ) → IsInColumn (columns_of I) t k →
        load I t ≡ load I (slice_index (columns_of I) k) }
{}

/// Buffers that touch differ in colour, where one of the eight is left for the later one.
pub fn colours_tell_apart()
    ensures { (I : Instance) (offsets : List ℕ) (b c k : ℕ) → b < c → c < length I →
        IsLeft I offsets c k → touch I offsets b c ≡ true →
        slice_index (colours_of I offsets) b ≢ slice_index (colours_of I offsets) c }
{}

/// Scaling keeps order: what lies above is drawn above, place 0 at the base and the height at the
/// top, and what touches, touches; a later column is further to the right.
pub fn scaling_keeps_order()
    ensures order { (u : Units) (a b : ℕ) → a ≤ b → scaled u a ≤ scaled u b }
    ensures above { (u : Units) (a b : ℕ) → a ≤ b → y_of u b ≤ y_of u a }
    ensures touch { (u : Units) (r s : Drawn) → s.place ≡ r.top → s.place ≤ s.top →
        (area_of u s).y + (area_of u s).height ≡ (area_of u r).y }
    ensures base { (u : Units) → y_of u 0 ≡ 624 }
    ensures height { (u : Units) → 1 ≤ u.height → y_of u u.height ≡ 24 }
    ensures left { (u : Units) (j k : ℕ) → j < k → x_of u j < x_of u k }
{}
