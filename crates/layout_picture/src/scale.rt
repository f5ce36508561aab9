//! Where columns and places are drawn.

ghost use Rattle.std.specs.Prelude.{◌≡◌, ◌+◌, ◌≤◌, ◌^◌, ◌<◌};
ghost use Rattle.layout_picture.specs.Scale.{area_of, column_width, scaled, spans, x_of, y_of};

use crate::rectangle::Rectangle;

/// The width of all columns where there are few, in units of the picture.
const FULL_WIDTH: u64 = 1200;

/// The height of the rows.
const FULL_HEIGHT: u64 = 600;

/// Where the first column begins.
const LEFT: u64 = 200;

/// Where place 0 lies.
const BASE: u64 = 624;

/// How many columns there are, and the layout's height in bytes.
#[derive(Clone, Copy)]
pub(crate) struct Scale {
    pub(crate) columns: u32,
    pub(crate) height: u64,
}

/// A rectangle in units of the picture, by its upper left corner.
#[derive(Clone, Copy)]
pub(crate) struct Area {
    pub(crate) x: u64,
    pub(crate) y: u64,
    pub(crate) width: u64,
    pub(crate) height: u64,
}

impl Scale {
    /// How many columns have a width: the last one has none, since nothing is live then.
    pub(crate) fn spans(&self) -> u32
        ensures { result ≡ spans self.now }
    {
        self.columns.saturating_sub(1).max(1)
    }

    /// The width of a column.
    pub(crate) fn column_width(&self) -> u64
        ensures value { result ≡ column_width self.now }
        ensures some { 1 ≤ result }
        ensures limit { result ≤ 1200 }
    {
        (FULL_WIDTH / self.spans() as u64).max(1)
    }

    /// Where column k begins.
    #[tactic(auto, unfolding(crate::specs::Scale::x_of))]
    pub(crate) fn x(&self, k: u32) -> u64
        ensures value { result ≡ x_of self.now k }
        ensures limit { result < 2 ^ 48 }
    {
        LEFT + k as u64 * self.column_width()
    }

    /// How far above the base a place is drawn.
    #[tactic(auto, unfolding(crate::specs::Scale::scaled))]
    fn scaled(&self, place: u64) -> u64
        ensures value { result ≡ scaled self.now place }
        ensures limit { result ≤ 600 }
    {
        let height = self.height;
        (place.min(height) as u128 * FULL_HEIGHT as u128 / height.max(1) as u128) as u64
    }

    /// Where a place is drawn.
    #[tactic(auto, unfolding(crate::specs::Scale::y_of))]
    pub(crate) fn y(&self, place: u64) -> u64
        ensures value { result ≡ y_of self.now place }
        ensures limit { result ≤ 624 }
        ensures low { 24 ≤ result }
    {
        BASE - self.scaled(place)
    }

    /// Where a rectangle is drawn.
    #[tactic(auto, unfolding(crate::specs::Scale::area_of))]
    pub(crate) fn area(&self, rectangle: &Rectangle) -> Area
        ensures value { result ≡ area_of self.now rectangle.now }
        ensures x { result.x < 2 ^ 48 }
        ensures y { result.y + result.height < 2 ^ 48 }
    {
        let x = self.x(rectangle.first);
        let y = self.y(rectangle.top);
        Area {
            x,
            y,
            width: self.x(rectangle.end).saturating_sub(x),
            height: self.y(rectangle.place).saturating_sub(y),
        }
    }
}
