// The fields of a shape.
ghost use Rattle.std.specs.Prelude.{◌≡◌};
ghost use Rattle.c_lane.specs.Shapes.{number_of_field};

use record_pages::Field;

/// A field of `LaneShape`.
#[derive(Clone, Copy)]
pub enum ShapeField {
    Shards,
    /// A field that a configuration has too.
    Config(Field),
    LeaseSlots,
}

impl ShapeField {
    /// Its number in the order of the fields, from 1.
    pub fn number(self) -> u32
        ensures { result ≡ number_of_field self }
    {
        match self {
            ShapeField::Shards => 1,
            ShapeField::Config(Field::Lanes) => 2,
            ShapeField::Config(Field::Sets) => 3,
            ShapeField::Config(Field::Memory) => 4,
            ShapeField::Config(Field::Segments) => 5,
            ShapeField::Config(Field::SegmentPages) => 6,
            ShapeField::Config(Field::Entries) => 7,
            ShapeField::LeaseSlots => 8,
            ShapeField::Config(Field::Threshold) => 9,
            ShapeField::Config(Field::Admit) => 10,
        }
    }
}
