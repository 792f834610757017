ghost use Rattle.std.specs.Prelude.{◌≡◌};

use std::marker::Model;

/// What one call changes of the plan, the pins and the freezes: the new value for each customer whose spot or pin differs and for each
/// vehicle whose frozen length differs, and the version afterwards. Customers, vehicles and places count from 1.
#[derive(Drop)]
pub struct Delta {
    places: Vec<(u32, Option<(u32, u32)>)>,
    pins: Vec<(u32, Option<u32>)>,
    frozen: Vec<(u32, u32)>,
    version: u32,
}

impl Model for Delta {
    ghost use Rattle.board_rules.specs.Delta.{DeltaShown};

    ghost Value = { DeltaShown };

    ghost view = { λ d. record { places = d.places.items; pins = d.pins.items; frozen = d.frozen.items; version = d.version } };
}

impl Delta {
    /// The change of these spots (vehicle and place, or none), pins (a vehicle, or none) and frozen lengths, to this version.
    pub fn new(
        places: Vec<(u32, Option<(u32, u32)>)>,
        pins: Vec<(u32, Option<u32>)>,
        frozen: Vec<(u32, u32)>,
        version: u32,
    ) -> Delta
        ensures { result ≡ record { places = places.items; pins = pins.items; frozen = frozen.items; version = version } }
    {
        Delta {
            places,
            pins,
            frozen,
            version,
        }
    }

    /// Each customer that stands elsewhere than before, with its vehicle and place, or none where it is unassigned.
    pub fn places(&self) -> &[(u32, Option<(u32, u32)>)]
        ensures { result.now ≡ self.now.places }
    {
        self.places.as_slice()
    }

    /// Each customer whose pin differs, with the vehicle to which it is pinned, or none.
    pub fn pins(&self) -> &[(u32, Option<u32>)]
        ensures { result.now ≡ self.now.pins }
    {
        self.pins.as_slice()
    }

    /// Each vehicle whose frozen length differs, with that length in stops.
    pub fn frozen(&self) -> &[(u32, u32)]
        ensures { result.now ≡ self.now.frozen }
    {
        self.frozen.as_slice()
    }

    /// How many commits there are afterwards.
    pub fn version(&self) -> u32
        ensures { result ≡ self.now.version }
    {
        self.version
    }
}
