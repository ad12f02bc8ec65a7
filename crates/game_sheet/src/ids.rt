//! Numbers with a meaning: seats, state numbers, and places in the tables of a sheet.

ghost use Rattle.std.specs.Prelude.{◌≡◌};

use std::marker::Model;

/// A player's place at the table, from 0.
pub type Seat = u8;

/// The greatest count of seats that a match may have.
pub const MOST_SEATS: u8 = 16;

/// How many actions a match has accepted.
pub type Number = u32;

/// How many actions a match accepts at most.
pub const MOST_ACTIONS: Number = 4096;

/// The place of a move in a sheet's table of moves.
#[derive(Clone, Copy, PartialEq, Eq, Debug)]
pub struct MoveId {
    place: u8,
}

/// The place of a stage in a sheet's table of stages.
#[derive(Clone, Copy, PartialEq, Eq, Debug)]
pub struct StageId {
    place: u8,
}

/// The place of a phase in a sheet's table of phases.
#[derive(Clone, Copy, PartialEq, Eq, Debug)]
pub struct PhaseId {
    place: u8,
}

/// The place of a spec of active players in a sheet's table of specs.
#[derive(Clone, Copy, PartialEq, Eq, Debug)]
pub struct SpecId {
    place: u8,
}

impl Model for MoveId {
    ghost use Rattle.std.specs.Prelude.{ℕ};

    ghost Value = { ℕ };

    ghost view = { λ i. i.place };

    ghost inverse = { λ n. record { place = n } };
}

impl MoveId {
    /// The move at this place of its table, from 0.
    pub const fn at(place: u8) -> Self
        ensures { result ≡ place }
    {
        MoveId { place }
    }

    /// The place in the table.
    pub const fn place(self) -> u8
        ensures { result ≡ self }
    {
        self.place
    }
}

impl Model for StageId {
    ghost use Rattle.std.specs.Prelude.{ℕ};

    ghost Value = { ℕ };

    ghost view = { λ i. i.place };

    ghost inverse = { λ n. record { place = n } };
}

impl StageId {
    /// The stage at this place of its table, from 0.
    pub const fn at(place: u8) -> Self
        ensures { result ≡ place }
    {
        StageId { place }
    }

    /// The place in the table.
    pub const fn place(self) -> u8
        ensures { result ≡ self }
    {
        self.place
    }
}

impl Model for PhaseId {
    ghost use Rattle.std.specs.Prelude.{ℕ};

    ghost Value = { ℕ };

    ghost view = { λ i. i.place };

    ghost inverse = { λ n. record { place = n } };
}

impl PhaseId {
    /// The phase at this place of its table, from 0.
    pub const fn at(place: u8) -> Self
        ensures { result ≡ place }
    {
        PhaseId { place }
    }

    /// The place in the table.
    pub const fn place(self) -> u8
        ensures { result ≡ self }
    {
        self.place
    }
}

impl Model for SpecId {
    ghost use Rattle.std.specs.Prelude.{ℕ};

    ghost Value = { ℕ };

    ghost view = { λ i. i.place };

    ghost inverse = { λ n. record { place = n } };
}

impl SpecId {
    /// The spec at this place of its table, from 0.
    pub const fn at(place: u8) -> Self
        ensures { result ≡ place }
    {
        SpecId { place }
    }

    /// The place in the table.
    pub const fn place(self) -> u8
        ensures { result ≡ self }
    {
        self.place
    }
}
