//! A described game whose parts were tested.

ghost use Rattle.std.specs.Prelude.{◌≡◌, ◌↔◌, IfErr, IfOk, IsOk, None, Some};
ghost use Rattle.described_game.specs.Tests.{IsSound, first_fault};

use crate::checks::first_fault;
use crate::faults::PartFault;
use crate::parts::GameParts;

/// A described game. Its parts passed all tests.
pub struct Described {
    /// What it is made of.
    pub parts: GameParts,
    pub ghost sound: { IsSound parts },
}

impl Drop for Described {
    fn drop(self) {
        let Described { parts } = self;
        drop(parts);
    }
}

impl Described {
    /// The game that these parts make. The fault is the first test of them that fails; then the parts are dropped.
    /// It takes no memory.
    pub fn checked(parts: GameParts) -> Result<Described, PartFault>
        ensures passes { IsOk result ↔ (first_fault parts ≡ None) }
        ensures game { IfOk result (λ game. game.parts ≡ parts) }
        ensures fault { IfErr result (λ fault. first_fault parts ≡ Some fault) }
    {
        match first_fault(&parts) {
            Some(fault) => {
                drop(parts);
                Err(fault)
            }
            None => Ok(Described { parts }),
        }
    }
}
