//! What stands at a gate.

ghost use Rattle.std.specs.Prelude.{◌<◌, ◌^◌, length};
ghost use Rattle.record_file.specs.Gates.{IsGate};

/// What stands at the gate at which some bytes begin.
#[derive(Clone, Copy)]
pub enum Gate {
    /// The gate isn't open: the records end here.
    Closed,
    /// A record, whole together with its next gate, whose payload has so many bytes, from the fifth byte behind the gate on.
    Record {
        /// How many.
        count: usize,
    },
    /// The gate is open, and no record stands whole behind it.
    Broken,
}

/// What stands at the gate at which these bytes begin.
pub fn gate_at(bytes: &[u8]) -> Gate
    requires some { 0 < length bytes.now }
    requires few { length bytes.now < 2 ^ 32 }
    ensures { IsGate result bytes.now }
{
    let [1, body @ ..] = bytes else {
        return Gate::Closed;
    };
    let [a, b, c, d, after @ ..] = body else {
        return Gate::Broken;
    };
    let count = u32::from_le_bytes([*a, *b, *c, *d]) as usize;
    if count < after.len() {
        Gate::Record { count }
    } else {
        Gate::Broken
    }
}
