//! What a description takes, in lines, and why one isn't taken.

use game_sheet::NoMemory;
use itoa::Buffer;

/// What a game of a description takes at most.
#[derive(Clone, Copy, PartialEq, Eq, Debug)]
pub struct Costs {
    /// Steps of an action, with all that may follow it.
    pub action: u64,
    /// Steps of all offers to a seat.
    pub offers: u64,
    /// Random words of an action with each hook once.
    pub words: u64,
    /// Bytes of the text of a state.
    pub bytes: u64,
}

/// Appends what a game takes, in four lines, each with its limit.
pub fn put_costs(out: &mut Vec<u8>, costs: &Costs) -> Result<(), NoMemory> {
    put_cost(out, "steps of an action: ", costs.action, " of 2000000\n")?;
    put_cost(out, "steps of all offers: ", costs.offers, " of 500000\n")?;
    put_cost(out, "words of an action: ", costs.words, " of 256\n")?;
    put_cost(out, "bytes of a state: ", costs.bytes, " of 8192\n")
}

fn put_cost(out: &mut Vec<u8>, before: &str, cost: u64, after: &str) -> Result<(), NoMemory> {
    put_text(out, before)?;
    put_number(out, cost)?;
    put_text(out, after)
}

/// Appends a number in decimal.
pub(crate) fn put_number(out: &mut Vec<u8>, number: u64) -> Result<(), NoMemory> {
    let mut digits = Buffer::new();
    Ok(out.extend_from_slice(digits.format(number).as_bytes())?)
}

/// Appends a text.
pub(crate) fn put_text(out: &mut Vec<u8>, text: &str) -> Result<(), NoMemory> {
    Ok(out.extend_from_slice(text.as_bytes())?)
}
