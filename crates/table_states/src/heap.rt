//! The heap of Countdown.

ghost use Rattle.std.specs.Prelude.{◌≡◌, ◌≤◌, ◌++◌, codes, true, IfOk, OnOk};
ghost use Rattle.serde_json.specs.Written.{members_text};
ghost use Rattle.table_states.specs.Countdown.{full_heap, heap_offers, less};
ghost use Rattle.open_game.specs.Forms.{seat_value};
ghost use Rattle.serde_json.specs.Data.{member, no_members};

use game_sheet::{Args, List, MoveId, NoMemory, Seat};
use json_tree::extra_field;
use open_game::{Part, State, object_of_two, offer, offer_number, part_at};
use serde_json::Value;
use std::alloc::{AllocError, Global};

/// What is left to take, and who took last.
#[derive(Drop)]
pub struct Heap {
    /// How much is left.
    pub left: u32,
    /// Who took last; none at first.
    pub last: Option<Seat>,
}

impl State for Heap {
    ghost use Rattle.table_states.specs.StateForms.{heap_form, heap_laws};

    ghost form = { heap_form };

    ghost form_laws = { heap_laws };

    fn to_value(&self, alloc: Global) -> Result<Value, NoMemory> {
        let left = self.left.to_value();
        let last = self.last.to_value();
        Ok(object_of_two(alloc, "heap", left, "last", last)?)
    }

    #[tactic(auto, unfolding(json::specs::Print::escape_byte))]
    fn write(&self, alloc: Global, out: &mut Vec<u8>) -> Result<(), NoMemory> {
        out.extend_from_slice(b"{\"heap\":")?;
        self.left.write(out)?;
        Ok(write_last(out, self.last)?)
    }

    fn from_value(alloc: Global, v: &Value) -> Result<Option<Heap>, NoMemory> {
        if extra_field(v, &["heap", "last"]) {
            return Ok(None);
        }
        let Some(left) = part_at::<u32>(v, "heap", u32::MAX) else {
            return Ok(None);
        };
        match part_at::<Option<Seat>>(v, "last", 7) {
            Some(last) => Ok(Some(Heap { left, last })),
            None => Ok(None),
        }
    }

    fn same(&self, other: &Heap) -> bool {
        self.left == other.left && self.last == other.last
    }

    fn copy(&self, alloc: Global) -> Result<Heap, NoMemory> {
        Ok(Heap {
            left: self.left,
            last: self.last,
        })
    }
}

/// Appends the text of who took last, as the last member of an object.
#[tactic(auto, unfolding(json::specs::Print::escape_byte))]
fn write_last(out: &mut Vec<u8>, last: Option<Seat>) -> Result<(), AllocError>
    ensures { OnOk result (out.new.items ≡ out.old.items ++ members_text true (member (codes "last") (seat_value last) no_members)) }
{
    out.extend_from_slice(b",\"last\":")?;
    last.write(out)?;
    out.extend_from_slice(b"}")
}

impl Heap {
    /// The heap of 21 that nobody took from.
    pub fn new() -> Self
        ensures { result ≡ full_heap }
    {
        Heap {
            left: 21,
            last: None,
        }
    }

    /// The heap after a seat took so many.
    pub fn less(&self, seat: Seat, count: u32) -> Heap
        requires { count ≤ self.now.left }
        ensures { result ≡ less self.now seat count }
    {
        Heap {
            left: self.left - count,
            last: Some(seat),
        }
    }

    /// Takes of 1 to 3, where the heap has as many, and a wild take, as moves that are offered.
    pub fn takes(&self, alloc: Global) -> Result<List<(MoveId, Args)>, NoMemory>
        ensures { IfOk result (λ offers. offers ≡ heap_offers self.now) }
    {
        let mut offers = List::new(alloc);
        for count in [1u8, 2, 3] {
            if u32::from(count) <= self.left {
                offers.push(offer_number(MoveId::at(0), i32::from(count)))?;
            }
        }
        offers.push(offer(MoveId::at(1)))?;
        Ok(offers)
    }
}
