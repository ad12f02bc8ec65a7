//! The pot and the totals of Pig.

ghost use Rattle.std.specs.Prelude.{◌≡◌, ◌<◌, ◌≤◌, ◌++◌, length, true, IfOk, IfSome, OnOk, position, nat_le, slice_set};
ghost use Rattle.serde_json.specs.Written.{compact_text, members_text};
ghost use Rattle.table_states.specs.StateForms.{from_totals, points_form};
ghost use Rattle.table_states.specs.Pig.{no_points, total_of};

use game_sheet::{List, NoMemory, Seat};
use json_tree::extra_field;
use open_game::{Part, State, list_at, list_value, object_of_two, part_at, write_list};
use serde_json::Value;
use std::alloc::Global;
use std::marker::Model;

/// The points in the pot, and the total of each of at most eight seats.
#[derive(Drop)]
pub struct Scores {
    pot: u32,
    totals: List<u32>,
}

impl Model for Scores {
    ghost use Rattle.std.specs.Prelude.{length, ◌≤◌};
    ghost use Rattle.table_states.specs.Points.{Points};

    ghost Value = { Points };

    ghost view = { λ s. record { pot = s.pot; totals = s.totals } };

    ghost invariant = { λ s. length s.totals ≤ 8 };
}

impl State for Scores {
    ghost use Rattle.table_states.specs.StateForms.{points_form, points_laws};

    ghost form = { points_form };

    ghost form_laws = { points_laws };

    fn to_value(&self, alloc: Global) -> Result<Value, NoMemory> {
        let totals = list_value(alloc, self.totals.as_slice())?;
        let pot = self.pot.to_value();
        Ok(object_of_two(alloc, "pot", pot, "totals", totals)?)
    }

    fn write(&self, alloc: Global, out: &mut Vec<u8>) -> Result<(), NoMemory> {
        write_points(out, self.pot, self.totals.as_slice())
    }

    fn from_value(alloc: Global, v: &Value) -> Result<Option<Scores>, NoMemory> {
        if extra_field(v, &["pot", "totals"]) {
            return Ok(None);
        }
        let Some(pot) = part_at::<u32>(v, "pot", u32::MAX) else {
            return Ok(None);
        };
        match list_at::<u32>(alloc, v, "totals", 1, 8, u32::MAX)? {
            Some(totals) => Ok(Some(Scores { pot, totals })),
            None => Ok(None),
        }
    }

    fn same(&self, other: &Scores) -> bool {
        self.pot == other.pot && self.totals.as_slice() == other.totals.as_slice()
    }

    fn copy(&self, alloc: Global) -> Result<Scores, NoMemory> {
        self.with_pot(alloc, self.pot)
    }
}

impl Scores {
    /// An empty pot, and totals of 0.
    pub fn new(alloc: Global, seats: u8) -> Result<Self, NoMemory>
        requires { seats ≤ 8 }
        ensures { IfOk result (λ s. s ≡ no_points seats) }
    {
        let totals = vec![in alloc; 0u32; seats as usize]?;
        Ok(Scores {
            pot: 0,
            totals: List::from_vec(totals),
        })
    }

    /// The scores of this pot and these totals.
    pub fn of(pot: u32, totals: List<u32>) -> Self
        requires { length totals ≤ 8 }
        ensures { result ≡ record { pot = pot; totals = totals } }
    {
        Scores { pot, totals }
    }

    /// The points in the pot.
    pub fn pot(&self) -> u32
        ensures { result ≡ self.now.pot }
    {
        self.pot
    }

    /// The totals, seat by seat.
    pub fn totals(&self) -> &[u32]
        ensures value { result.now ≡ self.now.totals }
        ensures most { length self.now.totals ≤ 8 }
    {
        self.totals.as_slice()
    }

    /// The same totals beside another pot.
    pub fn with_pot(&self, alloc: Global, pot: u32) -> Result<Self, NoMemory>
        ensures { IfOk result (λ s. s ≡ record self.now { pot = pot }) }
    {
        Ok(Scores {
            pot,
            totals: List::from_slice(alloc, self.totals.as_slice())?,
        })
    }

    /// An empty pot, and another total of a seat.
    pub fn with_total(&self, alloc: Global, seat: Seat, total: u32) -> Result<Self, NoMemory>
        requires { seat < length self.now.totals }
        ensures { IfOk result (λ s. s ≡ record { pot = 0; totals = slice_set self.now.totals seat total }) }
    {
        let totals = changed(alloc, self.totals.as_slice(), seat as usize, total)?;
        Ok(Scores { pot: 0, totals })
    }

    /// The total of a seat that may play; none of any other.
    pub fn total_of(&self, seat: Seat) -> Option<u32>
        ensures total { result ≡ total_of self.now seat }
        ensures known { IfSome result (λ _. seat < length self.now.totals) }
    {
        if seat < 4 {
            self.totals.as_slice().get(seat as usize).copied()
        } else {
            None
        }
    }

    /// The least seat with a total of 20 or more.
    pub fn first_of_20(&self) -> Option<Seat>
        ensures { result ≡ position (λ total. nat_le 20 total) self.now.totals }
    {
        match first_of_20(self.totals.as_slice()) {
            Some(place) => Some(place as u8),
            None => None,
        }
    }
}

/// Appends the text of a pot and totals.
#[tactic(auto, unfolding(json::specs::Print::escape_byte))]
fn write_points(out: &mut Vec<u8>, pot: u32, totals: &[u32]) -> Result<(), NoMemory>
    ensures { OnOk result (out.new.items ≡ out.old.items ++ compact_text (points_form.value (record { pot = pot; totals = totals.now }))) }
{
    out.extend_from_slice(b"{\"pot\":")?;
    pot.write(out)?;
    write_from_totals(out, totals)
}

/// Appends the text of the totals, as the last member of an object.
#[tactic(auto, unfolding(json::specs::Print::escape_byte))]
fn write_from_totals(out: &mut Vec<u8>, totals: &[u32]) -> Result<(), NoMemory>
    ensures { OnOk result (out.new.items ≡ out.old.items ++ members_text true (from_totals totals.now)) }
{
    out.extend_from_slice(b",\"totals\":")?;
    write_list(out, totals)?;
    out.push(b'}')?;
    Ok(())
}

/// The place of the first total of 20 or more.
fn first_of_20(totals: &[u32]) -> Option<usize>
    ensures value { result ≡ position (λ total. nat_le 20 total) totals.now }
    ensures known { IfSome result (λ place. place < length totals.now) }
{
    totals.iter().position(|total| 20 <= *total)
}

/// A list with one place changed.
fn changed(alloc: Global, totals: &[u32], place: usize, sum: u32) -> Result<List<u32>, NoMemory>
    requires { place < length totals.now }
    ensures { IfOk result (λ l. l ≡ slice_set totals.now place sum) }
{
    let mut items = Vec::from_slice(alloc, totals)?;
    items[place] = sum;
    Ok(List::from_vec(items))
}
