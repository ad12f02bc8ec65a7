//! Specs of active players of the sheet.

use crate::frame::{SlotSeats, SpecFrame};
use crate::misfit::At;
use crate::rows::{spec_named, stage_named};
use crate::turns::{Around, bounds_of};
use game_file::{PlaceMember, SeatMember, SeatsMember, SpecMember, StageMember, Unread};
use game_sheet::{List, NoMemory, Place, Seat, SpecId, SpecRow, StageId};
use game_syntax::FaultName;
use std::alloc::Global;

/// Specs in the sheet's order, by their places in the file's.
pub(crate) fn ordered<'a>(
    alloc: Global,
    specs: &'a [SpecMember],
    order: &[u8],
) -> Result<List<&'a SpecMember>, NoMemory> {
    let mut rows = List::new(alloc);
    for place in order {
        if let Some(row) = specs.get(usize::from(*place)) {
            rows.push(row)?;
        }
    }
    Ok(rows)
}

/// The rows of specs.
pub(crate) fn spec_rows(
    around: &Around<'_>,
    stages: &[StageMember],
) -> Result<List<SpecRow>, Unread> {
    let mut rows = List::new(around.alloc);
    for spec in around.specs {
        rows.push(spec_row(around, stages, *spec)?)?;
    }
    Ok(rows)
}

fn spec_row(
    around: &Around<'_>,
    stages: &[StageMember],
    spec: &SpecMember,
) -> Result<SpecRow, Unread> {
    let reading = Spec {
        around,
        stages,
        spec,
    };
    let who = reading.who()?;
    let bounds = bounds_of(around.alloc, spec.limits, spec.title.path.as_str())?;
    let next = reading.next()?;
    let value = reading.value()?;
    Ok(SpecRow {
        current: who.current,
        others: who.others,
        all: who.all,
        value,
        min_moves: bounds.least,
        max_moves: bounds.most,
        revert: spec.revert,
        next,
    })
}

/// The names of specs, and the slots of their seats.
pub(crate) fn spec_frames(
    around: &Around<'_>,
    stages: &[StageMember],
) -> Result<List<SpecFrame>, Unread> {
    let mut frames = List::new(around.alloc);
    for spec in around.specs {
        frames.push(spec_frame(around, stages, *spec)?)?;
    }
    Ok(frames)
}

fn spec_frame(
    around: &Around<'_>,
    stages: &[StageMember],
    spec: &SpecMember,
) -> Result<SpecFrame, Unread> {
    let reading = Spec {
        around,
        stages,
        spec,
    };
    let seats = reading.slot_seats()?;
    let name = spec.title.name.copy(around.alloc)?;
    Ok(SpecFrame { name, seats })
}

/// Where seats are put that aren't named.
#[derive(Clone, Copy)]
struct Who {
    current: Option<Place>,
    others: Option<Place>,
    all: Option<Place>,
}

/// One spec, and what it names.
#[derive(Clone, Copy)]
struct Spec<'a> {
    around: &'a Around<'a>,
    stages: &'a [StageMember],
    spec: &'a SpecMember,
}

impl Spec<'_> {
    /// A member of the spec.
    fn at<'a>(&'a self, member: &'a str) -> At<'a> {
        At {
            path: self.spec.title.path.as_str(),
            member,
        }
    }

    fn who(&self) -> Result<Who, Unread> {
        let current = self.place(&self.spec.who.current, "currentPlayer")?;
        let others = self.place(&self.spec.who.others, "others")?;
        let all = self.place(&self.spec.who.all, "all")?;
        Ok(Who {
            current,
            others,
            all,
        })
    }

    fn place(&self, place: &PlaceMember, member: &str) -> Result<Option<Place>, Unread> {
        match place {
            PlaceMember::Unsaid => Ok(None),
            PlaceMember::NoStage => Ok(Some(Place { stage: None })),
            PlaceMember::Stage(name) => {
                let at = self.at(member);
                let stage = stage_named(self.around.alloc, self.stages, name, &at)?;
                Ok(Some(in_stage(stage)))
            }
        }
    }

    /// A place that is a stage, or none where nothing is said.
    fn place_or_none(&self, place: &PlaceMember) -> Result<Place, Unread> {
        let place = self.place(place, "value")?;
        Ok(place.unwrap_or(Place { stage: None }))
    }

    fn next(&self) -> Result<Option<SpecId>, Unread> {
        match &self.spec.next {
            None => Ok(None),
            Some(name) => {
                let at = self.at("next");
                Ok(Some(spec_named(self.around.alloc, self.around.specs, name, &at)?))
            }
        }
    }

    /// The seats that the spec names itself.
    fn value(&self) -> Result<List<(Seat, Place)>, Unread> {
        match &self.spec.who.value {
            SeatsMember::Seats(seats) => self.seats(seats.as_slice()),
            SeatsMember::Slot(_, _) => Ok(List::new(self.around.alloc)),
        }
    }

    fn seats(&self, members: &[SeatMember]) -> Result<List<(Seat, Place)>, Unread> {
        let mut seats = List::new(self.around.alloc);
        for member in members {
            seats.push(self.seat(member)?)?;
        }
        Ok(seats)
    }

    fn seat(&self, member: &SeatMember) -> Result<(Seat, Place), Unread> {
        if member.seat >= self.around.min_seats {
            return Err(
                self.at("value").fault(
                    self.around.alloc,
                    FaultName::BadSeats,
                    "a seat is below the least number of seats",
                ),
            );
        }
        let place = self.place_or_none(&member.place)?;
        Ok((member.seat, place))
    }

    /// The slot of the spec's seats, if it names one.
    fn slot_seats(&self) -> Result<Option<SlotSeats>, Unread> {
        match &self.spec.who.value {
            SeatsMember::Seats(_) => Ok(None),
            SeatsMember::Slot(name, place) => {
                let slot = self.around.numbers(name, &self.at("value"))?;
                let place = self.place_or_none(place)?;
                Ok(Some(SlotSeats { slot, place }))
            }
        }
    }
}

fn in_stage(stage: StageId) -> Place {
    Place { stage: Some(stage) }
}
