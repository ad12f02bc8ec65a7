//! Laws of maps, for those who build on them. There is nothing to run.

ghost use Rattle.stage_map.specs.Laws.{NullIsSound, SetKeeps, SetStageKeeps, EndStageKeeps, CountMoveKeeps, BoundGrows, CountsBounded, ShownRises, ShownLists, SetsFollowers, NumberIsEnough};

/// In a match of a sheet that passes its check, every operation keeps a sound map sound: rows in rising order of seats, maps on
/// the stack that aren't empty, ids that are there, and counts that only a counted move raises, by one.
pub fn maps_stay_sound()
    ensures null { NullIsSound }
    ensures set { SetKeeps }
    ensures set_stage { SetStageKeeps }
    ensures end_stage { EndStageKeeps }
    ensures count_move { CountMoveKeeps }
    ensures greater_bound { BoundGrows }
    ensures bounded { CountsBounded }
{}

/// A context that shows a sound map lists each seat once, in rising order, and lists the seats of the map in their stages.
pub fn contexts_show_maps()
    ensures rises { ShownRises }
    ensures lists { ShownLists }
{}

/// In a sheet that passes its check, setting a spec is making its map and setting its follower where that is empty; the
/// number of specs by which the rule is stated is enough.
pub fn followers_are_set()
    ensures follows { SetsFollowers }
    ensures is_enough { NumberIsEnough }
{}
