//! The law of a change's text. There is nothing to run.

ghost use Rattle.std.specs.Prelude.{◌≡◌, Some};
ghost use Rattle.any_game.specs.AnyRules.{any_rules};
ghost use Rattle.any_game.specs.GameKind.{GameKind};
ghost use Rattle.change_text.specs.Payload.{payload};
ghost use Rattle.change_text.specs.Reading.{IsReadable, change_read};
ghost use Rattle.room_changes.specs.declared.change.Change.{Change as Made};

/// The text of a change reads back as the change, and as no other.
pub fn written_changes_read_back()
    ensures { (c : Made GameKind) → IsReadable c → change_read (payload any_rules c) ≡ Some c }
{}
