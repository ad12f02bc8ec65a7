//! The trait that a state implements.

ghost use Rattle.std.specs.Prelude.{◌≡◌, ◌++◌, ◌↔◌, IfOk, IsTrue, OnOk};
ghost use Rattle.open_game.specs.Form.{Form, StateLaws};
ghost use Rattle.serde_json.specs.View.{view};
ghost use Rattle.serde_json.specs.Written.{compact_text};

use game_sheet::NoMemory;
use serde_json::Value;
use std::alloc::Global;

/// A game's state, which can be written down as a JSON object.
pub trait State: Drop {
    /// How it is written down.
    ghost form: { Form Self };

    /// The state as JSON.
    fn to_value(&self, alloc: Global) -> Result<Value, NoMemory>
        ensures { IfOk result (λ v. view v ≡ form.value self.now) };

    /// Appends the state's text, which is that of its value. After a want of memory some first part of it may stand there.
    fn write(&self, alloc: Global, out: &mut Vec<u8>) -> Result<(), NoMemory>
        ensures { OnOk result (out.new.items ≡ out.old.items ++ compact_text (form.value self.now)) };

    /// The own state that is written so; none where no own state is.
    fn from_value(alloc: Global, v: &Value) -> Result<Option<Self>, NoMemory>
        ensures { IfOk result (λ read. read ≡ form.read (view v.now)) };

    /// Whether two states are equal.
    fn same(&self, other: &Self) -> bool
        ensures { IsTrue result ↔ (self.now ≡ other.now) };

    /// An equal state.
    fn copy(&self, alloc: Global) -> Result<Self, NoMemory>
        ensures { IfOk result (λ copied. copied ≡ self.now) };

    /// What holds of the form.
    ghost form_laws: { StateLaws form };
}
