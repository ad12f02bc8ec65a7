//! A JSON value without floats, which contracts see as its data.
use crate::lines::LineNoMemory;
use serde_json::Value;
use std::marker::Model;

/// A JSON value without floats: a part of a message whose form the wire leaves to others.
pub struct Tree {
    value: Value,
}

impl Drop for Tree {
    fn drop(self) {
        let Tree { value } = self;
        drop(value);
    }
}

impl Model for Tree {
    ghost use Rattle.std.specs.Prelude.{◌≡◌, false};
    ghost use Rattle.serde_json.specs.Data.{Data};
    ghost use Rattle.serde_json.specs.View.{view as data_of};
    ghost use Rattle.serde_json.specs.Written.{has_float};
    ghost use Rattle.json_tree.specs.DataCode.{data_code};

    ghost Value = { Data };

    ghost coded = { data_code };

    ghost view = { λ tree. data_of tree.value };

    ghost invariant = { λ tree. has_float (data_of tree.value) ≡ false };
}

impl Tree {
    ghost use Rattle.std.specs.Prelude.{◌≡◌, false, IfOk};
    ghost use Rattle.serde_json.specs.View.{view as data_of};
    ghost use Rattle.serde_json.specs.Written.{has_float};

    /// The tree of a value that has no float; `contains_float` is the test.
    pub fn new(value: Value) -> Tree
        requires { has_float (data_of value) ≡ false }
        ensures { result ≡ data_of value }
    {
        Tree { value }
    }

    /// The value, to look into it.
    pub fn value(&self) -> &Value
        ensures same { data_of result.now ≡ self.now }
        ensures no_float { has_float self.now ≡ false }
    {
        &self.value
    }

    /// The value itself.
    pub fn into_value(self) -> Value
        ensures same { data_of result ≡ self }
        ensures no_float { has_float self ≡ false }
    {
        let Tree { value } = self;
        value
    }

    /// An equal tree.
    pub fn copy(&self) -> Result<Tree, LineNoMemory>
        ensures { IfOk result (λ tree. tree ≡ self.now) }
    {
        match self.value.clone() {
            Ok(value) => Ok(Tree { value }),
            Err(_) => Err(LineNoMemory),
        }
    }
}
