//! The members of an object of JSON, and the object at the end.

ghost use Rattle.std.specs.Prelude.{◌≡◌, Some, option_map, IfOk};
ghost use Rattle.serde_json.specs.Data.{boolean, no_members, number, object, string, unsigned};
ghost use Rattle.serde_json.specs.View.{view};

use serde_json::{Map, Value, put};
use std::alloc::{AllocError, Global};

/// The members put so far. If an allocation fails, or a value couldn't be made, a member is
/// missing, and `finish` makes no object.
///
/// No `put_..` returns early. So a function that makes an object has one exit, and drops no value.
pub struct ObjectBuilder {
    alloc: Global,
    members: Map<String, Value>,
    is_complete: bool,
}

impl ObjectBuilder {
    ghost use Rattle.json_value.specs.Growing.{AddsMade, AddsMember};
    ghost use Rattle.json_value.specs.Growing.{list_data, members_if_complete};

    /// No members.
    #[tactic(auto, unfolding(crate::specs::Growing::members_if_complete))]
    pub fn new(alloc: Global) -> ObjectBuilder
        ensures { members_if_complete result ≡ Some no_members }
    {
        ObjectBuilder {
            alloc,
            members: Map::new(alloc),
            is_complete: true,
        }
    }

    /// Puts a value, unless making it failed.
    // open: whether an allocation fails.
    #[tactic(auto, unfolding(crate::specs::Growing::members_if_complete))]
    pub fn put(&mut self, key: &str, value: Result<Value, AllocError>)
        ensures { AddsMade view self.old self.new key.now value }
    {
        match value {
            Ok(value) => match put(&mut self.members, self.alloc, key, value) {
                Ok(()) => {}
                Err(_) => self.is_complete = false,
            },
            Err(_) => self.is_complete = false,
        }
    }

    /// Puts a list of values, unless making it failed.
    // open: whether an allocation fails.
    pub fn put_list(&mut self, key: &str, values: Result<Vec<Value>, AllocError>)
        ensures { AddsMade list_data self.old self.new key.now values }
    {
        match values {
            Ok(values) => self.put(key, Ok(Value::Array(values))),
            Err(_) => self.put(key, Err(AllocError)),
        }
    }

    /// Puts a text.
    // open: whether an allocation fails.
    pub fn put_text(&mut self, key: &str, text: &str)
        ensures { AddsMember self.old self.new key.now (string text.now) }
    {
        let value = Value::try_from_str(self.alloc, text);
        self.put(key, value)
    }

    /// Puts a number.
    // open: whether an allocation fails.
    pub fn put_number(&mut self, key: &str, value: u64)
        ensures { AddsMember self.old self.new key.now (number (unsigned value)) }
    {
        self.put(key, Ok(Value::from(value)))
    }

    /// Puts true or false.
    // open: whether an allocation fails.
    pub fn put_bool(&mut self, key: &str, value: bool)
        ensures { AddsMember self.old self.new key.now (boolean value) }
    {
        self.put(key, Ok(Value::Bool(value)))
    }

    /// The object of all members.
    // open: whether an allocation has failed, its only error.
    #[tactic(auto, unfolding(crate::specs::Growing::members_if_complete))]
    pub fn finish(self) -> Result<Value, AllocError>
        ensures { IfOk result (λ value.
            option_map object (members_if_complete self) ≡ Some (view value)) }
    {
        let ObjectBuilder {
            alloc: _alloc,
            members,
            is_complete,
        } = self;
        if is_complete {
            Ok(Value::Object(members))
        } else {
            Err(AllocError)
        }
    }
}
