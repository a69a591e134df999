//! A document: its values, lists and objects.

ghost use Rattle.std.specs.Prelude.{◌≡◌, map, bytes_eq};
ghost use Rattle.project_json.specs.Tree.{trees_of, fields_of};
ghost use Rattle.project_json.specs.View.{tree, trees_in, field, fields_in};

use crate::text::{Decimal, Text};

mod copies;

/// A JSON value (RFC 8259 section 3). Contracts see it as its `tree`.
#[cycle(json)]
#[derive(Debug, Drop)]
pub enum Json {
    Null,
    Truth(bool),
    Number(Decimal),
    Text(Text),
    List(Items),
    Object(Members),
}

/// The items of a list.
#[cycle(json)]
#[derive(Debug, Drop)]
pub struct Items {
    items: Vec<Json>,
}

/// A member of an object: its name and its value.
#[cycle(json)]
#[derive(Debug, Drop)]
pub struct Member {
    name: Text,
    value: Json,
}

/// The members of an object, in the order of the document. A name that is repeated there has its
/// earlier place and its later value.
#[cycle(json)]
#[derive(Debug, Drop)]
pub struct Members {
    members: Vec<Member>,
}

impl Items {
    /// The list of these items. It takes no memory.
    pub fn new(items: Vec<Json>) -> Items
        ensures { trees_in result ≡ trees_of (map tree items.items) }
    {
        Items { items }
    }

    /// The items, in order.
    pub fn as_slice(&self) -> &[Json]
        ensures { trees_in self.now ≡ trees_of (map tree result.now) }
    {
        &self.items
    }
}

impl Members {
    pub(crate) fn new(members: Vec<Member>) -> Members
        ensures { fields_in result ≡ fields_of (map field members.items) }
    {
        Members { members }
    }

    /// The members, in the order of the document.
    pub fn as_slice(&self) -> &[Member]
        ensures { fields_in self.now ≡ fields_of (map field result.now) }
    {
        &self.members
    }
}

impl Member {
    pub(crate) fn new(name: Text, value: Json) -> Member
        ensures { field result ≡ (name, tree value) }
    {
        Member { name, value }
    }

    pub fn name(&self) -> &Text
        ensures { result.now ≡ (field self.now).0 }
    {
        &self.name
    }

    pub fn value(&self) -> &Json
        ensures { tree result.now ≡ (field self.now).1 }
    {
        &self.value
    }

    pub(crate) fn is_named(&self, name: &str) -> bool
        ensures { result ≡ bytes_eq (field self.now).0 name.now }
    {
        self.name.as_str() == name
    }

    pub(crate) fn set_value(&mut self, value: Json)
        ensures { field self.new ≡ ((field self.old).0, tree value) }
    {
        self.value = value;
    }
}
