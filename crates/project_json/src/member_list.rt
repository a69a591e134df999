//! The members of an object while it is read.

ghost use Rattle.std.specs.Prelude.{◌≡◌, ℕ, List, map, [], IfOk};
ghost use Rattle.std.specs.BTreeMap.{get_by_text};
ghost use Rattle.project_json.specs.Grammar.{put};
ghost use Rattle.project_json.specs.Places.{place_of};
ghost use Rattle.project_json.specs.View.{tree, field};

use crate::json::{Json, Member};
use crate::text::Text;
use std::alloc::{AllocError, Global};
use std::collections::BTreeMap;

/// Members in the order of the document, and beside them the place of each name, so that a name is
/// looked up in the logarithm of their number.
#[derive(Drop)]
pub struct MemberList {
    members: Vec<Member>,
    places: BTreeMap<String, usize>,
    ghost indexed: { (name : List ℕ) → get_by_text places name ≡ place_of name (map field members.items) },
}

impl MemberList {
    pub fn new(alloc: Global) -> MemberList
        ensures { map field result.members.items ≡ [] }
    {
        MemberList {
            members: Vec::new(alloc),
            places: BTreeMap::new(alloc),
        }
    }

    /// Sets the value at the name, in its earlier place or else last.
    pub fn put(self, alloc: Global, name: Text, value: Json) -> Result<MemberList, AllocError>
        ensures { IfOk result (λ list. map field list.members.items ≡ put name (tree value) (map field self.members.items)) }
    {
        let MemberList {
            mut members,
            mut places,
        } = self;
        match places.get(name.as_str()).copied() {
            Some(place) => {
                members[place].set_value(value);
                Ok(MemberList { members, places })
            }
            None => {
                let key = String::from_str(alloc, name.as_str())?;
                places.insert(key, members.len())?;
                members.push(Member::new(name, value))?;
                Ok(MemberList { members, places })
            }
        }
    }

    pub fn into_members(self) -> Vec<Member>
        ensures { result.items ≡ self.members.items }
    {
        let MemberList { members, places: _ } = self;
        members
    }
}
