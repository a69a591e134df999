//! Copies of documents.

ghost use Rattle.std.specs.Prelude.{◌≡◌, map, IfOk};
ghost use Rattle.project_json.specs.View.{tree, trees_in, field, fields_in};

use crate::json::{Items, Json, Member, Members};
use std::alloc::AllocError;

impl Clone for Json {
    ghost is_clone = { λ s t. tree t ≡ tree s };

    #[cycle(copy)]
    fn clone(&self) -> Result<Json, AllocError> {
        match self {
            Json::Null => Ok(Json::Null),
            Json::Truth(truth) => Ok(Json::Truth(*truth)),
            Json::Number(number) => Ok(Json::Number(number.clone()?)),
            Json::Text(text) => Ok(Json::Text(text.clone()?)),
            Json::List(items) => Ok(Json::List(items.clone()?)),
            Json::Object(members) => Ok(Json::Object(members.clone()?)),
        }
    }
}

impl Clone for Items {
    ghost is_clone = { λ s t. trees_in t ≡ trees_in s };

    #[cycle(copy)]
    fn clone(&self) -> Result<Items, AllocError> {
        let mut items = Vec::new(*self.items.allocator());
        for item in &self.items {
            items.push(item.clone()?)?;
        }
        Ok(Items::new(items))
    }
}

impl Clone for Member {
    ghost is_clone = { λ s t. field t ≡ field s };

    #[cycle(copy)]
    fn clone(&self) -> Result<Member, AllocError> {
        let name = self.name.clone()?;
        let value = self.value.clone()?;
        Ok(Member { name, value })
    }
}

impl Clone for Members {
    ghost is_clone = { λ s t. fields_in t ≡ fields_in s };

    #[cycle(copy)]
    fn clone(&self) -> Result<Members, AllocError> {
        let mut members = Vec::new(*self.members.allocator());
        for member in &self.members {
            members.push(member.clone()?)?;
        }
        Ok(Members::new(members))
    }
}
