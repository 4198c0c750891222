//! The members of an object, read one after the other.

ghost use Rattle.std.specs.Prelude.{◌≡◌, map, option_map};
ghost use Rattle.serde_json.specs.View.{view};
ghost use Rattle.json_parts.specs.declared.fault.ShapeFault.TheVariants.{NoMemory, Shape};
ghost use Rattle.json_parts.specs.Object as object;
ghost use Rattle.json_parts.specs.Paths.{below};
ghost use Rattle.json_parts.specs.Views.{Gives, object_seen, texts};

use crate::fault::ShapeFault;
use crate::names::first_unknown;
use crate::path::member_path;
use crate::trees::list_of;
use lex_text::Name;
use serde_json::Value;
use std::alloc::Global;
use std::cmp::Ordering;

/// The members of an object, which are asked for in the byte order of their names.
///
/// A member that no name stands for is a fault at its place among the others. So the first fault in
/// byte order is answered, and `end` is to be called behind the last name.
#[derive(Clone, Copy, Debug)]
pub struct Members<'a, 'p> {
    path: &'p str,
    value: &'a Value,
    unknown: Option<&'a str>,
}

impl<'a, 'p> Members<'a, 'p> {
    /// The members of the object at a path, with the names that they may have.
    #[tactic(auto, unfolding(crate::specs::Object::members_of))]
    pub fn new(
        alloc: Global,
        path: &'p str,
        names: &[&str],
        value: &'a Value,
    ) -> Result<Members<'a, 'p>, ShapeFault>
        ensures { Gives object_seen result
            (object.members_of path.now (texts names.now) (view value.now)) }
    {
        let Some(object) = value.as_object() else {
            return Err(ShapeFault::Shape {
                path: Name::new(alloc, path)?,
            });
        };
        let unknown = first_unknown(names, object);
        Ok(Members {
            path,
            value,
            unknown,
        })
    }

    // What this name stands for is unknown, missing or ill-formed.
    fn refused(&self, alloc: Global, name: &str) -> ShapeFault
        ensures { (result ≡ NoMemory → ⊥)
            → result ≡ Shape (below (object_seen self.now).path name.now) }
    {
        match member_path(alloc, self.path, name) {
            Ok(path) => ShapeFault::Shape { path },
            Err(_) => ShapeFault::NoMemory,
        }
    }

    fn pass(&self, alloc: Global, name: &str) -> Result<(), ShapeFault>
        ensures { Gives (λ u. u) result (object.passed (object_seen self.now) name.now) }
    {
        let Some(unknown) = self.unknown else {
            return Ok(());
        };
        match unknown.cmp(name) {
            Ordering::Less => Err(self.refused(alloc, unknown)),
            _ => Ok(()),
        }
    }

    /// Behind the last member.
    pub fn end(&self, alloc: Global) -> Result<(), ShapeFault>
        ensures { Gives (λ u. u) result (object.end_of (object_seen self.now)) }
    {
        let Some(unknown) = self.unknown else {
            return Ok(());
        };
        Err(self.refused(alloc, unknown))
    }

    /// A member that may be there.
    #[tactic(auto, unfolding(crate::specs::Object::maybe_at))]
    pub fn maybe(&self, alloc: Global, name: &str) -> Result<Option<&'a Value>, ShapeFault>
        ensures { Gives (option_map (λ v. view v.now)) result
            (object.maybe_at (object_seen self.now) name.now) }
    {
        self.pass(alloc, name)?;
        Ok(self.value.get(name))
    }

    /// A text that has to be there.
    #[tactic(auto, unfolding(crate::specs::Object::text_at))]
    pub fn text(&self, alloc: Global, name: &str) -> Result<&'a str, ShapeFault>
        ensures { Gives (λ s. s.now) result (object.text_at (object_seen self.now) name.now) }
    {
        let Some(value) = self.maybe(alloc, name)? else {
            return Err(self.refused(alloc, name));
        };
        let Some(text) = value.as_str() else {
            return Err(self.refused(alloc, name));
        };
        Ok(text)
    }

    /// A text that may be there.
    #[tactic(auto, unfolding(crate::specs::Object::maybe_text_at))]
    pub fn maybe_text(&self, alloc: Global, name: &str) -> Result<Option<&'a str>, ShapeFault>
        ensures { Gives (option_map (λ s. s.now)) result
            (object.maybe_text_at (object_seen self.now) name.now) }
    {
        let Some(value) = self.maybe(alloc, name)? else {
            return Ok(None);
        };
        let Some(text) = value.as_str() else {
            return Err(self.refused(alloc, name));
        };
        Ok(Some(text))
    }

    /// A whole number from `least` to `greatest`, or `default` where it isn't there.
    #[tactic(auto, unfolding(crate::specs::Object::number_at))]
    pub fn number(
        &self,
        alloc: Global,
        name: &str,
        least: u64,
        greatest: u64,
        default: u64,
    ) -> Result<u64, ShapeFault>
        ensures { Gives (λ n. n) result
            (object.number_at (object_seen self.now) name.now least greatest default) }
    {
        let Some(value) = self.maybe(alloc, name)? else {
            return Ok(default);
        };
        let Some(number) = value.as_u64() else {
            return Err(self.refused(alloc, name));
        };
        if number < least || number > greatest {
            return Err(self.refused(alloc, name));
        }
        Ok(number)
    }

    /// The elements of an array that has to be there.
    #[tactic(auto, unfolding(crate::specs::Object::list_at))]
    pub fn list(&self, alloc: Global, name: &str) -> Result<&'a [Value], ShapeFault>
        ensures { Gives (λ list. map view list.now) result
            (object.list_at (object_seen self.now) name.now) }
    {
        let Some(value) = self.maybe(alloc, name)? else {
            return Err(self.refused(alloc, name));
        };
        let Some(list) = list_of(value) else {
            return Err(self.refused(alloc, name));
        };
        Ok(list)
    }
}
