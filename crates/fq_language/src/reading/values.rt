//! The members of an object, and the items of an array.
ghost use Rattle.std.specs.Prelude.{◌≡◌, Some, None, option_map};
ghost use Rattle.serde_json.specs.View.{view};
ghost use Rattle.fq_language.specs.Parts.{only_member as the_only_member, has_members as has_so_many, two_items as the_two_items, three_items as the_three_items};

use serde_json::Value;

/// The value of an object's only member, if that has this name.
pub fn only_member<'a>(value: &'a Value, name: &str) -> Option<&'a Value>
    ensures { option_map (λ v. view v.now) result ≡ the_only_member name.now (view value.now) }
{
    let members = value.as_object()?;
    if members.len() != 1 {
        return None;
    }
    value.get(name)
}

/// Whether a value is an object of so many members.
pub fn has_members(value: &Value, count: usize) -> bool
    ensures { result ≡ has_so_many count (view value.now) }
{
    match value.as_object() {
        Some(members) => members.len() == count,
        None => false,
    }
}

/// The items of an array of two.
pub fn two_items(value: &Value) -> Option<(&Value, &Value)>
    ensures { option_map (λ p. (view p.0.now, view p.1.now)) result ≡ the_two_items (view value.now) }
{
    let items = value.as_array()?;
    if items.len() != 2 {
        return None;
    }
    Some((&items[0], &items[1]))
}

/// The items of an array of three.
pub fn three_items(value: &Value) -> Option<(&Value, &Value, &Value)>
    ensures { option_map (λ p. (view p.0.now, view p.1.now, view p.2.now)) result ≡ the_three_items (view value.now) }
{
    let items = value.as_array()?;
    if items.len() != 3 {
        return None;
    }
    Some((&items[0], &items[1], &items[2]))
}
