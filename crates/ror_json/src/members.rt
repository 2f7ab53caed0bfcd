//! The members of an object and the items of an array, read one by one.

ghost use Rattle.std.specs.Prelude.{◌≡◌};
ghost use Rattle.serde_json.specs.Find.{as_array, as_object};
ghost use Rattle.serde_json.specs.View.{view, items_view, members_view};
ghost use Rattle.ror_text.specs.Reading.{Gives};
ghost use Rattle.ror_json.specs.Reading as spec;
ghost use Rattle.ror_json.specs.Reading.{misfit, shape};

use crate::fault::Misfit;
use ror_proof::names::{Name, named};
use ror_text::reading::need;
use serde_json::Value;
use std::collections::btree_map::Iter;

/// The members of an object that are left to read, in the order of their keys.
pub(crate) type Members<'a> = Iter<'a, String, Value>;

/// All members of an object.
pub(crate) fn members_of(v: &Value) -> Result<Members<'_>, Misfit>
    ensures { Gives (λ members. members_view members) misfit result
        (shape (as_object (view v.now))) }
{
    let map = need(v.as_object(), Misfit::Shape)?;
    Ok(map.iter())
}

/// The value of the member that comes first, which has to have this key, and the members after it.
pub(crate) fn member_at<'a>(
    key: &str,
    members: Members<'a>,
) -> Result<(&'a Value, Members<'a>), Misfit>
    ensures { Gives (λ x. (view x.0.now, members_view x.1)) misfit result
        (spec.member_at key.now (members_view members.entry)) }
{
    let mut members = members;
    match members.next() {
        Some((name, value)) if name.as_str() == key => Ok((value, members)),
        _ => Err(Misfit::Shape),
    }
}

/// The member that comes first, whose key is the word of one of these, and the members after it.
pub(crate) fn named_member<'a, N: Name + Drop>(
    names: &[N],
    members: Members<'a>,
) -> Result<(N, &'a Value, Members<'a>), Misfit>
    ensures { Gives (λ x. (x.0, (view x.1.now, members_view x.2))) misfit result
        (spec.named_member N.word_of names.now (members_view members.entry)) }
{
    let mut members = members;
    match members.next() {
        Some((key, value)) => {
            let name = need(named(names, key.as_bytes()), Misfit::Shape)?;
            Ok((name, value, members))
        }
        None => Err(Misfit::Shape),
    }
}

/// That no member is left.
pub(crate) fn no_member(members: Members<'_>) -> Result<(), Misfit>
    ensures { Gives (λ _. tt) misfit result (spec.no_member (members_view members.entry)) }
{
    let mut members = members;
    match members.next() {
        Some(_) => Err(Misfit::Shape),
        None => Ok(()),
    }
}

/// Whether the member that comes first has the key `line`.
pub(crate) fn begins_with_line(members: Members<'_>) -> bool
    ensures { result ≡ spec.begins_with_line (members_view members.entry) }
{
    let mut members = members;
    match members.next() {
        Some((key, _)) => key.as_str() == "line",
        None => false,
    }
}

/// All items of an array.
pub(crate) fn items_of(v: &Value) -> Result<&[Value], Misfit>
    ensures { Gives (λ items. items_view items.now) misfit result
        (shape (as_array (view v.now))) }
{
    let items = need(v.as_array(), Misfit::Shape)?;
    Ok(items.as_slice())
}

/// The first item and those after it.
pub(crate) fn item_at(items: &[Value]) -> Result<(&Value, &[Value]), Misfit>
    ensures { Gives (λ x. (view x.0.now, items_view x.1.now)) misfit result
        (spec.item_at (items_view items.now)) }
{
    match items {
        [first, more @ ..] => Ok((first, more)),
        [] => Err(Misfit::Shape),
    }
}

/// That no item is left.
pub(crate) fn no_item(items: &[Value]) -> Result<(), Misfit>
    ensures { Gives (λ _. tt) misfit result (spec.no_item (items_view items.now)) }
{
    match items {
        [] => Ok(()),
        [_first, _more @ ..] => Err(Misfit::Shape),
    }
}
