//! Attributes with other values.

ghost use Rattle.std.specs.Prelude.{◌≡◌, ◌++◌, ◌∷◌, [], ◌||◌, ◌+◌, ◌^◌, ◌<◌, length, IfOk, Some};
ghost use Rattle.e57_nodes.specs.Limits.{absent_count, has_room, limited, with_value_or_new};
ghost use Rattle.e57_nodes.specs.Places.{with_value};
ghost use Rattle.std.specs.Fmt.{decimal};
ghost use Rattle.e57_edits.specs.Changes.{changed_attrs};
ghost use Rattle.e57_edits.specs.Values.{is_named, next_attr};

use crate::changes::Change;
use crate::limits::Range;
use e57_base::Octets;
use e57_elements::{Attr, Attrs, MAX_ATTRS};
use e57_tree::{copied_attr, value};
use itoa::Buffer;
use std::alloc::{AllocError, Global};

/// A copy of attributes with this change.
pub fn changed_attrs(alloc: Global, attrs: &Attrs, change: Change) -> Result<Attrs, AllocError>
    ensures { IfOk result (λ new. new ≡ changed_attrs change attrs.now) }
{
    match change {
        Change::Keep | Change::Omit => copied_attrs(alloc, attrs),
        Change::Limit(range) => limited(alloc, attrs, range),
        Change::Records(count) => with_number(alloc, attrs, b"recordCount".as_slice(), count),
        Change::Length(length) => with_number(alloc, attrs, b"length".as_slice(), length),
    }
}

/// A copy of attributes.
fn copied_attrs(alloc: Global, attrs: &Attrs) -> Result<Attrs, AllocError>
    ensures { IfOk result (λ new. new ≡ attrs.now) }
{
    let mut new = Attrs::new(alloc);
    for i in 0..attrs.len() {
        new.push(copied_attr(alloc, attrs.get(i))?)?;
    }
    Ok(new)
}

/// A copy of attributes with these limits, if there is room for both.
fn limited(alloc: Global, attrs: &Attrs, range: Range) -> Result<Attrs, AllocError>
    ensures { IfOk result (λ new. new ≡ limited (Some (range.low, range.high)) attrs.now) }
{
    if !has_room(attrs) {
        return copied_attrs(alloc, attrs);
    }
    let mut buffer = Buffer::new();
    let low = buffer.format(range.low).as_bytes();
    let new = with_value_or_new(alloc, attrs, b"minimum".as_slice(), low)?;
    let mut buffer = Buffer::new();
    let high = buffer.format(range.high).as_bytes();
    with_value_or_new(alloc, &new, b"maximum".as_slice(), high)
}

/// Whether there are at most 64 attributes with both limits.
#[tactic(auto, unfolding(e57_nodes::specs::Limits::has_room))]
fn has_room(attrs: &Attrs) -> bool
    ensures { result ≡ has_room attrs.now }
{
    let absent = absent_count(attrs, b"minimum".as_slice())
        + absent_count(attrs, b"maximum".as_slice());
    attrs.len() <= MAX_ATTRS - absent
}

/// 1 if the attribute is absent, and 0 if it is there.
fn absent_count(attrs: &Attrs, name: &[u8]) -> usize
    ensures { result ≡ absent_count name.now attrs.now }
{
    if value(attrs, name).is_some() { 0 } else { 1 }
}

/// A copy of attributes, in which the first one of this name has this value; it is put last where it was
/// absent.
#[tactic(auto, unfolding(e57_nodes::specs::Limits::with_value_or_new))]
fn with_value_or_new(
    alloc: Global,
    attrs: &Attrs,
    name: &[u8],
    text: &[u8],
) -> Result<Attrs, AllocError>
    ensures { IfOk result (λ new. new ≡ with_value_or_new name.now text.now attrs.now) }
{
    if value(attrs, name).is_some() {
        return with_value(alloc, attrs, name, text);
    }
    let mut new = copied_attrs(alloc, attrs)?;
    new.push(attr_of(alloc, name, text)?)?;
    Ok(new)
}

/// A copy of attributes, in which the first one of this name is this number in decimal.
fn with_number(alloc: Global, attrs: &Attrs, name: &[u8], number: u64) -> Result<Attrs, AllocError>
    ensures { IfOk result (λ new. new ≡ with_value name.now (decimal number) attrs.now) }
{
    let mut buffer = Buffer::new();
    with_value(alloc, attrs, name, buffer.format(number).as_bytes())
}

/// A copy of attributes, in which the first one of this name has this value.
fn with_value(alloc: Global, attrs: &Attrs, name: &[u8], text: &[u8]) -> Result<Attrs, AllocError>
    ensures { IfOk result (λ new. new ≡ with_value name.now text.now attrs.now) }
{
    let mut new = Attrs::new(alloc);
    let mut is_set = false;
    for i in 0..attrs.len() {
        new.push(next_attr(alloc, attrs.get(i), name, text, &mut is_set)?)?;
    }
    Ok(new)
}

/// A copy of an attribute; of the first one of this name with this value.
fn next_attr(
    alloc: Global,
    attr: &Attr,
    name: &[u8],
    text: &[u8],
    is_set: &mut bool,
) -> Result<Attr, AllocError>
    ensures copy { IfOk result (λ new. new ≡ next_attr is_set.old name.now text.now attr.now) }
    ensures set { is_set.new ≡ (is_set.old || is_named name.now attr.now) }
{
    if *is_set {
        return copied_attr(alloc, attr);
    }
    if attr.name.as_slice() == name {
        *is_set = true;
        return attr_of(alloc, attr.name.as_slice(), text);
    }
    copied_attr(alloc, attr)
}

/// The attribute of this name with this value.
fn attr_of(alloc: Global, name: &[u8], text: &[u8]) -> Result<Attr, AllocError>
    ensures { IfOk result (λ new. new ≡ record { name = name.now; value = text.now }) }
{
    Ok(Attr {
        name: Octets::new(Vec::from_slice(alloc, name)?),
        value: Octets::new(Vec::from_slice(alloc, text)?),
    })
}
