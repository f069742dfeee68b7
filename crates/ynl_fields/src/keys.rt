//! What stands under the keys of a line: texts and numbers, and the names and amounts that they are. Each kind of line has
//! its own faults, so whoever asks gives the fault that is returned where a line has something else.

ghost use Rattle.std.specs.Prelude.{◌≡◌, ◌≤◌, IfOk};
ghost use Rattle.ynl_resource.specs.Amounts.{IsSize};
ghost use Rattle.ynl_resource.specs.Ranges.{whole};
ghost use Rattle.ynl_fields.specs.Reading.{text_or, number_or, keys_or, name_or, label_or, path_or, id_or, size_or, within_or, Gives, HasClock};
ghost use Rattle.ynl_fields.specs.Trees.{data_at};

use crate::fields::Fields;
use ynl_resource::{Hundredths, Id, Label, Name, Path, Size};

/// The text under a key.
#[tactic(auto, unfolding(crate::specs::Reading::text_or))]
pub fn text_at<'v, E: Copy>(line: &Fields<'v, '_>, key: &str, fault: E) -> Result<&'v str, E>
    ensures { Gives (λ s. s.now) result (text_or fault key.now (data_at line.now.stands)) }
{
    match line.get(key) {
        Some(value) => value.as_str().ok_or(fault),
        None => Err(fault),
    }
}

/// The number under a key.
#[tactic(auto, unfolding(crate::specs::Reading::number_or))]
pub fn number_at<E: Copy>(line: &Fields<'_, '_>, key: &str, fault: E) -> Result<u64, E>
    ensures { result ≡ number_or fault key.now (data_at line.now.stands) }
{
    match line.get(key) {
        Some(value) => value.as_u64().ok_or(fault),
        None => Err(fault),
    }
}

/// Whether an object has so many members.
#[tactic(auto, unfolding(crate::specs::Reading::keys_or))]
pub fn keys_are<E: Copy>(line: &Fields<'_, '_>, count: usize, fault: E) -> Result<(), E>
    ensures { Gives (λ _. tt) result (keys_or fault count (data_at line.now.stands)) }
{
    match line.count() {
        Some(members) => { if members == count { Ok(()) } else { Err(fault) } }
        None => Err(fault),
    }
}

/// The name that a text is.
#[tactic(auto, unfolding(crate::specs::Reading::name_or))]
pub fn name_at<E: Copy>(text: &str, fault: E) -> Result<Name, E>
    ensures { result ≡ name_or fault text.now }
{
    match Name::parse(text) {
        Ok(name) => Ok(name),
        Err(_) => Err(fault),
    }
}

/// The label that a text is.
#[tactic(auto, unfolding(crate::specs::Reading::label_or))]
pub fn label_at<E: Copy>(text: &str, fault: E) -> Result<Label, E>
    ensures { result ≡ label_or fault text.now }
{
    match Label::parse(text) {
        Ok(label) => Ok(label),
        Err(_) => Err(fault),
    }
}

/// The path that a text is.
#[tactic(auto, unfolding(crate::specs::Reading::path_or))]
pub fn path_at<E: Copy>(text: &str, fault: E) -> Result<Path, E>
    ensures { result ≡ path_or fault text.now }
{
    match Path::parse(text) {
        Ok(path) => Ok(path),
        Err(_) => Err(fault),
    }
}

/// The id that a text is.
#[tactic(auto, unfolding(crate::specs::Reading::id_or))]
pub fn id_at<E: Copy>(text: &str, fault: E) -> Result<Id, E>
    ensures id { result ≡ id_or fault text.now }
    ensures ranged { IfOk result (λ id. HasClock id) }
{
    match Id::parse(text) {
        Ok(id) => Ok(id),
        Err(_) => Err(fault),
    }
}

/// The size; memory is in MB.
pub fn size_at<E: Copy>(memory: u64, vcores: u64, fault: E) -> Result<Size, E>
    ensures size { result ≡ size_or fault memory vcores }
    ensures ranged { IfOk result (λ size. IsSize size) }
{
    Size::new(memory, vcores).ok_or(fault)
}

/// The number, if it is at most so large.
#[tactic(auto, unfolding(crate::specs::Reading::within_or))]
pub fn within<E: Copy>(most: u64, number: u64, fault: E) -> Result<u64, E>
    ensures value { result ≡ within_or fault most number }
    ensures ranged { IfOk result (λ n. n ≤ most) }
{
    if number <= most {
        Ok(number)
    } else {
        Err(fault)
    }
}

/// The same of a number of 32 bits.
pub fn within_small<E: Copy>(most: u32, number: u64, fault: E) -> Result<u32, E>
    ensures value { result ≡ within_or fault most number }
    ensures ranged { IfOk result (λ n. n ≤ most) }
{
    let number = within(u64::from(most), number, fault)?;
    Ok(number as u32)
}

/// The share, from hundredths of a percent.
pub fn share_at<E: Copy>(number: u64, fault: E) -> Result<Hundredths, E>
    ensures share { result ≡ within_or fault whole number }
    ensures ranged { IfOk result (λ share. share ≤ whole) }
{
    Hundredths::new(number).ok_or(fault)
}
