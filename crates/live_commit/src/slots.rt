// The slot changes of a setup.
ghost use Rattle.std.specs.Prelude.{◌≡◌, ◌<◌, ◌^◌, ◌-◌, [], ◌∷◌, ◌++◌, length, IfOk, OnOk};
ghost use Rattle.live_commit.specs.Slots.{checked_slot, checked_slots, is_set, kept_slots};

use crate::SetupFault;
use damon_types::{SlotChange, SlotChanges, Version};
use std::alloc::{AllocError, Global};

// Checks changes, each after those before it.
pub fn check_slots(version: Version, changes: &[SlotChange]) -> Result<(), SetupFault>
    requires { length changes.now < 2 ^ 32 }
    ensures exact { result ≡ checked_slots version changes.now }
{
    for (index, change) in changes.iter().enumerate() {
        check_slot(version, &changes[..index], change)?;
    }
    Ok(())
}

// Checks one change after others.
fn check_slot(
    version: Version,
    before: &[SlotChange],
    change: &SlotChange,
) -> Result<(), SetupFault>
    requires { length before.now < 2 ^ 32 }
    ensures exact { result ≡ checked_slot version (length before.now) before.now change.now }
{
    let Some(scheme) = &change.scheme else {
        return Ok(());
    };
    let index = before.len() as u32;
    scheme
        .check_in(version, change.slot)
        .map_err(|why| SetupFault::BadScheme { index, why })?;
    if is_set(before, change.slot) {
        return Err(SetupFault::RepeatedSlot { index });
    }
    Ok(())
}

/// Whether one of these changes sets the slot: gives it a scheme.
pub fn is_set(changes: &[SlotChange], slot: u8) -> bool
    ensures { result ≡ is_set slot changes.now }
{
    changes
        .iter()
        .any(|change| change.scheme.is_some() && change.slot == slot)
}

// The changes that have a scheme.
pub fn keep_slots(alloc: Global, changes: &[SlotChange]) -> Result<SlotChanges, AllocError>
    requires { length changes.now < 2 ^ 32 }
    ensures exact { IfOk result (λ l. l.list ≡ kept_slots changes.now) }
{
    let mut kept = SlotChanges::new(alloc);
    for change in changes {
        keep_slot(&mut kept, change)?;
    }
    Ok(kept)
}

// Appends a change that has a scheme.
fn keep_slot(kept: &mut SlotChanges, change: &SlotChange) -> Result<(), AllocError>
    requires { length kept.old.list < 2 ^ 32 - 1 }
    ensures exact { OnOk result (kept.new.list ≡ kept.old.list ++ kept_slots (change.now ∷ [])) }
{
    if change.scheme.is_some() {
        kept.push(*change)?;
    }
    Ok(())
}
