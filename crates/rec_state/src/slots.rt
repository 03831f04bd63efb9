//! Arrays of sixteen.
ghost use Rattle.std.specs.Prelude.{◌≡◌};
ghost use Rattle.rec_state.specs.Slotted.{slotted};

use ioc_fields::FieldSlot;

/// Sets the item of a slot.
pub fn set_slot<T: Copy>(items: &mut [T; 16], slot: FieldSlot, item: T)
    ensures { items.new ≡ slotted item items.old slot item }
{
    let index = slot.index();
    items[index] = item;
}
