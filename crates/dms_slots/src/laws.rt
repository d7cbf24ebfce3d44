ghost use Rattle.std.specs.Prelude.{◌≡◌, ◌≢◌, ◌<◌, ℕ, List, true, length, replicate};
ghost use Rattle.dms_desc.specs.Shape.{Shape};
ghost use Rattle.dms_block.specs.Content.{Content};
ghost use Rattle.dms_layout.specs.declared.slot.Slot.{Slot};
ghost use Rattle.dms_layout.specs.declared.slot.SlotRead.TheVariants.{Free, Used, Bad};
ghost use Rattle.dms_layout.specs.Slots.{slot_bytes, slot_width, slot_of, SlotFits, AreKinds};
ghost use Rattle.dms_desc.specs.Files.{file_of};
ghost use Rattle.dms_slots.specs.SlotBlocks.{per_block, is_slot, is_block, record_slot, slot_put, LaysSlot, MayPutSlot, OtherSlotsStay};

/// A law: a block in which one slot was written is a block, that slot is the one that was written, and the others are
/// as they were.
pub fn written_law()
    ensures { (s : Shape) (p : ℕ) (x block : List ℕ) → p < per_block s.items → length x ≡ slot_width s.items
        → is_slot (slot_of s x) ≡ true → is_block s block ≡ true → LaysSlot s p x block }
{}

/// A law: in a file in which the slot of a number was written, also in a new block, that slot is the one that was
/// written, and those of all other numbers are as they were. All other files are as they were.
pub fn file_law()
    ensures used { (s : Shape) (c : Content) (number : ℕ) (slot : Slot) → AreKinds s.items → SlotFits s slot → MayPutSlot s c number
        → record_slot s (slot_put s number (slot_bytes s.items slot) c) number ≡ Used slot }
    ensures free { (s : Shape) (c : Content) (number : ℕ) → MayPutSlot s c number
        → record_slot s (slot_put s number (replicate (slot_width s.items) 0) c) number ≡ Free }
    ensures others { (s : Shape) (c : Content) (number : ℕ) (bytes : List ℕ) → MayPutSlot s c number → slot_of s bytes ≢ Bad
        → OtherSlotsStay s number c (slot_put s number bytes c) }
    ensures files { (s : Shape) (c : Content) (number : ℕ) (bytes : List ℕ) (file : ℕ) → file ≢ file_of s.number
        → slot_put s number bytes c file ≡ c file }
{}
