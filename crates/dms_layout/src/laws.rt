ghost use Rattle.std.specs.Prelude.{◌≡◌, ◌≢◌, false, ◌&&◌, ◌||◌, not, ℕ, List, drop, length, replicate};
ghost use Rattle.dms_desc.specs.Fitting.{values_fit};
ghost use Rattle.dms_desc.specs.Shape.{Shape};
ghost use Rattle.dms_layout.specs.declared.slot.Slot.{Slot};
ghost use Rattle.dms_layout.specs.declared.slot.SlotRead.TheVariants.{Free, Used, Bad};
ghost use Rattle.dms_layout.specs.Slots.{is_free, is_raw_slot, raw_of, reads_bad, values_at, slot_bytes, slot_width, slot_of, SlotFits, AreKinds};

/// A law: a record that fits is read from its spelling, which is as long as a slot and no other record's.
pub fn spelling_law()
    ensures again { (s : Shape) (slot : Slot) → AreKinds s.items → SlotFits s slot
        → slot_of s (slot_bytes s.items slot) ≡ Used slot }
    ensures width { (s : Shape) (slot : Slot) → AreKinds s.items → SlotFits s slot
        → length (slot_bytes s.items slot) ≡ slot_width s.items }
    ensures one { (s : Shape) (a b : Slot) → AreKinds s.items → SlotFits s a → SlotFits s b
        → slot_bytes s.items a ≡ slot_bytes s.items b → a ≡ b }
{}

/// A law: what is read as used is the spelling of that record, which fits; what is read as free is zeros alone, and
/// those are read so; what is read as bad is neither zeros nor the spelling of a record that fits.
pub fn reading_law()
    ensures used { (s : Shape) (bytes : List ℕ) (slot : Slot) → slot_of s bytes ≡ Used slot
        → SlotFits s slot × (bytes ≡ slot_bytes s.items slot) }
    ensures free { (s : Shape) (bytes : List ℕ) → slot_of s bytes ≡ Free → bytes ≡ replicate (slot_width s.items) 0 }
    ensures free_again { (s : Shape) → slot_of s (replicate (slot_width s.items) 0) ≡ Free }
    ensures bad { (s : Shape) (bytes : List ℕ) → AreKinds s.items → slot_of s bytes ≡ Bad
        → (bytes ≢ replicate (slot_width s.items) 0)
        × ((slot : Slot) → SlotFits s slot → bytes ≢ slot_bytes s.items slot) }
{}

/// A law: what is read as bad isn't in the format, or has a value that doesn't fit; and what isn't bad is read the same, ranges or not.
pub fn range_law()
    ensures bad { (s : Shape) (bytes : List ℕ) → reads_bad (slot_of s bytes)
        ≡ not (is_raw_slot s bytes && (is_free s.items bytes || values_fit s.items (values_at s.items (drop 13 bytes)))) }
    ensures same { (s : Shape) (bytes : List ℕ) → reads_bad (slot_of s bytes) ≡ false → raw_of s bytes ≡ slot_of s bytes }
{}
