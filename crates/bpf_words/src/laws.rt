//! Laws of slots and their bytes: a slot and its 8 bytes determine each other.

ghost use Rattle.std.specs.Prelude.{◌≡◌};
ghost use Rattle.bpf_words.specs.declared.Order.{Order};
ghost use Rattle.bpf_words.specs.Slots.{AreFields, Fields, encoded};

/// No two slots share their bytes.
pub fn slots_share_no_bytes()
    ensures { (order : Order) (f g : Fields) → AreFields f → AreFields g
        → encoded order f ≡ encoded order g → f ≡ g }
{}
