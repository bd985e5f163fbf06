//! What ids and their texts tell.
ghost use Rattle.std.specs.Prelude.{◌≡◌, ◌<◌, ◌/◌, ◌%◌, ◌^◌, ℕ, Ok};
ghost use Rattle.fluid_ids.specs.Ids.{id_of};
ghost use Rattle.fluid_ids.specs.Texts.{meaning, printed};
ghost use Rattle.fluid_ids.specs.declared.forms.Form.{Form as Kind};

/// The text of an id is read again as that id, in each form.
pub fn printed_ids_are_read_again()
    ensures { (form : Kind) (id : ℕ) → id < 2 ^ 64 → meaning (printed form id) ≡ Ok id }
{}

/// An id tells its millisecond, its rank and its sequence number.
pub fn ids_tell_their_parts()
    ensures millis { (millis rank sequence : ℕ) → rank < 2 ^ 14 → sequence < 2 ^ 10
        → id_of millis rank sequence / 2 ^ 24 ≡ millis }
    ensures rank { (millis rank sequence : ℕ) → rank < 2 ^ 14 → sequence < 2 ^ 10
        → id_of millis rank sequence / 2 ^ 10 % 2 ^ 14 ≡ rank }
    ensures sequence { (millis rank sequence : ℕ) → sequence < 2 ^ 10
        → id_of millis rank sequence % 2 ^ 10 ≡ sequence }
{}
