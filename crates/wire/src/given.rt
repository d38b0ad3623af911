// The slots that a Wait's numbers go into: its local values, the atom count of each alternative, and its atoms. Alternative i has its
// atom count in slot i, and its atom j stands in slot 4 * i + j, with its coefficients from 4 times that slot on. The alternative count
// is not among them: the writer is given it as any number, and refuses one past four. Array beside array, as in a room, so that closing
// copies them whole.
ghost use Rattle.std.specs.Prelude.{◌≡◌};
ghost use Rattle.wire.specs.WaitSlots.{no_locals, no_slots};
ghost use Rattle.wire.specs.Givens.{slots_of_given};

#[repr(C)]
#[derive(Drop)]
pub struct Given {
    pub locals: [i64; 4],
    pub counts: [u8; 4],
    pub measure: [u8; 16],
    pub operator: [u8; 16],
    pub coefficients: [i64; 64],
    pub constant: [i64; 16],
}

impl Given {
    // 0 in every slot.
    pub fn empty() -> Given
        ensures { (result.locals ≡ no_locals) × (slots_of_given result ≡ no_slots) }
    {
        Given {
            locals: [0; 4],
            counts: [0; 4],
            measure: [0; 16],
            operator: [0; 16],
            coefficients: [0; 64],
            constant: [0; 16],
        }
    }
}
