// What a part of a unit is: bytes at a place of its own.
ghost use Rattle.std.specs.Prelude.{◌≡◌, ℕ, ◌+◌, ◌≤◌, List};
ghost use Rattle.port.specs.declared.types.State.{State};
ghost use Rattle.c_bytes.specs.Layout.{UNIT, part, state_in};

// N bytes of a unit, from AT on.
pub trait Part<const N: usize> {
    const AT: usize;

    ghost AT: { ℕ };

    // Its bytes, the part that bytes are, and the part of a state.
    ghost bytes_of: { Self → List ℕ };

    ghost part_in: { List ℕ → Self };

    ghost of: { State → Self };

    fn to_bytes(self) -> [u8; N]
        ensures { result ≡ bytes_of self };

    fn from_bytes(b: &[u8; N]) -> Self
        ensures { result ≡ part_in b.now };

    // It is within the unit, and the bytes there are those of the part of the unit's state.
    ghost fits: { AT + N ≤ UNIT };

    ghost reads: { (u : List ℕ) → part_in (part AT N u) ≡ of (state_in u) };
}
