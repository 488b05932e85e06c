// A number in a file, of two bytes or four, signed or not: it goes by its bits, the least byte first.
ghost use Rattle.std.specs.Prelude.{◌≡◌, ℕ, ◌+◌, ◌≤◌, length};
ghost use Rattle.std.proofs.lemmas.List.Edits.{sets};
ghost use Rattle.std.specs.Int.{w16, w32};
ghost use Rattle.std.proofs.Common.{to_z, of_z};
ghost use Rattle.paper.specs.File.{bytes_of, field};

use crate::put;

pub trait Number: Copy {
    // How many bytes it takes, its bits as a number, and the number that has these bits.
    ghost width: { ℕ };

    ghost bits: { Self → ℕ };

    ghost of_bits: { ℕ → Self };

    // The number that stands at a place.
    fn read(bytes: &[u8], at: usize) -> Self
        requires { at + width ≤ length bytes.now }
        ensures { result ≡ of_bits (field width at bytes.now) };

    // Stores the number at a place.
    fn write(self, bytes: &mut [u8], at: usize)
        requires { at + width ≤ length bytes.old }
        ensures { bytes.new ≡ sets bytes.old at (bytes_of width (bits self)) };
}

impl Number for u16 {
    ghost width = { 2 };

    ghost bits = { λ x. x };

    ghost of_bits = { λ x. x };

    fn read(bytes: &[u8], at: usize) -> u16 {
        u16::from_le_bytes([bytes[at], bytes[at + 1]])
    }

    fn write(self, bytes: &mut [u8], at: usize) {
        put(bytes, at, 2, usize::from(self));
    }
}

impl Number for u32 {
    ghost width = { 4 };

    ghost bits = { λ x. x };

    ghost of_bits = { λ x. x };

    fn read(bytes: &[u8], at: usize) -> u32 {
        u32::from_le_bytes([bytes[at], bytes[at + 1], bytes[at + 2], bytes[at + 3]])
    }

    fn write(self, bytes: &mut [u8], at: usize) {
        put(bytes, at, 4, self as usize);
    }
}

impl Number for i16 {
    ghost width = { 2 };

    ghost bits = { of_z w16 };

    ghost of_bits = { to_z w16 };

    fn read(bytes: &[u8], at: usize) -> i16 {
        u16::read(bytes, at).cast_signed()
    }

    fn write(self, bytes: &mut [u8], at: usize) {
        self.cast_unsigned().write(bytes, at);
    }
}

impl Number for i32 {
    ghost width = { 4 };

    ghost bits = { of_z w32 };

    ghost of_bits = { to_z w32 };

    fn read(bytes: &[u8], at: usize) -> i32 {
        u32::read(bytes, at).cast_signed()
    }

    fn write(self, bytes: &mut [u8], at: usize) {
        self.cast_unsigned().write(bytes, at);
    }
}
