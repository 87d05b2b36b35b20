//! Bits that are put one behind another.

use frame_headers::FieldName;
use std::alloc::{AllocError, Global};
use std::marker::Model;

/// Bits that become bytes, the most significant bit of each byte first.
#[derive(Drop)]
pub struct BitWriter {
    bytes: Vec<u8>,
    // The bits behind the bytes, as a number.
    last: u8,
    used: u8,
}

impl Model for BitWriter {
    ghost use Rattle.std.specs.Prelude.{ℕ, List, ◌<◌, ◌^◌, ◌++◌};
    ghost use Rattle.vp9_types.specs.Bits.{bits_of, spelled};

    ghost Value = { List ℕ };

    ghost view = { λ w. bits_of w.bytes.items ++ spelled w.used w.last };

    ghost invariant = { λ w. (w.used < 8) × (w.last < 2 ^ w.used) };
}

impl BitWriter {
    ghost use Rattle.std.specs.Prelude.{◌≡◌, ◌<◌, ◌≤◌, ◌^◌, ◌++◌, ◌∷◌, [], IfOk, if◌then◌else◌};
    ghost use Rattle.std.specs.Result.{is_ok};
    ghost use Rattle.frame_headers.specs.Fields.{f, flag_field, su};
    ghost use Rattle.header_writer.specs.Code.{HasPut};
    ghost use Rattle.header_writer.specs.WrittenFields.{Puts, IsPadded};
    ghost use Rattle.header_writer.specs.Spelling.{number, bit, signed_number};
    ghost use Rattle.header_writer.specs.WellFormed.{IsSigned};

    /// A writer without bits.
    #[tactic(auto, unfolding(vp9_types::specs::Bits::bits_of, vp9_types::specs::Bits::spelled))]
    pub fn new(alloc: Global) -> Self
        ensures { result ≡ [] }
    {
        BitWriter {
            bytes: Vec::new(alloc),
            last: 0,
            used: 0,
        }
    }

    /// Puts a bit, 0 or 1.
    fn bit(&mut self, bit: u8) -> Result<(), AllocError>
        requires { bit < 2 }
        ensures { self.new ≡ (if is_ok result then self.old ++ bit ∷ [] else self.old) }
    {
        let longer = 2 * self.last + bit;
        if self.used == 7 {
            self.bytes.push(longer)?;
            self.last = 0;
            self.used = 0;
        } else {
            self.last = longer;
            self.used += 1;
        }
        Ok(())
    }

    /// Puts a field of at most 16 bits.
    pub fn field(&mut self, name: FieldName, width: u8, value: u16) -> Result<(), AllocError>
        requires width { width ≤ 16 }
        requires fits { value < 2 ^ width }
        ensures puts { IfOk result (λ _. Puts (f name width) self.old value self.new) }
        ensures spells { IfOk result (λ _. HasPut self.old (number width value) self.new) }
    {
        let mut left = width;
        while 0 < left {
            left -= 1;
            self.bit(((value >> left) % 2) as u8)?;
        }
        Ok(())
    }

    /// Puts a field of at most 8 bits.
    pub fn byte(&mut self, name: FieldName, width: u8, value: u8) -> Result<(), AllocError>
        requires width { width ≤ 8 }
        requires fits { value < 2 ^ width }
        ensures puts { IfOk result (λ _. Puts (f name width) self.old value self.new) }
        ensures spells { IfOk result (λ _. HasPut self.old (number width value) self.new) }
    {
        self.field(name, width, u16::from(value))
    }

    /// Puts a field of one bit.
    #[tactic(auto, unfolding(frame_headers::specs::Fields::flag_field, crate::specs::Spelling::bit), using(vp9_types::proofs::Binds::writes_bind))]
    pub fn flag_field(&mut self, name: FieldName, value: bool) -> Result<(), AllocError>
        ensures puts { IfOk result (λ _. Puts (flag_field name) self.old value self.new) }
        ensures spells { IfOk result (λ _. HasPut self.old (bit value) self.new) }
    {
        self.field(name, 1, u16::from(value))
    }

    /// Puts a number of at most 8 bits, and its sign.
    #[tactic(auto, unfolding(frame_headers::specs::Fields::su, crate::specs::Spelling::signed_number), using(vp9_types::proofs::Binds::writes_bind, crate::proofs::Spells::spells_on))]
    pub fn signed_number(
        &mut self,
        name: FieldName,
        width: u8,
        value: i16,
    ) -> Result<(), AllocError>
        requires width { width ≤ 8 }
        requires fits { IsSigned width value }
        ensures puts { IfOk result (λ _. Puts (su name width) self.old value self.new) }
        ensures spells { IfOk result (λ _. HasPut self.old (signed_number width value) self.new) }
    {
        self.field(name, width, value.unsigned_abs())?;
        self.flag_field(FieldName::Sign, value < 0)
    }

    /// The bytes of the bits, and 0 bits to the end of the last.
    pub fn finish(self) -> Result<Vec<u8>, AllocError>
        ensures { IfOk result (λ bytes. IsPadded self bytes.items) }
    {
        let BitWriter {
            mut bytes,
            last,
            used,
        } = self;
        if used == 0 {
            return Ok(bytes);
        }
        bytes.push(last << (8 - used))?;
        Ok(bytes)
    }
}
