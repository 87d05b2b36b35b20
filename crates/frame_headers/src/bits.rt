ghost use Rattle.std.specs.Prelude.{◌≡◌, ◌≤◌, ◌<◌, ◌^◌, ◌/◌, ◌∷◌, [], length, MatchOption, IfOk};
ghost use Rattle.frame_headers.specs.Fields.{f, flag_field, su, Reads};

use crate::field::FieldName;
use std::marker::Model;
use vp9_types::Rule;

/// Bytes that are read bit by bit, the most significant bit of each byte first.
#[derive(Drop)]
pub struct BitReader<'a> {
    rest: &'a [u8],
    used: u8,
}

impl<'a> Model for BitReader<'a> {
    ghost use Rattle.std.specs.Prelude.{ℕ, List, ◌<◌, ◌≤◌, drop, length};
    ghost use Rattle.vp9_types.specs.Bits.{bits_of};

    ghost Value = { List ℕ };

    ghost view = { λ r. drop r.used (bits_of r.rest.now) };

    ghost invariant = { λ r. (r.used < 8) × (0 < r.used → 0 < length r.rest.now) };
}

impl<'a> BitReader<'a> {
    ghost use Rattle.vp9_types.specs.Bits.{bits_of};

    pub fn new(bytes: &'a [u8]) -> BitReader<'a>
        ensures { result ≡ bits_of bytes.now }
    {
        BitReader {
            rest: bytes,
            used: 0,
        }
    }

    /// The next bit.

    fn bit(&mut self) -> Option<u8>
        ensures read { MatchOption result ((self.old ≡ []) × (self.new ≡ [])) (λ b. (self.old ≡ b ∷ self.new) × (b < 2)) }
    {
        let [byte, others @ ..] = self.rest else {
            return None;
        };
        let bit = (*byte >> (7 - self.used)) % 2;
        if self.used == 7 {
            self.rest = others;
            self.used = 0;
        } else {
            self.used += 1;
        }
        Some(bit)
    }

    /// A field of at most 16 bits.
    pub fn field(&mut self, name: FieldName, width: u8) -> Result<u16, Rule>
        requires { width ≤ 16 }
        ensures reads { Reads (f name width) self.old result self.new }
        ensures small { IfOk result (λ value. value < 2 ^ width) }
    {
        let mut value: u32 = 0;
        for _ in 0..width {
            let Some(bit) = self.bit() else {
                return Err(Rule::HeaderTruncated);
            };
            value = 2 * value + u32::from(bit);
        }
        Ok(value as u16)
    }

    /// A field of at most 8 bits.
    pub fn byte(&mut self, name: FieldName, width: u8) -> Result<u8, Rule>
        requires { width ≤ 8 }
        ensures reads { Reads (f name width) self.old result self.new }
        ensures small { IfOk result (λ value. value < 2 ^ width) }
    {
        let value = self.field(name, width)?;
        Ok(value as u8)
    }

    /// A field of one bit.
    #[tactic(auto, unfolding(crate::specs::Fields::flag_field), using(vp9_types::proofs::Runs::run_bind))]
    pub fn flag_field(&mut self, name: FieldName) -> Result<bool, Rule>
        ensures { Reads (flag_field name) self.old result self.new }
    {
        Ok(self.field(name, 1)? == 1)
    }

    /// A number of at most 8 bits, and its sign.
    #[tactic(auto, unfolding(crate::specs::Fields::su), using(vp9_types::proofs::Runs::run_bind))]
    pub fn signed(&mut self, name: FieldName, width: u8) -> Result<i16, Rule>
        requires { width ≤ 8 }
        ensures { Reads (su name width) self.old result self.new }
    {
        let magnitude = i16::from(self.byte(name, width)?);
        let negative = self.flag_field(FieldName::Sign)?;
        Ok(if negative { 0 - magnitude } else { magnitude })
    }

    /// How many whole bytes are left: a byte of which some bits are read isn't.
    pub fn bytes_left(&self) -> usize
        ensures { result ≡ length self.now / 8 }
    {
        if self.used == 0 {
            self.rest.len()
        } else {
            self.rest.len() - 1
        }
    }
}
