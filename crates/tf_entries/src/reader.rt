ghost use Rattle.std.specs.Prelude.{◌≡◌, [], ◌∷◌, Some, None, IfOk, IfErr, MatchOption};
ghost use Rattle.std.specs.Int.{w16, w32, w64};
ghost use Rattle.tf_entries.specs.Reading.{RefusesForm, is_nothing, read_number, read_signed, read_name, read_text, read_value};

use std::alloc::Global;
use std::marker::Model;
use tf_values::{MakeFault, Name, Text, Val};

/// Bytes that are read from their front. Contracts see those that are left. After `No` or `Memory`
/// nothing more is read of them.
#[derive(Drop)]
pub struct Reader<'a> {
    bytes: &'a [u8],
}

impl<'a> Model for Reader<'a> {
    ghost use Rattle.std.specs.Prelude.{List, ℕ};

    ghost Value = { List ℕ };

    ghost view = { λ reader. reader.bytes.now };
}

impl<'a> Reader<'a> {
    /// A reader of these bytes.
    pub fn make(bytes: &'a [u8]) -> Reader<'a>
        ensures { result ≡ bytes.now }
    {
        Reader { bytes }
    }
}

impl Reader<'_> {
    /// Whether nothing is left.
    pub fn is_at_end(&self) -> bool
        ensures { result ≡ is_nothing self.now }
    {
        self.bytes.is_empty()
    }

    /// One byte.
    pub fn byte(&mut self) -> Result<u8, MakeFault>
        ensures ok { IfOk result (λ byte. self.old ≡ byte ∷ self.new) }
        ensures refused { IfErr result (λ fault. (fault ≡ MakeFault.No) × (self.old ≡ [])) }
    {
        match self.bytes.split_first() {
            Some((byte, rest)) => {
                self.bytes = rest;
                Ok(*byte)
            }
            None => Err(MakeFault::No),
        }
    }

    /// The number of two bytes.
    pub fn u16(&mut self) -> Result<u16, MakeFault>
        ensures ok { IfOk result (λ number. read_number w16 self.old ≡ Some (number, self.new)) }
        ensures refused { IfErr result (RefusesForm (read_number w16 self.old)) }
    {
        let Some((number, rest)) = u16_at(self.bytes) else {
            return Err(MakeFault::No);
        };
        self.bytes = rest;
        Ok(number)
    }

    /// The number of four bytes.
    pub fn u32(&mut self) -> Result<u32, MakeFault>
        ensures ok { IfOk result (λ number. read_number w32 self.old ≡ Some (number, self.new)) }
        ensures refused { IfErr result (RefusesForm (read_number w32 self.old)) }
    {
        let Some((number, rest)) = u32_at(self.bytes) else {
            return Err(MakeFault::No);
        };
        self.bytes = rest;
        Ok(number)
    }

    /// The number of four bytes with a sign.
    pub fn i32(&mut self) -> Result<i32, MakeFault>
        ensures ok { IfOk result (λ number. read_signed w32 self.old ≡ Some (number, self.new)) }
        ensures refused { IfErr result (RefusesForm (read_signed w32 self.old)) }
    {
        let Some((number, rest)) = i32_at(self.bytes) else {
            return Err(MakeFault::No);
        };
        self.bytes = rest;
        Ok(number)
    }

    /// The number of eight bytes with a sign.
    pub fn i64(&mut self) -> Result<i64, MakeFault>
        ensures ok { IfOk result (λ number. read_signed w64 self.old ≡ Some (number, self.new)) }
        ensures refused { IfErr result (RefusesForm (read_signed w64 self.old)) }
    {
        let Some((number, rest)) = i64_at(self.bytes) else {
            return Err(MakeFault::No);
        };
        self.bytes = rest;
        Ok(number)
    }

    /// A name.
    pub fn name(&mut self) -> Result<Name, MakeFault>
        ensures ok { IfOk result (λ name. read_name self.old ≡ Some (name, self.new)) }
        ensures refused { IfErr result (RefusesForm (read_name self.old)) }
    {
        let len = self.byte()? as usize;
        if self.bytes.len() < len {
            return Err(MakeFault::No);
        }
        let (prefix, rest) = self.bytes.split_at(len);
        self.bytes = rest;
        match Name::make(prefix) {
            Some(name) => Ok(name),
            None => Err(MakeFault::No),
        }
    }

    /// A text.
    pub fn text(&mut self, alloc: Global) -> Result<Text, MakeFault>
        ensures ok { IfOk result (λ text. read_text self.old ≡ Some (text, self.new)) }
        ensures refused { IfErr result (RefusesForm (read_text self.old)) }
    {
        let len = self.u32()? as usize;
        if self.bytes.len() < len {
            return Err(MakeFault::No);
        }
        let (prefix, rest) = self.bytes.split_at(len);
        self.bytes = rest;
        Text::make(alloc, prefix)
    }

    /// A value.
    pub fn value(&mut self, alloc: Global) -> Result<Val, MakeFault>
        ensures ok { IfOk result (λ value. read_value self.old ≡ Some (value, self.new)) }
        ensures refused { IfErr result (RefusesForm (read_value self.old)) }
    {
        let (value, len) = Val::decode(alloc, self.bytes)?;
        self.bytes = &self.bytes[len..];
        Ok(value)
    }
}

/// The number of two bytes at the front, and what stands behind it.
pub fn u16_at(bytes: &[u8]) -> Option<(u16, &[u8])>
    ensures { MatchOption result (read_number w16 bytes.now ≡ None)
        (λ read. read_number w16 bytes.now ≡ Some (read.0, read.1.now)) }
{
    let (prefix, rest) = bytes.split_first_chunk::<2>()?;
    Some((u16::from_be_bytes(*prefix), rest))
}

/// That of four bytes.
fn u32_at(bytes: &[u8]) -> Option<(u32, &[u8])>
    ensures { MatchOption result (read_number w32 bytes.now ≡ None)
        (λ read. read_number w32 bytes.now ≡ Some (read.0, read.1.now)) }
{
    let (prefix, rest) = bytes.split_first_chunk::<4>()?;
    Some((u32::from_be_bytes(*prefix), rest))
}

/// That of four bytes with a sign.
fn i32_at(bytes: &[u8]) -> Option<(i32, &[u8])>
    ensures { MatchOption result (read_signed w32 bytes.now ≡ None)
        (λ read. read_signed w32 bytes.now ≡ Some (read.0, read.1.now)) }
{
    let (prefix, rest) = bytes.split_first_chunk::<4>()?;
    Some((i32::from_be_bytes(*prefix), rest))
}

/// That of eight bytes with a sign.
fn i64_at(bytes: &[u8]) -> Option<(i64, &[u8])>
    ensures { MatchOption result (read_signed w64 bytes.now ≡ None)
        (λ read. read_signed w64 bytes.now ≡ Some (read.0, read.1.now)) }
{
    let (prefix, rest) = bytes.split_first_chunk::<8>()?;
    Some((i64::from_be_bytes(*prefix), rest))
}
