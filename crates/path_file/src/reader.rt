//! A reader of the bytes of a file, field by field.

ghost use Rattle.std.specs.Prelude.{◌≡◌, ◌≤◌, ◌<◌, ◌^◌, ◌∷◌, [], take, length, IfErr, IfNone, IfOk, IfSome, OnOk};
ghost use Rattle.path_file.specs.Files.{number_bytes};
ghost use Rattle.path_file.specs.Readings.{Passes, IsCutAt, rest};
ghost use Rattle.path_file.specs.declared.fault.DbFault.TheVariants.{Cut, Extra};

use crate::MAX_DB;
use crate::fault::DbFault;
use std::marker::Model;

/// The bytes of a file, the first of which are read.
#[derive(Drop)]
pub(crate) struct Reader<'a> {
    bytes: &'a [u8],
    at: usize,
}

impl<'a> Model for Reader<'a> {
    ghost use Rattle.std.specs.Prelude.{◌≤◌, length};
    ghost use Rattle.path_file.specs.declared.TheConstants.{MAX_DB};
    ghost use Rattle.path_file.specs.Readings.{Reading};

    ghost Value = { Reading };

    ghost view = { λ r. record { bytes = r.bytes.now; at = r.at } };

    ghost invariant = { λ r. (r.at ≤ length r.bytes.now) × (length r.bytes.now ≤ MAX_DB) };
}

impl<'a> Reader<'a> {
    /// No byte is read.
    pub(crate) fn of(bytes: &'a [u8]) -> Reader<'a>
        requires { length bytes.now ≤ MAX_DB }
        ensures bytes { result.bytes ≡ bytes.now }
        ensures at { result.at ≡ 0 }
    {
        Reader { bytes, at: 0 }
    }

    /// Reads eight bytes.
    pub(crate) fn eight(&mut self) -> Result<[u8; 8], DbFault>
        ensures read { IfOk result (Passes self.old self.new) }
        ensures cut { IfErr result (IsCutAt self.old 8) }
    {
        match self.left().first_chunk::<8>() {
            Some(field) => {
                self.at += 8;
                Ok(*field)
            }
            None => Err(self.cut()),
        }
    }

    /// Reads a number of four bytes.
    #[inline(always)]
    pub(crate) fn number(&mut self) -> Result<u32, DbFault>
        ensures read { IfOk result (λ number. Passes self.old self.new (number_bytes number)) }
        ensures fits { IfOk result (λ number. number < 2 ^ 32) }
        ensures cut { IfErr result (IsCutAt self.old 4) }
    {
        match number_in(self.left()) {
            Some(number) => {
                self.at += 4;
                Ok(number)
            }
            None => Err(self.cut()),
        }
    }

    /// Reads a byte.
    #[inline(always)]
    pub(crate) fn byte(&mut self) -> Result<u8, DbFault>
        ensures read { IfOk result (λ byte. Passes self.old self.new (byte ∷ [])) }
        ensures cut { IfErr result (IsCutAt self.old 1) }
    {
        if self.at == self.bytes.len() {
            return Err(self.cut());
        }
        let byte = self.bytes[self.at];
        self.at += 1;
        Ok(byte)
    }

    /// Whether all bytes are read; else bytes follow.
    pub(crate) fn end(&self) -> Result<(), DbFault>
        ensures end { OnOk result (self.now.at ≡ length self.now.bytes) }
        ensures fault { IfErr result (λ fault. fault ≡ Extra self.now.at) }
        ensures more { IfErr result (λ fault. 0 < length (rest self.now)) }
    {
        if self.at < self.bytes.len() {
            return Err(DbFault::Extra {
                from: self.at as u32,
            });
        }
        Ok(())
    }

    /// The bytes that are not read.
    #[inline(always)]
    fn left(&self) -> &'a [u8]
        ensures { result.now ≡ rest self.now }
    {
        &self.bytes[self.at..]
    }

    /// The fault that the bytes end inside a field.
    fn cut(&self) -> DbFault
        ensures { result ≡ Cut (length self.now.bytes) }
    {
        DbFault::Cut {
            have: self.bytes.len() as u32,
        }
    }
}

/// The number in the first four bytes, if there are so many.
#[inline(always)]
fn number_in(bytes: &[u8]) -> Option<u32>
    ensures some { IfSome result (λ number. number_bytes number ≡ take 4 bytes.now) }
    ensures enough { IfSome result (λ _. 4 ≤ length bytes.now) }
    ensures fits { IfSome result (λ number. number < 2 ^ 32) }
    ensures none { IfNone result (length bytes.now < 4) }
{
    let field = bytes.first_chunk::<4>()?;
    Some(u32::from_be_bytes(*field))
}
