//! What was read of a link and not used yet.
ghost use Rattle.ixp_http.specs.Heads.{chunk};
ghost use Rattle.std.specs.Prelude.{
  ◌≡◌,
  ◌≢◌,
  ◌≤◌,
  ◌+◌,
  ◌++◌,
  List,
  ℕ,
  [],
  length,
  drop,
  IfOk,
  IfErr,
  OnOk,
  OnErr,
};
ghost use Rattle.ixp_io.specs.Faults.{Rose};
ghost use Rattle.ixp_io.specs.Told.{IsDone};
ghost use Rattle.ixp_http.specs.Answers.{Grows, Together, SaysNothing, TakesUpTo};

use crate::next::HttpFault;
use ixp_io::{CHUNK, Source};
use std::alloc::{AllocError, Global};
use std::marker::Model;

/// The bytes of a link that were read and not used yet.
#[derive(Debug, Drop)]
pub struct Buf {
    bytes: Vec<u8>,
}

impl Model for Buf {
    ghost use Rattle.std.specs.Prelude.{List, ℕ};

    ghost Value = { List ℕ };

    ghost view = { λ buf. buf.bytes.items };
}

impl Buf {
    /// No bytes. It does not allocate.
    pub fn new(alloc: Global) -> Buf
        ensures { result ≡ [] }
    {
        Buf {
            bytes: Vec::new(alloc),
        }
    }

    /// The bytes.
    pub fn as_slice(&self) -> &[u8]
        ensures { result.now ≡ self.now }
    {
        self.bytes.as_slice()
    }

    /// How many bytes there are.
    pub(crate) fn len(&self) -> usize
        ensures { result ≡ length self.now }
    {
        self.bytes.len()
    }

    /// Reads once, and answers how many bytes came; 0 where the input has ended.
    pub(crate) fn read_more<L: Source>(&mut self, link: &mut L) -> Result<usize, HttpFault>
        ensures together { OnOk result (Together (L.left link.old) (L.left link.new) self.old self.new) }
        ensures taken { TakesUpTo (length self.old + chunk) (L.left link.old) (L.left link.new) self.old }
        ensures grows { Grows self.old self.new }
        ensures more { IfOk result (λ n. length self.new ≡ length self.old + n) }
        ensures still { result ≡ Ok 0 → self.new ≡ self.old }
        ensures done { result ≡ Ok 0 → IsDone (L.left link.new) }
        ensures chunk { length self.new ≤ length self.old + chunk }
        ensures nothing { IfErr result SaysNothing }
        ensures never { result ≢ Err HttpFault.WriteFault }
        ensures failed { result ≡ Err HttpFault.ReadFault
            → Rose (L.read_faults link.old) (L.read_faults link.new) }
        ensures counts { L.read_faults link.old ≤ L.read_faults link.new }
        ensures written { L.written link.new ≡ L.written link.old }
        ensures write_faults { L.write_faults link.new ≡ L.write_faults link.old }
    {
        let mut chunk = [0; CHUNK];
        let count = match link.read(&mut chunk) {
            Ok(count) => count,
            Err(_) => return Err(HttpFault::ReadFault),
        };
        self.bytes.extend_from_slice(&chunk[..count])?;
        Ok(count)
    }

    /// Without so many bytes at the front. Where memory runs out they stay.
    pub(crate) fn skip(&mut self, alloc: Global, count: usize) -> Result<(), AllocError>
        requires { count ≤ length self.old }
        ensures ok { OnOk result (self.new ≡ drop count self.old) }
        ensures err { OnErr result (self.new ≡ self.old) }
    {
        let rest = Vec::from_slice(alloc, &self.bytes[count..])?;
        self.bytes = rest;
        Ok(())
    }
}
