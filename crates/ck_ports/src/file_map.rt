use asm_core::Memory;
use std::alloc::Global;
use std::collections::BTreeMap;

/// Files by name.
#[derive(Drop)]
pub struct FileMap {
    alloc: Global,
    files: BTreeMap<String, Vec<u8>>,
}

impl FileMap {
    ghost use Rattle.std.specs.Prelude.{◌≡◌, ◌<◌, ◌+◌, ◌^◌, ◌++◌, ℕ, min, List, [], length, take, drop, unwrap_or, None, Some, OnOk, OnErr};
    ghost use Rattle.std.specs.Option.{option_copied, option_map};
    ghost use Rattle.ck_ports.specs.FileMap.{bytes_in, SameFilesIn, SameOtherFilesIn};

    pub fn new(alloc: Global) -> FileMap
        ensures { (name : List ℕ) → bytes_in result name ≡ None }
    {
        FileMap {
            alloc,
            files: BTreeMap::new(alloc),
        }
    }

    pub fn get(&self, name: &str) -> Option<&[u8]>
        ensures { option_copied result ≡ bytes_in self.now name.now }
    {
        let bytes = self.files.get(name)?;
        Some(bytes.as_slice())
    }

    /// Copies the bytes of the named file from this place on to the front of `to`, as many as both have, and
    /// answers how many.
    pub fn read(&self, name: &str, place: usize, to: &mut [u8]) -> usize
        ensures count { result ≡ min (length to.old) (length (drop place (unwrap_or (bytes_in self.now name.now) []))) }
        ensures bytes { take result to.new ≡ take result (drop place (unwrap_or (bytes_in self.now name.now) [])) }
        ensures fits { place < 2 ^ 64 → place + result < 2 ^ 64 }
    {
        let Some(bytes) = self.get(name) else {
            return 0;
        };
        let left = &bytes[place.min(bytes.len())..];
        let count = left.len().min(to.len());
        to[..count].copy_from_slice(&left[..count]);
        count
    }

    /// Makes the named file hold these bytes.
    pub fn set(&mut self, name: &str, bytes: &[u8]) -> Result<(), Memory>
        ensures ok { OnOk result (bytes_in self.new name.now ≡ Some bytes.now) }
        ensures err { OnErr result (SameFilesIn self.old self.new) }
        ensures others { SameOtherFilesIn name.now self.old self.new }
    {
        let key = String::from_str(self.alloc, name)?;
        let value = Vec::from_slice(self.alloc, bytes)?;
        self.files.insert(key, value)?;
        Ok(())
    }

    /// Appends these bytes to the named file, where it is there.
    pub fn append(&mut self, name: &str, piece: &[u8]) -> Result<(), Memory>
        ensures ok { OnOk result (bytes_in self.new name.now ≡ option_map (λ bytes. bytes ++ piece.now) (bytes_in self.old name.now)) }
        ensures err { OnErr result (SameFilesIn self.old self.new) }
        ensures others { SameOtherFilesIn name.now self.old self.new }
    {
        if let Some(bytes) = self.files.get_mut(name) {
            bytes.extend_from_slice(piece)?;
        }
        Ok(())
    }
}
