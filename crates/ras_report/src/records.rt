//! The records file: the CPER records of the views that firmware has emitted, one after the other.

ghost use Rattle.std.specs.Prelude.{◌≡◌, ◌+◌, ◌≤◌, ◌++◌, [], length, IfOk};
ghost use Rattle.ras_report.specs.Records.{file_bytes};

use arrayvec::ArrayVec;
use cper_sections::write_record;
use ras_bits::NoMemory;
use ras_firmware::Records;
use std::alloc::Global;
use std::marker::Model;

/// The most records that a file has.
pub(crate) const MOST_RECORDS: usize = 4096;

/// The most bytes that a record has.
pub(crate) const MOST_RECORD_BYTES: usize = 392;

pub(crate) const FILE_BYTES: usize = MOST_RECORDS * MOST_RECORD_BYTES;

/// Room for the longest records file: 4,096 records of at most 392 bytes.
#[derive(Drop)]
pub struct FileBuf {
    bytes: Vec<u8>,
}

impl Model for FileBuf {
    ghost use Rattle.std.specs.Prelude.{ℕ, List, ◌≤◌, vec_capacity};
    ghost use Rattle.ras_report.specs.declared.records.TheConstants.{FILE_BYTES};

    ghost Value = { List ℕ };

    ghost view = { λ b. b.bytes.items };

    ghost invariant = { λ b. FILE_BYTES ≤ vec_capacity b.bytes };
}

impl FileBuf {
    /// Takes the room, 1,605,632 bytes. Nothing is written yet. `NoMemory` comes for want of memory
    /// alone.
    pub fn make(alloc: Global) -> Result<FileBuf, NoMemory>
        ensures { IfOk result (λ b. b ≡ []) }
    {
        let bytes = Vec::with_capacity(alloc, FILE_BYTES)?;
        Ok(FileBuf { bytes })
    }

    fn clear(&mut self)
        ensures { self.new ≡ [] }
    {
        self.bytes.clear();
    }

    fn push(&mut self, bytes: &[u8])
        requires { length self.old + length bytes.now ≤ FILE_BYTES }
        ensures { self.new ≡ self.old ++ bytes.now }
    {
        self.bytes.extend_from_slice(bytes).unwrap();
    }

    fn written(&self) -> &[u8]
        ensures { result.now ≡ self.now }
    {
        self.bytes.as_slice()
    }
}

/// The records of the list one after the other, with the ids from 1 on, in place of what was in the
/// buffer.
pub fn records_file<'a>(r: &Records, b: &'a mut FileBuf) -> &'a [u8]
    ensures { result.now ≡ file_bytes r.now.views }
{
    write_records(r, b);
    b.written()
}

fn write_records(r: &Records, b: &mut FileBuf)
    ensures { b.new ≡ file_bytes r.now.views }
{
    b.clear();
    let mut record = ArrayVec::<u8, 400>::new();
    let mut id = 0;
    for view in r.list() {
        id += 1;
        write_record(view, id, &mut record);
        b.push(record.as_slice());
    }
}
