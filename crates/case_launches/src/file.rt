//! The files that a launched program uses. Each file records the calls that change or sync it, and
//! forwards all calls to a real file.

use crate::journal::Journal;
use std::alloc::Global;
use std::fs::{Metadata, OpenFile, Permissions};
use std::io;
use std::io::{Read, Seek, SeekFrom, Write};

// The maximum number of bytes that one write accepts.
const MAX_WRITE_LEN: usize = 16;

/// A real file, with the path under which it was opened.
#[derive(Drop)]
pub(crate) struct RecordedFile<'a, F> {
    file: F,
    name: String,
    journal: &'a Journal<'a>,
}

impl<'a, F: Drop> RecordedFile<'a, F> {
    /// Returns a file that was opened under this path, and that records its calls in the journal.
    pub(crate) fn new(
        alloc: Global,
        file: F,
        path: &str,
        journal: &'a Journal<'a>,
    ) -> io::Result<RecordedFile<'a, F>> {
        let name = String::from_str(alloc, path)?;
        Ok(RecordedFile {
            file,
            name,
            journal,
        })
    }
}

impl<F: Read> Read for RecordedFile<'_, F> {
    fn read(&mut self, buf: &mut [u8]) -> io::Result<usize> {
        self.file.read(buf)
    }
}

// Each write accepts at most `MAX_WRITE_LEN` bytes.
impl<F: Write> Write for RecordedFile<'_, F> {
    fn write(&mut self, buf: &[u8]) -> io::Result<usize> {
        self.journal.record_file_step("write", self.name.as_str())?;
        let count = buf.len().min(MAX_WRITE_LEN);
        self.file.write(&buf[..count])
    }

    fn flush(&mut self) -> io::Result<()> {
        self.file.flush()
    }
}

impl<F: Seek> Seek for RecordedFile<'_, F> {
    fn seek(&mut self, to: SeekFrom) -> io::Result<u64> {
        self.file.seek(to)
    }
}

impl<F: OpenFile> OpenFile for RecordedFile<'_, F> {
    fn metadata(&self) -> io::Result<Metadata> {
        self.file.metadata()
    }

    fn set_len(&self, size: u64) -> io::Result<()> {
        self.journal.record_file_step("cut", self.name.as_str())?;
        self.file.set_len(size)
    }

    fn sync_all(&self) -> io::Result<()> {
        self.journal.record_file_step("sync", self.name.as_str())?;
        self.file.sync_all()
    }

    fn sync_data(&self) -> io::Result<()> {
        self.journal
            .record_file_step("sync data", self.name.as_str())?;
        self.file.sync_data()
    }

    fn set_permissions(&self, perm: Permissions) -> io::Result<()> {
        self.journal.record_file_step("mode", self.name.as_str())?;
        self.file.set_permissions(perm)
    }
}
