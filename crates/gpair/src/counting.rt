//! Sources and sinks that count their bytes.

ghost use Rattle.std.specs.Prelude.{◌≡◌};

use gpkt::{Down, Source};

/// A source or a sink that counts the bytes that have passed through it.
pub trait CountsBytes {
    /// Returns the number of bytes that were read from the source, or that the sink has flushed, at
    /// most `usize::MAX`.
    fn byte_count(&self) -> usize;
}

/// A source that counts the bytes that are read from it.
#[derive(Drop)]
pub struct CountedSource<S> {
    source: S,
    count: usize,
}

impl<S> CountedSource<S> {
    /// Returns a source from which no bytes have been read yet.
    pub fn new(source: S) -> CountedSource<S>
        ensures { result.source ≡ source }
    {
        CountedSource { source, count: 0 }
    }
}

impl<S: Source> Source for CountedSource<S> {
    ghost remaining = { λ counted. S.remaining counted.source };

    ghost is_down = { λ counted. S.is_down counted.source };

    ghost loans = { λ counted. S.loans counted.source };

    fn read(&mut self, buf: &mut [u8]) -> Result<usize, Down> {
        match self.source.read(buf) {
            Ok(count) => {
                self.count = self.count.saturating_add(count);
                Ok(count)
            }
            Err(down) => Err(down),
        }
    }
}

impl<S> CountsBytes for CountedSource<S> {
    fn byte_count(&self) -> usize {
        self.count
    }
}
