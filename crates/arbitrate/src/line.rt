//! The line that is being read, in constant memory whatever its length.

ghost use Rattle.std.specs.Prelude.{◌≡◌, [], ◌∷◌, ◌++◌, take};

use arrayvec::ArrayVec;

/// The bytes that a line may have.
pub const LONGEST: usize = 64;

/// A line of which the first bytes are kept: one more than it may have, so that a line that is too long is known by its length.
#[derive(Drop)]
pub struct Line {
    kept: ArrayVec<u8, 65>,
}

impl Line {
    /// A line of no byte.
    pub fn new() -> Line
        ensures { result.kept.items ≡ [] }
    {
        Line {
            kept: ArrayVec::new(),
        }
    }

    /// One byte more.
    pub fn push(&mut self, byte: u8)
        ensures { self.new.kept.items ≡ take 65 (self.old.kept.items ++ byte ∷ []) }
    {
        // a byte past those that are kept changes nothing
        let _ = self.kept.try_push(byte);
    }

    /// Begins anew.
    pub fn clear(&mut self)
        ensures { self.new.kept.items ≡ [] }
    {
        self.kept.clear();
    }

    /// Whether the line has no byte.
    pub fn is_empty(&self) -> bool {
        self.kept.is_empty()
    }

    /// Whether the line has more bytes than it may have.
    pub fn is_too_long(&self) -> bool {
        self.kept.len() > LONGEST
    }

    /// The bytes that were kept.
    pub fn bytes(&self) -> &[u8]
        ensures { result.now ≡ self.now.kept.items }
    {
        self.kept.as_slice()
    }
}
