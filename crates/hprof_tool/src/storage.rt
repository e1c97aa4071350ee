//! What the system gives to keep objects.

ghost use Rattle.std.specs.Prelude.{◌≡◌, unwrap_or};

/// What the system gives to keep objects that come in no order.
#[derive(Clone, Copy, Debug, PartialEq, Eq)]
pub struct Storage<'a> {
    /// The number of bytes that objects may take in memory. More of them go to a file.
    pub memory: u64,
    /// The path of the folder in which that file is created, unless a new file is written: then it is in the same folder as this one.
    pub folder: &'a str,
}

impl<'a> Storage<'a> {
    /// Returns the storage in which objects may take that number of bytes in memory, or the same storage for `None`.
    pub(crate) fn with_memory(self, memory: Option<u64>) -> Storage<'a>
        ensures { result ≡ record self.entry { memory = unwrap_or memory self.entry.memory } }
    {
        Storage {
            memory: memory.unwrap_or(self.memory),
            folder: self.folder,
        }
    }
}
