//! The references of the fields of an instance.

ghost use Rattle.std.specs.Prelude.{◌≡◌};
ghost use Rattle.hprof_layouts.specs.References.{is_wanted};
ghost use Rattle.hprof_layouts.specs.Refers.{refers};

use hprof_values::Basic;

/// A field of an instance that is a reference.
#[derive(Clone, Copy, Debug, PartialEq, Eq)]
pub struct Reference {
    /// The place of the field in the layout of its class, counted from 0.
    pub place: u64,
    /// The identifier that the field holds; 0 for a null reference.
    pub to: u64,
}

/// The references that a caller wants.
#[derive(Clone, Copy, Debug, PartialEq, Eq)]
pub enum Wanted {
    /// All of them.
    All,
    /// Those to this identifier.
    To(u64),
}

impl Wanted {
    /// Returns whether a reference to that identifier is wanted.
    #[inline(always)]
    pub fn wants(self, to: u64) -> bool
        ensures { result ≡ is_wanted self to }
    {
        match self {
            Wanted::All => true,
            Wanted::To(id) => to == id,
        }
    }
}

/// Returns whether values of the type are identifiers, so that a field of the type is a reference.
pub fn refers(basic: Basic) -> bool
    ensures { result ≡ refers basic }
{
    matches!(basic, Basic::Array | Basic::Object)
}
