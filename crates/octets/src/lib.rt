// Big-endian fields of octets, and the large file flag that sets the length of a file offset's field.
#![tactic(auto)]

ghost use Rattle.std.specs.Prelude.{◌≡◌};
ghost use Rattle.octets.specs.Flag.{field_length, largest_of};
ghost use Rattle.octets.specs.Octets.{fits};

pub mod inner;

// Whether the number v fits a field of f octets. Eight octets hold every number.
pub fn does_fit(f: usize, v: u64) -> bool
    ensures { result ≡ fits f v }
{
    8 <= f || v >> (8 * f) == 0
}

#[derive(Clone, Copy)]
pub enum LargeFileFlag {
    Normal,
    Large,
}

impl LargeFileFlag {
    // The octets of a field that holds an offset.
    pub fn field_length(self) -> usize
        ensures { result ≡ field_length self }
    {
        match self {
            LargeFileFlag::Normal => 4,
            LargeFileFlag::Large => 8,
        }
    }

    // The largest number that such a field holds.
    pub fn largest(self) -> u64
        ensures { result ≡ largest_of self }
    {
        match self {
            LargeFileFlag::Normal => u64::from(u32::MAX),
            LargeFileFlag::Large => u64::MAX,
        }
    }
}
