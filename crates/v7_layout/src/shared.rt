// What the records of a volume share.

ghost use Rattle.std.specs.Prelude.{◌≡◌, ℕ, List, length};

/// A record of a volume, which has a fixed number of bytes.
///
/// A caller at one of the records knows what its members are: its number of bytes (`size`), the record of any bytes (`of`),
/// what it has to meet to be written (`fits`) and the bytes that it is written as (`written`).
pub trait Record {
    ghost size: { ℕ };

    ghost of: { List ℕ → Self };

    ghost fits: { Self → Type 0 };

    ghost written: { Self → List ℕ };

    /// The record of these bytes. Any bytes are one, and it can be written again.
    fn read(bytes: &[u8]) -> Self
        requires { length bytes.now ≡ size }
        ensures record_of { result ≡ of bytes.now }
        ensures again { fits result };

    /// Writes the record's bytes, which read as the same record.
    fn write(&self, bytes: &mut [u8])
        requires room { length bytes.old ≡ size }
        requires fitting { fits self.now }
        ensures bytes { bytes.new ≡ written self.now }
        ensures reads_back { of bytes.new ≡ self.now };
}
