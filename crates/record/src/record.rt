//! A record kind: how many bytes a record has, how it is written, and which bytes are read as one.
ghost use Rattle.std.specs.Prelude.{◌≡◌, ℕ, List, length, Some, Option};
ghost use Rattle.octets.specs.BigEndian.{Bytes};
ghost use Rattle.record.specs.Written.{WrittenTo};

/// The lent bytes are not as many as the record's.
#[derive(Clone, Copy, PartialEq, Eq, Debug)]
pub struct WrongLength;

pub trait Record: Copy {
    ghost encode: { Self → List ℕ };

    ghost decode: { List ℕ → Option Self };

    ghost size: { ℕ };

    /// Its fields fit their types, as those of every value do.
    ghost fits: { Self → Type 0 };

    fn size() -> usize
        ensures { result ≡ size };

    /// Writes the record into out, if that has as many bytes; else out stays.
    fn write(self, out: &mut [u8]) -> Result<(), WrongLength>
        ensures written { WrittenTo size (encode self) out.old result out.new }
        ensures fits { fits self };

    fn read(bytes: &[u8]) -> Option<Self>
        ensures { result ≡ decode bytes.now };

    /// A written record reads back.
    ghost back: { (x : Self) → fits x → decode (encode x) ≡ Some x };

    /// Accepted bytes write back.
    ghost again: { (bs : List ℕ) (x : Self) → Bytes bs → decode bs ≡ Some x → encode x ≡ bs };

    ghost long: { (x : Self) → fits x → length (encode x) ≡ size };
}
