//! Distance records are a record kind.
ghost use Rattle.std.specs.Prelude.{Some};
ghost use Rattle.record.specs.Distances.{encode_distance, decode_distance, FitsDistance};
ghost use Rattle.record.specs.Texts.{distance_text};
ghost use Rattle.record.specs.Measured.{distance_again};
ghost use Rattle.std.proofs.Common.{rules};

use crate::distance::{Distance, Grade};
use crate::record::{Record, WrongLength};
use octets::numbers::{get, put};
use std::fmt;

impl Record for Distance {
    ghost encode = { encode_distance };

    ghost decode = { decode_distance };

    ghost size = { 7 };

    ghost fits = { FitsDistance };

    ghost back = { Prim.search rules };

    ghost again = { distance_again };

    ghost long = { Prim.search rules };

    fn size() -> usize {
        7
    }

    fn write(self, out: &mut [u8]) -> Result<(), WrongLength> {
        if out.len() != 7 {
            return Err(WrongLength);
        }
        put(out, 0, self.station);
        put(out, 4, self.reading);
        out[6] = u8::from(self.grade);
        Ok(())
    }

    fn read(bytes: &[u8]) -> Option<Distance> {
        if bytes.len() != 7 {
            return None;
        }
        let grade = Grade::try_from(bytes[6]).ok()?;
        let station = get(bytes, 0);
        let reading = get(bytes, 4);
        Some(Distance {
            station,
            reading,
            grade,
        })
    }
}

impl fmt::Display for Distance {
    ghost output = { λ d. Some (distance_text d) };

    fn fmt<W: fmt::Write>(&self, f: &mut fmt::Formatter<W>) -> fmt::Result {
        let station = self.station;
        let reading = self.reading;
        let grade = u8::from(self.grade);
        write!(f, "{station} {reading} {grade}")
    }
}
