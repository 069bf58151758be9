//! One reading by distance: at which station, what, and how good it is.
ghost use Rattle.std.specs.Prelude.{◌≡◌};
ghost use Rattle.std.specs.Result.{result_ok};
ghost use Rattle.record.specs.Grades.{grade_of, grade_number};

/// How good a reading is, by its number.
#[derive(Clone, Copy, PartialEq, Eq, Debug)]
pub enum Grade {
    Zero = 0,
    One = 1,
    Two = 2,
    Three = 3,
}

/// No grade has the number: it is above 3.
#[derive(Clone, Copy, PartialEq, Eq, Debug)]
pub struct NoGrade;

impl TryFrom<u8> for Grade {
    type Error = NoGrade;

    ghost try_from_gives = { λ n r. result_ok r ≡ grade_of n };

    fn try_from(n: u8) -> Result<Grade, NoGrade> {
        match n {
            0 => Ok(Grade::Zero),
            1 => Ok(Grade::One),
            2 => Ok(Grade::Two),
            3 => Ok(Grade::Three),
            _ => Err(NoGrade),
        }
    }
}

impl From<Grade> for u8 {
    ghost from_gives = { λ g n. n ≡ grade_number g };

    fn from(grade: Grade) -> u8 {
        grade as u8
    }
}

#[derive(Clone, Copy, PartialEq, Eq, Debug)]
pub struct Distance {
    pub station: u32,
    pub reading: u16,
    pub grade: Grade,
}
