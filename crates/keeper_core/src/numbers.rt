// The numbers of joins.
ghost use Rattle.std.specs.Prelude.{◌≡◌};
ghost use Rattle.keeper_core.specs.Joins.{numbers_in, with_numbers};

use crate::rows::JoinRow;

/// The numbers of a join row: its columns beside its key, which admissions and grants change.
#[derive(Clone, Copy, Debug, PartialEq, Eq)]
pub struct JoinNumbers {
    /// The level of the bucket in thousandths of an admission.
    pub level: u64,
    /// The moment of the level, in milliseconds since 1970 in UTC.
    pub at: u64,
    /// The version of the throttle under which the level is true.
    pub tversion: u64,
    /// The kind of the open period: 0 where none has opened, 1 DAY, 2 WEEK, 3 MONTH.
    pub pkind: u64,
    /// The number of the open period.
    pub pnumber: u64,
    /// The calls that the open period allows.
    pub allowance: u64,
    /// The calls that the open period has used.
    pub used: u64,
    /// 1 until a second period opens, 0 from then on.
    pub first: u64,
}

impl JoinRow {
    /// The numbers of the row.
    pub fn numbers(&self) -> JoinNumbers
        ensures { result ≡ numbers_in self.now }
    {
        JoinNumbers {
            level: self.level,
            at: self.at,
            tversion: self.tversion,
            pkind: self.pkind,
            pnumber: self.pnumber,
            allowance: self.allowance,
            used: self.used,
            first: self.first,
        }
    }

    /// Replaces the numbers of the row, without memory. Its key stays.
    pub fn write_numbers(&mut self, numbers: JoinNumbers)
        ensures { self.new ≡ with_numbers self.old numbers }
    {
        self.level = numbers.level;
        self.at = numbers.at;
        self.tversion = numbers.tversion;
        self.pkind = numbers.pkind;
        self.pnumber = numbers.pnumber;
        self.allowance = numbers.allowance;
        self.used = numbers.used;
        self.first = numbers.first;
    }
}
