// The row of one plan and key.
ghost use Rattle.std.specs.Prelude.{◌≡◌, ◌<◌, ◌≤◌, IfOk, IfSome, option_map};
ghost use Rattle.usage_meter.specs.Allowances.{allowance_at};
ghost use Rattle.usage_meter.specs.Levels.{IsThrottle, capacity, level_at};
ghost use Rattle.usage_plans.specs.Terms.{IsTerms};
ghost use Rattle.usage_plans.specs.Tallies.{IsTally, IsCounted, bucket_under, level_under, admission_of, enlarged_by, grant_of, joined_at, IsAdmittedSo};

use crate::terms::{MOST_UNITS, Terms};
use usage_meter::{Allowance, Bucket, Throttle, YEAR_2100};

/// What an admission takes from a bucket, in thousandths of an admission.
const ADMISSION: u64 = 1_000;

/// The row of one plan and key.
#[derive(Clone, Copy, Debug, PartialEq, Eq)]
pub struct Tally {
    /// The level of its bucket, and the moment at which it was true.
    pub bucket: Bucket,
    /// The version of the throttle under which the level is true.
    pub version: u64,
    /// The period that was opened last, and what is allowed and used in it.
    pub allowance: Allowance,
}

/// What a call comes to.
#[derive(Clone, Copy, Debug, PartialEq, Eq)]
pub enum Admission {
    /// It is admitted, and this row stands behind it.
    Admitted(Tally),
    /// The bucket has less than 1,000 thousandths, namely this much.
    Throttled { level: u64 },
    /// Of the period that stands all calls are used.
    QuotaExceeded { allowance: u64, used: u64 },
}

/// Why a grant is refused.
#[derive(Clone, Copy, Debug, PartialEq, Eq)]
pub enum GrantRefusal {
    /// No period stands.
    NoQuota,
    /// The period would allow more than 1,000,000,000,000 calls.
    TooLarge,
}

// What is allowed with so many calls more.
fn enlarge(standing: Allowance, amount: u64) -> Result<Allowance, GrantRefusal>
    requires { standing.allowance ≤ MOST_UNITS }
    ensures value { result ≡ enlarged_by amount standing }
    ensures bounded { IfOk result (λ allowance. allowance.allowance ≤ MOST_UNITS) }
{
    match standing.allowance.checked_add(amount) {
        Some(allowance) if allowance <= MOST_UNITS => Ok(Allowance {
            allowance,
            ..standing
        }),
        _ => Err(GrantRefusal::TooLarge),
    }
}

impl Tally {
    /// The row of a key that joins at this moment: a full bucket, and no period.
    pub fn joined(terms: Terms, t: u64) -> Tally
        requires terms { IsTerms terms }
        ensures value { result ≡ joined_at terms t }
        ensures fits { IsTally terms result t }
    {
        Tally {
            bucket: Bucket {
                level: match terms.throttle {
                    Some(throttle) => ADMISSION * u64::from(throttle.burst),
                    None => 0,
                },
                at: t,
            },
            version: terms.version,
            allowance: Allowance {
                period: None,
                allowance: 0,
                used: 0,
                first: true,
            },
        }
    }

    // The level under a throttle of this version: a bucket of another one is full.
    fn level_of(&self, throttle: Throttle, version: u64, t: u64) -> u64
        requires early { t < YEAR_2100 }
        requires throttle { IsThrottle throttle }
        requires later { self.now.bucket.at ≤ t }
        requires filled { self.now.version ≡ version → self.now.bucket.level ≤ capacity throttle }
        ensures value { result ≡ level_at throttle (bucket_under version throttle self.now t) t }
    {
        if self.version == version {
            return self.bucket.level(throttle, t);
        }
        ADMISSION * u64::from(throttle.burst)
    }

    /// The level of its bucket at a moment, where the plan has a throttle.
    pub fn level(&self, terms: Terms, t: u64) -> Option<u64>
        requires early { t < YEAR_2100 }
        requires terms { IsTerms terms }
        requires fits { IsTally terms self.now t }
        ensures value { result ≡ level_under terms self.now t }
    {
        Some(self.level_of(terms.throttle?, terms.version, t))
    }

    /// What is allowed and used in the period that stands at a moment; none where no period does.
    pub fn usage(&self, terms: Terms, t: u64) -> Option<Allowance>
        requires early { t < YEAR_2100 }
        requires terms { IsTerms terms }
        requires fits { IsTally terms self.now t }
        ensures value { result ≡ allowance_at self.now.allowance terms.quota t }
        ensures counted { IfSome result (λ standing. IsCounted standing t) }
    {
        self.allowance.at(terms.quota, t)
    }

    /// What a call at this moment comes to. The bucket refuses before the quota does, and a refused call spends nothing.
    pub fn admit(&self, terms: Terms, t: u64) -> Admission
        requires early { t < YEAR_2100 }
        requires terms { IsTerms terms }
        requires fits { IsTally terms self.now t }
        ensures value { result ≡ admission_of terms self.now t }

        // So a call may come at any later moment.
        ensures fits { IsAdmittedSo terms t result }
    {
        let level = self.level(terms, t);
        if let Some(level) = level
            && level < ADMISSION
        {
            return Admission::Throttled { level };
        }
        let standing = self.usage(terms, t);
        if let Some(
            Allowance {
                allowance,
                used,
                ..
            },
        ) = standing
            && allowance <= used
        {
            return Admission::QuotaExceeded { allowance, used };
        }
        Admission::Admitted(Tally {
            bucket: Bucket {
                level: level.map_or(0, |level| level - ADMISSION),
                at: t,
            },
            version: terms.version,
            allowance: match standing {
                Some(standing) => Allowance {
                    used: standing.used + 1,
                    ..standing
                },
                None => self.allowance,
            },
        })
    }

    /// The row with so many calls more in the period that stands at this moment.
    pub fn grant(&self, terms: Terms, amount: u64, t: u64) -> Result<Tally, GrantRefusal>
        requires early { t < YEAR_2100 }
        requires terms { IsTerms terms }
        requires fits { IsTally terms self.now t }
        ensures value { result ≡ grant_of terms self.now amount t }
        ensures fits { IfOk result (λ tally. IsTally terms tally t) }
    {
        let standing = self.usage(terms, t).ok_or(GrantRefusal::NoQuota)?;
        let allowance = enlarge(standing, amount)?;
        Ok(Tally {
            bucket: Bucket {
                level: self.level(terms, t).unwrap_or(0),
                at: t,
            },
            version: terms.version,
            allowance,
        })
    }
}
